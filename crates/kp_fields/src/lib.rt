//! Readers of the fields that Kubernetes objects have in common: keys, labels, addresses, ports.
#![tactic(auto)]

mod address;
mod key;
mod labels;
mod number;
mod proto;
mod ranges;
mod text;

pub use address::{address_field, address_here, addresses_field, needed_address, range_here};
pub use key::{copied_key, key_field, name_field};
pub use labels::{check_texts, pairs_field};
pub use number::{flag_field, needed_port, port_field, whole_field};
pub use proto::{port_name_field, proto_field};
pub use ranges::ranges_field;
pub use text::{
    TextForm, choice_field, copied_option, copied_text, is_text, needed_choice, needed_text,
    text_field,
};
