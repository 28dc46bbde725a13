//! The edits of a sync, made in the size of its change: from what was written of each port and what
//! is known of it now, with the shared chains joined from blocks that are kept by port.
#![tactic(auto)]

mod block;
mod dirty;
mod infos;
mod join;
mod kept;
mod known;
mod laws;
mod next;
mod old;
mod own;
mod pending;
mod refresh;
mod shared;
mod sync;
mod writer;

pub use known::Known;
pub use kp_full_table::TableFault;
pub use laws::{known_dirty_ports, known_of_service, known_ports};
pub use pending::{Pending, told};
pub use writer::Writer;
