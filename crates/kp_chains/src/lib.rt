//! The chains of a family's tables, laid out as kube-proxy's iptables mode lays them out
//! (Kubernetes documents on virtual IPs): those of one Service port, its rules in the shared
//! chains, and the shared chains with the rules of all ports between the fixed rules.
#![tactic(auto)]

mod blocks;
mod chains;
mod count;
mod endpoints;
mod external;
mod filter;
mod fixed;
mod keys;
mod lists;
mod made;
mod named;
mod nat;
mod port;
mod rows;
mod rules;
mod shared;
mod table;

pub use blocks::{Blocks, info_blocks};
pub use chains::info_chains;
pub use endpoints::{add_others, all_endpoints};
pub use external::port_chain;
pub use filter::filter_rows;
pub use fixed::fixed_chains;
pub use keys::{add_endpoint_keys, chain_kinds, own_keys};
pub use kp_types::{ChainText, PortInfo};
pub use made::info_rules;
pub use nat::nat_rows;
pub use port::port_chains;
pub use shared::port_block;
pub use table::{put_rows, table_of};
