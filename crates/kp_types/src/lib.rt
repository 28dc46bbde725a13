//! The data that definitions and crates share: objects of the cluster, endpoints, chains and rules,
//! packets and what becomes of them, and syncs.
#![tactic(auto)]

mod chain;
mod decision;
mod event;
mod families;
mod info;
pub mod laws;
mod lists;
mod packet;
mod pod;
mod rule;
mod service;
mod slice;
mod sync;
mod verdict;
mod walk;

pub use chain::{ChainAt, ChainKey, ChainName, Clash, PortChain, TableName};
pub use decision::{ChosenBy, Decision, DoorKind, ListKind, Reason};
pub use event::{Event, Kind, Object};
pub use families::{cluster_range, table_families};
pub use info::{PortInfo, ServiceSources};
pub use lists::{Candidate, Lists};
pub use packet::{Origin, Packet};
pub use pod::{ContainerPort, Node, Pod};
pub use rule::{Batch, ChainText, Edit, Match, Rule, Target};
pub use service::{ClusterAddress, Policy, Service, ServiceKind, ServicePort, Six, TargetPort};
pub use slice::{AddressType, Packed, Slice, SliceEndpoint, SlicePort, Wanted};
pub use sync::SyncRecord;
pub use verdict::{Answer, Pass, Trail, Verdict};
pub use walk::Ending;
