//! Where the objects say that a packet goes, and why.
ghost use Rattle.std.specs.Prelude.{◌≡◌};

use crate::verdict::Verdict;
use kp_base::PortKey;

/// The kind of a door: a destination that a Service answers on.
#[derive(Clone, Copy, Debug, PartialEq, Eq)]
pub enum DoorKind {
    /// The cluster IP.
    Cluster,
    /// An external IP.
    External,
    /// A load-balancer IP.
    Balancer,
    /// A node port.
    Node,
}

/// Which of a Service port's lists of endpoints.
#[derive(Clone, Copy, Debug, PartialEq, Eq)]
pub enum ListKind {
    Cluster,
    Local,
}

/// How an endpoint was chosen: by session affinity, or by random numbers.
#[derive(Clone, Copy, Debug, PartialEq, Eq)]
pub enum ChosenBy {
    Affinity,
    Draws,
}

/// Why a packet goes where it goes.
#[derive(Drop)]
pub enum Reason {
    /// A door took it. Places in the list count from 1.
    Door {
        kind: DoorKind,
        port: PortKey,
        list: ListKind,
        size: u64,
        by: ChosenBy,
        place: u64,
    },
    NoEndpoints {
        kind: DoorKind,
        port: PortKey,
    },
    NoLocal {
        kind: DoorKind,
        port: PortKey,
    },
    Closed {
        kind: DoorKind,
        port: PortKey,
    },
    NoDoor,
}

/// What becomes of a packet by the objects alone, and why.
#[derive(Drop)]
pub struct Decision {
    pub verdict: Verdict,
    pub reason: Reason,
}
