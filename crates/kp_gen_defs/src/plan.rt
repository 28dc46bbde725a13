//! What a script is generated from, and its parts.

/// What a script is generated from: a seed, 1 to 10,000 Services and 0 to 60,000 pods.
#[derive(Clone, Copy, Debug, PartialEq, Eq)]
pub struct ScriptPlan {
    pub seed: u64,
    pub services: u64,
    pub pods: u64,
}

/// A part of a script: lines of one kind.
#[derive(Clone, Copy, Debug, PartialEq, Eq)]
pub enum ScriptPart {
    /// The configuration.
    Config,
    /// The three Nodes.
    Nodes,
    /// The Services.
    Services,
    /// The Pods.
    Pods,
    /// A sync.
    Sync,
    /// Four packets to each Service.
    Packets,
    /// The delete of every tenth Pod.
    Deletes,
    /// The same packets, 20,000 seconds later.
    LaterPackets,
}
