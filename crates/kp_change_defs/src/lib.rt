//! What a change of the cluster changes for those who connect: the doors of Services whose values
//! differ between two records, and the lines that tell them. There are only definitions here, in
//! `specs/`, and the states of a door.
#![tactic(auto)]

/// What becomes of connections to a door of a Service port.
#[derive(Clone, Copy, Debug, PartialEq, Eq)]
pub enum DoorState {
    /// There is no such door.
    Absent,
    /// It has endpoints.
    Open,
    /// Its port has endpoints, but its list has none.
    NoLocalEndpoints,
    /// Its port has no endpoints.
    NoEndpoints,
    /// Its port has endpoints, but no source is admitted.
    Closed,
}
