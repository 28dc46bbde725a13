//! Why nothing was published.
use kp_base::NoMemory;
use kp_types::SyncRecord;

/// Memory ran out: the record comes back, or is kept for the next publishing.
#[derive(Drop)]
pub enum PublishFault {
    NoMemoryBack(SyncRecord, NoMemory),
    NoMemoryPending(NoMemory),
}
