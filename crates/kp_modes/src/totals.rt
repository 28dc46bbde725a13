//! What the mode of the generator adds up.
ghost use Rattle.std.specs.Prelude.{◌≡◌};
ghost use Rattle.kp_run_defs.specs.GenText as spec;

use kp_plane::SyncNote;
use kp_text_defs::Totals;
use kp_types::Verdict;

/// The sums before the first line.
pub(crate) fn no_totals() -> Totals
    ensures { result ≡ spec.no_totals }
{
    Totals {
        events: 0,
        syncs: 0,
        packets: 0,
        to: 0,
        rejected: 0,
        dropped: 0,
        left_alone: 0,
        written: 0,
        removed: 0,
    }
}

/// Adds a sync.
pub(crate) fn add_sync(totals: &mut Totals, note: &SyncNote)
    ensures { totals.new
        ≡ spec.with_sync note.now.events note.now.written note.now.removed totals.old }
{
    totals.events = totals.events.saturating_add(note.events);
    totals.syncs = totals.syncs.saturating_add(1);
    totals.written = totals.written.saturating_add(note.written);
    totals.removed = totals.removed.saturating_add(note.removed);
}

/// Adds a packet.
pub(crate) fn add_packet(totals: &mut Totals, verdict: &Verdict)
    ensures { totals.new ≡ spec.with_packet verdict.now totals.old }
{
    totals.packets = totals.packets.saturating_add(1);
    match verdict {
        Verdict::To { .. } => totals.to = totals.to.saturating_add(1),
        Verdict::Rejected => totals.rejected = totals.rejected.saturating_add(1),
        Verdict::Dropped => totals.dropped = totals.dropped.saturating_add(1),
        Verdict::LeftAlone => totals.left_alone = totals.left_alone.saturating_add(1),
    }
}
