//! How far a packet has come through the hooks.
ghost use Rattle.std.specs.Prelude.{◌≡◌, ◌+◌, ◌<◌, ◌≤◌, [], length};
ghost use Rattle.kp_choice_defs.specs.Recent.{RecentParts};
ghost use Rattle.kp_table_defs.specs.Walk as walk;

use crate::flow::Flow;
use crate::header::Header;
use crate::progress::Progress;
use crate::recorder::Recorder;
use kp_base::Endpoint;
use kp_types::{Ending, Packet, Verdict};

/// What a hook is to the walk: the first, where packets are translated; one of the filter; the
/// last, where they are masqueraded.
#[derive(Clone, Copy, Debug, PartialEq, Eq)]
pub(crate) enum Stage {
    Translating,
    Filtering,
    Masquerading,
}

/// Where a packet is on its way through the hooks: its header by now, the endpoint it was
/// translated to, whether it was masqueraded, what stopped it, and who keeps the trail.
#[derive(Drop)]
pub(crate) struct Journey<R> {
    pub(crate) header: Header,
    pub(crate) progress: Progress,
    pub(crate) translated: Option<Endpoint>,
    pub(crate) masked: bool,
    pub(crate) stopped: Option<Verdict>,
    pub(crate) recorder: R,
}

impl<R: Recorder> Journey<R> {
    ghost use Rattle.kp_walker.specs.Flow.{outcome_of, IsThrough};
    ghost use Rattle.kp_walker.specs.Shorn.{shorn, told};
    ghost use Rattle.kp_walker.specs.Journeys.{stage_of, journey_of, beginning, MovesAs};

    /// The beginning of a packet's journey.
    pub(crate) fn new(packet: &Packet, recorder: R) -> Journey<R>
        requires trail { R.trail recorder ≡ [] }
        requires way { R.way recorder ≡ [] }
        ensures start { (lists : RecentParts) →
            journey_of R.trail result lists ≡ beginning packet.entry.now lists }
        ensures recorder { result.recorder ≡ recorder }
    {
        Journey {
            header: Header::of(packet),
            progress: Progress {
                marked: false,
                used: 0,
                ending: Ending::Accept,
            },
            translated: None,
            masked: false,
            stopped: None,
            recorder,
        }
    }

    /// Takes in how a hook went. Where a rule ended it, its way goes into the trail.
    pub(crate) fn after_hook(&mut self, stage: Stage, flow: Flow, progress: Progress)
        requires room { length (R.trail self.old.recorder) < 4 }
        requires way { IsThrough flow 8 (R.way self.old.recorder) }
        ensures hook { (j : walk.Journey) (o : walk.Outcome) (before lists : RecentParts)
            → journey_of R.trail self.old before ≡ told R.keeps j
            → outcome_of self.old.header flow progress (R.way self.old.recorder) lists
            ≡ shorn R.keeps o
            → (o ≡ walk.Stuck → ⊥)
            → journey_of R.trail self.new lists
            ≡ told R.keeps (walk.after_hook (stage_of stage) j o) }
        ensures room { length (R.trail self.new.recorder) ≤ length (R.trail self.old.recorder) + 1 }
        ensures way { R.way self.new.recorder ≡ [] }
    {
        match flow {
            Flow::Next | Flow::Left => self.progress = progress,
            Flow::Ended => {
                let ending = progress.ending;
                self.progress = progress;
                self.recorder.end_hook();
                self.ended_by(stage, ending);
            }
            Flow::Stuck => self.stopped = Some(Verdict::LeftAlone),
        }
    }

    /// Takes in what the rule did that ended a hook. A translation and a masquerade count in their
    /// own stage alone.
    fn ended_by(&mut self, stage: Stage, ending: Ending)
        ensures ended { (lists : RecentParts) → MovesAs R.keeps (journey_of R.trail self.old lists)
            (journey_of R.trail self.new lists) (walk.ended_by (stage_of stage) ending) }
        ensures recorder { self.new.recorder ≡ self.old.recorder }
    {
        match (ending, stage) {
            (Ending::Dnat(endpoint), Stage::Translating) => self.send_to(endpoint),
            (Ending::Masquerade, Stage::Masquerading) => self.masked = true,
            (Ending::Drop, _) => self.stopped = Some(Verdict::Dropped),
            (Ending::Reject, _) => self.stopped = Some(Verdict::Rejected),
            _ => {}
        }
    }

    /// Translates the packet's destination.
    fn send_to(&mut self, endpoint: Endpoint)
        ensures sent { (lists : RecentParts) → MovesAs R.keeps (journey_of R.trail self.old lists)
            (journey_of R.trail self.new lists)
            (walk.ended_by walk.Translating (Ending.Dnat endpoint)) }
        ensures recorder { self.new.recorder ≡ self.old.recorder }
    {
        self.header.target = endpoint.address;
        self.header.port = endpoint.port;
        self.translated = Some(endpoint);
    }

    /// What becomes of the packet.
    pub(crate) fn verdict(&self) -> Verdict
        ensures { result ≡ walk.verdict_by self.now.stopped self.now.translated self.now.masked }
    {
        match (self.stopped, self.translated) {
            (Some(verdict), _) => verdict,
            (None, None) => Verdict::LeftAlone,
            (None, Some(endpoint)) => Verdict::To {
                endpoint,
                masked: self.masked,
            },
        }
    }
}
