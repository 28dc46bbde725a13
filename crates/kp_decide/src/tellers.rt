//! What is told of what was found for a packet.
ghost use Rattle.std.specs.Prelude.{◌≡◌, Bool, true, List, Option, option_map, IfOk, OnErr};
ghost use Rattle.kp_choice_defs.specs.Recent.{RecentParts};
ghost use Rattle.kp_types.specs.Setting.{config_for};
ghost use Rattle.kp_door_defs.specs.Decision as spec;
ghost use Rattle.kp_door_defs.specs.Doors as doors;
ghost use Rattle.kp_decide.specs.Findings.{Findings, fitting_among, masked_by};
ghost use Rattle.kp_types.specs.declared.verdict.Verdict.TheVariants.{To};
ghost use Rattle.kp_decide.specs.Shown.{shown_refusal};
ghost use Rattle.kp_decide.specs.Told.{passed_by, told, translation_told};

use crate::lines::{Line, Refusal};
use crate::sources::PortRow;
use crate::translation::Translation;
use kp_base::{Config, Copied, Family, NoMemory};
use kp_types::{Decision, Packet, Reason, Verdict};
use std::alloc::Global;

/// What was found for a packet.
#[derive(Drop)]
pub struct Found<'a, R> {
    /// The ports that the packet may be for, among which are all doors that it fits. Where the node
    /// has no tables of its family there are none.
    pub ports: Option<&'a R>,
    /// The translation, at the first door that takes the packet.
    pub translation: Option<&'a Translation<'a>>,
    /// Whether the packet's source is masqueraded on its way to the endpoint.
    pub masked: bool,
    /// The line of the filter that refuses the packet as translated.
    pub line: Option<Line<'a>>,
}

/// Tells of what was found for a packet by ports of a kind.
pub trait Teller<R: PortRow> {
    /// What is told.
    type Told: Drop;

    /// What is told of what was found and of the decision.
    ghost told: { Findings → spec.Decided → Self.Told };

    /// It may have no memory for what is told.
    ghost refuses: { Bool };

    /// Tells of what was found. Only memory can be refused.
    fn tell(
        &self,
        alloc: Global,
        family: Family,
        config: &Config,
        packet: &Packet,
        found: &Found<'_, R>,
    ) -> Result<Self::Told, NoMemory>
        ensures told { (t : Option spec.Translation) (lists : RecentParts)
            (fitting : List doors.Door) →
            option_map (λ x. x.now) found.now.translation ≡ option_map translation_told t →
            found.now.masked ≡ masked_by (config_for family config.now) packet.entry.now t →
            fitting_among (config_for family config.now)
            (option_map (λ x. R.infos x.now) found.now.ports) packet.entry.now ≡ fitting →
            IfOk result (λ d. d ≡ told (record {
              fitting = fitting;
              translation = option_map translation_told t;
              masked = found.now.masked;
              line = found.now.line;
            }) (spec.by_filter (config_for family config.now) packet.entry.now t lists
            found.now.line)) }
        ensures refused { OnErr result (refuses ≡ true) };
}

/// Tells the verdict and the reason.
pub struct AsDecision;

impl<R: PortRow> Teller<R> for AsDecision {
    ghost use Rattle.std.specs.Prelude.{true};
    ghost use Rattle.kp_decide.specs.Told as words;

    type Told = Decision;

    ghost told = { λ _ d. words.told d };

    ghost refuses = { true };

    fn tell(
        &self,
        alloc: Global,
        _family: Family,
        _config: &Config,
        _packet: &Packet,
        found: &Found<'_, R>,
    ) -> Result<Decision, NoMemory> {
        match (&found.line, found.translation) {
            (Some(line), _) => refused_by(alloc, line),
            (None, Some(translation)) => passed(alloc, translation, found.masked),
            (None, None) => Ok(left_alone()),
        }
    }
}

/// Tells the verdict alone, which takes no memory.
pub struct AsVerdict;

impl<R: PortRow> Teller<R> for AsVerdict {
    ghost use Rattle.std.specs.Prelude.{false};

    type Told = Verdict;

    ghost told = { λ _ d. d.verdict };

    ghost refuses = { false };

    fn tell(
        &self,
        _alloc: Global,
        _family: Family,
        _config: &Config,
        _packet: &Packet,
        found: &Found<'_, R>,
    ) -> Result<Verdict, NoMemory> {
        Ok(match (&found.line, found.translation) {
            (Some(line), _) => refusal_verdict(line.refusal),
            (None, Some(translation)) => verdict_of(translation, found.masked),
            (None, None) => Verdict::LeftAlone,
        })
    }
}

/// The decision where no door takes a packet.
pub fn left_alone() -> Decision
    ensures { (lists : RecentParts) → result ≡ told (spec.left_alone lists) }
{
    Decision {
        verdict: Verdict::LeftAlone,
        reason: Reason::NoDoor,
    }
}

/// What becomes of a packet that the filter refuses.
fn refusal_verdict(refusal: Refusal) -> Verdict
    ensures { (door : doors.Door) (lists : RecentParts) → result
        ≡ (spec.refused_by (shown_refusal refusal) door lists).verdict }
{
    match refusal {
        Refusal::Rejects => Verdict::Rejected,
        Refusal::DropsClosed | Refusal::DropsNoLocal => Verdict::Dropped,
    }
}

/// The decision of a line of the filter.
fn refused_by(alloc: Global, line: &Line<'_>) -> Result<Decision, NoMemory>
    ensures { (lists : RecentParts) → IfOk result (λ d. d
        ≡ told (spec.refused_by line.now.refusal line.now.door lists)) }
{
    let kind = line.door.kind;
    let port = line.door.info.key.copy(alloc)?;
    match line.refusal {
        Refusal::Rejects => Ok(Decision {
            verdict: Verdict::Rejected,
            reason: Reason::NoEndpoints { kind, port },
        }),
        Refusal::DropsClosed => Ok(Decision {
            verdict: Verdict::Dropped,
            reason: Reason::Closed { kind, port },
        }),
        Refusal::DropsNoLocal => Ok(Decision {
            verdict: Verdict::Dropped,
            reason: Reason::NoLocal { kind, port },
        }),
    }
}

/// What becomes of a packet that goes to an endpoint.
fn verdict_of(translation: &Translation<'_>, masked: bool) -> Verdict
    ensures { result ≡ To translation.now.choice.endpoint masked }
{
    Verdict::To {
        endpoint: translation.choice.endpoint,
        masked,
    }
}

/// The decision on a packet that goes to an endpoint.
fn passed(alloc: Global, translation: &Translation<'_>, masked: bool) -> Result<Decision, NoMemory>
    ensures { IfOk result (λ d. d ≡ passed_by translation.now masked) }
{
    let Translation {
        door,
        offer,
        choice,
    } = translation;
    Ok(Decision {
        verdict: verdict_of(translation, masked),
        reason: Reason::Door {
            kind: door.kind,
            port: door.info.key.copy(alloc)?,
            list: offer.kind,
            size: offer.endpoints.len() as u64,
            by: choice.by,
            place: choice.place,
        },
    })
}
