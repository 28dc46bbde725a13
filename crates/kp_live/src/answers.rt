//! What the lines of a stream are answered, until it is printed.
ghost use Rattle.std.specs.Prelude.{◌≡◌, ◌≤◌, ◌++◌, ◌∷◌, [], List, ℕ, None, OnOk};
ghost use Rattle.std.specs.Prelude.{string_bytes, length};
ghost use Rattle.kp_hub.specs.Reading.{Reads, answer_after, walk_after};
ghost use Rattle.kp_publish.specs.Entries.{records_of};
ghost use Rattle.kp_text_defs.specs.Live.{live_sync_text};
ghost use Rattle.kp_live.specs.Told.{Told, Says, Decides, Denies, HasText, Holds, HoldsOn};
ghost use Rattle.kp_live.specs.Runs as runs;
ghost use Rattle.kp_live.specs.Told.{IsAnswer, decided_in, packet_told, piece_decided};

use kp_base::{Endpoint, NoMemory};
use kp_hub::{Hub, Sharing, WorkerPass};
use kp_recent::RecentLists;
use kp_report::push_live_sync;
use kp_script::PacketLine;
use kp_streams::{StreamLine, Work};
use kp_types::{Clash, Verdict};
use std::alloc::Global;
use std::sync::Wait;
use std::sync::ledger::Ledger;

/// What a line was answered, in 48 bytes. A verdict within would take 64, so what becomes of a
/// packet has variants here, each with the number of the sync that it is answered from.
#[derive(Clone, Copy, Debug)]
pub(crate) enum Piece {
    /// A text of so many bytes.
    Text(u32),
    /// A packet goes to an endpoint.
    To(u64, Endpoint),
    /// It does, and its source is masqueraded.
    Masked(u64, Endpoint),
    Rejected(u64),
    Dropped(u64),
    LeftAlone(u64),
    /// A refused sync, whose text isn't known before the run has ended.
    Refusal,
}

impl Piece {
    /// What is kept of what becomes of a packet by the sync of this number.
    fn of(sync: u64, verdict: Verdict) -> Piece
        ensures { result ≡ piece_decided sync verdict }
    {
        match verdict {
            Verdict::To { endpoint, masked } if masked => Piece::Masked(sync, endpoint),
            Verdict::To { endpoint, .. } => Piece::To(sync, endpoint),
            Verdict::Rejected => Piece::Rejected(sync),
            Verdict::Dropped => Piece::Dropped(sync),
            Verdict::LeftAlone => Piece::LeftAlone(sync),
        }
    }

    /// What becomes of the packet, and the number of its sync, where it is one of a packet.
    fn decision(self) -> Option<(u64, Verdict)>
        ensures { result ≡ decided_in self }
    {
        match self {
            Piece::To(sync, endpoint) => {
                let masked = false;
                Some((sync, Verdict::To { endpoint, masked }))
            }
            Piece::Masked(sync, endpoint) => {
                let masked = true;
                Some((sync, Verdict::To { endpoint, masked }))
            }
            Piece::Rejected(sync) => Some((sync, Verdict::Rejected)),
            Piece::Dropped(sync) => Some((sync, Verdict::Dropped)),
            Piece::LeftAlone(sync) => Some((sync, Verdict::LeftAlone)),
            Piece::Text(_) | Piece::Refusal => None,
        }
    }
}

/// Whether a line is answered: it syncs or sends a packet.
pub(crate) fn is_answered(work: &Work) -> bool
    ensures { result ≡ runs.is_answered work.now }
{
    match work {
        Work::Feeds(_) => false,
        Work::Syncs | Work::Sends(_) => true,
    }
}

/// What the lines of a stream that sync or send a packet were answered, in order. A packet without
/// a trail costs a piece, and no text.
pub(crate) struct Answers {
    text: String,
    pieces: Vec<Piece>,
    clashes: Vec<Clash>,
}

/// One call on each way out of what owns answers.
impl Drop for Answers {
    fn drop(self) {
        let Answers {
            text,
            pieces,
            clashes,
        } = self;
    }
}

impl Answers {
    /// No answers.
    pub(crate) fn new(alloc: Global) -> Answers
        ensures { Holds result [] }
    {
        Answers {
            text: String::new(alloc),
            pieces: Vec::new(alloc),
            clashes: Vec::new(alloc),
        }
    }

    /// Makes room for the answers of these lines.
    pub(crate) fn make_room(&mut self, lines: &[&StreamLine]) -> Result<(), NoMemory>
        ensures { (told : List Told) → Holds self.old told → Holds self.new told }
    {
        let answered = lines
            .iter()
            .filter(|line: &&&StreamLine| is_answered(&line.work))
            .count();
        Ok(self.pieces.reserve_exact(answered)?)
    }

    /// Adds what the packet of the line of this number is answered from a published table.
    pub(crate) fn add_packet<J: Sharing, A: Ledger, C: Ledger, R: Wait>(
        &mut self,
        rt: &R,
        pass: &mut WorkerPass<J, A, C>,
        number: u64,
        line: &PacketLine,
        lists: &mut RecentLists,
    ) -> Result<(), NoMemory>
        ensures reads { Reads pass.old pass.new }
        ensures told { OnOk result ((told : List Told) → Holds self.old told → Holds self.new
            (told ++ packet_told number (length (records_of pass.new.seen)) line.now
            (walk_after J.start J.config pass.new.seen number line.now lists.old) ∷ [])) }
        ensures lists { OnOk result (lists.new
            ≡ (walk_after J.start J.config pass.new.seen number line.now lists.old).lists) }
    {
        if line.trail {
            self.add_text(rt, pass, number, line, lists)
        } else {
            self.add_verdict(rt, pass, number, line, lists)
        }
    }

    /// Adds the text of it.
    fn add_text<J: Sharing, A: Ledger, C: Ledger, R: Wait>(
        &mut self,
        rt: &R,
        pass: &mut WorkerPass<J, A, C>,
        number: u64,
        line: &PacketLine,
        lists: &mut RecentLists,
    ) -> Result<(), NoMemory>
        ensures reads { Reads pass.old pass.new }
        ensures told { OnOk result ((told : List Told) → Holds self.old told → Holds self.new
            (told ++ Says (answer_after J.start J.config pass.new.seen number line.now lists.old)
            ∷ [])) }
        ensures lists { OnOk result (lists.new
            ≡ (walk_after J.start J.config pass.new.seen number line.now lists.old).lists) }
    {
        let before = self.text.len();
        Hub::<J, A, C>::walk(rt, pass, number, line, lists, &mut self.text)?;
        self.close(before)
    }

    /// Adds what becomes of it.
    fn add_verdict<J: Sharing, A: Ledger, C: Ledger, R: Wait>(
        &mut self,
        rt: &R,
        pass: &mut WorkerPass<J, A, C>,
        number: u64,
        line: &PacketLine,
        lists: &mut RecentLists,
    ) -> Result<(), NoMemory>
        ensures reads { Reads pass.old pass.new }
        ensures told { OnOk result ((told : List Told) → Holds self.old told → Holds self.new
            (told ++ Decides (length (records_of pass.new.seen))
            (walk_after J.start J.config pass.new.seen number line.now lists.old).verdict ∷ [])) }
        ensures lists { OnOk result (lists.new
            ≡ (walk_after J.start J.config pass.new.seen number line.now lists.old).lists) }
    {
        let (sync, verdict) = Hub::<J, A, C>::verdict_of(rt, pass, number, line, lists)?;
        Ok(self.pieces.push(Piece::of(sync, verdict))?)
    }

    /// Adds that the sync of the line of this number made a record.
    pub(crate) fn add_sync(&mut self, number: u64, sync: u64) -> Result<(), NoMemory>
        ensures { OnOk result ((told : List Told) → Holds self.old told → Holds self.new
            (told ++ Says (live_sync_text number sync) ∷ [])) }
    {
        let before = self.text.len();
        push_live_sync(&mut self.text, number, sync)?;
        self.close(before)
    }

    /// Adds that a sync was refused for two chains of one name.
    pub(crate) fn add_refusal(&mut self, clash: Clash) -> Result<(), NoMemory>
        ensures { OnOk result ((told : List Told) → Holds self.old told → Holds self.new
            (told ++ Denies clash ∷ [])) }
    {
        self.clashes.push(clash)?;
        Ok(self.pieces.push(Piece::Refusal)?)
    }

    /// Ends the text of an answer that began behind so many bytes.
    fn close(&mut self, before: usize) -> Result<(), NoMemory>
        requires { before ≤ length (string_bytes self.old.text) }
        ensures { OnOk result ((told : List Told) (bytes : List ℕ)
            → HasText self.old before told bytes → Holds self.new (told ++ Says bytes ∷ [])) }
    {
        let Ok(bytes) = u32::try_from(self.text.len() - before) else {
            // The answer has more bytes than a piece counts.
            return Err(NoMemory::beyond_counts());
        };
        Ok(self.pieces.push(Piece::Text(bytes))?)
    }

    /// All of it, to be told from the first on.
    pub(crate) fn unfold(&self) -> ToldOn<'_>
        ensures { (told : List Told) → Holds self.now told → HoldsOn result told }
    {
        ToldOn {
            text: self.text.as_bytes(),
            pieces: self.pieces.as_slice(),
            clashes: self.clashes.as_slice(),
            found: 0,
        }
    }
}

/// An answer, as it was kept.
#[derive(Drop)]
pub(crate) enum Answer<'a> {
    Text(&'a [u8]),
    /// What becomes of a packet by the sync of this number.
    Decision(u64, Verdict),
    Refusal(&'a Clash),
}

/// The answers of a stream that are still to be told.
#[derive(Drop)]
pub(crate) struct ToldOn<'a> {
    text: &'a [u8],
    pieces: &'a [Piece],
    clashes: &'a [Clash],
    /// Behind which refusal of the run that of the next one is looked for first.
    pub(crate) found: usize,
}

impl<'a> ToldOn<'a> {
    /// The next answer.
    pub(crate) fn next(&mut self) -> Option<Answer<'a>>
        ensures some { (t : Told) (told : List Told) → HoldsOn self.old (t ∷ told)
            → HoldsOn self.new told × IsAnswer result t }
        ensures none { HoldsOn self.old [] → HoldsOn self.new [] × (result ≡ None) }
        ensures found { self.new.found ≡ self.old.found }
    {
        let (piece, pieces) = self.pieces.split_first()?;
        self.pieces = pieces;
        match piece {
            Piece::Text(bytes) => {
                let (text, rest) = self.text.split_at_checked(*bytes as usize)?;
                self.text = rest;
                Some(Answer::Text(text))
            }
            Piece::Refusal => {
                let (clash, clashes) = self.clashes.split_first()?;
                self.clashes = clashes;
                Some(Answer::Refusal(clash))
            }
            decided => {
                let (sync, verdict) = decided.decision()?;
                Some(Answer::Decision(sync, verdict))
            }
        }
    }
}
