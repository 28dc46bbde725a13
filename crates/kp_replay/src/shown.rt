//! What lines show.
ghost use Rattle.std.specs.Prelude.{◌≡◌, ◌++◌, string_bytes, IfOk, OnErr, OnOk};
ghost use Rattle.kp_print.specs.Fronts.{HasFront};
ghost use Rattle.kp_restore_defs.specs.BatchText.{batch_text_of};
ghost use Rattle.kp_run_defs.specs.ReplayText as spec;

use crate::replay::Replay;
use kp_base::{Family, NoMemory, Text};
use kp_print::push;
use kp_report::push_slices;
use kp_restore_text::{batch_text, batch_text_six, section_text};
use kp_script::Shown;
use kp_types::{Batch, TableName};
use std::alloc::Global;

impl Replay {
    ghost use Rattle.kp_text_defs.specs.Slices.{slices_text};
    ghost use Rattle.kp_restore_defs.specs.TableText.{section_text_of};
    ghost use Rattle.kp_replay.specs.Steps.{standing_of};

    /// Adds what a line asks to see.
    pub(crate) fn show(
        &mut self,
        alloc: Global,
        what: Shown,
        text: &mut String,
    ) -> Result<(), NoMemory>
        ensures text { OnOk result (string_bytes text.new ≡ string_bytes text.old
            ++ spec.shown_text what (standing_of self.old)) }
        ensures stays { standing_of self.new ≡ standing_of self.old }
        ensures front { OnErr result (HasFront text.new text.old) }
    {
        match what {
            Shown::Slices => self.push_slices_now(alloc, false, text),
            Shown::Endpoints => self.push_slices_now(alloc, true, text),
            Shown::Nat => self.push_section(alloc, TableName::Nat, text),
            Shown::Filter => self.push_section(alloc, TableName::Filter, text),
            Shown::Batch => self.push_last_batch(alloc, Family::V4, text),
            Shown::Nat6 => self.push_section_if(alloc, TableName::Nat6, text),
            Shown::Filter6 => self.push_section_if(alloc, TableName::Filter6, text),
            Shown::Batch6 => self.push_last_batch(alloc, Family::V6, text),
        }
    }

    /// Adds the slices by now, or their endpoints.
    fn push_slices_now(
        &mut self,
        alloc: Global,
        entries: bool,
        text: &mut String,
    ) -> Result<(), NoMemory>
        ensures kept { standing_of self.new ≡ standing_of self.old }
        ensures text { OnOk result (string_bytes text.new ≡ string_bytes text.old
            ++ slices_text (spec.slices_in (standing_of self.old)) entries) }
        ensures front { OnErr result (HasFront text.new text.old) }
    {
        let slices = self.plane.slices(alloc)?;
        push_slices(text, slices.as_slice(), entries)
    }

    /// Adds the section of one table.
    fn push_section(
        &self,
        alloc: Global,
        which: TableName,
        text: &mut String,
    ) -> Result<(), NoMemory>
        ensures text { OnOk result (string_bytes text.new ≡ string_bytes text.old
            ++ section_text_of (spec.chains_in (standing_of self.now)) which) }
        ensures front { OnErr result (HasFront text.new text.old) }
    {
        let section = section_text(alloc, self.plane.table(), which)?;
        push(text, section.as_str())
    }

    /// Adds the section of a table of IPv6, where the node has such tables.
    fn push_section_if(
        &self,
        alloc: Global,
        which: TableName,
        text: &mut String,
    ) -> Result<(), NoMemory>
        ensures text { OnOk result (string_bytes text.new ≡ string_bytes text.old
            ++ spec.section_if (standing_of self.now).config.dual
            (spec.chains_in (standing_of self.now)) which) }
        ensures front { OnErr result (HasFront text.new text.old) }
    {
        if self.plane.config().dual {
            self.push_section(alloc, which, text)
        } else {
            Ok(())
        }
    }

    /// Adds a family's part of the batch of the last sync, where there was one.
    fn push_last_batch(
        &self,
        alloc: Global,
        family: Family,
        text: &mut String,
    ) -> Result<(), NoMemory>
        ensures text { OnOk result (string_bytes text.new ≡ string_bytes text.old
            ++ spec.batch_shown family (standing_of self.now).counts
            (spec.last_edits (standing_of self.now))) }
        ensures front { OnErr result (HasFront text.new text.old) }
    {
        match self.plane.last_batch() {
            None => Ok(()),
            Some(batch) => {
                let batch = part_text(alloc, family, batch)?;
                push(text, batch.as_str())
            }
        }
    }
}

/// The text of the edits of a family's tables.
fn part_text(alloc: Global, family: Family, batch: &Batch) -> Result<Text, NoMemory>
    ensures { IfOk result (λ t. t ≡ batch_text_of family batch.now.edits) }
{
    match family {
        Family::V4 => batch_text(alloc, batch),
        Family::V6 => batch_text_six(alloc, batch),
    }
}
