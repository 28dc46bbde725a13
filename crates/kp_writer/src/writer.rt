//! What was written of ports in a family's tables, and the edits to what is known of them now.
ghost use Rattle.std.specs.Prelude.{◌≡◌, ◌+◌, ◌≤◌, ◌∷◌, [], cond, true, None, Some, map, IfOk};
ghost use Rattle.std.specs.Prelude.{IfErr, OnOk, OnErr};
ghost use Rattle.std.specs.FinMap as finite;
ghost use Rattle.std.specs.List.{filter};
ghost use Rattle.std.specs.Option.{option_copied};
ghost use Rattle.kp_blocks.specs.Joined.{is_port_of, port_block};
ghost use Rattle.kp_full_table.specs.Faults.{TellsClash};
ghost use Rattle.kp_table_laws.specs.Families.{HasTablesOf};
ghost use Rattle.kp_writer.specs.Batch.{own_rules_written};
ghost use Rattle.kp_writer.specs.Known.{pending_ports};
ghost use Rattle.kp_writer.specs.Old.{is_known as is_told, unwritten};
ghost use Rattle.kp_writer.specs.Own.{own_rule_count};
ghost use Rattle.kp_writer.specs.Refresh.{Refreshes};
ghost use Rattle.kp_writer.specs.Shared.{shared_rule_count};
ghost use Rattle.kp_writer.specs.Sync.{IsNextOf};
ghost use Rattle.kp_writer.specs.Written as spec;

use crate::block::block_of;
use crate::dirty::dirty_ports;
use crate::infos::newest_infos;
use crate::kept;
use crate::known::Known;
use crate::next::NextChains;
use crate::old::{is_known, set_aside, written_block};
use crate::pending::Pending;
use crate::refresh::{copies, drop_all, put_all};
use crate::sync::next_chains;
use kp_base::{Config, Copied, Family, Items, NoMemory, ObjectKey, PortKey, Steps};
use kp_blocks::Blocks;
use kp_full_table::{TableFault, check_names};
use kp_rules::Table;
use kp_tracker::Tracker;
use kp_types::{Batch, ChainText, PortInfo};
use std::alloc::Global;
use std::marker::Model;
use std::mem::replace;
use std::sync::ledger::Ledger;

/// What was written of each port in the tables of one family, and what is known of it now.
/// Contracts see both, the family and the configuration; the blocks of the shared chains are a
/// function of these. Where something else is known of a port than was written, the block of what
/// was written is kept too, so that none is made where that is known again.
pub struct Writer {
    family: Family,
    config: Config,
    ports: Tracker<PortKey, Known>,
    blocks: Blocks,
    aside: Blocks,
}

impl Drop for Writer {
    fn drop(self) {
        let Writer {
            family: _,
            config,
            ports,
            blocks,
            aside,
        } = self;
    }
}

/// The blocks are those of the newest ports, and those set aside of what was written.
impl Model for Writer {
    ghost use Rattle.kp_writer.specs.Written.{IsKept, WriterParts, parts, writer_code};

    ghost Value = { WriterParts };

    ghost coded = { writer_code };

    ghost view = { λ w. parts w.family w.config w.ports };

    ghost invariant = { λ w. IsKept (parts w.family w.config w.ports) w.blocks w.aside };
}

impl Writer {
    /// Nothing was written, and no port is known.
    pub fn new(alloc: Global, family: Family, config: &Config) -> Result<Writer, NoMemory>
        ensures { IfOk result (λ w. w ≡ spec.new_writer family config.now) }
    {
        Ok(Writer {
            family,
            config: config.copy(alloc)?,
            ports: Tracker::new(alloc),
            blocks: Blocks::new(alloc),
            aside: Blocks::new(alloc),
        })
    }

    /// The family whose tables it writes.
    pub fn family(&self) -> Family
        ensures { result ≡ self.now.family }
    {
        self.family
    }

    /// The configuration.
    pub fn config(&self) -> &Config
        ensures { result.now ≡ self.now.config }
    {
        &self.config
    }

    /// Takes over what is known of a port. Where something else was written, it takes at most a
    /// step for each rule that the port has in the shared chains, else none. Where memory is out,
    /// all stays.
    pub fn put<L: Ledger>(
        &mut self,
        alloc: Global,
        info: PortInfo,
        steps: &mut Steps<L>,
    ) -> Result<(), NoMemory>
        ensures ok { OnOk result (self.new
            ≡ spec.with_newest self.old (finite.insert self.old.newest info.key info)) }
        ensures err { OnErr result (self.new ≡ self.old) }
        ensures more { steps.old ≤ steps.new }
        ensures steps { steps.new ≤ steps.old
            + shared_rule_count (spec.setting_in self.old)
            (unwritten self.old.written (info ∷ [])) }
    {
        let block = self.block_for(alloc, &info, steps)?;
        set_aside(alloc, &self.ports, &self.blocks, &mut self.aside, &info.key)?;
        kept::put(alloc, &mut self.ports, &mut self.blocks, info, block)
    }

    /// A port's block: where the same was written it is at hand, else it is made.
    fn block_for<L: Ledger>(
        &self,
        alloc: Global,
        info: &PortInfo,
        steps: &mut Steps<L>,
    ) -> Result<Items<ChainText>, NoMemory>
        ensures block { IfOk result (λ block. block
            ≡ port_block (spec.setting_in self.now) info.now) }
        ensures more { steps.old ≤ steps.new }
        ensures steps { steps.new ≤ steps.old
            + shared_rule_count (spec.setting_in self.now)
            (unwritten self.now.written (info.now ∷ [])) }
    {
        match self.block_at_hand(info) {
            Some(block) => block.copy(alloc),
            None => block_of(alloc, self.family, &self.config, info, steps),
        }
    }

    /// A port's block, where the same was written of it.
    fn block_at_hand(&self, info: &PortInfo) -> Option<&Items<ChainText>>
        ensures { option_copied result
            ≡ cond (is_told (finite.get self.now.written info.now.key) info.now)
            (Some (port_block (spec.setting_in self.now) info.now)) None }
    {
        if is_known(self.ports.published(&info.key), info) {
            written_block(&self.ports, &self.blocks, &self.aside, &info.key)
        } else {
            None
        }
    }

    /// Takes over that a port is gone. Where memory is out, all stays.
    pub fn drop_port(&mut self, alloc: Global, port: &PortKey) -> Result<(), NoMemory>
        ensures ok { OnOk result (self.new
            ≡ spec.with_newest self.old (finite.remove self.old.newest port.now)) }
        ensures err { OnErr result (self.new ≡ self.old) }
    {
        set_aside(alloc, &self.ports, &self.blocks, &mut self.aside, port)?;
        kept::drop_port(alloc, &mut self.ports, &mut self.blocks, port)
    }

    /// The newest ports, in order of their names.
    pub fn ports(&self, alloc: Global) -> Result<Vec<&PortKey>, NoMemory>
        ensures { IfOk result (λ ports. map (λ k. k.now) ports.items
            ≡ finite.keys self.now.newest) }
    {
        self.blocks.ports(alloc)
    }

    /// The newest ports of a Service, in order of their names. Of the others at most one is looked
    /// at.
    pub fn ports_of(&self, alloc: Global, service: &ObjectKey) -> Result<Vec<&PortKey>, NoMemory>
        ensures { IfOk result (λ ports. map (λ k. k.now) ports.items
            ≡ filter (is_port_of service.now) (finite.keys self.now.newest)) }
    {
        self.blocks.ports_of(alloc, service)
    }

    /// Takes over what is known of the ports of a Service: those that aren't given are gone. Of two
    /// of one name the first counts. Ports of other Services stay, and where such are given they
    /// are passed over. It takes at most a step for each rule in the shared chains that those have
    /// of which something else was written. Where memory is out, each port of the Service is as it
    /// was, gone or new.
    pub fn refresh<L: Ledger>(
        &mut self,
        alloc: Global,
        service: &ObjectKey,
        infos: Vec<PortInfo>,
        steps: &mut Steps<L>,
    ) -> Result<(), NoMemory>
        ensures value { self.new ≡ spec.with_newest self.old self.new.newest }
        ensures ports { Refreshes result service.now infos.items
            self.old.newest self.new.newest }
        ensures more { steps.old ≤ steps.new }
        ensures steps { steps.new ≤ steps.old
            + shared_rule_count (spec.setting_in self.old)
            (unwritten self.old.written infos.items) }
    {
        let gone = self.copies_of(alloc, service)?;
        drop_all(alloc, self, gone)?;
        put_all(alloc, self, service, infos, steps)
    }

    /// Copies of the names of the newest ports of a Service.
    fn copies_of(&self, alloc: Global, service: &ObjectKey) -> Result<Vec<PortKey>, NoMemory>
        ensures { IfOk result (λ ports. ports.items
            ≡ filter (is_port_of service.now) (finite.keys self.now.newest)) }
    {
        let ports = self.ports_of(alloc, service)?;
        copies(alloc, &ports)
    }

    /// The ports of which something else is known than was written, in order of their names, each
    /// with what was written of it.
    pub fn dirty(&self, alloc: Global) -> Result<Items<Pending>, NoMemory>
        ensures { IfOk result (λ ports. ports ≡ pending_ports self.now) }
    {
        let pending = self.ports.pending(alloc)?;
        dirty_ports(alloc, &self.ports, &pending)
    }

    /// The edits that lead from the family's tables of what was written, which stand in the table
    /// that is given, to those of what is known now: exactly the changes between the two. It is
    /// refused exactly where two different chains that are needed have one name, and tells the
    /// least such pair, or where memory is out. It takes at most a step for each rule that the
    /// dirty ports have in their own chains, and at least one for each rule of a port's own chains
    /// that the edits write.
    pub fn edits<L: Ledger>(
        &self,
        alloc: Global,
        table: &Table,
        steps: &mut Steps<L>,
    ) -> Result<Batch, TableFault>
        requires table { HasTablesOf self.now.family table.now.chains
            (spec.chains_of self.now self.now.written) }
        requires apart { spec.clash_of self.now self.now.written ≡ None }
        ensures batch { IfOk result (λ b. b.edits ≡ spec.next_edits self.now) }
        ensures no_clash { OnOk result (spec.clash_of self.now self.now.newest ≡ None) }
        ensures clash { IfErr result (TellsClash (spec.clash_of self.now self.now.newest)) }
        ensures made { IfOk result (λ b. steps.old + own_rules_written b.edits ≤ steps.new) }
        ensures steps { steps.new ≤ steps.old
            + own_rule_count (spec.setting_in self.now)
            (spec.dirty_of self.now self.now.newest) }
    {
        let next = self.next(alloc, table, steps)?;
        self.check_names(alloc, next.all_free())?;
        Ok(next.edits(alloc, self.family, table)?)
    }

    /// What stands after the dirty ports' chains are written, and the shared chains that they
    /// touch are joined.
    fn next<L: Ledger>(
        &self,
        alloc: Global,
        table: &Table,
        steps: &mut Steps<L>,
    ) -> Result<NextChains, NoMemory>
        requires table { HasTablesOf self.now.family table.now.chains
            (spec.chains_of self.now self.now.written) }
        requires apart { spec.clash_of self.now self.now.written ≡ None }
        ensures next { IfOk result (IsNextOf self.now table.now.chains) }
        ensures made { OnOk result (steps.old + own_rule_count (spec.setting_in self.now)
            (spec.dirty_of self.now self.now.newest) ≤ steps.new) }
        ensures steps { steps.new ≤ steps.old
            + own_rule_count (spec.setting_in self.now)
            (spec.dirty_of self.now self.now.newest) }
    {
        kp_walk_laws::hashed_prefixed();
        let keys = self.ports.pending(alloc)?;
        next_chains(
            alloc,
            self.family,
            &self.config,
            &self.ports,
            &self.blocks,
            &self.aside,
            &keys,
            table,
            steps,
        )
    }

    /// Checks that no two chains that the newest ports need have one name. Where each chain of a
    /// dirty port found its place free none have, so that the names of all ports are made and
    /// compared only where one didn't.
    fn check_names(&self, alloc: Global, all_free: bool) -> Result<(), TableFault>
        requires { all_free ≡ true → spec.clash_of self.now self.now.newest ≡ None }
        ensures no_clash { OnOk result (
            spec.clash_of self.now self.now.newest ≡ None) }
        ensures clash { IfErr result (TellsClash
            (spec.clash_of self.now self.now.newest)) }
    {
        if all_free {
            return Ok(());
        }
        let infos = self.infos(alloc)?;
        check_names(alloc, &self.config, &infos)
    }

    /// What is known of the newest ports, in order of their names.
    fn infos(&self, alloc: Global) -> Result<Vec<&PortInfo>, NoMemory>
        ensures { IfOk result (λ infos. map (λ i. i.now) infos.items
            ≡ finite.values self.now.newest) }
    {
        let ports = self.ports(alloc)?;
        newest_infos(alloc, &self.ports, &ports)
    }

    /// Takes over that the newest ports are written. It takes no memory.
    pub fn keep(&mut self, alloc: Global)
        ensures { self.new ≡ spec.all_written self.old }
    {
        self.ports.settle();
        let _ = replace(&mut self.aside, Blocks::new(alloc));
    }
}
