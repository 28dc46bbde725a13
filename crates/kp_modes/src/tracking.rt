//! A node that keeps connections.
ghost use Rattle.std.specs.Prelude.{◌≡◌, ◌++◌, string_bytes, OnErr, OnOk};
ghost use Rattle.kp_modes.specs.Tracked as spec;
ghost use Rattle.kp_print.specs.Fronts.{HasFront};
ghost use Rattle.kp_track_defs.specs.Kept.{without_endpoints};
ghost use Rattle.kp_track_mode_defs.specs.TrackMode as modes;

use crate::flow_lines::{push_opened, push_owned};
use kp_base::{Config, Endpoint, Family, NoMemory};
use kp_conntrack::{Connections, Flow};
use kp_mode::{Mode, explained, snapshot_of};
use kp_plane::{Plane, SyncNote};
use kp_report::push_trail;
use kp_text_defs::PacketLine;
use kp_udp_endpoints::EndpointCounts;
use kp_workers::PartLists;
use std::alloc::Global;

/// The mode `track`. It keeps the live connections, and how many lists of UDP ports have each
/// endpoint: a sync changes these by the ports that it changed, and what falls to none is cleared.
pub struct Tracking {
    connections: Connections,
    counts: EndpointCounts,
}

impl Drop for Tracking {
    fn drop(self) {
        let Tracking {
            connections,
            counts,
        } = self;
    }
}

impl Tracking {
    /// No connection, with the room for all.
    pub fn new(alloc: Global) -> Result<Tracking, NoMemory> {
        Ok(Tracking {
            connections: Connections::new(alloc)?,
            counts: EndpointCounts::new(alloc),
        })
    }

    /// Answers a flow that nobody owns by the rules, and keeps it where it may.
    fn open(
        &mut self,
        plane: &Plane,
        number: u64,
        line: &PacketLine,
        lists: &mut PartLists,
        text: &mut String,
    ) -> Result<(), NoMemory>
        ensures text { OnOk result (string_bytes text.new ≡ string_bytes text.old
            ++ spec.open_text plane.now number line.now lists.old self.old.connections) }
        ensures lists { OnOk result (lists.new
            ≡ (spec.decision_of_line plane.now number line.now lists.old).lists) }
        ensures kept { OnOk result (self.new.connections
            ≡ spec.open_kept plane.now number line.now lists.old self.old.connections) }
        ensures counts { self.new.counts ≡ self.old.counts }
        ensures front { OnErr result (HasFront text.new text.old) }
    {
        let snapshot = snapshot_of(plane);
        let flow = flow_of(line);
        if line.trail {
            let answer = lists.walk(&snapshot, number, line)?;
            let kept = self.connections.opened(&flow, &answer.verdict);
            push_opened(text, number, snapshot.sync, &answer.verdict, kept)?;
            push_trail(text, number, &answer.trail)
        } else {
            let verdict = lists.verdict_of(&snapshot, number, line)?;
            let kept = self.connections.opened(&flow, &verdict);
            push_opened(text, number, snapshot.sync, &verdict, kept)
        }
    }
}

impl Mode for Tracking {
    ghost use Rattle.kp_track_defs.specs.Tracking.{Tracked};
    ghost use Rattle.kp_udp_endpoints.specs.Counts.{AreCounted};

    ghost State = { Tracked };

    ghost mode = { modes.tracking };

    ghost stands = { λ kept config objects state. spec.StandsFor kept.connections kept.counts
        config objects state };

    ghost between = { λ kept config before now. AreCounted config before kept.counts };

    fn configured(&mut self, alloc: Global, _config: &Config) -> Result<(), NoMemory> {
        self.connections.empty();
        self.counts = EndpointCounts::new(alloc);
        Ok(())
    }

    fn packet(
        &mut self,
        plane: &Plane,
        number: u64,
        line: &PacketLine,
        lists: &mut PartLists,
        text: &mut String,
    ) -> Result<(), NoMemory> {
        kp_track_defs::laws::kept_openers();
        kp_track_laws::laws::sent_where_it_stands();
        match self.connections.owned(&flow_of(line)) {
            Some(owned) => push_owned(text, number, plane.syncs(), line.trail, &owned),
            None => self.open(plane, number, line, lists, text),
        }
    }

    fn explain(
        &mut self,
        alloc: Global,
        plane: &mut Plane,
        number: u64,
        line: &PacketLine,
        lists: &PartLists,
        text: &mut String,
    ) -> Result<(), NoMemory> {
        explained(alloc, plane, number, line, lists, text)
    }

    fn synced(
        &mut self,
        alloc: Global,
        plane: &Plane,
        _note: &SyncNote,
        _text: &mut String,
    ) -> Result<(), NoMemory> {
        kp_object_laws::own_keys();
        kp_track_defs::laws::kept_openers();
        let four = plane.dirty(alloc, Family::V4)?;
        let six = plane.dirty(alloc, Family::V6)?;
        let fallen = self.counts.follow(
            alloc,
            plane.config(),
            plane.objects(),
            four.as_slice(),
            six.as_slice(),
        )?;
        clear_all(&mut self.connections, fallen.as_slice());
        Ok(())
    }

    fn ending(&self, _alloc: Global, _config: &Config, _text: &mut String) -> Result<(), NoMemory> {
        Ok(())
    }
}

/// The flow of a line.
fn flow_of(line: &PacketLine) -> Flow
    ensures { result ≡ modes.flow_of line.now }
{
    Flow {
        packet: line.packet,
        source_port: line.source_port,
    }
}

/// Forgets what was sent to some endpoints of UDP.
fn clear_all(connections: &mut Connections, endpoints: &[Endpoint])
    ensures { connections.new ≡ without_endpoints endpoints.now connections.old }
{
    for endpoint in endpoints {
        connections.clear(endpoint);
    }
}
