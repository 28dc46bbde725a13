//! Where what is known of the ports at a destination comes from.
ghost use Rattle.std.specs.Prelude.{◌≡◌, ◌<◌, ℕ, Bool, true, List, length, slice_get, Some, IfOk, OnErr};
ghost use Rattle.kp_base.specs.declared.address.Family.{Family};
ghost use Rattle.kp_base.specs.declared.config.Config.{Config};
ghost use Rattle.kp_types.specs.Setting.{config_for};
ghost use Rattle.kp_choice_defs.specs.Names.{endpoint_chain_name};
ghost use Rattle.kp_object_defs.specs.PortInfo.{PortInfo};
ghost use Rattle.kp_decide.specs.Enough.{AreEnough};
ghost use Rattle.kp_decide.specs.Listed.{listed};

use kp_base::{Config, Endpoint, Family, NoMemory};
use kp_types::{ChainName, ListKind, Packet, PortInfo};
use std::alloc::Global;

/// What is known of some ports, in order, and how the chains of their endpoints are named.
pub trait PortRow {
    /// What is known of each port.
    ghost infos: { Self → List PortInfo };

    /// How many characters of its hash a chain's name has.
    ghost name_length: { Self → ℕ };

    /// How many ports there are.
    fn count(&self) -> usize
        ensures { result ≡ length (infos self.now) };

    /// What is known of the port at a place.
    fn info(&self, port: usize) -> &PortInfo
        requires { port < length (infos self.now) }
        ensures { slice_get (infos self.now) port ≡ Some result.now };

    /// The name of the chain of the endpoint at a place of a list of the port at a place.
    fn name(
        &self,
        port: usize,
        info: &PortInfo,
        list: ListKind,
        place: usize,
        endpoint: &Endpoint,
    ) -> ChainName
        requires port { slice_get (infos self.now) port ≡ Some info.now }
        requires place { slice_get (listed list info.now) place ≡ Some endpoint.now }
        ensures { result
            ≡ endpoint_chain_name (name_length self.now) info.now.key endpoint.now };
}

/// Where what is known of the ports at a destination comes from.
pub trait PortSource {
    /// What it gives for a destination.
    type Row: PortRow + Drop;

    /// What is known of all ports in a family, in order.
    ghost infos: { Self → Family → List PortInfo };

    /// The configuration under which it is known.
    ghost config: { Self → Config };

    /// It may have no memory for the ports at a destination.
    ghost refuses: { Bool };

    /// The configuration under which it is known.
    fn config(&self) -> &Config
        ensures { result.now ≡ config self.now };

    /// Ports that are enough to decide a packet. Only memory can be refused, and by a source that
    /// makes ports alone.
    fn ports_at(
        &self,
        alloc: Global,
        family: Family,
        packet: &Packet,
    ) -> Result<Self::Row, NoMemory>
        ensures enough { IfOk result (λ row. AreEnough (config_for family (config self.now))
            packet.entry.now (Self.Row.infos row) (infos self.now family)) }
        ensures names { IfOk result (λ row. Self.Row.name_length row
            ≡ (config self.now).name_length) }
        ensures refused { OnErr result (refuses ≡ true) };
}
