//! Lines that send or explain a packet.
ghost use Rattle.kp_text_defs.specs.ListedDraws.{AreLow, listed};

use crate::draws::Draws;
use kp_types::Packet;

/// A packet, and what its line says beside it.
#[derive(Drop)]
pub struct PacketLine {
    /// Its source and its target are of one address family.
    pub packet: Packet,
    /// The port that it comes from, which no rule asks for.
    pub source_port: u16,
    pub draws: Draws,
    /// Whether the chains on the packet's way are printed behind its answer.
    pub trail: bool,
    pub ghost low: { AreLow (listed draws) },
}
