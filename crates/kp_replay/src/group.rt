//! The lines that may be answered beside each other.
ghost use Rattle.std.specs.Prelude.{◌≡◌, ◌≤◌, ◌∷◌, ◌++◌, true, map, take, length, IfOk, IfSome};
ghost use Rattle.std.specs.List.{list_all};
ghost use Rattle.kp_restore_defs.specs.TableText.{text_of_lines};
ghost use Rattle.kp_restore_text.specs.Pieces.{no_line_feed};

use kp_base::NoMemory;
use kp_io::line_feed_at;
use std::alloc::Global;

/// The most lines of a group.
const GROUP_LINES: usize = 32_768;

/// How a packet's line mostly begins.
const PACKET_START: &[u8] = b"{\"op\":\"packet\"";

/// Whole lines at the front of some bytes, without their line feeds, and how many bytes they are
/// with them.
#[derive(Drop)]
pub struct Group<'a> {
    pub lines: Vec<&'a [u8]>,
    pub bytes: usize,
}

/// The whole lines at the front of the bytes that look like lines of packets. That is a hint: what
/// a line is, its reader says.
pub fn group_of<'a>(alloc: Global, bytes: &'a [u8]) -> Result<Group<'a>, NoMemory>
    ensures within { IfOk result (λ g. g.bytes ≤ length bytes.now) }
    ensures lines { IfOk result (λ g.
        take g.bytes bytes.now ≡ text_of_lines (map (λ line. line.now) g.lines.items)) }
    ensures feedless { IfOk result (λ g.
        list_all no_line_feed (map (λ line. line.now) g.lines.items) ≡ true) }
    ensures few { IfOk result (λ g. length g.lines.items ≤ 32768) }
{
    let mut lines = Vec::new(alloc);
    let mut rest = bytes;
    for _ in 0..GROUP_LINES {
        let Some((line, others)) = packet_like(rest) else {
            break;
        };
        lines.push(line)?;
        rest = others;
    }
    let taken = bytes.len() - rest.len();
    Ok(Group {
        lines,
        bytes: taken,
    })
}

/// The first line, and what stands after its line feed, if there is a line feed and the bytes
/// begin as a packet's line or a blank one.
fn packet_like(bytes: &[u8]) -> Option<(&[u8], &[u8])>
    ensures cut { IfSome result (λ r. bytes.now ≡ r.0.now ++ 10 ∷ r.1.now) }
    ensures feedless { IfSome result (λ r. no_line_feed r.0.now ≡ true) }
{
    if !may_be_packet(bytes) {
        return None;
    }
    let at = line_feed_at(bytes)?;
    let (line, others) = bytes.split_at(at);
    let (_, rest) = others.split_at(1);
    Some((line, rest))
}

/// Whether bytes begin as a packet's line, or a blank one.
fn may_be_packet(bytes: &[u8]) -> bool {
    match bytes.first() {
        Some(b' ' | b'\t' | b'\r' | b'\n') => true,
        Some(_) => bytes.starts_with(PACKET_START),
        None => false,
    }
}
