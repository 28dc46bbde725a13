//! Trails of packets.
ghost use Rattle.std.specs.Prelude.{◌≡◌, ◌++◌, IfOk, OnErr, OnOk, string_bytes};
ghost use Rattle.std.specs.List.{flat_map};
ghost use Rattle.kp_text_defs.specs.Answers as spec;
ghost use Rattle.kp_print.specs.Fronts.{HasFront};

use kp_base::{NoMemory, Text};
use kp_print::{push, push_labelled};
use kp_types::{ChainName, Pass, Trail};
use std::alloc::Global;

/// The line of a packet's trail: the traversals that a rule ended, each with the chains on the way
/// to that rule.
pub fn trail_text(alloc: Global, number: u64, trail: &Trail) -> Result<Text, NoMemory>
    ensures { IfOk result (λ t. t ≡ spec.trail_text number trail.now) }
{
    let mut text = String::new(alloc);
    push_trail(&mut text, number, trail)?;
    Text::from_string(text)
}

/// Adds the line of a packet's trail.
pub fn push_trail(text: &mut String, number: u64, trail: &Trail) -> Result<(), NoMemory>
    ensures added { OnOk result (string_bytes text.new
        ≡ string_bytes text.old ++ spec.trail_text number trail.now) }
    ensures front { OnErr result (HasFront text.new text.old) }
{
    push_labelled(text, "trail ", number)?;
    push(text, ": ")?;
    push_passes(text, trail.passes.as_slice())?;
    push(text, "\n")
}

/// Adds traversals with commas between them, or a word where there are none.
fn push_passes(text: &mut String, passes: &[Pass]) -> Result<(), NoMemory>
    ensures added { OnOk result (string_bytes text.new
        ≡ string_bytes text.old ++ spec.passes_text passes.now) }
    ensures front { OnErr result (HasFront text.new text.old) }
{
    let Some((first, rest)) = passes.split_first() else {
        return push(text, "none");
    };
    push_chains(text, first.chains.as_slice())?;
    push_more_passes(text, rest)
}

fn push_more_passes(text: &mut String, passes: &[Pass]) -> Result<(), NoMemory>
    ensures added { OnOk result (string_bytes text.new
        ≡ string_bytes text.old ++ flat_map spec.next_pass_text passes.now) }
    ensures front { OnErr result (HasFront text.new text.old) }
{
    for pass in passes {
        push(text, ", ")?;
        push_chains(text, pass.chains.as_slice())?;
    }
    Ok(())
}

/// Adds names with spaces between them.
fn push_chains(text: &mut String, chains: &[ChainName]) -> Result<(), NoMemory>
    ensures added { OnOk result (string_bytes text.new
        ≡ string_bytes text.old ++ spec.chains_text chains.now) }
    ensures front { OnErr result (HasFront text.new text.old) }
{
    let Some((first, rest)) = chains.split_first() else {
        return Ok(());
    };
    push(text, first.as_str())?;
    push_more_chains(text, rest)
}

fn push_more_chains(text: &mut String, chains: &[ChainName]) -> Result<(), NoMemory>
    ensures added { OnOk result (string_bytes text.new
        ≡ string_bytes text.old ++ flat_map spec.next_chain_text chains.now) }
    ensures front { OnErr result (HasFront text.new text.old) }
{
    for chain in chains {
        push(text, " ")?;
        push(text, chain.as_str())?;
    }
    Ok(())
}
