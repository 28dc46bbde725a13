//! The tables that a run ends with.
ghost use Rattle.std.specs.Prelude.{◌≡◌, IfOk};
ghost use Rattle.std.specs.List.{flat_map};
ghost use Rattle.kp_restore_defs.specs.TableText.{table_text_of};
ghost use Rattle.kp_live.specs.Written.{Prints};

use crate::fault::LiveFault;
use crate::output::write;
use kp_base::{Family, NoMemory, Text};
use kp_io::Sink;
use kp_restore_text::{Table, table_text, table_text_six};
use std::alloc::Global;

/// Writes the tables of these families, one after the other.
pub(crate) fn print_tables<K: Sink>(
    alloc: Global,
    families: &[Family],
    table: &Table,
    sink: &mut K,
) -> Result<(), LiveFault>
    ensures { Prints result
        (flat_map (λ family. table_text_of family table.now.chains) families.now)
        (K.output sink.old) (K.output sink.new) }
{
    for family in families {
        match print_table(alloc, *family, table, sink) {
            Ok(()) => {}
            Err(fault) => return Err(fault),
        }
    }
    Ok(())
}

/// Writes the tables of a family.
fn print_table<K: Sink>(
    alloc: Global,
    family: Family,
    table: &Table,
    sink: &mut K,
) -> Result<(), LiveFault>
    ensures { Prints result (table_text_of family table.now.chains)
        (K.output sink.old) (K.output sink.new) }
{
    match text_of(alloc, family, table) {
        Ok(text) => write(sink, text.as_str().as_bytes()),
        Err(refused) => Err(LiveFault::NoMemory(refused)),
    }
}

/// The text of the tables of a family.
fn text_of(alloc: Global, family: Family, table: &Table) -> Result<Text, NoMemory>
    ensures { IfOk result (λ t. t ≡ table_text_of family table.now.chains) }
{
    match family {
        Family::V4 => table_text(alloc, table),
        Family::V6 => table_text_six(alloc, table),
    }
}
