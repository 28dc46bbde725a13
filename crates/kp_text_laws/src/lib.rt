//! Laws of what is printed of full tables: each family's tables of any objects, and its part of the
//! batch between the tables of two, have texts of their own and are read back from them.
//! Each law is the contract of a function that does nothing but name the laws that it rests on.
#![tactic(auto)]

ghost use Rattle.kp_text_laws.specs.BoundLaws.{ObjectsAreBounded, PortsAreBounded, ReadIsBounded};
ghost use Rattle.kp_text_laws.specs.ShownLaws as shown;
ghost use Rattle.kp_text_laws.specs.TableLaws.{ChangesReadBack, FullChainsCanonical};
ghost use Rattle.kp_text_laws.specs.TableLaws.{FullTableCanonical, FullTableReadsBack};
ghost use Rattle.kp_text_laws.specs.TableLaws.{FullTablesHaveSameBuiltIn, OwnTableCanonical};
ghost use Rattle.kp_text_laws.specs.TableLaws.{ProductIsPrintable, RebuiltReadsBack};

/// Events that are read have their numbers within their bounds, and so have the objects after them
/// and what is known of the objects' ports.
pub fn bounds()
    ensures read { ReadIsBounded }
    ensures objects { ObjectsAreBounded }
    ensures ports { PortsAreBounded }
{}

/// The product's names are names that chains may have.
pub fn product_is_printable()
    ensures { ProductIsPrintable }
{
    kp_walk_laws::hashed_prefixed();
}

/// In each family that a node has tables of, the tables of any objects have a text of their own,
/// alone and in the full table, and no other tables of the family have that text. So it is of each
/// table that is rebuilt. The built-in chains of all full tables of a family are the same.
pub fn full_tables_read_back()
    ensures chains { FullChainsCanonical }
    ensures ports { FullTableCanonical }
    ensures own { OwnTableCanonical }
    ensures objects { FullTableReadsBack }
    ensures rebuilt { RebuiltReadsBack }
    ensures built_in { FullTablesHaveSameBuiltIn }
{
    bounds();
    product_is_printable();
    kp_walk_laws::full_table_ranked();
    kp_walk_laws::full_table_ranked_objects();
    kp_walk_laws::known_ports();
    kp_restore::laws::table_texts_differ();
}

/// A family's part of the batch between the full tables of objects has a text of its own and is the
/// only one with it, and leads from the family's tables in the first to those in the second; the
/// whole batch leads from the first to the second, which stays ranked, and no rule of the second
/// jumps to a chain that the batch removes.
pub fn changes_read_back()
    ensures { ChangesReadBack }
{
    full_tables_read_back();
    kp_restore::laws::changes_are_canonical();
    kp_restore::laws::batch_texts_differ();
    kp_rules::laws::changes_lead_over();
}

/// So it is of the tables after any syncs of events whose numbers are within their bounds.
pub fn histories_read_back()
    ensures tables { shown.CoveredTablesReadBack }
    ensures batches { shown.CoveredChangesReadBack }
{
    bounds();
    full_tables_read_back();
    changes_read_back();
}

/// Whatever the lines of a replay are, its configuration, its events and the addresses of its
/// packets are within their bounds, and the addresses of a packet are of one family.
pub fn replays_are_bounded()
    ensures config { shown.ConfigIsBounded }
    ensures packets { shown.PacketIsBounded }
    ensures lines { shown.LinesAreBounded }
    ensures replays { shown.ReplaysAreBounded }
{
    bounds();
}

/// So what it shows of a family's nat and filter tables is the text of these and of no other, and
/// what it shows as batch is the text of the family's part of the last sync's edits and of no
/// others.
pub fn shown_texts_read_back()
    ensures sections { shown.SectionsAreTable }
    ensures tables { shown.ShownTablesReadBack }
    ensures batches { shown.ShownBatchesReadBack }
{
    histories_read_back();
    replays_are_bounded();
    product_is_printable();
}
