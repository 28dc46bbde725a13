//! Laws of histories over the definitions alone. Each is the contract of a function that does
//! nothing but name the laws that it rests on.
#![tactic(auto)]

ghost use Rattle.kp_history_laws.specs.DirtyLaws as dirty;
ghost use Rattle.kp_history_laws.specs.EventLaws as events;
ghost use Rattle.kp_history_laws.specs.HistoryLaws as histories;
ghost use Rattle.kp_history_laws.specs.KeptLaws as kept;
ghost use Rattle.kp_history_laws.specs.PortLaws as ports;
ghost use Rattle.kp_history_laws.specs.RunLaws as runs;

/// An event leaves the inputs of each port that it doesn't affect, and its contribution to the
/// tables of each family.
pub fn unaffected_ports()
    ensures service { events.UnaffectedService }
    ensures inputs { events.UnaffectedInputs }
    ensures rules { events.UnaffectedRules }
{
    kp_object_laws::own_keys();
}

/// The changed ports are those whose inputs differ, an event affects each port that it changes,
/// and both lists are in order.
pub fn changed_ports()
    ensures changed { ports.ChangedInputs }
    ensures unchanged { ports.UnchangedInputs }
    ensures none { ports.NoneChanged }
    ensures affected { ports.AffectedHoldChanged }
    ensures in_order { ports.ChangedInOrder }
    ensures affected_in_order { ports.AffectedInOrder }
{
    unaffected_ports();
}

/// The dirty ports of a family are those of which something else is known there, and so they are
/// among those whose inputs changed. They are in order.
pub fn dirty_ports()
    ensures dirty { dirty.DirtyInfos }
    ensures clean { dirty.CleanInfos }
    ensures changed { dirty.DirtyAreChanged }
    ensures none { dirty.NoneDirty }
    ensures in_order { dirty.DirtyInOrder }
{
    changed_ports();
}

/// What is known of the ports of some objects is found by the ports' names.
pub fn infos_by_name()
    ensures { dirty.InfosByName }
{
    kp_object_laws::ports_by_key();
}

/// The contributions of the ports of some objects are found by the ports' names.
pub fn rules_by_name()
    ensures { kept.RulesByName }
{
    kp_object_laws::ports_by_key();
}

/// Contributions to a family's tables that are kept from the objects before are those of the
/// objects after, once those of the ports that an event affects, or of the ports whose inputs
/// changed, are made anew.
pub fn kept_rules()
    ensures by_rules { kept.EnoughByRules }
    ensures affected { kept.AffectedAreEnough }
    ensures changed { kept.ChangedAreEnough }
{
    kp_object_laws::own_keys();
    unaffected_ports();
    rules_by_name();
}

/// An exact history stays exact where more events come, and where a record comes that covers the
/// rest of the events.
pub fn exact_histories()
    ensures at_first { histories.ExactWithoutRecords }
    ensures by_events { histories.ExactByEvents }
    ensures by_record { histories.ExactByRecord }
    ensures stays { histories.CoveredStays }
    ensures all { histories.CoveredByRecord }
{}

/// An exact history is the records of its events and counts, and nothing else. These records stay
/// where more events come, and one more sync adds one record.
pub fn sync_records()
    ensures only { histories.ExactIsRecords }
    ensures counts { histories.RecordsHaveCounts }
    ensures exact { histories.RecordsAreExact }
    ensures stay { histories.RecordsStay }
    ensures grow { histories.RecordsGrow }
{}

/// The table after each of the first records of an exact history is the full table of what they
/// cover, and counts them.
pub fn exact_tables()
    ensures full { histories.ExactTables }
    ensures counted { histories.TableCounted }
{
    kp_rules::laws::changes_lead_over();
}

/// Runs may be joined and split.
pub fn joined_runs()
    ensures join { runs.RunsJoin }
    ensures split { runs.RunsSplit }
{}

/// Every interleaving: whatever the order in which streams feed, events are taken, syncs are made
/// or refused, records are published and packets are read.
pub fn interleavings()
    ensures history { runs.HistoryIsExact }
    ensures touched { runs.TouchedHoldChanged }
    ensures tables { runs.TablesAreFull }
    ensures slices { runs.SlicesOfSteps }
    ensures streams { runs.StreamsKeepOrder }
    ensures published { runs.PublishedAreRecords }
    ensures seen { runs.SeenIsPublished }
    ensures grows { runs.SeenOnlyGrows }
    ensures reads { runs.ReadsDecide }
    ensures product { runs.ProductReadsDecide }
{
    kp_object_laws::own_keys();
    kp_object_laws::slices_now();
    kp_table_laws::ports_of_objects_make_the_table();
    unaffected_ports();
    kept_rules();
    exact_tables();
    kp_walk_laws::walk_decides_objects();
    kp_walk_laws::hashed_prefixed();
}
