//! Nodes.
ghost use Rattle.std.specs.Prelude.{◌≡◌, codes};
ghost use Rattle.kp_json.specs.Answers.{Gives};
ghost use Rattle.kp_json.specs.Views.{place_of};
ghost use Rattle.kp_row_defs.specs.Fields.{inner, text_in};
ghost use Rattle.kp_row_defs.specs.Reads.{Reads};
ghost use Rattle.kp_row_defs.specs.Rows.{row_fault, rows_fault};
ghost use Rattle.kp_event_defs.specs.PodText.{node_metadata_rows, node_from_metadata, zone_row, zone_rows, read_node};

use kp_base::Text;
use kp_fields::{TextForm, check_texts, copied_option, copied_text, needed_text, text_field};
use kp_json::{FieldFault, Spot};
use kp_types::Node;
use std::alloc::Global;

/// The Node here, or the first fault of its rows.
pub fn node_of<'a>(alloc: Global, spot: &'a Spot<'a>) -> Result<Node, FieldFault>
    ensures { Gives (λ n. n) result (read_node (place_of spot.now)) }
{
    let metadata = spot.needed(alloc, "metadata")?;
    let node = node_here(alloc, &metadata)?;
    Ok(node)
}

fn node_here<'a>(alloc: Global, metadata: &'a Spot<'a>) -> Result<Node, FieldFault>
    ensures { Reads (λ n. n) result (rows_fault node_metadata_rows (place_of metadata.now))
        (node_from_metadata (place_of metadata.now)) }
{
    let name = needed_text(alloc, metadata, "name", TextForm::Name)?;
    check_texts(alloc, metadata, "labels")?;
    let zone = zone_field(alloc, metadata)?;
    Ok(Node {
        name: copied_text(alloc, name)?,
        zone,
    })
}

fn zone_field<'a>(alloc: Global, metadata: &'a Spot<'a>) -> Result<Option<Text>, FieldFault>
    ensures { Reads (λ z. z) result (row_fault zone_row (place_of metadata.now))
        (text_in (codes "topology.kubernetes.io/zone")
        (inner (codes "labels") (place_of metadata.now))) }
{
    match metadata.field(alloc, "labels")? {
        None => Ok(None),
        Some(labels) => zone_here(alloc, &labels),
    }
}

fn zone_here<'a>(alloc: Global, labels: &'a Spot<'a>) -> Result<Option<Text>, FieldFault>
    ensures { Reads (λ z. z) result (rows_fault zone_rows (place_of labels.now))
        (text_in (codes "topology.kubernetes.io/zone") (place_of labels.now)) }
{
    let zone = text_field(
        alloc,
        labels,
        "topology.kubernetes.io/zone",
        TextForm::Label,
    )?;
    copied_option(alloc, zone)
}
