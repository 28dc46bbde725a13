//! The line of a health port.
ghost use Rattle.std.specs.Prelude.{◌≡◌, ◌++◌, map, OnErr, OnOk, string_bytes};
ghost use Rattle.std.specs.List.{flat_map};
ghost use Rattle.kp_health_defs.specs.HealthText as spec;
ghost use Rattle.kp_print.specs.Fronts.{HasFront};

use kp_base::NoMemory;
use kp_health_defs::Health;
use kp_print::{push, push_labelled};
use kp_report::push_object;

/// Adds the line of each of some health ports.
pub(crate) fn push_lines(text: &mut String, healths: &[&Health]) -> Result<(), NoMemory>
    ensures added { OnOk result (string_bytes text.new ≡ string_bytes text.old
        ++ flat_map spec.health_line (map (λ h. h.now) healths.now)) }
    ensures front { OnErr result (HasFront text.new text.old) }
{
    for health in healths {
        push_line(text, health)?;
    }
    Ok(())
}

/// Adds the line of a health port.
fn push_line(text: &mut String, health: &Health) -> Result<(), NoMemory>
    ensures added { OnOk result (string_bytes text.new
        ≡ string_bytes text.old ++ spec.health_line health.now) }
    ensures front { OnErr result (HasFront text.new text.old) }
{
    push(text, "health ")?;
    push_object(text, &health.service)?;
    push_labelled(text, " port ", health.port.get() as u64)?;
    push_labelled(text, ": ", health.status as u64)?;
    push_labelled(text, " local ", health.count)?;
    push(text, "\n")
}
