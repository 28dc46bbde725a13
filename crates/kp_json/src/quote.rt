//! Texts as JSON writes them.
ghost use Rattle.std.specs.Prelude.{◌≡◌, IfOk, string_bytes};
ghost use Rattle.json.specs.Print.{quoted};

use kp_base::NoMemory;
use serde_json::Value;
use std::alloc::Global;

/// The text as a JSON string, in quotation marks and with escapes.
pub fn quoted_text(alloc: Global, text: &str) -> Result<String, NoMemory>
    ensures { IfOk result (λ s. string_bytes s ≡ quoted text.now) }
{
    let value = Value::String(String::from_str(alloc, text)?);
    Ok(value.to_string(alloc)?)
}
