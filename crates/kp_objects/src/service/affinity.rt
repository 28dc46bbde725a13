//! The timeout of session affinity.
ghost use Rattle.std.specs.Prelude.{◌≡◌, codes, unwrap_or};
ghost use Rattle.kp_json.specs.Views.{place_of};
ghost use Rattle.kp_row_defs.specs.Fields.{inner, whole_in};
ghost use Rattle.kp_row_defs.specs.Reads.{Reads};
ghost use Rattle.kp_row_defs.specs.Rows.{row_fault, rows_fault};
ghost use Rattle.kp_event_defs.specs.ServiceText.{affinity_row, client_rows, timeout_rows, affinity_of, affinity_timeout};

use kp_fields::whole_field;
use kp_json::{FieldFault, Spot};
use std::alloc::Global;

/// The timeout in seconds where none is given: three hours.
const DEFAULT_TIMEOUT: u32 = 10_800;

/// The timeout of session affinity, in seconds.
pub(crate) fn timeout_field<'a>(alloc: Global, spec: &'a Spot<'a>) -> Result<u32, FieldFault>
    ensures { Reads (λ n. n) result (row_fault affinity_row (place_of spec.now))
        (affinity_timeout (place_of spec.now)) }
{
    match spec.field(alloc, "sessionAffinityConfig")? {
        None => Ok(DEFAULT_TIMEOUT),
        Some(config) => client_timeout(alloc, &config),
    }
}

fn client_timeout<'a>(alloc: Global, config: &'a Spot<'a>) -> Result<u32, FieldFault>
    ensures { Reads (λ n. n) result (rows_fault client_rows (place_of config.now))
        (unwrap_or (whole_in (codes "timeoutSeconds")
        (inner (codes "clientIP") (place_of config.now))) 10800) }
{
    match config.field(alloc, "clientIP")? {
        None => Ok(DEFAULT_TIMEOUT),
        Some(client) => timeout_here(alloc, &client),
    }
}

fn timeout_here<'a>(alloc: Global, client: &'a Spot<'a>) -> Result<u32, FieldFault>
    ensures { Reads (λ n. n) result (rows_fault timeout_rows (place_of client.now))
        (unwrap_or (whole_in (codes "timeoutSeconds") (place_of client.now)) 10800) }
{
    match whole_field(alloc, client, "timeoutSeconds", 1, 86_400)? {
        None => Ok(DEFAULT_TIMEOUT),
        Some(seconds) => Ok(seconds as u32),
    }
}

/// The timeout, where affinity is on.
pub(crate) fn affinity_of(is_on: bool, seconds: u32) -> Option<u32>
    ensures { result ≡ affinity_of is_on seconds }
{
    is_on.then_some(seconds)
}
