//! The response of a health port.
ghost use Rattle.std.specs.Prelude.{◌≡◌, ◌++◌, IfOk, OnOk, string_bytes};
ghost use Rattle.kp_health_defs.specs.HealthText as spec;

use kp_base::{NoMemory, ObjectKey, Text};
use kp_health_defs::Health;
use kp_print::{push, push_labelled};
use kp_report::push_quoted;
use std::alloc::Global;

/// The response that a health port gives (RFC 9112): its status, and as a JSON text the Service and
/// how many addresses count.
pub fn response_text(alloc: Global, health: &Health) -> Result<Text, NoMemory>
    ensures { IfOk result (λ t. t ≡ spec.response_text_of health.now) }
{
    let body = body_text(alloc, health)?;
    let mut text = String::new(alloc);
    push_head(&mut text, health.status, body.len() as u64)?;
    push(&mut text, body.as_str())?;
    Text::from_string(text)
}

/// Adds the lines before a body of so many bytes.
fn push_head(text: &mut String, status: u16, size: u64) -> Result<(), NoMemory>
    ensures { OnOk result (string_bytes text.new
        ≡ string_bytes text.old ++ spec.head_text status size) }
{
    push(text, "HTTP/1.1 ")?;
    push(text, status_words(status))?;
    push_line_end(text)?;
    push(text, "Content-Type: application/json")?;
    push_line_end(text)?;
    push_labelled(text, "Content-Length: ", size)?;
    push_line_end(text)?;
    push_line_end(text)
}

fn push_line_end(text: &mut String) -> Result<(), NoMemory>
    ensures { OnOk result (string_bytes text.new ≡ string_bytes text.old ++ spec.line_end) }
{
    push(text, "\r\n")
}

/// A status, as the first line tells it.
fn status_words(status: u16) -> &'static str
    ensures { result.now ≡ spec.status_text status }
{
    if status == 200 {
        "200 OK"
    } else {
        "503 Service Unavailable"
    }
}

/// The body.
fn body_text(alloc: Global, health: &Health) -> Result<String, NoMemory>
    ensures { IfOk result (λ s. string_bytes s ≡ spec.body_text health.now) }
{
    let mut body = String::new(alloc);
    push(&mut body, "{\"service\":")?;
    push_service(alloc, &mut body, &health.service)?;
    push_labelled(&mut body, ",\"localEndpoints\":", health.count)?;
    push(&mut body, "}")?;
    Ok(body)
}

/// Adds a Service, as the body tells it.
fn push_service(alloc: Global, text: &mut String, key: &ObjectKey) -> Result<(), NoMemory>
    ensures { OnOk result (string_bytes text.new
        ≡ string_bytes text.old ++ spec.service_text key.now) }
{
    push(text, "{\"namespace\":")?;
    push_quoted(alloc, text, key.namespace.as_str())?;
    push(text, ",\"name\":")?;
    push_quoted(alloc, text, key.name.as_str())?;
    push(text, "}")
}
