//! What is added to a text.
ghost use Rattle.std.specs.Prelude.{◌≡◌, ◌++◌, OnErr, OnOk, string_bytes, decimal};
ghost use Rattle.kp_choice_defs.specs.AddressText as addresses;
ghost use Rattle.kp_print.specs.Fronts.{HasFront};

use crate::address::{address_text, endpoint_text};
use itoa::Buffer;
use kp_base::{Address, Endpoint, NoMemory};

/// Adds a text.
pub fn push(text: &mut String, added: &str) -> Result<(), NoMemory>
    ensures added { OnOk result (string_bytes text.new ≡ string_bytes text.old ++ added.now) }
    ensures front { OnErr result (HasFront text.new text.old) }
{
    Ok(text.push_str(added)?)
}

/// Adds the decimal digits of a number.
pub fn push_number(text: &mut String, number: u64) -> Result<(), NoMemory>
    ensures added { OnOk result (string_bytes text.new ≡ string_bytes text.old ++ decimal number) }
    ensures front { OnErr result (HasFront text.new text.old) }
{
    let mut buffer = Buffer::new();
    push(text, buffer.format(number))
}

/// Adds words and then a number.
pub fn push_labelled(text: &mut String, label: &str, number: u64) -> Result<(), NoMemory>
    ensures added { OnOk result (string_bytes text.new
        ≡ string_bytes text.old ++ (label.now ++ decimal number)) }
    ensures front { OnErr result (HasFront text.new text.old) }
{
    push(text, label)?;
    push_number(text, number)
}

/// Adds an address.
pub fn push_address(text: &mut String, address: &Address) -> Result<(), NoMemory>
    ensures added { OnOk result (string_bytes text.new
        ≡ string_bytes text.old ++ addresses.address_text address.now) }
    ensures front { OnErr result (HasFront text.new text.old) }
{
    push(text, address_text(address).as_str())
}

/// Adds an endpoint.
pub fn push_endpoint(text: &mut String, endpoint: &Endpoint) -> Result<(), NoMemory>
    ensures added { OnOk result (string_bytes text.new
        ≡ string_bytes text.old ++ addresses.endpoint_text endpoint.now) }
    ensures front { OnErr result (HasFront text.new text.old) }
{
    push(text, endpoint_text(endpoint).as_str())
}
