//! The tests of names, port names and label values.
ghost use Rattle.std.specs.Prelude.{◌≡◌};
ghost use Rattle.std.specs.List.{list_all};
ghost use Rattle.kp_base.specs.Grammar.{is_name_text, is_port_name_text, is_label_text, ends_well};
ghost use Rattle.kp_base.specs.Grammar as spec;

/// Whether the text names an object: the bytes, the length and the ends of a DNS subdomain
/// (RFC 1123, as Kubernetes has it).
pub fn is_name(text: &[u8]) -> bool
    ensures { result ≡ is_name_text text.now }
{
    if text.is_empty() || text.len() > 253 {
        return false;
    }
    are_name_bytes(text) && ends_well(text)
}

/// Whether the text can name a port. The empty text is the name of an unnamed port.
pub fn is_port_name(text: &[u8]) -> bool
    ensures { result ≡ is_port_name_text text.now }
{
    if text.len() > 63 {
        return false;
    }
    are_dashed_bytes(text)
}

/// Whether the text can be the value of a label.
pub fn is_label_value(text: &[u8]) -> bool
    ensures { result ≡ is_label_text text.now }
{
    if text.is_empty() || text.len() > 63 {
        return false;
    }
    are_label_bytes(text)
}

fn is_alphanumeric(byte: u8) -> bool
    ensures { result ≡ spec.is_alphanumeric byte }
{
    byte.is_ascii_lowercase() || byte.is_ascii_digit()
}

fn is_dashed_byte(byte: u8) -> bool
    ensures { result ≡ spec.is_dashed_byte byte }
{
    is_alphanumeric(byte) || byte == b'-'
}

fn is_name_byte(byte: u8) -> bool
    ensures { result ≡ spec.is_name_byte byte }
{
    is_dashed_byte(byte) || byte == b'.'
}

fn is_label_byte(byte: u8) -> bool
    ensures { result ≡ spec.is_label_byte byte }
{
    is_name_byte(byte) || byte.is_ascii_uppercase() || byte == b'_'
}

/// Whether a text that isn't empty begins and ends with a letter or a digit.
fn ends_well(text: &[u8]) -> bool
    ensures { result ≡ ends_well text.now }
{
    match (text.first(), text.last()) {
        (Some(first), Some(last)) => is_alphanumeric(*first) && is_alphanumeric(*last),
        _ => false,
    }
}

fn are_name_bytes(text: &[u8]) -> bool
    ensures { result ≡ list_all spec.is_name_byte text.now }
{
    text.iter().all(|byte| is_name_byte(*byte))
}

fn are_dashed_bytes(text: &[u8]) -> bool
    ensures { result ≡ list_all spec.is_dashed_byte text.now }
{
    text.iter().all(|byte| is_dashed_byte(*byte))
}

fn are_label_bytes(text: &[u8]) -> bool
    ensures { result ≡ list_all spec.is_label_byte text.now }
{
    text.iter().all(|byte| is_label_byte(*byte))
}
