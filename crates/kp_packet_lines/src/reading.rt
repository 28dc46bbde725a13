//! Reading plain objects, a token at a time.
ghost use Rattle.std.specs.Prelude.{◌≡◌, ◌<◌, ◌^◌, length, Some, IfSome, OnSome};
ghost use Rattle.serde_json.specs.Data.{number, object, unsigned};
ghost use Rattle.serde_json.specs.Read.{number_of, read};
ghost use Rattle.kp_packet_lines.specs.Plain.{members_in, members_of, plain_data, whole_items};
ghost use Rattle.kp_packet_lines.specs.Reading.{BeginsWith, HasItems, HasMembers};

use crate::numbers::LowNumbers;
use crate::object::{Plain, PlainObject};
use fast_float::Numeral;
use json::{Reader, Scratch, Token};
use kp_base::Items;
use std::alloc::Global;

/// How many members the first room of an object is for.
const MEMBERS: usize = 12;

/// The plain object that a text is. What is not taken may still be JSON: objects inside the object,
/// nulls, other numbers and other lists are left to other readers, and so is a text for which
/// memory runs out.
pub fn plain_object<'a>(
    alloc: Global,
    text: &'a str,
    scratch: &'a mut Scratch,
) -> Option<PlainObject<'a>>
    ensures { IfSome result (λ o. read text.now ≡ Some (object (members_in o))) }
{
    let mut reader = Reader::new(text, scratch).ok()?;
    let Some(Token::BeginObject) = reader.next() else {
        return None;
    };
    let members = members_here(alloc, &mut reader)?;
    match reader.next() {
        None => Some(PlainObject { members }),
        Some(_) => None,
    }
}

/// The members up to the brace that closes their object.
fn members_here<'a>(alloc: Global, reader: &mut Reader<'a>) -> Option<Vec<(&'a str, Plain<'a>)>>
    ensures { IfSome result (λ v. HasMembers reader.old (members_of v.items) reader.new) }
{
    let mut members = Vec::with_capacity(alloc, MEMBERS).ok()?;
    'members: while let Some(name) = reader.next_key().ok()? {
        let member = member_here(alloc, reader)?;
        members.push((name, member)).ok()?;
    }
    Some(members)
}

fn member_here<'a>(alloc: Global, reader: &mut Reader<'a>) -> Option<Plain<'a>>
    ensures value { IfSome result (λ m. BeginsWith 126 reader.old (plain_data m) reader.new) }
    ensures shorter { OnSome result (length reader.new < length reader.old) }
{
    match reader.next()? {
        Token::String(text) => Some(Plain::Text(text)),
        Token::Number(digits) => Some(Plain::Whole(whole_of(digits)?)),
        Token::Bool(flag) => Some(Plain::Flag(flag)),
        Token::BeginArray => Some(Plain::Numbers(numbers_here(alloc, reader)?)),
        _ => None,
    }
}

/// The numbers up to the bracket that closes their list.
fn numbers_here(alloc: Global, reader: &mut Reader<'_>) -> Option<LowNumbers>
    ensures value { IfSome result (λ d. HasItems reader.old (whole_items d.numbers) reader.new) }
    ensures shorter { OnSome result (length reader.new < length reader.old) }
{
    let mut numbers = Vec::new(alloc);
    'numbers: while !reader.take_end_array() {
        let number = number_here(reader)?;
        numbers.push(number).ok()?;
    }
    Some(LowNumbers {
        numbers: Items::from_vec(numbers),
    })
}

fn number_here(reader: &mut Reader<'_>) -> Option<u32>
    ensures value { IfSome result
        (λ n. BeginsWith 125 reader.old (number (unsigned n)) reader.new) }
    ensures shorter { OnSome result (length reader.new < length reader.old) }
    ensures low { IfSome result (λ n. n < 2 ^ 31) }
{
    let Token::Number(digits) = reader.next()? else {
        return None;
    };
    let whole = whole_of(digits)?;
    if whole < 1 << 31 {
        Some(whole as u32)
    } else {
        None
    }
}

/// The whole number below 2^64 that a number's text is, if it has no sign, fraction or exponent.
fn whole_of(digits: &str) -> Option<u64>
    ensures { IfSome result (λ n. number_of digits.now ≡ Some (unsigned n)) }
{
    let bytes = digits.as_bytes();
    if bytes.is_empty() || bytes[0] == b'-' {
        return None;
    }
    Numeral::scan(bytes).to_u64()
}
