//! Plain objects: JSON objects (RFC 8259) of texts, whole numbers, truth values and lists of small
//! whole numbers.
ghost use Rattle.std.specs.Prelude.{◌≡◌, bytes_eq, option_map};
ghost use Rattle.serde_json.specs.Find.{get_member};
ghost use Rattle.kp_packet_lines.specs.Plain.{members_in, plain_data};

use crate::numbers::LowNumbers;

/// The value of a member.
#[derive(Drop)]
pub enum Plain<'a> {
    Text(&'a str),
    Whole(u64),
    Flag(bool),
    Numbers(LowNumbers),
}

/// The members of an object in their order. Of those of one name the last counts.
#[derive(Drop)]
pub struct PlainObject<'a> {
    pub(crate) members: Vec<(&'a str, Plain<'a>)>,
}

impl<'a> PlainObject<'a> {
    /// The member of this name.
    pub fn member(&self, name: &str) -> Option<&Plain<'a>>
        ensures { option_map (λ m. plain_data m.now) result
            ≡ get_member name.now (members_in self.now) }
    {
        let mut left = self.members.len();
        while left > 0 {
            left -= 1;
            let member = &self.members[left];
            if is_text(member.0, name) {
                return Some(&member.1);
            }
        }
        None
    }

    /// Takes the member of this name out of its object, which is let go.
    pub fn into_member(self, name: &str) -> Option<Plain<'a>>
        ensures { option_map plain_data result ≡ get_member name.now (members_in self.entry) }
    {
        let mut members = self.members;
        'members: while let Some(member) = members.pop() {
            if is_text(member.0, name) {
                return Some(member.1);
            }
        }
        None
    }
}

/// Whether two texts are the same. Most names differ in their lengths.
fn is_text(one: &str, other: &str) -> bool
    ensures { result ≡ bytes_eq one.now other.now }
{
    one.len() == other.len() && one == other
}
