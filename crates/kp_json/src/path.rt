//! Paths of fields, and the texts that a tree holds.
ghost use Rattle.std.specs.Prelude.{◌≡◌, [], OnOk, string_bytes};
ghost use Rattle.kp_json.specs.Answers.{Gives};
ghost use Rattle.kp_json.specs.Paths.{way_path, member_path, item_path};

use crate::fault::FieldFault;
use kp_base::NoMemory;
use std::alloc::Global;
use std::marker::Model;

/// A text, which contracts see as the list of its bytes: a path, or a copy of a text of a tree.
#[derive(Debug, Drop)]
pub struct PathText {
    inner: String,
}

impl Model for PathText {
    ghost use Rattle.std.specs.Prelude.{List, ℕ};
    ghost use Rattle.std.specs.String.{string_bytes};

    ghost Value = { List ℕ };

    ghost view = { λ t. string_bytes t.inner };
}

impl PathText {
    /// The text with these bytes.
    pub fn of(alloc: Global, text: &str) -> Result<PathText, FieldFault>
        ensures { Gives (λ t. t) result (Ok text.now) }
    {
        Ok(PathText {
            inner: String::from_str(alloc, text)?,
        })
    }

    /// The text as a slice of std.
    pub fn as_str(&self) -> &str
        ensures { result.now ≡ self.now }
    {
        self.inner.as_str()
    }

    /// A copy of the text.
    pub fn copy(&self, alloc: Global) -> Result<PathText, FieldFault>
        ensures { Gives (λ t. t) result (Ok self.now) }
    {
        PathText::of(alloc, self.as_str())
    }
}

/// The way from the root of a tree to a position, the last step first. A path is written of it only
/// where a fault needs one.
#[derive(Clone, Copy)]
pub(crate) enum Way<'a> {
    Root,
    Member(&'a Way<'a>, &'a str),
    Item(&'a Way<'a>, u64),
}

impl<'a> Way<'a> {
    /// The path.
    pub(crate) fn path(&self, alloc: Global) -> Result<PathText, FieldFault>
        ensures { Gives (λ t. t) result (Ok (way_path self.now)) }
    {
        let mut text = String::new(alloc);
        self.write(alloc, &mut text)?;
        Ok(PathText { inner: text })
    }

    fn write(&self, alloc: Global, text: &mut String) -> Result<(), NoMemory>
        requires { string_bytes text.old ≡ [] }
        ensures { OnOk result (string_bytes text.new ≡ way_path self.now) }
    {
        match self {
            Way::Root => Ok(()),
            Way::Member(parent, name) => {
                parent.write(alloc, text)?;
                write_member(text, name)
            }
            Way::Item(parent, index) => {
                parent.write(alloc, text)?;
                write_item(alloc, text, *index)
            }
        }
    }
}

fn write_member(text: &mut String, name: &str) -> Result<(), NoMemory>
    ensures { OnOk result (string_bytes text.new ≡ member_path (string_bytes text.old) name.now) }
{
    if !text.is_empty() {
        text.push_str(".")?;
    }
    text.push_str(name)?;
    Ok(())
}

fn write_item(alloc: Global, text: &mut String, index: u64) -> Result<(), NoMemory>
    ensures { OnOk result (string_bytes text.new ≡ item_path (string_bytes text.old) index) }
{
    let step = format!(in alloc; "[{index}]")?;
    text.push_str(step.as_str())?;
    Ok(())
}
