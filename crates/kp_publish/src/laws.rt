//! What ends a history of published tables, and what of it threads are given.
ghost use Rattle.std.specs.Prelude.{◌≡◌, ◌++◌, ◌∷◌, [], false, OnOk, OnErr};
ghost use Rattle.kp_publish.specs.Entries.{is_ended};
ghost use Rattle.kp_publish.specs.declared.entry.Entry.TheVariants.{End};

use crate::history::Publication;
use crate::publisher::Publisher;
use crate::reader::Reader;
use kp_base::NoMemory;
use std::sync::Wait;

/// Publishes every record that the publisher keeps, for the last time. Then it is closed and
/// publishes nothing more, and a reader that learns its front sees these records and no other.
/// After want of memory it isn't closed, and all is as before.
pub fn close<J: Publication, R: Wait>(publisher: &mut Publisher<J>, rt: &R) -> Result<(), NoMemory>
    requires open { is_ended publisher.old.newest ≡ false }
    ensures ok { OnOk result (publisher.new.newest ≡ publisher.old.newest ++ End ∷ []) }
    ensures published { OnOk result (publisher.new.published ≡ publisher.new.newest) }
    ensures err { OnErr result (publisher.new.published ≡ publisher.old.published) }
    ensures pending { OnErr result (publisher.new.newest ≡ publisher.old.newest) }
{
    publisher.close(rt)
}

/// A publisher and a reader may be sent to threads.
pub fn both_ends_are_sent<J: Publication + Send + Sync>() {
    is_sent::<Publisher<J>>();
    is_sent::<Reader<J>>();
}

/// Takes a type whose values may be sent.
fn is_sent<T: Send>() {}
