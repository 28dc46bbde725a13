//! The lines that the program prints. Each `push_` call adds a line to a text that may be used
//! again for the next one; the `_text` call beside it gives the line alone.
#![tactic(auto)]

mod answer;
mod entry;
mod explain;
mod key;
mod live;
mod refusal;
mod slice;
mod sync;
mod totals;
mod trail;

pub use answer::{answer_text, push_answer};
pub use explain::{door_word, explain_text, push_explain};
pub use key::{push_object, push_port, push_quoted};
pub use live::{
    event_text, final_text, live_sync_text, push_event, push_final, push_live_sync, push_record,
    record_text,
};
pub use refusal::{push_refusal, refusal_text};
pub use slice::{push_slices, slices_text};
pub use sync::{push_sync, sync_text, usage_text};
pub use totals::{push_totals, totals_text};
pub use trail::{push_trail, trail_text};
