//! Lists of calls on a shelf, and of any kind of entry that is a call: playing them keeps the law of runs.
#![tactic(auto)]

mod answer;
mod call;
mod entry;
mod opening;
mod playing;
mod question;

pub use answer::{Answer, Grant};
pub use call::Call;
pub use entry::{Entry, have_bytes, have_words, open_and_play_entries, play_entries};
pub use opening::{every_shelf_holds_parts, opened_shelf_is_empty};
pub use playing::{open_and_play, play};
pub use question::Question;
