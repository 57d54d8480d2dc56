//! What a run shows and what is recorded of it: events, records, findings, and who watches.
#![tactic(auto)]

mod access;
mod announcement;
mod event;
mod fault;
mod finding;
mod item;
mod numbers;
mod record;
mod sequence;
mod supply;
mod watcher;
mod words;

pub use access::{Access, Told};
pub use announcement::{Announcement, CONTEXTS, may_announce};
pub use event::Event;
pub use fault::{Diverged, Why};
pub use finding::{Finding, FindingKind, Kind};
pub use item::Item;
pub use numbers::{is_record, number};
pub use record::{EndCause, Record};
pub use sequence::Sequence;
pub use supply::{DmaWord, Need, Supplied};
pub use watcher::{Watcher, show};
pub use words::{of_words, to_words};
