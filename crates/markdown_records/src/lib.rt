//! Events as records of 24 bytes, which programs in other languages read and write.
#![tactic(auto)]

mod check;
mod decode;
mod draft;
mod encode;
mod events;
mod fault;
mod form;
mod groups;
pub mod laws;
mod link;
mod numbers;
mod numbers_read;
mod read_entries;
mod read_events;
mod read_parts;
mod read_tags;
mod record;
mod record_answers;
mod record_definitions;
mod record_events;
mod slices;
mod starts;
mod texts;

pub use decode::RecordedText;
pub use encode::Records;
pub use fault::RecordFault;
pub use read_entries::{Entry, Labelled};
pub use record_answers::{Answered, RecordAnswers};
pub use record_definitions::RecordDefinitions;
pub use record_events::RecordEvents;
