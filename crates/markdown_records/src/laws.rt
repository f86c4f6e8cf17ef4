//! Laws of records. Each is a function without code, whose clauses state the law.
ghost use Rattle.markdown_records.specs.ReadsBack.{RecordsReadBack};
ghost use Rattle.markdown_records.specs.RecordEventsLaws.{ReturnsEventsLeft};

use crate::record_events::RecordEvents;

/// States that contents read back from their records.
pub fn records_read_back()
    ensures { RecordsReadBack }
{}

/// States what an iterator over records returns: up to its first None the events that are left, at
/// any time the first of them, and no error but that memory is refused, after which nothing is
/// left.
pub fn the_events_left_are_returned(events: &RecordEvents<'_>)
    ensures { ReturnsEventsLeft events.now }
{}
