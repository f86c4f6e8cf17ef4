//! The results of both merges, where no allocation fails.
use crate::events::{Item, RangedItem};
use crate::signs::{Sign, items_of, ranged_items_of};
use markdown_base::fault::Fault;
use markdown_out::merge::{TextMergeStream, TextMergeWithOffset};
use markdown_test_helpers::notes::{push_event, push_placed};
use markdown_test_helpers::rows::Rows;
use std::alloc::{AllocError, Global};
use std::test::Fail;

/// An item of a merge.
trait Noted: Drop {
    /// Appends the item as a text: an event as tests write it, or the error.
    fn push_to(&self, alloc: Global, notes: &mut String) -> Result<(), AllocError>;
}

fn push_fault(alloc: Global, notes: &mut String, fault: Fault) -> Result<(), AllocError> {
    notes.push_str(format!(in alloc; "!{fault:?} ")?.as_str())
}

impl Noted for Item<'_> {
    fn push_to(&self, alloc: Global, notes: &mut String) -> Result<(), AllocError> {
        match self {
            Ok(event) => push_event(alloc, notes, event),
            Err(fault) => push_fault(alloc, notes, *fault),
        }
    }
}

impl Noted for RangedItem<'_> {
    fn push_to(&self, alloc: Global, notes: &mut String) -> Result<(), AllocError> {
        match self {
            Ok((event, range)) => push_placed(alloc, notes, event, range),
            Err(fault) => push_fault(alloc, notes, *fault),
        }
    }
}

/// Appends the result of one call of `next` as a text: None as a dot.
fn push_next<T: Noted, I: Iterator<Item = T>>(
    alloc: Global,
    merge: &mut I,
    notes: &mut String,
) -> Result<(), AllocError>
    requires can { I.can_next merge.old }
{
    match merge.next() {
        Some(item) => {
            let done = item.push_to(alloc, notes);
            drop(item);
            done
        }
        None => notes.push_str("."),
    }
}

/// Returns the results of this number of calls of `next` as a text.
fn call_all<T: Noted, I: Iterator<Item = T> + Drop>(
    alloc: Global,
    merge: I,
    calls: usize,
) -> Result<String, AllocError>
    requires can { (left : I) → I.can_next left }
{
    let mut merge = merge;
    let mut notes = String::new(alloc);
    for _ in 0..calls {
        push_next(alloc, &mut merge, &mut notes)?;
    }
    Ok(notes)
}

/// The items of an iterator, and the results of one call of `next` for each and one more: of a merge of the events,
/// and of a merge of the events with their ranges.
type Row = (&'static [Sign<'static>], &'static str, &'static str);

static ROWS: [Row; 5] = [
    (
        &[Sign::Rule, Sign::Words(""), Sign::Words(""), Sign::Rule],
        "<hr><hr>...",
        "<hr>0..1 <hr>3..4 ...",
    ),
    (&[Sign::Words(""), Sign::Words("")], "...", "..."),
    (
        &[Sign::Rule, Sign::Words(""), Sign::Rule],
        "<hr>[]<hr>.",
        "<hr>0..1 []1..2 <hr>2..3 .",
    ),
    (
        &[
            Sign::Words("a"),
            Sign::Words("b"),
            Sign::Refused(Fault::Memory),
            Sign::Words("c"),
        ],
        "+[ab]!Memory [c]..",
        "+[ab]0..2 !Memory [c]3..4 ..",
    ),
    // each stretch between Nones is merged by itself, and a None after an item that is held is not returned
    (
        &[
            Sign::Words("a"),
            Sign::Nothing,
            Sign::Words("b"),
            Sign::Words("c"),
            Sign::Nothing,
            Sign::Nothing,
        ],
        "[a]+[bc].....",
        "[a]0..1 +[bc]2..4 .....",
    ),
];

#[test]
fn events(rt: HostRuntime) -> Result<(), Fail> {
    let mut rows = Rows::new();
    for &(signs, wanted, _) in &ROWS {
        let merge = TextMergeStream::new(rt.alloc(), items_of(rt.alloc(), signs));
        let found = call_all(rt.alloc(), merge, signs.len() + 1)?;
        rows.gives_text(wanted, found, wanted);
    }
    rows.end()
}

#[test]
fn events_with_ranges(rt: HostRuntime) -> Result<(), Fail> {
    let mut rows = Rows::new();
    for &(signs, _, wanted) in &ROWS {
        let merge = TextMergeWithOffset::new(rt.alloc(), ranged_items_of(rt.alloc(), signs));
        let found = call_all(rt.alloc(), merge, signs.len() + 1)?;
        rows.gives_text(wanted, found, wanted);
    }
    rows.end()
}
