//! What is checked for the calls of each kind: what they return, the items of iterators, compared with those of a run
//! without refusals, and the HTML after an old text. The types are parameters, so that no event is dropped here.
ghost use Rattle.std.specs.Iterator.{IsFinite};

use markdown_base::event::Event;
use markdown_base::fault::Fault;
use markdown_out::html::push_html;
use markdown_test_helpers::lists::is_nothing;
use std::alloc::{AllocError, Global};
use std::ops::Range;

/// Appends an item to a list.
pub fn put<T: Drop>(list: &mut Vec<T>, item: T) -> Result<(), AllocError> {
    Ok(list.push(item)?)
}

/// Returns whether a call returned a value, or an allocation failed.
pub fn is_made<T: Drop>(made: Result<T, Fault>) -> bool {
    match made {
        Ok(made) => {
            drop(made);
            true
        }
        Err(fault) => fault == Fault::Memory,
    }
}

/// Returns whether a call returned what is wanted, or an allocation failed; None where what is wanted was not made.
pub fn check_try<T: PartialEq + Drop, E: Drop>(
    wanted: Result<T, E>,
    made: Result<T, Fault>,
) -> Option<bool> {
    let wanted = wanted.ok()?;
    match made {
        Ok(made) => Some(made == wanted),
        Err(fault) => Some(fault == Fault::Memory),
    }
}

/// Returns all items of an iterator in a list.
pub fn all_of<T: Drop, I: Iterator<Item = Result<T, Fault>> + Drop>(
    alloc: Global,
    made: Result<I, Fault>,
) -> Option<Vec<T>>
    requires can { (left : I) → I.can_next left }
    requires ends { (left : I) → IsFinite (I.remaining left) }
{
    let mut all = Vec::new(alloc);
    for item in made.ok()? {
        all.push(item.ok()?).ok()?;
    }
    Some(all)
}

/// How items compare with those of a run without refusals.
#[derive(Clone, Copy, PartialEq, Drop)]
pub enum Outcome {
    /// They are the same.
    Whole,
    /// They are a prefix, followed by `Memory` and then nothing.
    Cut,
    Wrong,
}

/// An item of an iterator.
pub trait Given: PartialEq + Drop {
    /// Returns whether this is a text that the other begins with: an error has ended its run.
    fn begins(&self, whole: &Self) -> bool;
}

impl Given for Event<'static> {
    fn begins(&self, whole: &Event<'static>) -> bool {
        match (self, whole) {
            (Event::Text(text), Event::Text(whole)) => whole.as_str().starts_with(text.as_str()),
            _ => false,
        }
    }
}

impl Given for (Event<'static>, Range<usize>) {
    fn begins(&self, whole: &(Event<'static>, Range<usize>)) -> bool {
        self.0.begins(&whole.0) && self.1.start == whole.1.start && self.1.end <= whole.1.end
    }
}

/// Returns how an item compares with the one at its position in a list. `cuts` says whether it may be a text cut short.
fn beside<T: Given>(full: &[T], at: usize, item: T, cuts: bool) -> Outcome {
    let Some(whole) = full.get(at) else {
        return Outcome::Wrong;
    };
    if *whole == item {
        return Outcome::Whole;
    }
    if cuts && item.begins(whole) {
        return Outcome::Cut;
    }
    Outcome::Wrong
}

/// Returns whether three calls return None.
fn stays_over<T: Drop, I: Iterator<Item = T>>(items: &mut I) -> bool
    requires { (left : I) → I.can_next left }
{
    is_nothing(items.next()) && is_nothing(items.next()) && is_nothing(items.next())
}

/// Returns how items compare with those of a run without refusals. Only None may follow them. If `cuts`, as in a merge,
/// the last item of a prefix may be a text cut short.
pub fn walk<T: Given, I: Iterator<Item = Result<T, Fault>>>(
    items: &mut I,
    full: &[T],
    cuts: bool,
) -> Outcome
    requires can { (left : I) → I.can_next left }
    requires ends { (left : I) → IsFinite (I.remaining left) }
{
    let mut last = Outcome::Whole;
    'giving: for at in 0..1000 {
        match items.next() {
            Some(Ok(item)) => {
                if last != Outcome::Whole {
                    return Outcome::Wrong;
                }
                last = beside(full, at, item, cuts);
            }
            Some(Err(fault)) => {
                if fault == Fault::Memory && last != Outcome::Wrong && stays_over(items) {
                    return Outcome::Cut;
                }
                return Outcome::Wrong;
            }
            None => {
                if at == full.len() && last == Outcome::Whole && stays_over(items) {
                    return Outcome::Whole;
                }
                return Outcome::Wrong;
            }
        }
    }
    Outcome::Wrong
}

/// Returns whether the items of an iterator are these, or a prefix of them.
pub fn gives<T: Given, I: Iterator<Item = Result<T, Fault>> + Drop>(
    made: Result<I, Fault>,
    full: &[T],
    cuts: bool,
) -> bool
    requires can { (left : I) → I.can_next left }
    requires ends { (left : I) → IsFinite (I.remaining left) }
{
    match made {
        Ok(items) => {
            let mut items = items;
            walk(&mut items, full, cuts) != Outcome::Wrong
        }
        Err(fault) => fault == Fault::Memory,
    }
}

/// Returns whether the items of an iterator are those of the first, or a prefix of them.
pub fn repeats<T: Given, I: Iterator<Item = Result<T, Fault>> + Drop>(
    alloc: Global,
    first: Result<I, Fault>,
    second: Result<I, Fault>,
    cuts: bool,
) -> Option<bool>
    requires can { (left : I) → I.can_next left }
    requires ends { (left : I) → IsFinite (I.remaining left) }
{
    let full = all_of(alloc, first)?;
    Some(gives(second, full.as_slice(), cuts))
}

/// Returns whether the old text is followed by all of the HTML; or by a prefix of it, and the error is `Memory`. None
/// where there is no HTML or no old text.
pub fn writes<'a, I: Iterator<Item = Result<Event<'a>, Fault>> + Drop>(
    alloc: Global,
    html: Option<String>,
    events: Result<I, Fault>,
) -> Option<bool>
    requires can { (left : I) → I.can_next left }
    requires ends { (left : I) → IsFinite (I.remaining left) }
{
    let html = html?;
    let mut written = String::from_str(alloc, "old").ok()?;
    let ended = match events {
        Ok(events) => push_html(alloc, &mut written, events),
        Err(fault) => Err(fault),
    };
    let is_so = match written.as_str().strip_prefix("old") {
        None => false,
        Some(front) => match ended {
            Ok(()) => front == html.as_str(),
            Err(fault) => fault == Fault::Memory && html.as_str().starts_with(front),
        },
    };
    Some(is_so)
}
