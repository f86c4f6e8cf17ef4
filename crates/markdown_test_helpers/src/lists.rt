//! Iterators over lists whose items are made on demand, and checks of the items of any iterator.
//!
//! The type of the items is a parameter everywhere: the proof of a function in which an event is
//! dropped at the end of a scope takes seconds longer.
ghost use Rattle.std.specs.Iterator.{IsFinite};

use markdown_base::fault::Fault;
use std::alloc::{AllocError, Global};
use std::test::Fail;

/// A list of items by number, from 0 on.
pub trait Listed: Drop {
    type Item: PartialEq + Drop;

    /// Returns the item with this number, if the list has it.
    fn item(&self, at: usize) -> Option<Self::Item>;
}

/// An iterator over a list.
#[derive(Drop)]
pub struct Items<L> {
    list: L,
    at: usize,
    left: usize,
}

impl<L> Items<L> {
    /// Returns an iterator over the first `count` items of a list. It returns `None` for an item that
    /// the list does not have.
    pub fn of(list: L, count: usize) -> Items<L> {
        Items {
            list,
            at: 0,
            left: count,
        }
    }
}

impl<L: Listed> Iterator for Items<L> {
    type Item = L::Item;

    ghost use Rattle.std.specs.Prelude.{◌≤◌};
    ghost use Rattle.std.specs.Iterator.{at_most};

    ghost next_gives = { λ s r t. t.left ≤ s.left };

    ghost remaining = { λ s. at_most s.left };

    fn size_hint(&self) -> (usize, Option<usize>) {
        (0, None)
    }

    fn next(&mut self) -> Option<L::Item> {
        if self.left == 0 {
            return None;
        }
        self.left -= 1;
        let at = self.at;
        self.at = at.saturating_add(1);
        self.list.item(at)
    }
}

/// A list of items, as a list of results without an error.
#[derive(Drop)]
pub struct WithoutErrors<L> {
    list: L,
}

impl<L> WithoutErrors<L> {
    /// Returns the list with each item in an `Ok`.
    pub fn of(list: L) -> WithoutErrors<L> {
        WithoutErrors { list }
    }
}

impl<L: Listed> Listed for WithoutErrors<L> {
    type Item = Result<L::Item, Fault>;

    fn item(&self, at: usize) -> Option<Result<L::Item, Fault>> {
        let item = self.list.item(at)?;
        Some(Ok(item))
    }
}

/// Returns whether nothing was found.
pub fn is_nothing<T: Drop>(found: Option<T>) -> bool {
    found.is_none()
}

/// Returns whether what was found is what is wanted.
pub fn is_same<T: PartialEq + Drop>(wanted: Option<T>, found: T) -> bool {
    match wanted {
        Some(wanted) => wanted == found,
        None => false,
    }
}

/// Returns the texts that `say` returns for the items of an iterator, one after another.
pub fn said_of<
    T: Drop,
    I: Iterator<Item = T> + Drop,
    F: Fn(Global, &T) -> Result<String, AllocError> + Drop,
>(alloc: Global, items: I, say: F) -> Result<String, Fail>
    requires can { I.can_next items }
    requires ends { IsFinite (I.remaining items) }
    requires callable { F.IsAlwaysCallable say }
{
    let mut all = String::new(alloc);
    for item in items {
        let said = say(alloc, &item)?;
        all.push_str(said.as_str())?;
    }
    Ok(all)
}

/// Takes at most `most` items of an iterator, up to the first error. Returns the number of items taken.
pub fn take_some<T: Drop, I: Iterator<Item = Result<T, Fault>> + Drop>(
    items: I,
    most: usize,
) -> Result<usize, Fault>
    requires can { I.can_next items }
    requires ends { IsFinite (I.remaining items) }
{
    let mut taken = 0usize;
    if taken == most {
        return Ok(taken);
    }
    for item in items {
        drop(item?);
        taken = taken.saturating_add(1);
        if taken == most {
            return Ok(taken);
        }
    }
    Ok(taken)
}
