//! The merge over any iterator, of events with ranges or without.
ghost use Rattle.std.specs.Prelude.{◌≡◌, ◌+◌, ◌≤◌, ◌∷◌, [], IfOk, IfErr};
ghost use Rattle.std.specs.Option.{option_map};
ghost use Rattle.std.specs.Iterator.{size};
ghost use Rattle.markdown_out.specs.MergeNext.{CanMerge, MergesNext, ReadsItem, formed_view, left_count};
ghost use Rattle.markdown_out.specs.HeldItems.{placed_view, held_items};
ghost use Rattle.markdown_out.specs.TakenAnswers.{answer_count, held_count};
ghost use Rattle.markdown_out.specs.AdvanceSteps.{IsMerged};
ghost use Rattle.markdown_out.specs.MergeState.{merging_state};
ghost use Rattle.markdown_out.specs.TextForms.{boxed_through};

use super::event_range::{EventRange, MergeItem};
use super::held::{Held, Placed, Step, take_in};
use markdown_base::fault::Fault;
use std::alloc::{AllocError, Global};
use std::mem;

/// A merge of the items of an iterator.
#[derive(Drop)]
pub struct Merging<'a, I, P> {
    pub alloc: Global,
    pub iter: I,
    pub held: Held<'a, P>,
    /// Whether an allocation has failed; then `next` returns `None`.
    pub over: bool,
}

/// Splits the item of an iterator's result into event and range.
fn split_item<'a, T: MergeItem<'a>>(answer: Option<Result<T, Fault>>) -> Option<Placed<'a, T::At>>
    ensures view { option_map placed_view result ≡ option_map (formed_view T.parts) answer }
    ensures count { answer_count result ≡ answer_count answer }
{
    match answer {
        None => None,
        Some(Err(fault)) => Some(Err(fault)),
        Some(Ok(item)) => Some(Ok(item.into_parts())),
    }
}

/// Puts event and range together again as the item of a result.
fn rebuilt<'a, T: MergeItem<'a>>(answer: Option<Placed<'a, T::At>>) -> Option<Result<T, Fault>>
    ensures view { option_map (formed_view T.parts) result ≡ option_map placed_view answer.entry }
    ensures count { answer_count result ≡ answer_count answer.entry }
{
    match answer {
        None => None,
        Some(Err(fault)) => Some(Err(fault)),
        Some(Ok((event, range))) => Some(Ok(T::at(event, range))),
    }
}

/// Calls the iterator until the merge has a result to return; returns this, and what the merge then holds. Fails if an
/// allocation fails; then what was held is dropped.
fn advance<'a, T: MergeItem<'a>, I: Iterator<Item = Result<T, Fault>>>(
    alloc: Global,
    iter: &mut I,
    held: Held<'a, T::At>,
) -> Result<(Option<Result<T, Fault>>, Held<'a, T::At>), AllocError>
    requires { CanMerge I.next_gives I.can_next I.remaining iter.old }
    ensures passes { IfOk result (λ p. IsMerged (boxed_through T.At.through) (formed_view T.parts)
        I.next_gives (held_items held.entry) iter.old (option_map (formed_view T.parts) p.0 ∷ [])
        (held_items p.1) iter.new) }
    ensures again { CanMerge I.next_gives I.can_next I.remaining iter.new }
    ensures less { IfOk result (λ p. answer_count p.0 + held_count p.1 + size (I.remaining iter.new)
        ≤ held_count held.entry + size (I.remaining iter.old)) }
    ensures some { IfErr result (λ _. 1 ≤ held_count held.entry + size (I.remaining iter.old)) }
    ensures stops { IfErr result (λ _. ReadsItem I.next_gives iter.old iter.new) }
{
    let mut held = held;
    'reading: loop {
        let answer = split_item(iter.next());
        let (step, next) = take_in(alloc, held, answer)?;
        held = next;
        match step {
            Step::Again => {}
            Step::Give(given) => return Ok((rebuilt(given), held)),
        }
    }
}

impl<'a, I, P: EventRange> Merging<'a, I, P> {
    ghost use Rattle.std.specs.Prelude.{◌≡◌, [], false};
    ghost use Rattle.markdown_out.specs.MergeState.{merging_state};

    /// Returns a merge that has read nothing yet. Allocates nothing.
    pub fn new(alloc: Global, iter: I) -> Self
        ensures { merging_state result ≡ record { iter = iter; held = []; over = false } }
    {
        Merging {
            alloc,
            iter,
            held: Held::Nothing,
            over: false,
        }
    }
}

/// Returns the next item of a merge. If an allocation fails it is the error `Memory`, and every later call
/// returns `None`.
pub fn next_item<'a, T: MergeItem<'a>, I: Iterator<Item = Result<T, Fault>>>(
    merging: &mut Merging<'a, I, T::At>,
) -> Option<Result<T, Fault>>
    requires { CanMerge I.next_gives I.can_next I.remaining merging.old.iter }
    ensures gives { MergesNext (boxed_through T.At.through) (formed_view T.parts) I.next_gives
        (merging_state merging.old) result (merging_state merging.new) }
    ensures again { CanMerge I.next_gives I.can_next I.remaining merging.new.iter }
    ensures less { answer_count result + left_count I.remaining (merging_state merging.new)
        ≤ left_count I.remaining (merging_state merging.old) }
{
    if merging.over {
        return None;
    }
    let held = mem::replace(&mut merging.held, Held::Nothing);
    match advance(merging.alloc, &mut merging.iter, held) {
        Ok((given, held)) => {
            // nothing was held meanwhile
            drop(mem::replace(&mut merging.held, held));
            given
        }
        Err(_) => {
            merging.over = true;
            Some(Err(Fault::Memory))
        }
    }
}
