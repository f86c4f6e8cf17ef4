//! What a merge holds between two calls of its iterator, and what it does with the result of a call.
ghost use Rattle.std.specs.Prelude.{◌≡◌, ◌++◌, ◌∷◌, ◌≤◌, [], Some, None, IfOk, IfErr, MatchResult, map, string_bytes};
ghost use Rattle.std.specs.Option.{option_map};
ghost use Rattle.markdown_base.specs.CowText.{text_of};
ghost use Rattle.markdown_out.specs.Merge.{text_item, text_of_item, unless_empty};
ghost use Rattle.markdown_out.specs.HeldItems.{placed_view, held_items};
ghost use Rattle.markdown_out.specs.TakenAnswers.{placed_text, answer_items, given_answers, IsNoText};
ghost use Rattle.markdown_out.specs.TakenAnswers.{TakesIn, answer_count, held_count, given_count};
ghost use Rattle.markdown_out.specs.TextForms.{boxed_form};

use super::event_range::EventRange;
use markdown_base::cow_str::CowStr;
use markdown_base::event::Event;
use markdown_base::fault::Fault;
use std::alloc::{AllocError, Global};

/// An event with its range, or an error.
pub type Placed<'a, P> = Result<(Event<'a>, P), Fault>;

/// Two or more texts that have been joined.
#[derive(Drop)]
pub struct JoinedTexts<P> {
    /// The texts, one after another.
    pub bytes: String,
    /// The range of the first text.
    pub first: P,
    /// The range of the last text.
    pub last: P,
}

/// What has been read and not returned yet.
#[derive(Drop)]
pub enum Held<'a, P> {
    Nothing,
    Item(Placed<'a, P>),
    Texts(JoinedTexts<P>),
}

/// What a merge does next: it calls its iterator again, or returns this.
#[derive(Drop)]
pub enum Step<'a, P> {
    Again,
    Give(Option<Placed<'a, P>>),
}

/// Returns the text and its range where the item is a text, and otherwise the item as an `Err`.
fn into_text<'a, P: EventRange>(item: Placed<'a, P>) -> Result<(CowStr<'a>, P), Placed<'a, P>>
    ensures { MatchResult result (λ t. placed_view item.entry ≡ text_item (placed_text t))
        (λ x. (x ≡ item.entry) × (text_of_item (placed_view item.entry) ≡ None)) }
{
    match item {
        Err(fault) => Err(Err(fault)),
        Ok((event, range)) => match event {
            Event::Text(text) => Ok((text, range)),
            other => Err(Ok((other, range))),
        },
    }
}

/// Returns the text and its range where the iterator's result is a text, and otherwise the result as an `Err`.
fn text_or<'a, P: EventRange>(
    answer: Option<Placed<'a, P>>,
) -> Result<(CowStr<'a>, P), Option<Placed<'a, P>>>
    ensures { MatchResult result (λ t. option_map placed_view answer.entry
        ≡ Some (text_item (placed_text t)))
        (λ r. (r ≡ answer.entry) × IsNoText answer.entry) }
{
    match answer {
        None => Err(None),
        Some(item) => match into_text(item) {
            Ok(text) => Ok(text),
            Err(item) => Err(Some(item)),
        },
    }
}

/// Returns what a merge holds of the iterator's result until the next one is read.
fn hold<'a, P: EventRange>(answer: Option<Placed<'a, P>>) -> Held<'a, P>
    ensures items { held_items result ≡ answer_items answer.entry }
    ensures count { held_count result ≡ answer_count answer.entry }
{
    match answer {
        None => Held::Nothing,
        Some(item) => Held::Item(item),
    }
}

/// Joins two texts. The bytes of the first are not copied where it is boxed.
fn join<'a, P: EventRange>(
    alloc: Global,
    first: (CowStr<'a>, P),
    last: (CowStr<'a>, P),
) -> Result<JoinedTexts<P>, AllocError>
    ensures bytes { IfOk result (λ t. string_bytes t.bytes
        ≡ text_of first.entry.0 ++ text_of last.entry.0) }
    ensures first { IfOk result (λ t. t.first ≡ first.entry.1) }
    ensures last { IfOk result (λ t. t.last ≡ last.entry.1) }
{
    let (text, range) = first;
    let mut bytes = text.into_string(alloc)?;
    bytes.push_str(last.0.as_str())?;
    Ok(JoinedTexts {
        bytes,
        first: range,
        last: last.1,
    })
}

/// Appends another text to joined ones.
fn append<'a, P: EventRange>(
    texts: JoinedTexts<P>,
    last: (CowStr<'a>, P),
) -> Result<JoinedTexts<P>, AllocError>
    ensures bytes { IfOk result (λ t. string_bytes t.bytes
        ≡ string_bytes texts.bytes ++ text_of last.entry.0) }
    ensures first { IfOk result (λ t. t.first ≡ texts.first) }
    ensures last { IfOk result (λ t. t.last ≡ last.entry.1) }
{
    let mut bytes = texts.bytes;
    bytes.push_str(last.0.as_str())?;
    Ok(JoinedTexts {
        bytes,
        first: texts.first,
        last: last.1,
    })
}

/// Ends a run of joined texts: returns them as one text, or calls for the next item where all of them are empty.
fn close<'a, P: EventRange>(texts: JoinedTexts<P>) -> Step<'a, P>
    ensures count { given_count result ≤ 1 }
    ensures given { given_answers result
        ≡ map (λ x. Some x)
        (unless_empty (string_bytes texts.bytes)
        (P.through texts.first texts.last, boxed_form ∷ [])) }
{
    if texts.bytes.is_empty() {
        return Step::Again;
    }
    let range = texts.first.through(texts.last);
    Step::Give(Some(Ok((Event::Text(CowStr::from(texts.bytes)), range))))
}

/// Takes the iterator's next result where a single item is held.
fn after_item<'a, P: EventRange>(
    alloc: Global,
    item: Placed<'a, P>,
    answer: Option<Placed<'a, P>>,
) -> Result<(Step<'a, P>, Held<'a, P>), AllocError>
    ensures takes { IfOk result (λ p.
        TakesIn P.through (held_items (Held.Item item.entry)) answer.entry p.0 p.1) }
    ensures refused { IfErr result (λ _. 1 ≤ answer_count answer.entry) }
{
    match into_text(item) {
        Err(item) => Ok((Step::Give(Some(item)), hold(answer))),
        Ok(first) => match text_or(answer) {
            Err(answer) => {
                let given = Ok((Event::Text(first.0), first.1));
                Ok((Step::Give(Some(given)), hold(answer)))
            }
            Ok(last) => {
                let texts = join(alloc, first, last)?;
                Ok((Step::Again, Held::Texts(texts)))
            }
        },
    }
}

/// Takes the iterator's next result where joined texts are held.
fn after_texts<'a, P: EventRange>(
    texts: JoinedTexts<P>,
    answer: Option<Placed<'a, P>>,
) -> Result<(Step<'a, P>, Held<'a, P>), AllocError>
    ensures takes { IfOk result (λ p.
        TakesIn P.through (held_items (Held.Texts texts)) answer.entry p.0 p.1) }
    ensures refused { IfErr result (λ _. 1 ≤ answer_count answer.entry) }
{
    match text_or(answer) {
        Err(answer) => Ok((close(texts), hold(answer))),
        Ok(last) => {
            let texts = append(texts, last)?;
            Ok((Step::Again, Held::Texts(texts)))
        }
    }
}

/// Takes the iterator's next result, and returns what the merge does next and what it then holds. Joining texts fails
/// if an allocation fails; then what was held is dropped.
pub fn take_in<'a, P: EventRange>(
    alloc: Global,
    held: Held<'a, P>,
    answer: Option<Placed<'a, P>>,
) -> Result<(Step<'a, P>, Held<'a, P>), AllocError>
    ensures takes { IfOk result (λ p.
        TakesIn P.through (held_items held.entry) answer.entry p.0 p.1) }
    ensures refused { IfErr result (λ _. 1 ≤ answer_count answer.entry) }
{
    match held {
        Held::Item(item) => after_item(alloc, item, answer),
        Held::Texts(texts) => after_texts(texts, answer),
        Held::Nothing => match answer {
            None => Ok((Step::Give(None), Held::Nothing)),
            Some(item) => Ok((Step::Again, Held::Item(item))),
        },
    }
}
