//! Runs of Texts, and what becomes of them.
ghost use Rattle.std.specs.Prelude.{◌≡◌, ◌++◌, ◌∷◌, [], ◌+◌, ◌-◌, ◌≤◌, ◌<◌, IfOk, Ok, length, map};
ghost use Rattle.std.specs.Prelude.{string_bytes, true, Some};
ghost use Rattle.std.specs.Option.{option_copied};
ghost use Rattle.markdown_base.specs.Event.{event_view};
ghost use Rattle.markdown_autolinks.specs.Addresses.{address_destination, first_address};
ghost use Rattle.markdown_autolinks.specs.AutolinksNext.{item_read};
ghost use Rattle.markdown_autolinks.specs.LinkedEvents.{texts_events};
ghost use Rattle.std.specs.Str.{IsCharBoundary};
ghost use Rattle.markdown_autolinks.specs.LinkedRuns.{address_link_type, run_left, first_part};
ghost use Rattle.markdown_autolinks.specs.LinkedRuns.{is_as_in_source, is_cut_at};
ghost use Rattle.markdown_autolinks.specs.LinkedRuns.{is_of_source};
ghost use Rattle.markdown_autolinks.specs.LinkedRuns.{last_part, link_over, run_span, run_events};
ghost use Rattle.markdown_autolinks.specs.LinkedRuns.{run_text, searched_bytes};
ghost use Rattle.markdown_autolinks.specs.LinkedRuns.{shown_bytes, take_run, text_of_run};
ghost use Rattle.markdown_autolinks.specs.RunRead.{AreTexts, FitRanges, FitsRange, run_text_view};
ghost use Rattle.markdown_autolinks.specs.RunRead.{shown_text, texts_of};

use crate::address::{Address, AddressForm, first_address};
use markdown_base::cow_str::CowStr;
use markdown_base::event::Event;
use markdown_base::fault::Fault;
use markdown_base::tag::{LinkType, Tag, TagEnd};
use std::alloc::{AllocError, Global};
use std::collections::VecDeque;
use std::ops::Range;

/// An event with its range, or an error.
pub(crate) type Placed<'a> = Result<(Event<'a>, Range<usize>), Fault>;

/// A Text of a run.
#[derive(Drop)]
pub(crate) struct RunText<'t> {
    /// The bytes that are searched for addresses.
    searched: &'t str,
    /// The bytes that are shown.
    shown: &'t str,
    range: Range<usize>,
    /// Whether each byte that is searched is the one of the source there.
    exact: bool,
}

/// Returns the bytes of a Text; none of another event.
fn shown_text<'t>(event: &'t Event<'_>) -> &'t str
    ensures { result.now ≡ shown_text (event_view event.now) }
{
    match event {
        Event::Text(text) => text.as_str(),
        _ => "",
    }
}

/// Returns whether the source's bytes are searched of a Text: they are its own, or smart punctuation was made of them; what
/// begins with `&` was made of an entity.
fn is_as_in_source(shown: &str, bytes: &str) -> bool
    ensures { result ≡ is_as_in_source shown.now bytes.now }
{
    bytes == shown || bytes.as_bytes().first() != Some(&b'&')
}

/// Returns whether a range is one of the source, between characters, and not empty.
fn is_of_source(source: &str, range: &Range<usize>) -> bool
    ensures { result ≡ is_of_source source.now range.now }
{
    range.start < range.end
        && source.is_char_boundary(range.start)
        && source.is_char_boundary(range.end)
}

/// Returns a Text of a run, by its bytes and its range.
fn run_text<'t>(source: &'t str, shown: &'t str, range: &Range<usize>) -> RunText<'t>
    ensures text { run_text_view result ≡ run_text source.now (shown.now, range.now) }
    ensures fits { FitsRange (run_text_view result) }
{
    if is_of_source(source, range) {
        let bytes = &source[range.start..range.end];
        if is_as_in_source(shown, bytes) {
            return RunText {
                searched: bytes,
                shown,
                range: range.start..range.end,
                exact: true,
            };
        }
    }
    RunText {
        searched: shown,
        shown,
        range: range.start..range.end,
        exact: false,
    }
}

/// Returns the Texts of a run.
fn run_texts<'t>(
    alloc: Global,
    source: &'t str,
    run: &'t [(Event<'_>, Range<usize>)],
) -> Result<Vec<RunText<'t>>, AllocError>
    ensures texts { IfOk result (λ texts. map run_text_view texts.items
        ≡ map (run_text source.now) (texts_of run.now)) }
    ensures fit { IfOk result (λ texts. FitRanges (map run_text_view texts.items)) }
{
    let mut texts = Vec::new(alloc);
    for (event, range) in run {
        texts.push(run_text(source, shown_text(event), range))?;
    }
    Ok(texts)
}

/// Returns the bytes of a run that are searched.
fn searched_text(alloc: Global, run: &[RunText<'_>]) -> Result<String, AllocError>
    ensures { IfOk result (λ text. string_bytes text ≡ searched_bytes (map run_text_view run.now)) }
{
    let mut text = String::new(alloc);
    for part in run {
        text.push_str(part.searched)?;
    }
    Ok(text)
}

/// Returns the bytes of a run that are shown.
fn shown_text_of(alloc: Global, run: &[RunText<'_>]) -> Result<String, AllocError>
    ensures { IfOk result (λ text. string_bytes text ≡ shown_bytes (map run_text_view run.now)) }
{
    let mut text = String::new(alloc);
    for part in run {
        text.push_str(part.shown)?;
    }
    Ok(text)
}

/// Returns the range of a run: from where the first begins to where the last ends.
fn run_span(run: &[RunText<'_>]) -> Option<Range<usize>>
    ensures { result ≡ run_span (map run_text_view run.now) }
{
    let first = run.first()?;
    let last = run.last()?;
    Some(first.range.start..last.range.end)
}

/// Cuts a Text of a run in two.
fn cut_text<'t>(text: RunText<'t>, at: usize) -> (RunText<'t>, RunText<'t>)
    requires fits { FitsRange (run_text_view text) }
    requires cut { is_cut_at text.searched.now at ≡ true }
    ensures first { run_text_view result.0 ≡ first_part at (run_text_view text.entry) }
    ensures last { run_text_view result.1 ≡ last_part at (run_text_view text.entry) }
{
    let (first, last) = text.searched.split_at(at);
    let range = text.range;
    let exact = text.exact;
    let (first_range, last_range) = if exact {
        let middle = range.start + at;
        (range.start..middle, middle..range.end)
    } else {
        (range.start..range.end, range.start..range.end)
    };
    let first = RunText {
        searched: first,
        shown: first,
        range: first_range,
        exact,
    };
    let last = RunText {
        searched: last,
        shown: last,
        range: last_range,
        exact,
    };
    (first, last)
}

/// Takes the first bytes of a run, as many as `count` of those that are searched.
fn take_part<'t>(
    alloc: Global,
    rest: &mut VecDeque<RunText<'t>>,
    count: usize,
) -> Result<Vec<RunText<'t>>, AllocError>
    requires fit { FitRanges (map run_text_view rest.old.items) }
    requires cut { is_cut_at (searched_bytes (map run_text_view rest.old.items)) count ≡ true }
    ensures part { IfOk result (λ part. map run_text_view part.items
        ≡ take_run count (map run_text_view rest.old.items)) }
    ensures left { IfOk result (λ part. map run_text_view rest.new.items
        ≡ run_left count (map run_text_view rest.old.items)) }
    ensures fit { IfOk result (λ part. FitRanges (map run_text_view rest.new.items)) }
{
    let mut part = Vec::new(alloc);
    let mut left = count;
    'taking: while left > 0 {
        match rest.pop_front() {
            None => return Ok(part),
            Some(text) => {
                let length = text.searched.len();
                if length <= left {
                    left -= length;
                    part.push(text)?;
                } else {
                    let (first, last) = cut_text(text, left);
                    rest.push_front(last)?;
                    part.push(first)?;
                    return Ok(part);
                }
            }
        }
    }
    Ok(part)
}

/// Appends one Text for a run, unless no bytes are shown of it.
fn push_text<'a>(
    alloc: Global,
    run: &[RunText<'_>],
    made: &mut Vec<Placed<'a>>,
) -> Result<(), AllocError>
    ensures { IfOk result (λ done. map item_read made.new.items ≡ map item_read made.old.items
        ++ map (λ e. Ok e) (text_of_run (map run_text_view run.now))) }
{
    let Some(range) = run_span(run) else {
        return Ok(());
    };
    let shown = shown_text_of(alloc, run)?;
    if !shown.is_empty() {
        made.push(Ok((Event::Text(CowStr::from(shown)), range)))?;
    }
    Ok(())
}

/// Returns how the link of an address is said to be written.
fn link_type_of(form: AddressForm) -> LinkType
    ensures { result ≡ address_link_type form }
{
    match form {
        AddressForm::Web | AddressForm::Www => LinkType::Autolink,
        AddressForm::Mail => LinkType::Email,
    }
}

/// Returns where the link of an address in a text leads.
fn destination_of(alloc: Global, text: &str, address: Address) -> Result<String, AllocError>
    requires name { IsCharBoundary text.now address.name }
    requires end { IsCharBoundary text.now address.end }
    requires order { address.name ≤ address.end }
    ensures { IfOk result (λ made. string_bytes made ≡ address_destination text.now address) }
{
    let before = match address.form {
        AddressForm::Www => "http://",
        AddressForm::Web | AddressForm::Mail => "",
    };
    let mut made = String::from_str(alloc, before)?;
    made.push_str(&text[address.name..address.end])?;
    Ok(made)
}

/// Appends a link over a run, with one Text.
fn push_link<'a>(
    alloc: Global,
    link_type: LinkType,
    destination: String,
    run: &[RunText<'_>],
    made: &mut Vec<Placed<'a>>,
) -> Result<(), AllocError>
    ensures { IfOk result (λ done. map item_read made.new.items ≡ map item_read made.old.items
        ++ map (λ e. Ok e) (link_over link_type (string_bytes destination)
        (map run_text_view run.now))) }
{
    let Some(range) = run_span(run) else {
        return Ok(());
    };
    let text = searched_text(alloc, run)?;
    let link = Tag::Link {
        link_type,
        dest_url: CowStr::from(destination),
        title: CowStr::Borrowed(""),
        id: CowStr::Borrowed(""),
    };
    made.push(Ok((Event::Start(link), range.start..range.end)))?;
    made.push(Ok((Event::Text(CowStr::from(text)), range.start..range.end)))?;
    made.push(Ok((Event::End(TagEnd::Link), range)))?;
    Ok(())
}

/// Appends the events of a run in which this address is the first: before each address what is between as one Text, then its
/// link, and what is left at last.
fn push_linked<'a>(
    alloc: Global,
    searched: &str,
    first: Address,
    texts: Vec<RunText<'_>>,
    made: &mut Vec<Placed<'a>>,
) -> Result<(), AllocError>
    requires fit { FitRanges (map run_text_view texts.items) }
    requires searched { searched.now ≡ searched_bytes (map run_text_view texts.items) }
    requires first { first_address searched.now 0 ≡ Some first }
    ensures { IfOk result (λ done. map item_read made.new.items ≡ map item_read made.old.items
        ++ map (λ e. Ok e) (run_events (map run_text_view texts.entry.items))) }
{
    let mut rest = VecDeque::from_vec(texts);
    let mut used = 0;
    let mut found = Some(first);
    'addresses: while let Some(address) = found {
        let between = take_part(alloc, &mut rest, address.start - used)?;
        push_text(alloc, between.as_slice(), made)?;
        let linked = take_part(alloc, &mut rest, address.end - address.start)?;
        let destination = destination_of(alloc, searched, address)?;
        push_link(
            alloc,
            link_type_of(address.form),
            destination,
            linked.as_slice(),
            made,
        )?;
        used = address.end;
        found = first_address(searched.as_bytes(), used);
    }
    let last = take_part(alloc, &mut rest, searched.len() - used)?;
    push_text(alloc, last.as_slice(), made)?;
    Ok(())
}

/// Appends what becomes of a run of Texts of this source.
pub(crate) fn push_run<'a>(
    alloc: Global,
    source: &str,
    mut run: Vec<(Event<'a>, Range<usize>)>,
    made: &mut Vec<Placed<'a>>,
) -> Result<(), AllocError>
    requires texts { AreTexts run.items }
    ensures { IfOk result (λ done. map item_read made.new.items ≡ map item_read made.old.items
        ++ map (λ e. Ok e) (texts_events source.now (texts_of run.entry.items))) }
{
    let texts = run_texts(alloc, source, run.as_slice())?;
    let searched = searched_text(alloc, texts.as_slice())?;
    if let Some(first) = first_address(searched.as_bytes(), 0) {
        return push_linked(alloc, searched.as_str(), first, texts, made);
    }
    if run.len() != 1 {
        push_text(alloc, texts.as_slice(), made)?;
        return Ok(());
    }
    drop(texts);
    let Some(event) = run.pop() else {
        return Ok(());
    };
    made.push(Ok(event))?;
    Ok(())
}
