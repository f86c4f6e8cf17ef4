//! Link reference definitions (CommonMark 4.7), read from the lines of a paragraph. The functions that return a
//! `Result` fail only if an allocation fails.
ghost use Rattle.std.specs.Prelude.{◌≡◌, ◌==◌, ◌≤◌, ◌+◌, ℕ, MatchOption, IfSome, None, List, [], ◌∷◌, drop, length};
ghost use Rattle.std.specs.Prelude.{IfOk, true, false, string_bytes, codes, ◌<◌, ◌^◌, ◌++◌};
ghost use Rattle.markdown_scan.specs.Backslash.{is_bare};
ghost use Rattle.markdown_scan.specs.Beginnings.{begins_with};
ghost use Rattle.markdown_scan.specs.LineStart.{is_line_over};
ghost use Rattle.markdown_scan.specs.declared.entity.EntityNames.{EntityNames};
ghost use Rattle.markdown_lines.specs.DefinitionRules.{with_label};
ghost use Rattle.markdown_lines.specs.HeldDefinitions.{IsFirstDefinition};
ghost use Rattle.markdown_lines.specs.HeldLines.{AreHeldLines, AreLinesOfSource, held_text};
ghost use Rattle.markdown_lines.specs.SourceLines.{SourceLine};
ghost use Rattle.markdown_lines.specs.HeldLabels.{IsDecided, LabelGoesOn, escaped_after, label_of};
ghost use Rattle.markdown_lines.specs.HeldLines.{IsBracketPlace};
ghost use Rattle.markdown_lines.specs.HeldLabels.{HasNoColon, IsLabelRead, label_read};
ghost use Rattle.markdown_lines.specs.HeldPlaces.{IsPastColon, IsSpotAfter};
ghost use Rattle.markdown_lines.specs.HeldTitles.{IsDefinedTail, defined_by};
ghost use Rattle.std.specs.Option.{option_map};
ghost use Rattle.markdown_base.specs.CowText.{text_of};
ghost use Rattle.markdown_scan.specs.Unescape.{unescaped};
ghost use Rattle.markdown_lines.specs.DefinitionRules.{closing_mark, ends_its_line, separation, tail_of, title_tail};
ghost use Rattle.markdown_lines.specs.HeldPlaces.{IsEnd, IsNextLine, IsPast, IsPlace, count_to, rest_at};
ghost use Rattle.markdown_lines.specs.HeldPlaces.{IsBetween, IsLineRest, destination_found, held_between};
ghost use Rattle.markdown_lines.specs.HeldPlaces.{some_destination};
ghost use Rattle.markdown_lines.specs.HeldTitles.{IsTail, IsTitle, TitleGoesOn, tail_found, title_between};
ghost use Rattle.markdown_lines.specs.HeldTitles.{title_size};

use crate::bytes::{byte_at, bytes_of, content_start, is_white, part_of};
use crate::held_line::HeldLine;
use markdown_base::cow_str::CowStr;
use markdown_scan::destination::scan_link_destination;
use markdown_scan::entity::EntityNames;
use markdown_scan::label::scan_link_label;
use markdown_scan::line_rule::{NoPrefix, OneLine};
use markdown_scan::unescape::unescape;
use std::alloc::{AllocError, Global};

/// A link reference definition, with the byte offset at which it ends and its number of lines.
#[derive(Drop)]
pub struct Definition<'a> {
    pub label: CowStr<'a>,
    pub destination: CowStr<'a>,
    pub title: Option<CowStr<'a>>,
    pub end: usize,
    pub lines: usize,
}

/// A place in the lines of a paragraph: the number of a line, from 0, and a byte offset of the text.
#[derive(Clone, Copy, Drop)]
struct Spot {
    line: usize,
    at: usize,
}

/// Where a title is: at its opening mark, and up to the spot after its closing mark.
#[derive(Clone, Copy, Drop)]
struct TitlePlace {
    opening: Spot,
    end: Spot,
}

/// What follows a destination: the end of the definition, and the opening mark of its title, if it has one.
#[derive(Clone, Copy, Drop)]
struct Tail {
    end: Spot,
    title: Option<Spot>,
}

/// Returns the spot after spaces, tabs and at most one line ending, or `None` after the last line.
fn past_space(text: &str, lines: &[HeldLine], spot: Spot) -> Option<Spot>
    ensures value { IsPlace text.now lines.now spot → MatchOption result
        (drop (separation (rest_at text.now lines.now spot)) (rest_at text.now lines.now spot) ≡ [])
        (IsPast text.now lines.now spot (separation (rest_at text.now lines.now spot))) }
    ensures moved { IsPlace text.now lines.now spot → IfSome result
        (λ after. (after.at == spot.at) ≡ (separation (rest_at text.now lines.now spot) == 0)) }
{
    let line = lines.get(spot.line)?;
    let at = content_start(text, spot.at, line.stop);
    if at < line.stop {
        return Some(Spot {
            line: spot.line,
            at,
        });
    }
    let next = spot.line.saturating_add(1);
    Some(Spot {
        line: next,
        at: lines.get(next)?.start,
    })
}

/// Returns whether the rest of the line after a spot is spaces and tabs.
fn is_at_end(text: &str, lines: &[HeldLine], spot: Spot) -> bool
    ensures { IsPlace text.now lines.now spot
        → result ≡ ends_its_line (rest_at text.now lines.now spot) }
{
    match lines.get(spot.line) {
        Some(line) => is_white(bytes_of(text, spot.at, line.stop)),
        None => false,
    }
}

/// A link label, and its length in bytes from after the `[` through the `]`, without the prefixes of lines.
#[derive(Drop)]
struct Label<'a> {
    text: CowStr<'a>,
    length: usize,
}

/// Returns whether a byte is this punctuation character, and not escaped.
#[inline(always)]
fn is_bare(escaped: bool, byte: u8, what: u8) -> bool
    ensures { result ≡ is_bare escaped byte what }
{
    !escaped && byte == what
}

/// Returns whether a line has a `]` that is not escaped.
fn closes_label(content: &[u8]) -> bool
    ensures closed { result ≡ true → IsDecided content.now }
    ensures open { result ≡ false → LabelGoesOn content.now (escaped_after false content.now) }
{
    let mut escaped = false;
    for at in 0..content.len() {
        let byte = content[at];
        if is_bare(escaped, byte, b']') {
            return true;
        }
        escaped = is_bare(escaped, byte, b'\\');
    }
    false
}

/// Returns the lines after the `[` of a label up to one that closes it, without their prefixes; at most up to the line
/// with which they exceed 4000 bytes, more than a label of 999 characters can have.
fn joined_lines(
    alloc: Global,
    text: &str,
    lines: &[HeldLine],
    at: usize,
) -> Result<String, AllocError>
    ensures { IfOk result (λ joined. IsBracketPlace text.now lines.now at
        → label_of (string_bytes joined) ≡ label_of (drop 1 (held_text text.now lines.now))) }
{
    let mut joined = String::new(alloc);
    let mut from = Spot {
        line: 0,
        at: at.saturating_add(1),
    };
    'lines: while let Some(line) = lines.get(from.line) {
        let part = part_of(text, from.at, line.next);
        joined.push_str(part)?;
        if closes_label(part.as_bytes()) || joined.as_str().as_bytes().len() > 4000 {
            return Ok(joined);
        }
        let Some(next) = next_line(lines, from.line) else {
            return Ok(joined);
        };
        from = next;
    }
    Ok(joined)
}

/// Returns the link label whose `[` is at `at`, where it continues in other lines.
fn long_label(
    alloc: Global,
    text: &str,
    lines: &[HeldLine],
    at: usize,
) -> Result<Option<Label<'static>>, AllocError>
    ensures value { IfOk result (λ found. IsBracketPlace text.now lines.now at
        → option_map label_read found ≡ label_of (drop 1 (held_text text.now lines.now))) }
    ensures fits { IfOk result (λ found. IfSome found (λ label. label.length + 1 < 2 ^ 64)) }
{
    let joined = joined_lines(alloc, text, lines, at)?;
    match scan_link_label(alloc, joined.as_str(), &NoPrefix, false)? {
        Some((length, label)) => Ok(Some(Label {
            text: label.into_static(alloc)?,
            length,
        })),
        None => Ok(None),
    }
}

/// Returns false only where the bytes after a `[` show that no definition begins there: the first bracket after it in
/// its line opens another label, or no colon follows it. This is so in most paragraphs that begin with a link.
fn may_define(content: &[u8]) -> bool
    ensures { result ≡ false → (more : List ℕ) → is_line_over more ≡ true
        → HasNoColon false (content.now ++ more) }
{
    let mut escaped = false;
    for at in 0..content.len() {
        let byte = content[at];
        // `[`, the backslash and `]` are neighbours
        if byte < b'[' || byte > b']' {
            escaped = false;
            continue;
        }
        if !escaped && byte != b'\\' {
            return byte == b']' && content[at..].starts_with(b"]:");
        }
        escaped = !escaped;
    }
    true
}

/// Returns the link label whose `[` is at `at`, unless no colon follows it.
fn any_label<'a>(
    alloc: Global,
    text: &'a str,
    lines: &[HeldLine],
    at: usize,
) -> Result<Option<Label<'a>>, AllocError>
    ensures value { IfOk result (λ found. IsBracketPlace text.now lines.now at
        → IsLabelRead (drop 1 (held_text text.now lines.now)) found) }
    ensures fits { IfOk result (λ found. IfSome found (λ label. label.length + 1 < 2 ^ 64)) }
{
    let Some(first) = lines.first() else {
        return Ok(None);
    };
    let source = part_of(text, at.saturating_add(1), first.stop);
    if !may_define(source.as_bytes()) {
        return Ok(None);
    }
    if let Some((length, label)) = scan_link_label(alloc, source, &OneLine, false)? {
        return Ok(Some(Label {
            text: label,
            length,
        }));
    }
    long_label(alloc, text, lines, at)
}

/// Returns the spot after so many bytes of the lines' text, before another byte of it.
fn spot_after(lines: &[HeldLine], count: usize) -> Option<Spot>
    ensures { (text : List ℕ) → length text < 2 ^ 64 → AreHeldLines text lines.now
        → MatchOption result (drop count (held_text text lines.now) ≡ [])
        (IsSpotAfter lines.now count) }
{
    let mut number = 0;
    let mut left = count;
    'lines: while let Some(line) = lines.get(number) {
        let size = line.next.saturating_sub(line.start);
        if left < size {
            return Some(Spot {
                line: number,
                at: line.start.saturating_add(left),
            });
        }
        left -= size;
        number += 1;
    }
    None
}

/// Returns the spot after the colon that follows so many bytes of the lines' text, if one does.
fn past_colon(text: &str, lines: &[HeldLine], count: usize) -> Option<Spot>
    ensures { AreHeldLines text.now lines.now → MatchOption result
        (begins_with (codes ":") (drop count (held_text text.now lines.now)) ≡ false)
        (IsPastColon text.now lines.now count) }
{
    let colon = spot_after(lines, count)?;
    if byte_at(text, colon.at) != Some(b':') {
        return None;
    }
    Some(Spot {
        line: colon.line,
        at: colon.at.saturating_add(1),
    })
}

/// Returns the byte that closes a title, from the one that opens it.
fn closing_mark(opening: u8) -> Option<u8>
    ensures { (rest : List ℕ) → result ≡ closing_mark (opening ∷ rest) }
{
    match opening {
        b'"' => Some(b'"'),
        b'\'' => Some(b'\''),
        b'(' => Some(b')'),
        _ => None,
    }
}

/// What a line of a title says about the title's end.
#[derive(Clone, Copy, Drop)]
enum TitleLine {
    /// the closing mark is at this offset in the line
    Closes(usize),
    /// there is a `(` in a title between parentheses, so it is not a title
    Breaks,
    /// the title continues in the next line
    None,
}

/// Returns whether the title that is closed by `close` ends in these bytes of a line, and where.
fn title_line(content: &[u8], close: u8) -> TitleLine
    ensures { (more : List ℕ) → TitleGoesOn close content.now more result }
{
    let mut escaped = false;
    for at in 0..content.len() {
        let byte = content[at];
        if escaped {
            escaped = false;
        } else if byte == close {
            return TitleLine::Closes(at);
        } else if byte == b'(' && close == b')' {
            return TitleLine::Breaks;
        } else {
            escaped = byte == b'\\';
        }
    }
    TitleLine::None
}

/// Returns the spot at the beginning of the line after a line, or `None` after the last line.
fn next_line(lines: &[HeldLine], number: usize) -> Option<Spot>
    ensures { MatchOption result (length lines.now ≤ number + 1)
        (λ after. IsNextLine lines.now number after) }
{
    let next = number.saturating_add(1);
    Some(Spot {
        line: next,
        at: lines.get(next)?.start,
    })
}

/// Returns the spot after the title whose opening mark is at a spot.
fn title_end(text: &str, lines: &[HeldLine], spot: Spot) -> Option<Spot>
    ensures { IsPlace text.now lines.now spot → MatchOption result
        (title_size (rest_at text.now lines.now spot) ≡ None)
        (λ end. IsTitle text.now lines.now spot end) }
{
    let close = closing_mark(byte_at(text, spot.at)?)?;
    let mut from = Spot {
        line: spot.line,
        at: spot.at.saturating_add(1),
    };
    'lines: while let Some(line) = lines.get(from.line) {
        match title_line(bytes_of(text, from.at, line.stop), close) {
            TitleLine::Closes(before) => {
                return Some(Spot {
                    line: from.line,
                    at: from.at.saturating_add(before).saturating_add(1),
                });
            }
            TitleLine::Breaks => return None,
            TitleLine::None => from = next_line(lines, from.line)?,
        }
    }
    None
}

/// Returns what follows a destination that ends before a spot, where it is a title and the line then ends.
fn title_tail(text: &str, lines: &[HeldLine], after: Spot) -> Option<Tail>
    ensures value { IsPlace text.now lines.now after
        → option_map (tail_found text.now lines.now after) result
        ≡ title_tail (rest_at text.now lines.now after) }
    ensures ends { IsPlace text.now lines.now after
        → IfSome result (IsTail text.now lines.now after) }
{
    let title = past_space(text, lines, after)?;
    if title.at == after.at {
        return None;
    }
    let end = title_end(text, lines, title)?;
    if !is_at_end(text, lines, end) {
        return None;
    }
    Some(Tail {
        end,
        title: Some(title),
    })
}

/// Returns what follows a destination that ends before a spot: a title, or nothing in its line.
fn tail_after(text: &str, lines: &[HeldLine], after: Spot) -> Option<Tail>
    ensures value { IsPlace text.now lines.now after
        → option_map (tail_found text.now lines.now after) result
        ≡ tail_of (rest_at text.now lines.now after) }
    ensures ends { IsEnd text.now lines.now after
        → IfSome result (IsTail text.now lines.now after) }
{
    match title_tail(text, lines, after) {
        Some(found) => Some(found),
        None if is_at_end(text, lines, after) => Some(Tail {
            end: after,
            title: None,
        }),
        None => None,
    }
}

/// Returns the rest of a line from a spot on, and the spot at the beginning of the next line, or `None` in the last one.
fn rest_of_line<'a>(text: &'a str, lines: &[HeldLine], from: Spot) -> Option<(&'a str, Spot)>
    ensures value { IsPlace text.now lines.now from → MatchOption result
        (length lines.now ≤ from.line + 1)
        (λ found. IsLineRest text.now lines.now from found.0.now found.1) }
    ensures on { IfSome result (λ found. found.1.line ≡ from.line + 1) }
{
    let next = next_line(lines, from.line)?;
    let line = lines.get(from.line)?;
    Some((part_of(text, from.at, line.next), next))
}

/// Returns the lines' text from one spot up to another, without the prefixes of lines.
fn text_between(
    alloc: Global,
    text: &str,
    lines: &[HeldLine],
    from: Spot,
    to: Spot,
) -> Result<String, AllocError>
    ensures { IfOk result (λ joined. IsBetween text.now lines.now from to
        → string_bytes joined ≡ held_between text.now lines.now from to) }
{
    let mut joined = String::new(alloc);
    let mut at = from;
    'lines: while at.line < to.line {
        let Some((part, next)) = rest_of_line(text, lines, at) else {
            return Ok(joined);
        };
        joined.push_str(part)?;
        at = next;
    }
    joined.push_str(part_of(text, at.at, to.at))?;
    Ok(joined)
}

/// Returns the text between the marks of a title, unescaped.
fn title_text<'a>(
    alloc: Global,
    text: &'a str,
    lines: &[HeldLine],
    title: TitlePlace,
    names: EntityNames,
) -> Result<CowStr<'a>, AllocError>
    ensures { IfOk result (λ made. IsTitle text.now lines.now title.opening title.end
        → text_of made ≡ unescaped names false
        (title_between text.now lines.now title.opening title.end)) }
{
    let from = Spot {
        line: title.opening.line,
        at: title.opening.at.saturating_add(1),
    };
    let to = Spot {
        line: title.end.line,
        at: title.end.at.saturating_sub(1),
    };
    if from.line == to.line {
        return unescape(alloc, part_of(text, from.at, to.at), false, names);
    }
    let joined = text_between(alloc, text, lines, from, to)?;
    unescape(alloc, joined.as_str(), false, names)?.into_static(alloc)
}

/// Returns the destination at a spot, and the spot after it.
fn destination_at<'a>(text: &'a str, start: Spot) -> Option<(&'a str, Spot)>
    ensures value { (lines : List HeldLine) → IsPlace text.now lines start
        → option_map (destination_found lines start) result
        ≡ some_destination (rest_at text.now lines start) }
    ensures ends { (lines : List HeldLine) → IsPlace text.now lines start → IfSome result
        (λ found. IsEnd text.now lines found.1 × (count_to lines start ≤ count_to lines found.1)) }
{
    if !text.is_char_boundary(start.at) {
        return None;
    }
    let (length, destination) = scan_link_destination(text, start.at, 32)?;
    if length == 0 {
        return None;
    }
    let after = Spot {
        line: start.line,
        at: start.at.saturating_add(length),
    };
    Some((destination, after))
}

/// Returns what follows a label of this length, and its colon: the destination, and what follows that.
fn after_label<'a>(text: &'a str, lines: &[HeldLine], length: usize) -> Option<(&'a str, Tail)>
    ensures value { (names : EntityNames) (label : List ℕ) → length + 1 < 2 ^ 64
        → AreHeldLines text.now lines.now
        → option_map (defined_by text.now lines.now names label) result
        ≡ with_label names (held_text text.now lines.now) (length, label) }
    ensures ends { length + 1 < 2 ^ 64 → AreHeldLines text.now lines.now → IfSome result
        (λ found. IsDefinedTail text.now lines.now found.1) }
{
    let after = past_colon(text, lines, length.saturating_add(1))?;
    let start = past_space(text, lines, after)?;
    let (destination, after) = destination_at(text, start)?;
    let tail = tail_after(text, lines, after)?;
    Some((destination, tail))
}

/// Returns the link reference definition whose `[` is at byte offset `at`, in the first of the lines, or `None` where
/// there is none. Escapes, and entities by these names, are replaced in its destination and title, and stay in its
/// label.
#[inline(never)]
pub fn read_definition<'a>(
    alloc: Global,
    text: &'a str,
    lines: &[HeldLine],
    at: usize,
    names: EntityNames,
) -> Result<Option<Definition<'a>>, AllocError>
    ensures { IfOk result (λ found. (sources : List SourceLine) → AreLinesOfSource lines.now sources
        → IsBracketPlace text.now lines.now at
        → IsFirstDefinition names text.now sources at found) }
{
    let Some(label) = any_label(alloc, text, lines, at)? else {
        return Ok(None);
    };
    let Some((destination, tail)) = after_label(text, lines, label.length) else {
        drop(label);
        return Ok(None);
    };
    let destination = unescape(alloc, destination, false, names)?;
    let title = match tail.title {
        Some(opening) => {
            let place = TitlePlace {
                opening,
                end: tail.end,
            };
            Some(title_text(alloc, text, lines, place, names)?)
        }
        None => None,
    };
    Ok(Some(Definition {
        label: label.text,
        destination,
        title,
        end: tail.end.at,
        lines: tail.end.line.saturating_add(1),
    }))
}
