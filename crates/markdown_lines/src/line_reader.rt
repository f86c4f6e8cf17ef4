//! What a line begins, decided apart from making it.
ghost use Rattle.std.specs.Prelude.{◌≡◌, ◌≤◌, ◌==◌, ◌||◌, true, Some, None, IfOk, IfSome, length, slice_range};
ghost use Rattle.std.specs.Prelude.{if◌then◌else◌};
ghost use Rattle.std.specs.Option.{option_map};
ghost use Rattle.std.specs.Str.{IsCharBoundary};
ghost use Rattle.markdown_base.specs.Bytes.{backtick, equals_sign, tilde};
ghost use Rattle.markdown_base.specs.CowText.{text_of};
ghost use Rattle.markdown_lines.specs.BlockBeginnings.{begins_metadata, footnote_marker, is_paragraph, is_reached};
ghost use Rattle.markdown_lines.specs.BlockBeginnings.{metadata_begun};
ghost use Rattle.markdown_lines.specs.ListMarkers.{is_bullet};
ghost use Rattle.markdown_lines.specs.MetadataBlocks.{metadata_opened};
ghost use Rattle.markdown_lines.specs.ThematicBreaks.{is_break_mark};
ghost use Rattle.markdown_lines.specs.UnbrokenLines.{IsUnbroken};

use crate::alert::alert_read;
use crate::atx_heading::{AtxHeading, atx_heading};
use crate::block_start::{Before, Begun, BlockStart, ItemStart};
use crate::bytes::{byte_or_zero, bytes_of, part_of, white_length};
use crate::fence::opening_fence;
use crate::heading_attributes::with_attributes;
use crate::html_kind::html_kind;
use crate::line::Line;
use crate::lines_ahead::LinesAhead;
use crate::list_marker::list_marker;
use crate::position::Position;
use crate::space::{Space, read_space};
use crate::thematic_break::{setext_underline, thematic_break};
use markdown_base::cow_str::CowStr;
use markdown_base::syntax::Syntax;
use markdown_base::tag::MetadataBlockKind;
use markdown_scan::label::scan_link_label;
use markdown_scan::line_rule::OneLine;
use std::alloc::{AllocError, Global};

/// A line that is read for what it begins, and again inside each container that it begins. Its content is from byte
/// offset `start` up to `stop`. The reader remembers where no thematic break begins, so that a line of many list markers takes
/// linear time; no result depends on that.
#[derive(Clone, Copy, Drop)]
pub struct LineReader<'a> {
    pub alloc: Global,
    pub text: &'a str,
    pub syntax: Syntax,
    /// the byte offset at which the line begins
    pub start: usize,
    pub stop: usize,
    /// the byte offset at which the next line begins
    pub next: usize,
    /// whether the line is directly under the root: in no open container but a list
    pub outermost: bool,
    /// the metadata that the line opens there
    opening: Option<MetadataBlockKind>,
    unbroken_from: usize,
    unbroken_to: usize,
    ghost boundary: { IsCharBoundary text.now stop },
    ghost unbroken: { IsUnbroken text.now stop unbroken_from unbroken_to },
    ghost opens: { outermost ≡ true
        → opening ≡ metadata_opened syntax text.now (slice_range text.now start stop) next },
}

/// Returns whether a line may go on with a paragraph.
fn is_paragraph(before: Before) -> bool
    ensures { result ≡ is_paragraph before }
{
    match before {
        Before::NoParagraph => false,
        Before::Lazy | Before::Reached => true,
    }
}

/// Returns whether a line reaches a paragraph.
fn is_reached(before: Before) -> bool
    ensures { result ≡ is_reached before }
{
    match before {
        Before::Reached => true,
        Before::NoParagraph | Before::Lazy => false,
    }
}

/// Returns whether metadata of a kind that a line opens begins there.
fn begins_after(before: Before, kind: MetadataBlockKind) -> bool
    ensures { metadata_begun before kind
        ≡ (if result then Some (begins_metadata kind) else None) }
{
    match kind {
        MetadataBlockKind::YamlStyle => !is_reached(before),
        MetadataBlockKind::PlusesStyle => !is_paragraph(before),
    }
}

/// Returns whether a byte is one of code fences.
fn is_fence_byte(byte: u8) -> bool
    ensures { result ≡ ((byte == backtick) || (byte == tilde)) }
{
    byte == b'`' || byte == b'~'
}

/// Returns whether a byte is one of underlines, thematic breaks or bullets.
fn is_mark(byte: u8) -> bool
    ensures { result ≡ ((byte == equals_sign) || is_break_mark byte || is_bullet byte) }
{
    match byte {
        b'=' | b'-' | b'_' | b'*' | b'+' => true,
        _ => false,
    }
}

/// Returns the label of the footnote definition that a line's content begins, and the length of its marker in bytes;
/// `None` where it begins none. Fails if an allocation fails.
fn footnote_marker<'a>(
    alloc: Global,
    content: &'a str,
) -> Result<Option<(CowStr<'a>, usize)>, AllocError>
    ensures value { IfOk result (λ found. option_map (λ marker. (text_of marker.0, marker.1)) found
        ≡ footnote_marker content.now) }
    ensures within { IfOk result (λ found. IfSome found (λ marker. marker.1 ≤ length content.now)) }
{
    let Some(rest) = content.strip_prefix("[^") else {
        return Ok(None);
    };
    let Some((length, label)) = scan_link_label(alloc, rest, &OneLine, false)? else {
        return Ok(None);
    };
    let colon = length.saturating_add(2);
    if byte_or_zero(content.as_bytes(), colon) != b':' {
        drop(label);
        return Ok(None);
    }
    Ok(Some((label, colon.saturating_add(1))))
}

impl<'a> LineReader<'a> {
    ghost use Rattle.std.specs.Prelude.{◌≡◌, ◌+◌, ◌≤◌, ◌<◌, ◌∷◌, ◌==◌, ◌||◌, [], Some, IfOk};
    ghost use Rattle.std.specs.Prelude.{slice_index, slice_range, true};
    ghost use Rattle.std.specs.List.{prefix_len};
    ghost use Rattle.std.specs.Option.{option_map};
    ghost use Rattle.std.specs.Str.{IsCharBoundary};
    ghost use Rattle.markdown_base.specs.Bytes.{backtick, less_than, open_bracket, tilde};
    ghost use Rattle.markdown_lines.specs.BlockBeginnings as line;
    ghost use Rattle.markdown_lines.specs.BlockStarts.{IsFirstOf, IsSameLine, begins_unless_blank, beginning_found};
    ghost use Rattle.markdown_lines.specs.BlockStarts.{left_at, line_at, source_read};
    ghost use Rattle.markdown_lines.specs.Lines.{is_space_or_tab};
    ghost use Rattle.markdown_lines.specs.ThematicBreaks.{is_thematic_break};
    ghost use Rattle.markdown_scan.specs.LineStart.{past_marker};

    /// Returns a reader of a line of the text whose lines are `ahead`. `outermost` is whether the line is directly under
    /// the root: in no open container but a list.
    // inlined, as `beginning`
    #[inline(always)]
    pub fn new(
        alloc: Global,
        ahead: &mut LinesAhead<'a>,
        syntax: Syntax,
        line: Line,
        outermost: bool,
    ) -> LineReader<'a>
        requires { IsCharBoundary ahead.old.text.now line.stop }
        ensures text { result.text.now ≡ ahead.old.text.now }
        ensures syntax { result.syntax ≡ syntax }
        ensures start { result.start ≡ line.start }
        ensures stop { result.stop ≡ line.stop }
        ensures next { result.next ≡ line.next }
        ensures outermost { result.outermost ≡ outermost }
        ensures same { ahead.new.text.now ≡ ahead.old.text.now }
    {
        let opening = if outermost {
            ahead.opening(line, syntax)
        } else {
            None
        };
        LineReader {
            alloc,
            text: ahead.text,
            syntax,
            start: line.start,
            stop: line.stop,
            next: line.next,
            outermost,
            opening,
            unbroken_from: 0,
            unbroken_to: 0,
        }
    }

    /// Returns what the rest of the line from a place on begins, where `before` is the paragraph that it may go on with.
    /// Fails if an allocation fails.
    // inlined: it is called for most lines
    #[inline(always)]
    pub fn beginning(&mut self, position: Position, before: Before) -> Result<Begun<'a>, AllocError>
        ensures begins { IfOk result (λ begun. beginning_found self.old begun.start
            ≡ begins_unless_blank (source_read self.old) before (line_at self.old position)) }
        ensures at { IfOk result (λ begun. begun.at
            ≡ position.at + prefix_len is_space_or_tab (left_at self.old position).bytes) }
        ensures same { IsSameLine self.old self.new }
    {
        let rest = bytes_of(self.text, position.at, self.stop);
        let white = white_length(rest);
        let start = if white == rest.len() {
            BlockStart::Nothing
        } else {
            self.begun_at(position, before)?
        };
        Ok(Begun {
            at: position.at.saturating_add(white),
            start,
        })
    }

    /// Returns what the rest of the line begins that is not blank.
    // inlined, as `beginning`
    #[inline(always)]
    fn begun_at(&mut self, position: Position, before: Before) -> Result<BlockStart<'a>, AllocError>
        ensures begins { IfOk result (λ start. beginning_found self.old start
            ≡ Some (line.begins (source_read self.old) before (line_at self.old position))) }
        ensures same { IsSameLine self.old self.new }
    {
        let space = read_space(self.text, position, self.stop, 4);
        if space.columns < 4 {
            match self.metadata(position, before) {
                Some(kind) => Ok(BlockStart::Metadata(kind)),
                None => self.begun_after(space, before),
            }
        } else if is_paragraph(before) {
            Ok(BlockStart::Text)
        } else {
            Ok(BlockStart::IndentedCode(space.after))
        }
    }

    /// Returns the kind of the metadata that begins at a place: at the beginning of the line, if anywhere.
    fn metadata(&self, position: Position, before: Before) -> Option<MetadataBlockKind>
        ensures { option_map line.begins_metadata result
            ≡ line.metadata_in_line (source_read self.now) before (line_at self.now position) }
    {
        if !self.outermost || position.at != self.start {
            return None;
        }
        let kind = self.opening?;
        if begins_after(before, kind) {
            Some(kind)
        } else {
            None
        }
    }

    /// Returns what the line begins after fewer than four columns of space, by the first byte there, other than metadata.
    // inlined, as `beginning`, and so are all functions that are called with the reader: what is passed by its address is
    // kept in memory
    #[inline(always)]
    fn begun_after(&mut self, space: Space, before: Before) -> Result<BlockStart<'a>, AllocError>
        requires { space.columns < 4 }
        ensures begins { IfOk result (λ start. beginning_found self.old start
            ≡ Some (line.begins_after (source_read self.old) before space.columns
            (left_at self.old space.after))) }
        ensures same { IsSameLine self.old self.new }
    {
        let byte = self.first_byte(space.after);
        if byte == b'>' {
            Ok(self.quote(space.after))
        } else if byte == b'#' {
            Ok(self.heading(space.after))
        } else if is_fence_byte(byte) {
            Ok(self.fence(space))
        } else if byte == b'<' {
            self.html(space.after, before)
        } else if byte == b'[' {
            self.footnote(space.after)
        } else if is_mark(byte) {
            Ok(self.line_of_marks(space, before))
        } else if byte.is_ascii_digit() {
            Ok(self.item(space, before))
        } else {
            Ok(BlockStart::Text)
        }
    }

    /// Returns the first byte from a place on, or 0 where the line ends there.
    fn first_byte(&self, here: Position) -> u8
        ensures { result ≡ slice_index (left_at self.now here).bytes 0 }
    {
        byte_or_zero(bytes_of(self.text, here.at, self.stop), 0)
    }

    /// Returns the block quote whose marker is at a place, which is an alert or none.
    // inlined, as `begun_after`
    #[inline(always)]
    fn quote(&self, here: Position) -> BlockStart<'a>
        requires { here.at < self.now.stop }
        ensures { beginning_found self.now result
            ≡ Some (line.quote_of self.now.syntax (past_marker (left_at self.now here))) }
    {
        let inside = self.past_quote_marker(here);
        match alert_read(self.text, inside, self.stop, self.syntax) {
            Some(kind) => BlockStart::Alert(kind),
            None => BlockStart::Quote(inside),
        }
    }

    /// Returns the place after the marker of a block quote, and at most one column of space.
    fn past_quote_marker(&self, here: Position) -> Position
        requires { here.at < self.now.stop }
        ensures { left_at self.now result ≡ past_marker (left_at self.now here) }
    {
        read_space(self.text, here.past(1), self.stop, 1).after
    }

    /// Returns the ATX heading that begins at a place, or text.
    // inlined, as `begun_after`
    #[inline(always)]
    fn heading(&self, here: Position) -> BlockStart<'a>
        ensures { IsFirstOf self.now
            (line.heading_in_line (source_read self.now) (left_at self.now here) ∷ []) result }
    {
        match atx_heading(self.text, here.at, self.stop) {
            Some(heading) => BlockStart::Heading(self.whole_heading(here, heading)),
            None => BlockStart::Text,
        }
    }

    /// Returns an ATX heading of the line with what is read of attributes at its end.
    // inlined, as `begun_after`
    #[inline(always)]
    fn whole_heading(&self, here: Position, heading: AtxHeading) -> AtxHeading
        requires { here.at ≤ heading.from }
        ensures { result
            ≡ line.whole_heading self.now.syntax (left_at self.now here) heading }
    {
        if self.syntax.attributes {
            with_attributes(self.text, heading, self.stop)
        } else {
            heading
        }
    }

    /// Returns the code fence that begins after some space, where there is a backtick or a tilde, or text.
    // inlined, as `begun_after`
    #[inline(always)]
    fn fence(&self, space: Space) -> BlockStart<'a>
        requires { ((slice_index (left_at self.now space.after).bytes 0 == backtick)
            || (slice_index (left_at self.now space.after).bytes 0 == tilde)) ≡ true }
        ensures { IsFirstOf self.now (line.fence_in_line (source_read self.now) space.columns
            (left_at self.now space.after) ∷ []) result }
    {
        let byte = self.first_byte(space.after);
        match opening_fence(self.text, space.after.at, self.stop, byte, space.columns) {
            Some(opening) => BlockStart::Fence(opening),
            None => BlockStart::Text,
        }
    }

    /// Returns the HTML block that begins at a place where there is a `<`, or text.
    // inlined, as `begun_after`
    #[inline(always)]
    fn html(&self, here: Position, before: Before) -> Result<BlockStart<'a>, AllocError>
        requires { slice_index (left_at self.now here).bytes 0 ≡ less_than }
        ensures { IfOk result (λ start. IsFirstOf self.now
            (line.html_in_line before (left_at self.now here) ∷ []) start) }
    {
        let content = part_of(self.text, here.at, self.stop);
        match html_kind(self.alloc, content, is_paragraph(before))? {
            Some(kind) => Ok(BlockStart::Html(kind)),
            None => Ok(BlockStart::Text),
        }
    }

    /// Returns the footnote definition that begins at a place where there is a `[`, or text.
    // inlined, as `begun_after`
    #[inline(always)]
    fn footnote(&self, here: Position) -> Result<BlockStart<'a>, AllocError>
        requires { slice_index (left_at self.now here).bytes 0 ≡ open_bracket }
        ensures { IfOk result (λ start. IsFirstOf self.now
            (line.footnote_in_line self.now.syntax (left_at self.now here) ∷ []) start) }
    {
        if !self.syntax.footnotes {
            return Ok(BlockStart::Text);
        }
        let content = part_of(self.text, here.at, self.stop);
        match footnote_marker(self.alloc, content)? {
            Some((label, width)) => Ok(BlockStart::Footnote(label, here.past(width))),
            None => Ok(BlockStart::Text),
        }
    }

    /// Returns the underline, the thematic break or the list item that begins after some space, or text.
    // inlined, as `begun_after`
    #[inline(always)]
    fn line_of_marks(&mut self, space: Space, before: Before) -> BlockStart<'a>
        requires { space.columns < 4 }
        ensures first { IsFirstOf self.old
            (line.underline_in_line before (left_at self.old space.after)
            ∷ line.break_in_line (left_at self.old space.after)
            ∷ line.item_in_line (source_read self.old) before space.columns
            (left_at self.old space.after) ∷ []) result }
        ensures same { IsSameLine self.old self.new }
    {
        if is_reached(before) {
            let rest = bytes_of(self.text, space.after.at, self.stop);
            if let Some(level) = setext_underline(rest) {
                return BlockStart::Underline(level);
            }
        }
        if self.is_break(space.after.at) {
            return BlockStart::ThematicBreak;
        }
        self.item(space, before)
    }

    /// Returns whether the rest of the line from a byte offset on is a thematic break.
    // inlined, as `begun_after`
    #[inline(always)]
    fn is_break(&mut self, at: usize) -> bool
        ensures value { result
            ≡ is_thematic_break (slice_range self.old.text.now at self.old.stop) }
        ensures same { IsSameLine self.old self.new }
    {
        if self.unbroken_from <= at && at < self.unbroken_to {
            return false;
        }
        match thematic_break(bytes_of(self.text, at, self.stop)) {
            Ok(()) => true,
            Err(length) => {
                self.unbroken_from = at;
                self.unbroken_to = at.saturating_add(length);
                false
            }
        }
    }

    /// Returns the list item that begins after some space, or text.
    // inlined, with the space after its marker: it is called for each item
    #[inline(always)]
    fn item(&self, space: Space, before: Before) -> BlockStart<'a>
        requires { space.columns < 4 }
        ensures { IsFirstOf self.now (line.item_in_line (source_read self.now) before space.columns
            (left_at self.now space.after) ∷ []) result }
    {
        let here = space.after;
        match list_marker(self.text, here.at, self.stop, is_reached(before)) {
            Some(marker) => {
                let content = self.item_space(here.past(marker.width));
                BlockStart::Item(ItemStart {
                    marker,
                    indent: space.columns + marker.width + content.columns,
                    inside: content.after,
                })
            }
            None => BlockStart::Text,
        }
    }

    /// Returns the space between an item's marker, which ends at a place, and its content: one to four columns, or one
    /// column where the item begins with a blank line or with indented code.
    #[inline(always)]
    fn item_space(&self, after: Position) -> Space
        ensures columns { result.columns ≡ (line.item_space (left_at self.now after)).columns }
        ensures after { left_at self.now result.after
            ≡ (line.item_space (left_at self.now after)).after }
        ensures few { result.columns ≤ 5 }
    {
        let space = read_space(self.text, after, self.stop, 5);
        let is_blank = bytes_of(self.text, space.after.at, self.stop).is_empty();
        if 0 < space.columns && space.columns < 5 && !is_blank {
            return space;
        }
        Space {
            columns: 1,
            after: read_space(self.text, after, self.stop, 1).after,
        }
    }
}
