//! The lines of a text that are ahead of a line, as far as they decide what it begins.
ghost use Rattle.std.specs.Prelude.{◌≡◌, ◌≤◌, true, false, length};
ghost use Rattle.markdown_base.specs.declared.tag.MetadataBlockKind.TheVariants as kind;
ghost use Rattle.markdown_lines.specs.MetadataBlocks.{lines_at, one_closes};
ghost use Rattle.markdown_lines.specs.UnclosedMetadata.{IsUnclosed};

use crate::bytes::{bytes_of, is_white};
use crate::line::{Line, line_from};
use crate::metadata_block::{closes_metadata, line_opens};
use markdown_base::syntax::Syntax;
use markdown_base::tag::MetadataBlockKind;

/// Returns whether a line closes metadata of a kind that begins at byte offset `from` or after it.
fn one_closes(text: &str, kind: MetadataBlockKind, from: usize) -> bool
    ensures { result ≡ one_closes kind (lines_at text.now from) }
{
    let mut at = from;
    'lines: while at < text.len() {
        let line = line_from(text, at);
        if closes_metadata(kind, bytes_of(text, line.start, line.stop)) {
            return true;
        }
        at = line.next;
    }
    false
}

/// A text whose lines are looked at ahead of others. It is remembered from which byte offset on no line closes metadata
/// of a kind, so that a search for one fails once; no result depends on that.
#[derive(Clone, Copy, Drop)]
pub struct LinesAhead<'a> {
    pub text: &'a str,
    yaml_unclosed: usize,
    pluses_unclosed: usize,
    ghost yaml: { IsUnclosed kind.YamlStyle text.now yaml_unclosed },
    ghost pluses: { IsUnclosed kind.PlusesStyle text.now pluses_unclosed },
}

impl<'a> LinesAhead<'a> {
    ghost use Rattle.std.specs.Prelude.{◌≡◌, ◌≤◌, ◌⊎◌, ◌-◌, true, length, slice_index, slice_range};
    ghost use Rattle.markdown_lines.specs.Lines.{is_line_ending};
    ghost use Rattle.markdown_lines.specs.MetadataBlocks.{are_of_metadata, lines_at, metadata_opened, one_closes};
    ghost use Rattle.markdown_lines.specs.UnclosedMetadata.{IsUnclosed};

    /// Returns the lines of a text, at which nothing was looked yet.
    pub fn new(text: &'a str) -> LinesAhead<'a>
        ensures { result.text.now ≡ text.now }
    {
        LinesAhead {
            text,
            yaml_unclosed: text.len(),
            pluses_unclosed: text.len(),
        }
    }

    /// Returns the byte offset from which on it is known that no line closes metadata of a kind.
    fn unclosed_from(&self, kind: MetadataBlockKind) -> usize
        ensures { IsUnclosed kind self.now.text.now result }
    {
        match kind {
            MetadataBlockKind::YamlStyle => self.yaml_unclosed,
            MetadataBlockKind::PlusesStyle => self.pluses_unclosed,
        }
    }

    /// Records that from a byte offset on no line closes metadata of a kind.
    fn note_unclosed(&mut self, kind: MetadataBlockKind, from: usize)
        requires { IsUnclosed kind self.old.text.now from }
        ensures { self.new.text.now ≡ self.old.text.now }
    {
        match kind {
            MetadataBlockKind::YamlStyle => self.yaml_unclosed = from,
            MetadataBlockKind::PlusesStyle => self.pluses_unclosed = from,
        }
    }

    /// Returns whether a line closes metadata of a kind that begins at byte offset `from` or after it, where a line
    /// ending stands before `from`, or no line begins there.
    fn is_closed(&mut self, kind: MetadataBlockKind, from: usize) -> bool
        requires { (length self.old.text.now ≤ from)
            ⊎ (is_line_ending (slice_index self.old.text.now (from - 1)) ≡ true) }
        ensures value { result ≡ one_closes kind (lines_at self.old.text.now from) }
        ensures same { self.new.text.now ≡ self.old.text.now }
    {
        if self.unclosed_from(kind) <= from {
            return false;
        }
        let closed = one_closes(self.text, kind, from);
        if !closed {
            self.note_unclosed(kind, from);
        }
        closed
    }

    /// Returns whether the lines that begin at byte offset `next` or after it are those of metadata of a kind.
    fn are_of_metadata(&mut self, kind: MetadataBlockKind, next: usize) -> bool
        ensures value { result ≡ are_of_metadata kind (lines_at self.old.text.now next) }
        ensures same { self.new.text.now ≡ self.old.text.now }
    {
        if next >= self.text.len() {
            return false;
        }
        let first = line_from(self.text, next);
        let content = bytes_of(self.text, first.start, first.stop);
        if is_white(content) {
            return false;
        }
        if closes_metadata(kind, content) {
            return false;
        }
        self.is_closed(kind, first.next)
    }

    /// Returns the metadata that a line opens where it is directly under the root.
    pub fn opening(&mut self, line: Line, syntax: Syntax) -> Option<MetadataBlockKind>
        ensures value { result ≡ metadata_opened syntax self.old.text.now
            (slice_range self.old.text.now line.start line.stop) line.next }
        ensures same { self.new.text.now ≡ self.old.text.now }
    {
        let kind = line_opens(bytes_of(self.text, line.start, line.stop))?;
        if syntax.reads_metadata(kind) && self.are_of_metadata(kind, line.next) {
            Some(kind)
        } else {
            None
        }
    }
}
