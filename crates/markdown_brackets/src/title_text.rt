//! The text of a link title while it is read: a slice of the source as long as no lines are joined.
ghost use Rattle.std.specs.Prelude.{◌≡◌, [], false, string_bytes};
ghost use Rattle.std.specs.Str.{IsCharBoundary};

use crate::block_rules::Replacing;
use markdown_base::cow_str::CowStr;
use markdown_scan::unescape::unescape;
use std::alloc::{AllocError, Global};

/// The source text of a title so far: lines that were joined, and the text from the byte offset `from` on.
#[derive(Drop)]
pub(crate) struct TitleText<'t> {
    text: &'t str,
    joined: String,
    from: usize,
    is_joined: bool,
    ghost plain: { is_joined ≡ false → string_bytes joined ≡ [] },
    ghost boundary: { IsCharBoundary text.now from },
}

impl<'t> TitleText<'t> {
    ghost use Rattle.std.specs.Prelude.{◌≡◌, ◌≤◌, [], ◌∷◌, ◌++◌, IfOk, false, true, slice_range, string_bytes};
    ghost use Rattle.std.specs.Str.{IsCharBoundary};
    ghost use Rattle.markdown_base.specs.CowText.{text_of};
    ghost use Rattle.markdown_base.specs.Bytes.{line_feed};
    ghost use Rattle.markdown_scan.specs.Unescape.{unescaped};
    ghost use Rattle.markdown_document.specs.LinkTitle.{title_origin};
    ghost use Rattle.markdown_document.specs.Origins.{origin_of};
    ghost use Rattle.markdown_brackets.specs.TitleText.{so_far};

    /// Returns an empty title that starts at the byte offset `from`.
    pub(crate) fn new(alloc: Global, text: &'t str, from: usize) -> TitleText<'t>
        requires { IsCharBoundary text.now from }
        ensures text { result.text.now ≡ text.now }
        ensures from { result.from ≡ from }
        ensures nothing { string_bytes result.joined ≡ [] }
        ensures plain { result.is_joined ≡ false }
    {
        TitleText {
            text,
            joined: String::new(alloc),
            from,
            is_joined: false,
        }
    }

    /// Appends the line that ends at the byte offset `at` and a line feed; the next line starts at the byte offset
    /// `start`.
    pub(crate) fn join_line(&mut self, at: usize, start: usize) -> Result<(), AllocError>
        requires order { self.old.from ≤ at }
        requires here { IsCharBoundary self.old.text.now at }
        requires there { IsCharBoundary self.old.text.now start }
        ensures joined { IfOk result (λ _.
            string_bytes self.new.joined
            ≡ string_bytes self.old.joined ++ slice_range self.old.text.now self.old.from at
            ++ line_feed ∷ []) }
        ensures from { IfOk result (λ _. self.new.from ≡ start) }
        ensures is_joined { IfOk result (λ _. self.new.is_joined ≡ true) }
        ensures text { IfOk result (λ _. self.new.text.now ≡ self.old.text.now) }
    {
        self.is_joined = true;
        self.joined.push_str(&self.text[self.from..at])?;
        self.joined.push('\n')?;
        self.from = start;
        Ok(())
    }

    /// Returns the title that ends at the byte offset `at`, with its escapes and entities replaced. If no lines were
    /// joined and nothing is replaced, it is a slice of the source.
    pub(crate) fn finish(
        self,
        alloc: Global,
        at: usize,
        replacing: Replacing,
    ) -> Result<CowStr<'t>, AllocError>
        requires order { self.from ≤ at }
        requires here { IsCharBoundary self.text.now at }
        ensures text { IfOk result (λ made. text_of made
            ≡ unescaped replacing.names replacing.in_table (so_far self.entry at)) }
        ensures origin { IfOk result (λ made. origin_of made
            ≡ title_origin replacing.names replacing.in_table (so_far self.entry at)
            self.entry.is_joined) }
    {
        let last = &self.text[self.from..at];
        if !self.is_joined {
            return unescape(alloc, last, replacing.in_table, replacing.names);
        }
        let mut joined = self.joined;
        joined.push_str(last)?;
        let made = unescape(alloc, joined.as_str(), replacing.in_table, replacing.names)?;
        made.into_static(alloc)
    }
}
