//! The text of a link label (CommonMark 6.3): a slice of the source as long as nothing changes.
ghost use Rattle.std.specs.Prelude.{◌≡◌, ◌≢◌, ◌++◌, ℕ, List, [], false, take, length, encode_utf8, string_bytes};
ghost use Rattle.std.specs.Prelude.{IsTrue, IsFalse, None, IfOk, OnOk, OnErr, MatchOption};
ghost use Rattle.std.specs.Option.{ForSome};
ghost use Rattle.std.specs.Str.{IsCharBoundary};
ghost use Rattle.markdown_base.specs.CowText.{text_of};
ghost use Rattle.markdown_base.specs.StoredTexts.{IsBorrowed};
ghost use Rattle.markdown_scan.specs.AsciiKinds as kinds;
ghost use Rattle.markdown_scan.specs.Backslash as backslash;
ghost use Rattle.markdown_scan.specs.Label as label;
ghost use Rattle.markdown_scan.specs.LabelScan as scan;
ghost use Rattle.markdown_scan.specs.LabelScan.{IsNoBeginning};

use markdown_base::cow_str::CowStr;
use std::alloc::{AllocError, Global};

/// The text of a label so far: a prefix of its source, or an owned text.
#[derive(Drop)]
pub(crate) struct LabelText<'t> {
    source: &'t str,
    same: usize,
    own: Option<String>,
    begun: bool,
    waiting: bool,
    ghost boundary: { IsCharBoundary source.now same },
    ghost differs: { ForSome own (λ text. IsNoBeginning (string_bytes text) source.now) },
}

/// Returns the first character and what follows it.
pub(crate) fn split_first(text: &str) -> Option<(char, &str)>
    ensures { MatchOption result (length text.now ≡ 0) (λ p. text.now
        ≡ encode_utf8 p.0 ++ p.1.now) }
{
    let mut chars = text.chars();
    let first = chars.next()?;
    Some((first, chars.as_str()))
}

// Returns whether the text begins with the character.
fn begins_with(text: &str, c: char) -> bool
    ensures yes { IsTrue result → (tail : List ℕ) × (text.now ≡ encode_utf8 c ++ tail) }
    ensures no { IsFalse result → (tail : List ℕ) → text.now ≢ encode_utf8 c ++ tail }
{
    match split_first(text) {
        Some((first, _)) => first == c,
        None => false,
    }
}

fn is_white_space(c: char) -> bool
    ensures { result ≡ kinds.is_white_space c }
{
    matches!(c, ' ' | '\t'..='\r')
}

/// Returns whether the character is `what` and is not escaped.
pub(crate) fn is_bare(escaped: bool, c: char, what: char) -> bool
    ensures { result ≡ backslash.is_bare escaped c what }
{
    !escaped && c == what
}

// Returns whether, in a table, the character is a backslash directly before a pipe.
fn escapes_pipe(in_table: bool, c: char, next: &str) -> bool
    ensures { result ≡ backslash.escapes_pipe in_table c next.now }
{
    c == '\\' && in_table && next.as_bytes().first() == Some(&b'|')
}

// Returns an owned text: the given one and a character after it.
fn with_character(alloc: Global, text: &str, c: char) -> Result<String, AllocError>
    ensures { IfOk result (λ own. string_bytes own ≡ text.now ++ encode_utf8 c) }
{
    let mut own = String::from_str(alloc, text)?;
    own.push(c)?;
    Ok(own)
}

// Returns the owned text if there is one, and otherwise the slice of the source.
fn own_or<'t>(own: Option<String>, same: &'t str) -> CowStr<'t>
    ensures text { text_of result ≡ scan.own_or own same.now }
    ensures borrowed { own ≡ None → IsBorrowed result }
{
    match own {
        Some(own) => CowStr::from(own),
        None => CowStr::Borrowed(same),
    }
}

impl<'t> LabelText<'t> {
    ghost use Rattle.markdown_scan.specs.LabelText.{so_far, completed};

    /// Returns the empty text.
    pub(crate) fn new(source: &'t str) -> LabelText<'t>
        ensures text { so_far result ≡ [] }
        ensures source { result.source.now ≡ source.now }
        ensures state { (result.begun ≡ false) × (result.waiting ≡ false) }
    {
        LabelText {
            source,
            same: 0,
            own: None,
            begun: false,
            waiting: false,
        }
    }

    // Appends a character to the text.
    #[inline(always)]
    fn push(&mut self, alloc: Global, c: char) -> Result<(), AllocError>
        ensures text { OnOk result (so_far self.new ≡ so_far self.old ++ encode_utf8 c) }
        ensures source { self.new.source ≡ self.old.source }
        ensures state { (self.new.begun ≡ self.old.begun) × (self.new.waiting ≡ self.old.waiting) }
        ensures differs { OnErr result
            (IsNoBeginning (so_far self.old ++ encode_utf8 c) self.old.source.now) }
    {
        if let Some(own) = &mut self.own {
            return own.push(c);
        }
        if begins_with(&self.source[self.same..], c) {
            self.same += c.len_utf8();
            return Ok(());
        }
        self.own = Some(with_character(alloc, &self.source[..self.same], c)?);
        Ok(())
    }

    // Appends the space that replaces the white space before the next character, if there is any.
    fn put_gap(&mut self, alloc: Global) -> Result<(), AllocError>
        ensures text { OnOk result
            (so_far self.new ≡ so_far self.old ++ label.gap self.old.begun self.old.waiting) }
        ensures source { self.new.source ≡ self.old.source }
        ensures differs { OnErr result
            (IsNoBeginning (so_far self.old ++ label.gap self.old.begun self.old.waiting)
            self.old.source.now) }
    {
        if self.begun && self.waiting {
            return self.push(alloc, ' ');
        }
        Ok(())
    }

    // Appends a character, collapsing white space.
    fn put(&mut self, alloc: Global, c: char) -> Result<(), AllocError>
        ensures text { OnOk result ((rest : List ℕ)
            → completed self.new rest ≡ completed self.old (encode_utf8 c ++ rest)) }
        ensures source { self.new.source ≡ self.old.source }
        ensures differs { OnErr result ((rest : List ℕ) (n : ℕ)
            → completed self.old (encode_utf8 c ++ rest) ≢ take n self.old.source.now) }
    {
        if is_white_space(c) {
            self.waiting = true;
            return Ok(());
        }
        self.put_gap(alloc)?;
        self.push(alloc, c)?;
        self.begun = true;
        self.waiting = false;
        Ok(())
    }

    /// Appends a character of the source that `next` follows, unless it is a backslash directly before a pipe in a
    /// table.
    pub(crate) fn put_shown(
        &mut self,
        alloc: Global,
        in_table: bool,
        c: char,
        next: &str,
    ) -> Result<(), AllocError>
        ensures text { OnOk result ((rest : List ℕ)
            → completed self.new rest
            ≡ completed self.old (scan.character_shown in_table c next.now ++ rest)) }
        ensures source { self.new.source ≡ self.old.source }
        ensures differs { OnErr result ((rest : List ℕ) (n : ℕ)
            → completed self.old (scan.character_shown in_table c next.now ++ rest) ≢ take n
            self.old.source.now) }
    {
        if escapes_pipe(in_table, c, next) {
            return Ok(());
        }
        self.put(alloc, c)
    }

    /// Returns the text: a slice of the source if it is a prefix of the source.
    pub(crate) fn finish(self) -> CowStr<'t>
        ensures text { text_of result ≡ so_far self.entry }
        ensures borrowed { (n : ℕ) → text_of result ≡ take n self.entry.source.now
            → IsBorrowed result }
    {
        let same = &self.source[..self.same];
        own_or(self.own, same)
    }
}
