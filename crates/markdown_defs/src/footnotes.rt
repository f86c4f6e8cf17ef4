//! Footnotes, looked up by the case folding of their names, with the count of their uses.
ghost use Rattle.std.specs.Prelude.{◌≡◌, ℕ, List, Some, None, IfErr, IfOk, OnErr, OnOk, encode_utf8_all, if◌then◌else◌};
ghost use Rattle.std.specs.Prelude.{is_some, nat_eq};
ghost use Rattle.std.specs.Borrow.{sem};
ghost use Rattle.std.specs.Cmp.Lexicographic.{pointwise};
ghost use Rattle.std.specs.BTreeMap.{get_by_text};
ghost use Rattle.std.specs.Option.{option_copied_mut, option_map};
ghost use Rattle.markdown_base.specs.CowText.{text_of};
ghost use Rattle.markdown_base.specs.declared.fault.Fault.{Fault};
ghost use Rattle.markdown_defs.specs.Folding.{case_folding, is_match};
ghost use Rattle.markdown_defs.specs.Footnotes.{footnote_at};
ghost use Rattle.markdown_defs.specs.FootnoteCounts.{unused, unused_at, used_once_more};
ghost use Rattle.markdown_defs.specs.FootnoteLending.{LendsDefined, LendsFolded, LendsFootnote};
ghost use Rattle.markdown_defs.specs.FootnoteLending.{none_if_undefined};

use super::folding::fold;
use markdown_base::cow_str::CowStr;
use markdown_base::fault::Fault;
use std::alloc::Global;
use std::collections::BTreeMap;
use std::fmt;

/// A footnote that is defined.
#[derive(Clone, Copy, Debug, PartialEq, Eq, Drop)]
pub struct FootnoteDef {
    /// The number of references to it, at most `usize::MAX`.
    pub use_count: usize,
}

/// Why no footnote was found.
#[derive(Clone, Copy, Debug, PartialEq, Eq, Drop)]
pub enum Absence {
    /// No footnote of this name is defined.
    Undefined,
    /// An allocation failed.
    Refused,
}

impl From<Fault> for Absence {
    ghost use Rattle.markdown_defs.specs.declared.footnotes.Absence.{Absence};

    ghost from_gives = { λ _ why. why ≡ Absence.Refused };

    fn from(_fault: Fault) -> Absence {
        Absence::Refused
    }
}

/// The footnotes of a text, looked up by the case folding of their names.
#[derive(Drop)]
pub struct FootnoteDefs {
    alloc: Global,
    /// An ordered map, not a hashed one, so that no choice of names makes look-ups slow.
    by_folding: BTreeMap<String, FootnoteDef>,
}

impl FootnoteDefs {
    /// Returns the footnotes of these names, none of them used yet.
    pub(super) fn new(alloc: Global, names: Vec<CowStr<'_>>) -> Result<FootnoteDefs, Fault>
        ensures unused { IfOk result (λ made. (name : List ℕ)
            → footnote_at made name ≡ unused_at names.entry.items name) }
        ensures refused { IfErr result (λ fault. fault ≡ Fault.Memory) }
    {
        let mut by_folding: BTreeMap<String, FootnoteDef> = BTreeMap::new(alloc);
        for name in names {
            add_unused(&mut by_folding, alloc, name.as_str())?;
        }
        Ok(FootnoteDefs { alloc, by_folding })
    }

    /// Returns whether a footnote of this name is defined. The only error is `Fault::Memory`.
    pub fn contains(&self, name: &str) -> Result<bool, Fault>
        ensures found { IfOk result (λ found. found ≡ is_some (footnote_at self.now name.now)) }
        ensures refused { IfErr result (λ fault. fault ≡ Fault.Memory) }
    {
        let folded = fold(self.alloc, name)?;
        Ok(self.by_folding.contains_key(folded.as_str()))
    }

    /// Counts one more use of the footnote of this name, up to `usize::MAX`, and returns whether it is defined. The
    /// only error is `Fault::Memory`. After an error, or if the name is not defined, nothing has changed.
    pub fn count_use(&mut self, name: &str) -> Result<bool, Fault>
        ensures found { IfOk result (λ found. found ≡ is_some (footnote_at self.old name.now)) }
        ensures counted { OnOk result ((other : List ℕ) → footnote_at self.new other
            ≡ (if is_match name.now other
            then option_map used_once_more (footnote_at self.old name.now)
            else footnote_at self.old other)) }
        ensures refused { IfErr result (λ fault. fault ≡ Fault.Memory) }
        ensures unchanged { OnErr result (self.new ≡ self.old) }
    {
        let folded = fold(self.alloc, name)?;
        match self.lend(folded.as_str()) {
            None => Ok(false),
            Some(footnote) => {
                footnote.use_count = footnote.use_count.saturating_add(1);
                Ok(true)
            }
        }
    }

    /// Returns the footnote of this name for changes in place; none is added. Once the reference ends, each name that
    /// matches finds what was written through it, and all others find what they did before. The only error is
    /// `Fault::Memory`. After an error, or if the name is not defined, nothing has changed.
    pub fn get_mut(&mut self, key: CowStr<'_>) -> Result<Option<&mut FootnoteDef>, Fault>
        ensures* writes_back { sem 𝓛 (LendsFootnote self.entry (text_of key.entry) result) }
        ensures found { IfOk result (λ found.
            option_copied_mut found ≡ footnote_at self.old (text_of key.entry)) }
        ensures refused { IfErr result (λ fault. fault ≡ Fault.Memory) }
    {
        none_if_undefined(self.find_mut(key))
    }

    /// Returns the footnote of this name as `get_mut` does, except that an undefined footnote is the error
    /// `Absence::Undefined`, and a refused allocation is `Absence::Refused`. Only from this form can the proof of a
    /// caller conclude what a write leaves. After an error nothing has changed.
    pub fn find_mut(&mut self, key: CowStr<'_>) -> Result<&mut FootnoteDef, Absence>
        ensures* writes_back { sem 𝓛 (LendsDefined self.entry (text_of key.entry) result) }
        ensures found { IfOk result (λ found. Some found.now
            ≡ footnote_at self.old (text_of key.entry)) }
        ensures undefined { IfErr result (λ why.
            why ≡ Absence.Undefined → footnote_at self.old (text_of key.entry) ≡ None) }
    {
        let folded = fold(self.alloc, key.as_str())?;
        match self.lend(folded.as_str()) {
            Some(footnote) => Ok(footnote),
            None => Err(Absence::Undefined),
        }
    }

    /// Returns the footnote of this folding.
    fn lend(&mut self, folded: &str) -> Option<&mut FootnoteDef>
        ensures* writes_back { sem 𝓛 (LendsFolded self.entry folded.now result) }
        ensures found { option_copied_mut result ≡ get_by_text self.old.by_folding folded.now }
    {
        self.by_folding.get_mut(folded)
    }
}

/// Returns what was found, with `None` for a footnote that is not defined.
fn none_if_undefined<'a>(
    found: Result<&'a mut FootnoteDef, Absence>,
) -> Result<Option<&'a mut FootnoteDef>, Fault>
    ensures same { result ≡ none_if_undefined found.entry }
{
    match found {
        Ok(footnote) => Ok(Some(footnote)),
        Err(Absence::Undefined) => Ok(None),
        Err(Absence::Refused) => Err(Fault::Memory),
    }
}

/// Adds a footnote that is not used yet.
fn add_unused(
    by_folding: &mut BTreeMap<String, FootnoteDef>,
    alloc: Global,
    name: &str,
) -> Result<(), Fault>
    ensures added { OnOk result ((folded : List ℕ)
        → get_by_text by_folding.new (encode_utf8_all folded)
        ≡ (if pointwise nat_eq (case_folding name.now) folded then Some unused
        else get_by_text by_folding.old (encode_utf8_all folded))) }
    ensures refused { IfErr result (λ fault. fault ≡ Fault.Memory) }
{
    let folded = fold(alloc, name)?;
    by_folding.insert(folded, FootnoteDef { use_count: 0 })?;
    Ok(())
}

impl fmt::Debug for FootnoteDefs {
    fn fmt<W: fmt::Write>(&self, f: &mut fmt::Formatter<W>) -> fmt::Result {
        f.debug_struct("FootnoteDefs").finish_non_exhaustive()
    }
}
