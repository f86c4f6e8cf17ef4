//! Texts that are boxed, borrowed from the source, or short and stored inline.
ghost use Rattle.std.specs.Prelude.{◌≡◌, ◌<◌, ◌≤◌, length, IfOk, IsOk, IsOkAnd, Some, nat_eq, encode_utf8};
ghost use Rattle.std.specs.Prelude.{string_bytes};
ghost use Rattle.std.specs.Str.{bytes_eq};
ghost use Rattle.std.specs.Hash as fed;
ghost use Rattle.std.specs.Cmp;
ghost use Rattle.std.specs.Cmp.{on_equiv, on_per};
ghost use Rattle.std.specs.Cmp.Lexicographic.{pointwise, nat_list_eq_equiv};
ghost use Rattle.std.specs.Cmp.Rules.{hashing};
ghost use Rattle.std.proofs.Common.{rules};

use crate::inline_str::InlineStr;
use std::alloc::{AllocError, Global};
use std::boxed::BoxedStr;
use std::convert::AsStr;
use std::fmt;
use std::hash::{Hash, Hasher};
use std::ops::DerefStr;

/// A text in one of three forms. Equality and hashing depend on the text only, not on its form.
#[derive(Drop)]
pub enum CowStr<'a> {
    /// Owned, on the heap.
    Boxed(BoxedStr),
    /// A slice of the source.
    Borrowed(&'a str),
    /// At most 22 bytes, stored inline.
    Inlined(InlineStr),
}

impl<'a> CowStr<'a> {
    ghost use Rattle.markdown_base.specs.CowText.{text_of};
    ghost use Rattle.markdown_base.specs.StoredTexts.{IsBorrowed, IsBoxed};

    /// Returns the text.
    pub fn as_str(&self) -> &str
        ensures { result.now ≡ text_of self.now }
    {
        match self {
            CowStr::Boxed(boxed) => boxed.as_str(),
            CowStr::Borrowed(borrowed) => borrowed,
            CowStr::Inlined(inlined) => inlined.as_str(),
        }
    }

    /// Returns an owned copy of a text, stored inline if it has at most 22 bytes, and otherwise on the heap.
    fn copy_of<'b>(alloc: Global, text: &str) -> Result<CowStr<'b>, AllocError>
        ensures text { IfOk result (λ made. text_of made ≡ text.now) }
        ensures owned { IfOk result (λ made. IsBorrowed made → ⊥) }
        ensures short { length text.now ≤ 22 → IsOk result }
    {
        match InlineStr::new(text) {
            Some(inlined) => Ok(CowStr::Inlined(inlined)),
            None => Ok(CowStr::Boxed(BoxedStr::from_str(alloc, text)?)),
        }
    }

    /// Returns a copy. A slice of the source is copied as a slice, and only boxed texts of more than 22 bytes allocate
    /// memory. Fails only if an allocation fails.
    pub fn try_clone(&self, alloc: Global) -> Result<CowStr<'a>, AllocError>
        ensures text { IfOk result (λ copy. text_of copy ≡ text_of self.now) }
        ensures borrowed { IsBorrowed self.now → IsOkAnd result IsBorrowed }
        ensures short { (IsBoxed self.now → length (text_of self.now) ≤ 22) → IsOk result }
    {
        match self {
            CowStr::Boxed(boxed) => CowStr::copy_of(alloc, boxed.as_str()),
            CowStr::Borrowed(borrowed) => Ok(CowStr::Borrowed(borrowed)),
            CowStr::Inlined(inlined) => Ok(CowStr::Inlined(*inlined)),
        }
    }

    /// Returns the same text without borrowing from the source. A boxed text keeps its allocation, and only slices of
    /// more than 22 bytes allocate memory. Fails only if an allocation fails.
    pub fn into_static(self, alloc: Global) -> Result<CowStr<'static>, AllocError>
        ensures text { IfOk result (λ made. text_of made ≡ text_of self.entry) }
        ensures owned { IfOk result (λ made. IsBorrowed made → ⊥) }
        ensures boxed { IsBoxed self.entry → IsOkAnd result IsBoxed }
        ensures short { (IsBorrowed self.entry → length (text_of self.entry) ≤ 22) → IsOk result }
    {
        match self {
            CowStr::Boxed(boxed) => Ok(CowStr::Boxed(boxed)),
            CowStr::Borrowed(borrowed) => CowStr::copy_of(alloc, borrowed),
            CowStr::Inlined(inlined) => Ok(CowStr::Inlined(inlined)),
        }
    }

    /// Returns the text as a `String`. A boxed text keeps its allocation; other texts are copied. Fails only if
    /// an allocation fails.
    pub fn into_string(self, alloc: Global) -> Result<String, AllocError>
        ensures text { IfOk result (λ made. string_bytes made ≡ text_of self.entry) }
        ensures boxed { IsBoxed self.entry → IsOk result }
    {
        match self {
            CowStr::Boxed(boxed) => Ok(boxed.into_string()),
            CowStr::Borrowed(borrowed) => String::from_str(alloc, borrowed),
            CowStr::Inlined(inlined) => String::from_str(alloc, inlined.as_str()),
        }
    }
}

impl<'a> DerefStr for CowStr<'a> {
    ghost use Rattle.markdown_base.specs.CowText.{text_of};

    ghost deref_gives = { λ cow text. text ≡ text_of cow };

    fn deref(&self) -> &str {
        CowStr::as_str(self)
    }
}

impl<'a> AsStr for CowStr<'a> {
    ghost use Rattle.markdown_base.specs.CowText.{text_of};

    ghost text = { text_of };

    fn as_str(&self) -> &str {
        CowStr::as_str(self)
    }
}

impl<'a> From<&'a str> for CowStr<'a> {
    ghost use Rattle.markdown_base.specs.declared.cow_str.CowStr.TheVariants.{Borrowed};

    ghost from_gives = { λ text made. made ≡ Borrowed text };

    fn from(text: &'a str) -> CowStr<'a> {
        CowStr::Borrowed(text)
    }
}

impl<'a> From<char> for CowStr<'a> {
    ghost use Rattle.markdown_base.specs.CowText.{text_of, IsInlined};

    ghost from_gives = { λ c made. IsInlined made × (text_of made ≡ encode_utf8 c) };

    fn from(c: char) -> CowStr<'a> {
        CowStr::Inlined(InlineStr::from(c))
    }
}

impl<'a> From<String> for CowStr<'a> {
    ghost use Rattle.markdown_base.specs.CowText.{text_of};
    ghost use Rattle.markdown_base.specs.StoredTexts.{IsBoxed};

    ghost from_gives = { λ text made. IsBoxed made × (text_of made ≡ string_bytes text) };

    fn from(text: String) -> CowStr<'a> {
        CowStr::Boxed(text.into_boxed_str())
    }
}

impl<'a> PartialEq for CowStr<'a> {
    ghost use Rattle.markdown_base.specs.CowText.{text_of};

    ghost eq = { λ x y. pointwise nat_eq (text_of x) (text_of y) };

    ghost laws = { on_per text_of (Cmp.partial_equiv_from_equiv nat_list_eq_equiv) };

    fn eq(&self, other: &CowStr<'a>) -> bool {
        self.as_str() == other.as_str()
    }
}

impl<'a> Eq for CowStr<'a> {
    ghost use Rattle.markdown_base.specs.CowText.{text_of};

    ghost laws = { on_equiv text_of nat_list_eq_equiv };
}

impl<'a> Hash for CowStr<'a> {
    ghost use Rattle.markdown_base.specs.CowText.{text_of};

    ghost hash_input = { λ text. fed.str (text_of text) };

    ghost respects_eq = { Prim.search (hashing, rules) };

    fn hash<H: Hasher>(&self, state: &mut H) {
        self.as_str().hash(state);
    }
}

impl<'a> fmt::Display for CowStr<'a> {
    ghost use Rattle.markdown_base.specs.CowText.{text_of};

    ghost output = { λ text. Some (text_of text) };

    fn fmt<W: fmt::Write>(&self, f: &mut fmt::Formatter<W>) -> fmt::Result {
        let text = self.as_str();
        f.pad(text)
    }
}

impl<'a> fmt::Debug for CowStr<'a> {
    fn fmt<W: fmt::Write>(&self, f: &mut fmt::Formatter<W>) -> fmt::Result {
        let text = self.as_str();
        fmt::Debug::fmt(&text, f)
    }
}
