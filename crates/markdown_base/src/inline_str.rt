//! Short texts that are stored inline.
ghost use Rattle.std.specs.Prelude.{◌≡◌, ◌<◌, ◌≤◌, length, take, MatchOption, IfSome, encode_utf8};
ghost use Rattle.std.specs.Prelude.{Some, nat_eq, MatchResult};
ghost use Rattle.std.specs.Str.{IsUtf8};
ghost use Rattle.std.specs.Hash as fed;
ghost use Rattle.std.specs.Cmp;
ghost use Rattle.std.specs.Cmp.{on_equiv, on_per};
ghost use Rattle.std.specs.Cmp.Lexicographic.{pointwise, nat_list_eq_equiv};
ghost use Rattle.std.specs.Cmp.Rules.{hashing};
ghost use Rattle.std.proofs.Common.{rules};

use std::convert::TryFrom;
use std::error::Error;
use std::fmt;
use std::hash::{Hash, Hasher};
use std::ops::DerefStr;
use std::str::from_utf8_unchecked;

/// The maximum length of an `InlineStr` in bytes.
pub const MAX_INLINE_STR_LEN: usize = 22;

/// A text of at most 22 bytes, stored inline.
#[derive(Clone, Copy)]
pub struct InlineStr {
    // No bytes, but the others begin at a whole word, so that a text is moved word by word.
    aligned: [u64; 0],
    bytes: [u8; MAX_INLINE_STR_LEN],
    len: u8,
    ghost fits: { len ≤ 22 },
    ghost is_text: { ∥ IsUtf8 (take len bytes) ∥₁ },
}

impl InlineStr {
    ghost use Rattle.markdown_base.specs.InlineText.{inline_text};

    /// Returns a copy of a text, or `None` if it has more than 22 bytes.
    pub fn new(text: &str) -> Option<InlineStr>
        ensures { MatchOption result (22 < length text.now) (λ held. (inline_text held ≡ text.now)
            × (length text.now ≤ 22)) }
    {
        let len = text.as_bytes().len();
        if len > MAX_INLINE_STR_LEN {
            return None;
        }
        let mut bytes = [0; MAX_INLINE_STR_LEN];
        (&mut bytes[..len]).copy_from_slice(text.as_bytes());
        Some(InlineStr {
            aligned: [],
            bytes,
            len: len as u8,
        })
    }

    /// Returns the text.
    pub fn as_str(&self) -> &str
        ensures { result.now ≡ inline_text self.now }
    {
        unsafe { from_utf8_unchecked(&self.bytes[..self.len as usize]) }
    }
}

impl From<char> for InlineStr {
    ghost use Rattle.markdown_base.specs.InlineText.{inline_text};

    ghost from_gives = { λ c held. inline_text held ≡ encode_utf8 c };

    /// Returns the text of a character, at most four bytes of UTF-8.
    fn from(c: char) -> InlineStr {
        let mut buffer = [0; 4];
        let text = c.encode_utf8(&mut buffer);
        InlineStr::new(text).unwrap()
    }
}

/// The error of a text that has more than 22 bytes.
#[derive(Clone, Copy, Debug, PartialEq, Eq, Drop)]
pub struct StringTooLongError;

impl fmt::Display for StringTooLongError {
    fn fmt<W: fmt::Write>(&self, f: &mut fmt::Formatter<W>) -> fmt::Result {
        f.write_str("the text has more than 22 bytes")
    }
}

impl Error for StringTooLongError {}

impl<'a> TryFrom<&'a str> for InlineStr {
    ghost use Rattle.markdown_base.specs.InlineText.{inline_text};

    type Error = StringTooLongError;

    ghost try_from_gives = { λ text r. MatchResult r
        (λ held. (inline_text held ≡ text.now) × (length text.now ≤ 22))
        (λ _. 22 < length text.now) };

    fn try_from(text: &'a str) -> Result<InlineStr, StringTooLongError> {
        match InlineStr::new(text) {
            Some(held) => Ok(held),
            None => Err(StringTooLongError),
        }
    }
}

impl DerefStr for InlineStr {
    ghost use Rattle.markdown_base.specs.InlineText.{inline_text};

    ghost deref_gives = { λ held text. text ≡ inline_text held };

    fn deref(&self) -> &str {
        InlineStr::as_str(self)
    }
}

impl PartialEq for InlineStr {
    ghost use Rattle.markdown_base.specs.InlineText.{inline_text};

    ghost eq = { λ x y. pointwise nat_eq (inline_text x) (inline_text y) };

    ghost laws = { on_per inline_text (Cmp.partial_equiv_from_equiv nat_list_eq_equiv) };

    fn eq(&self, other: &InlineStr) -> bool {
        self.as_str() == other.as_str()
    }
}

impl Eq for InlineStr {
    ghost use Rattle.markdown_base.specs.InlineText.{inline_text};

    ghost laws = { on_equiv inline_text nat_list_eq_equiv };
}

impl Hash for InlineStr {
    ghost use Rattle.markdown_base.specs.InlineText.{inline_text};

    ghost hash_input = { λ held. fed.str (inline_text held) };

    ghost respects_eq = { Prim.search (hashing, rules) };

    fn hash<H: Hasher>(&self, state: &mut H) {
        self.as_str().hash(state);
    }
}

impl fmt::Display for InlineStr {
    ghost use Rattle.markdown_base.specs.InlineText.{inline_text};

    ghost output = { λ held. Some (inline_text held) };

    fn fmt<W: fmt::Write>(&self, f: &mut fmt::Formatter<W>) -> fmt::Result {
        let text = self.as_str();
        f.pad(text)
    }
}

impl fmt::Debug for InlineStr {
    fn fmt<W: fmt::Write>(&self, f: &mut fmt::Formatter<W>) -> fmt::Result {
        let text = self.as_str();
        fmt::Debug::fmt(&text, f)
    }
}
