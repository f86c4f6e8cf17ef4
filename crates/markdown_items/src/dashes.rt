//! Dashes: what a run of hyphens becomes.
ghost use Rattle.std.specs.Prelude.{◌≡◌, ◌+◌, ◌*◌, ◌≤◌, string_bytes};
ghost use Rattle.markdown_base.specs.CowText.{text_of};
ghost use Rattle.markdown_items.specs.Dashes.{dashes_for};

use markdown_base::cow_str::CowStr;
use markdown_base::inline_str::InlineStr;
use std::alloc::{AllocError, Global};

/// The dashes that stand in place of a run of hyphens.
#[derive(Clone, Copy)]
pub struct Dashes {
    /// The number of em dashes, which come first.
    pub em: usize,
    /// The number of en dashes.
    pub en: usize,
}

/// Returns the dashes for `count` hyphens, three for an em dash and two for an en dash: of one kind if they come out even,
/// em dashes before en dashes, and otherwise em dashes with one or two en dashes.
pub fn dashes_for(count: usize) -> Dashes
    requires { 2 ≤ count }
    ensures value { result ≡ dashes_for count }
    ensures all { 3 * result.em + 2 * result.en ≡ count }
{
    let (em, en) = if count % 3 == 0 {
        (count / 3, 0)
    } else if count % 2 == 0 {
        (0, count / 2)
    } else if (count - 2) % 3 == 0 {
        ((count - 2) / 3, 1)
    } else {
        ((count - 4) / 3, 2)
    };
    Dashes { em, en }
}

impl Dashes {
    ghost use Rattle.std.specs.Prelude.{◌≡◌, IfOk, string_bytes};
    ghost use Rattle.markdown_base.specs.CowText.{text_of};
    ghost use Rattle.markdown_items.specs.Dashes.{dashes_in_utf8};

    /// Returns the dashes as a text, stored inline if it has at most 22 bytes. Memory is allocated unless there is one
    /// dash. Fails only if an allocation fails.
    pub fn text<'a>(self, alloc: Global) -> Result<CowStr<'a>, AllocError>
        ensures { IfOk result (λ made. text_of made ≡ dashes_in_utf8 self) }
    {
        match (self.em, self.en) {
            (1, 0) => Ok(CowStr::from('—')),
            (0, 1) => Ok(CowStr::from('–')),
            _ => Ok(shortest(self.into_string(alloc)?)),
        }
    }

    /// Returns the dashes as a string. Fails only if an allocation fails.
    fn into_string(self, alloc: Global) -> Result<String, AllocError>
        ensures { IfOk result (λ made. string_bytes made ≡ dashes_in_utf8 self) }
    {
        let mut text = "—".repeat(alloc, self.em)?;
        let en_dashes = "–".repeat(alloc, self.en)?;
        text.push_str(en_dashes.as_str())?;
        Ok(text)
    }
}

/// Returns a text, stored inline if it has at most 22 bytes.
fn shortest<'a>(text: String) -> CowStr<'a>
    ensures { text_of result ≡ string_bytes text }
{
    match InlineStr::new(text.as_str()) {
        Some(inlined) => CowStr::Inlined(inlined),
        None => CowStr::from(text),
    }
}
