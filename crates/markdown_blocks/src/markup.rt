//! Rule 6 of a block result: markup is there.
ghost use Rattle.std.specs.Prelude.{◌≡◌, ◌↔◌, ◌≤◌, ◌==◌, ◌||◌, [], ◌∷◌, IsTrue, replicate};
ghost use Rattle.std.specs.List.{AllByRecursion};
ghost use Rattle.markdown_base.specs.Item.{LiesIn};
ghost use Rattle.markdown_base.specs.WellFormed.{StandsOverMarkup, MarkupIsThere};

use markdown_base::item::{Item, ItemBody};

/// Returns whether all bytes are backticks.
fn are_backticks(source: &[u8]) -> bool
    ensures { IsTrue result ↔ AllByRecursion (λ byte. byte ≡ 96) source.now }
{
    'bytes: for byte in source {
        if *byte != b'`' {
            return false;
        }
    }
    true
}

/// Returns whether the bytes are `count` backticks, and at least one.
fn is_backtick_run(source: &[u8], count: usize) -> bool
    ensures { IsTrue result ↔ (source.now ≡ replicate count 96) × (1 ≤ count) }
{
    1 <= count && source.len() == count && are_backticks(source)
}

/// Returns whether the bytes are exactly this quotation mark, a `"` or a `'`.
fn is_quote(source: &[u8], quote: u8) -> bool
    ensures { IsTrue result ↔ (source.now ≡ quote ∷ []) × IsTrue ((quote == 34) || (quote == 39)) }
{
    (quote == b'"' || quote == b'\'') && source.len() == 1 && source[0] == quote
}

/// Returns whether the bytes are the markup of a body, where an open body other than that of a delimiter run has one.
fn is_markup(source: &[u8], body: ItemBody) -> bool
    ensures { IsTrue result ↔ StandsOverMarkup source.now body }
{
    match body {
        ItemBody::MaybeMath(_, _, _) => source == b"$".as_slice(),
        ItemBody::MaybeSmartQuote(quote, _, _) => is_quote(source, quote),
        ItemBody::MaybeCode(count, _) => is_backtick_run(source, count as usize),
        ItemBody::MaybeHtml => source == b"<".as_slice(),
        ItemBody::MaybeLinkOpen => source == b"[".as_slice(),
        ItemBody::MaybeLinkClose(_) => source == b"]".as_slice(),
        ItemBody::MaybeImage => source == b"![".as_slice(),
        _ => true,
    }
}

/// Returns whether an item keeps rule 6, markup is there: the range of an open item, except a character of a delimiter
/// run, is exactly its markup.
pub fn markup_is_there(text: &str, item: &Item) -> bool
    requires { LiesIn text.now item.now }
    ensures { IsTrue result ↔ MarkupIsThere text.now item.now }
{
    is_markup(&text.as_bytes()[item.start..item.end], item.body)
}
