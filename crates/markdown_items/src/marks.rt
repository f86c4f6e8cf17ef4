//! The open items of one byte whose fields depend on the characters around them.
ghost use Rattle.std.specs.Prelude.{◌≡◌};
ghost use Rattle.markdown_items.specs.LineItems.{math_mark, quote_mark};

use crate::around::is_white;
use crate::flanking::flags_of;
use markdown_base::item::ItemBody;

/// Returns the item of a `$` between two characters.
pub fn math_mark(before: Option<char>, after: Option<char>) -> ItemBody
    ensures { result ≡ math_mark before after }
{
    ItemBody::MaybeMath(!is_white(after), !is_white(before), 0)
}

/// Returns the item of a quotation mark between two characters.
pub fn quote_mark(byte: u8, before: Option<char>, after: Option<char>) -> ItemBody
    ensures { result ≡ quote_mark byte before after }
{
    let flags = flags_of(byte, before, after);
    ItemBody::MaybeSmartQuote(byte, flags.opens, flags.closes)
}
