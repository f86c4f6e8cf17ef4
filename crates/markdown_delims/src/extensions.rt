//! What paired characters become, by the enabled marks.
ghost use Rattle.std.specs.Prelude.{◌≡◌};
ghost use Rattle.markdown_document.specs.Document.{part_of};
ghost use Rattle.markdown_document.specs.Tables.{Tables};
ghost use Rattle.markdown_delims.specs.Enclosing.{IsLayer};
ghost use Rattle.markdown_delims.specs.Layers.{layer_of_one, layer_of_two, run_of};
ghost use Rattle.markdown_delims.specs.MayPair.{delimiter_of};
ghost use Rattle.markdown_delims.specs.ChainReading.{HasCount};

use crate::run::{Delimiter, Run};
use markdown_base::item::{Item, ItemBody};
use markdown_base::syntax::Syntax;

/// The enabled marks.
#[derive(Clone, Copy)]
pub struct Extensions {
    pub strikethrough: bool,
    pub superscript: bool,
    pub subscript: bool,
}

impl Extensions {
    ghost use Rattle.markdown_delims.specs.Layers.{extensions_of};

    /// Returns the marks of a syntax.
    pub fn of(syntax: Syntax) -> Extensions
        ensures { result ≡ extensions_of syntax }
    {
        Extensions {
            strikethrough: syntax.strikethrough,
            superscript: syntax.superscript,
            subscript: syntax.subscript,
        }
    }

    /// Returns the body of a layer of two characters.
    pub fn layer_of_two(self, delimiter: Delimiter) -> ItemBody
        ensures { IsLayer result (layer_of_two self delimiter) }
    {
        let whole_text = ItemBody::Text {
            backslash_escaped: false,
        };
        match delimiter {
            Delimiter::Star | Delimiter::Underscore => ItemBody::Strong,
            Delimiter::Tilde => if self.strikethrough {
                ItemBody::Strikethrough
            } else {
                whole_text
            },
            Delimiter::Caret => if self.superscript {
                ItemBody::Superscript
            } else {
                whole_text
            },
        }
    }

    /// Returns the body of a layer of one character.
    pub fn layer_of_one(self, delimiter: Delimiter) -> ItemBody
        ensures { IsLayer result (layer_of_one self delimiter) }
    {
        let whole_text = ItemBody::Text {
            backslash_escaped: false,
        };
        match delimiter {
            Delimiter::Star | Delimiter::Underscore => ItemBody::Emphasis,
            Delimiter::Tilde => {
                if self.subscript {
                    ItemBody::Subscript
                } else if self.strikethrough {
                    ItemBody::Strikethrough
                } else {
                    whole_text
                }
            }
            Delimiter::Caret => if self.superscript {
                ItemBody::Superscript
            } else {
                whole_text
            },
        }
    }
}

/// A source text, with the enabled marks.
#[derive(Clone, Copy)]
pub struct Source<'a> {
    pub text: &'a [u8],
    pub extensions: Extensions,
}

/// Returns the delimiter of a byte; `None` for bytes that are not delimiters.
pub fn delimiter_of(byte: u8) -> Option<Delimiter>
    ensures { result ≡ delimiter_of byte }
{
    match byte {
        b'*' => Some(Delimiter::Star),
        b'_' => Some(Delimiter::Underscore),
        b'~' => Some(Delimiter::Tilde),
        b'^' => Some(Delimiter::Caret),
        _ => None,
    }
}

/// Returns the delimiter run that an item's character begins; `None` if the item is not a character of a run.
pub fn run_of(text: &[u8], item: Item) -> Option<Run>
    ensures { (tables : Tables) → HasCount item.body
        → result ≡ run_of text.now (part_of text.now tables item) }
{
    match item.body {
        ItemBody::MaybeEmphasis(length, can_open, can_close) => {
            let byte = *text.get(item.start)?;
            let delimiter = delimiter_of(byte)?;
            Some(Run {
                delimiter,
                length: length as usize,
                can_open,
                can_close,
            })
        }
        _ => None,
    }
}
