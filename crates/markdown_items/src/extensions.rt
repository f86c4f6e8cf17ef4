//! What of a syntax decides which items a line consists of.
ghost use Rattle.std.specs.Prelude.{◌≡◌};
ghost use Rattle.markdown_items.specs.LineItems.{item_syntax};

use markdown_base::syntax::Syntax;
use markdown_scan::entity::{EntityNames, entity_names};

/// The extensions of CommonMark that are read.
#[derive(Clone, Copy)]
pub struct ItemSyntax {
    /// One or two `~` are a delimiter run.
    pub tildes: bool,
    /// `^` makes delimiter runs.
    pub carets: bool,
    /// `'` and `"` are quotation marks.
    pub quotes: bool,
    /// Two or more hyphens are dashes, and three dots an ellipsis.
    pub dashes: bool,
    /// `$` delimits math.
    pub math: bool,
    /// The names by which entities are read.
    pub names: EntityNames,
}

impl ItemSyntax {
    /// Returns what a syntax has of a line's items: `~` with strikethrough or subscript, `^` with superscript, quotation
    /// marks, dashes, `$` with math; and the names by which entities are read.
    pub fn of(syntax: Syntax) -> ItemSyntax
        ensures { result ≡ item_syntax syntax }
    {
        ItemSyntax {
            tildes: syntax.strikethrough || syntax.subscript,
            carets: syntax.superscript,
            quotes: syntax.quotes,
            dashes: syntax.dashes,
            math: syntax.math,
            names: entity_names(syntax),
        }
    }
}
