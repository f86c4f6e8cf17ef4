//! Items at which nothing is found become literal text.
ghost use Rattle.std.specs.Prelude.{◌≡◌, ◌<◌, length};
ghost use Rattle.markdown_document.specs.Waiting.{waits_for_pairing};
ghost use Rattle.markdown_resolver.specs.LiteralText.{becomes_text, literal_at};

use markdown_base::item::{Item, ItemBody};
use markdown_base::tree::Tree;

/// Returns whether pairing decides about the item: it is a character of a delimiter run, or a quotation mark.
fn waits_for_pairing(body: ItemBody) -> bool
    ensures { result ≡ waits_for_pairing body }
{
    match body {
        ItemBody::MaybeEmphasis(_, _, _) | ItemBody::MaybeSmartQuote(_, _, _) => true,
        _ => false,
    }
}

/// Returns whether the item becomes a Text where nothing is found: it is open, and does not wait for pairing.
fn becomes_text(body: ItemBody) -> bool
    ensures { result ≡ becomes_text body }
{
    body.is_open() && !waits_for_pairing(body)
}

/// Makes a node's item literal at which nothing is found: it becomes a Text over its range, if it is open and does not
/// wait for pairing.
pub(crate) fn make_node_literal(tree: &mut Tree<Item>, ix: usize)
    requires { ix < length tree.old.nodes }
    ensures { tree.new ≡ record tree.old { nodes = literal_at ix tree.old.nodes } }
{
    let item = *tree.item(ix);
    if becomes_text(item.body) {
        tree.set_item(
            ix,
            Item {
                start: item.start,
                end: item.end,
                body: ItemBody::Text {
                    backslash_escaped: false,
                },
            },
        );
    }
}
