//! Pairing a closer with the opener that it found.
ghost use Rattle.std.specs.Prelude.{◌<◌};
ghost use Rattle.markdown_delims.specs.ChainStanding.{CanPair, Pairs};

use crate::extensions::Extensions;
use crate::layers::enclose;
use crate::nodes::lead_on;
use crate::run::Characters;
use markdown_base::item::Item;
use markdown_base::tree::Tree;

/// Pairs as many characters of an opener and a closer as the lesser of the two has: the opener's last characters, as
/// nodes, enclose what lies between the two, and the closer's first characters are removed from the chain. `last` is the
/// node before the closer. Returns the number of the outermost of these nodes, and the link to what follows it.
pub fn pair(
    tree: &mut Tree<Item>,
    extensions: Extensions,
    opener: Characters,
    closer: Characters,
    last: usize,
) -> (usize, Option<usize>)
    requires some_open { 0 < opener.count }
    requires some_close { 0 < closer.count }
    requires stands { CanPair extensions opener closer last tree.old }
    ensures { Pairs extensions opener closer last tree.old tree.new result.0 result.1 }
{
    lead_on(tree, last, None);
    enclose(tree, extensions, opener, closer)
}
