//! Reading a chain, tree by tree.
ghost use Rattle.std.specs.Prelude.{◌<◌, IfErr, IfOk};
ghost use Rattle.markdown_delims.specs.ChainReading.{CanMakeLiteral, MakesLiteral, CanReadTree, PaysForTree};
ghost use Rattle.markdown_delims.specs.ChainReading.{ReadsTree};

use crate::close::read_run;
use crate::extensions::{Source, run_of};
use crate::nodes::put_body;
use crate::open_runs::OpenRuns;
use crate::run::Characters;
use markdown_base::item::{Item, ItemBody};
use markdown_base::tree::Tree;
use std::alloc::AllocError;

/// Turns the characters of a run into Texts.
fn make_run_literal(tree: &mut Tree<Item>, met: Characters)
    requires stands { CanMakeLiteral met tree.old }
    ensures { MakesLiteral met tree.old tree.new }
{
    'make_literal: for i in 0..met.count {
        put_body(
            tree,
            met.number + i,
            ItemBody::Text {
                backslash_escaped: false,
            },
        );
    }
}

/// Reads a tree of a chain, or all of a delimiter run if the tree is its first character. Returns the last node that
/// was read, and the link to what follows that. Fails only if an allocation fails.
pub fn read_tree(
    tree: &mut Tree<Item>,
    openers: &mut OpenRuns,
    source: Source<'_>,
    ix: usize,
    last: Option<usize>,
) -> Result<(Option<usize>, Option<usize>), AllocError>
    requires stands { CanReadTree source.extensions source.text.now ix last tree.old openers.old }
    ensures ok { IfOk result (λ r.
        ReadsTree source.entry.extensions source.entry.text.now ix last tree.old tree.new
        openers.old openers.new r.0 r.1) }
    ensures paid { IfErr result (λ _.
        PaysForTree source.entry.text.now ix last tree.old openers.old openers.new) }
{
    let item = *tree.item(ix);
    match run_of(source.text, item) {
        None => Ok((Some(ix), tree.next(ix))),
        Some(run) => {
            let met = Characters {
                run,
                number: ix,
                count: run.length,
            };
            make_run_literal(tree, met);
            read_run(tree, openers, source.extensions, met, last)
        }
    }
}
