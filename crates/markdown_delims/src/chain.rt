//! Pairing a chain in place: its quotes and its last break, and then its delimiter runs.
ghost use Rattle.std.specs.Prelude.{◌≡◌, ℕ, ◌+◌, ◌-◌, ◌*◌, ◌^◌, ◌≤◌, Some, OnOk};
ghost use Rattle.markdown_base.specs.BlockTree.{trees_at};
ghost use Rattle.markdown_document.specs.Places.{trees_from};
ghost use Rattle.markdown_document.specs.Setting.{Rules, setting_of};
ghost use Rattle.markdown_document.specs.Tables.{Tables};
ghost use Rattle.markdown_delims.specs.PairingFinds.{finds_in};
ghost use Rattle.markdown_delims.specs.RunReading.{delimiters_of};
ghost use Rattle.markdown_delims.specs.ChainReading.{IsEmptied, CanPairAll, PairsRuns, CountsFinds};
ghost use Rattle.markdown_delims.specs.ChainReading.{PaysForRuns};
ghost use Rattle.markdown_delims.specs.PairedChain.{CanPair, PairsChain};
ghost use Rattle.markdown_document.specs.Counts.{RisesAtLeast, RisesAtMost, comparisons_per_delimiter, risen};

use crate::extensions::{Extensions, Source};
use crate::open_runs::OpenRuns;
use crate::quotes::quote_chain;
use crate::read::read_tree;
use markdown_base::item::Item;
use markdown_base::syntax::Syntax;
use markdown_base::tree::Tree;
use markdown_document::work::Work;
use std::alloc::AllocError;

/// Pairs the delimiter runs of the chain from `first` on, before which no run is open; `count` is the number of their
/// characters.
fn pair_runs(
    tree: &mut Tree<Item>,
    openers: &mut OpenRuns,
    source: Source<'_>,
    first: usize,
    count: u64,
) -> Result<(), AllocError>
    requires emptied { IsEmptied openers.old }
    requires chain { CanPairAll source.extensions source.text.now tree.old.nodes first count
        openers.old }
    ensures pairs { OnOk result (PairsRuns source.entry.extensions source.entry.text.now
        tree.old tree.new first count) }
    ensures found { OnOk result (CountsFinds source.entry.extensions source.entry.text.now
        tree.old.nodes first count openers.old openers.new) }

    // whatever comes
    ensures paid { PaysForRuns source.entry.extensions source.entry.text.now tree.old.nodes first
        count openers.old openers.new }
{
    if count == 0 {
        return Ok(());
    }
    let mut last = None;
    let mut cur = Some(first);
    'trees: while let Some(ix) = cur {
        let (read, next) = read_tree(tree, openers, source, ix, last)?;
        last = read;
        cur = next;
    }
    Ok(())
}

/// What a chain is paired by: the text that its items are ranges of, and what is read of it.
#[derive(Clone, Copy, Drop)]
pub struct ChainText<'t> {
    pub text: &'t str,
    pub syntax: Syntax,
}

/// Pairs the chain of inline items from the node `first` on in place, once pass one has left nothing open in it but
/// quotes and delimiter runs: quotes become their characters, a hard break by a backslash at its end becomes that
/// backslash, paired delimiter characters become nodes around what lies between them, and all other delimiter
/// characters become Texts of one byte each (CommonMark 6.2).
///
/// `open_runs` is emptied first; its allocation is kept from chain to chain. `work` counts the delimiter characters and
/// the comparisons of open runs with closers: at most `comparisons_per_delimiter` for each character, and at least one
/// for each search by a closer that finds an opener. Fails only if an allocation fails, after which the nodes of the
/// chain may be in any state. Upstream: `handle_emphasis_and_hard_break`.
pub fn pair_chain(
    tree: &mut Tree<Item>,
    open_runs: &mut OpenRuns,
    source: ChainText<'_>,
    first: usize,
    work: &mut Work,
) -> Result<(), AllocError>
    requires chain { CanPair source.text.now tree.old.nodes first }
    ensures pairs { OnOk result ((rules : Rules) → rules.syntax ≡ source.entry.syntax
        → PairsChain (setting_of source.entry.text.now rules) first tree.old.nodes
        tree.new.nodes) }
    ensures place { OnOk result (tree.new ≡ record tree.old { nodes = tree.new.nodes }) }
    ensures found { OnOk result ((rules : Rules) (tables : Tables)
        → rules.syntax ≡ source.entry.syntax
        → RisesAtLeast (finds_in (setting_of source.entry.text.now rules)
        (trees_from source.entry.text.now tables tree.old.nodes (Some first)))
        work.old.examined work.new.examined) }

    // on success and on error
    ensures examined { RisesAtMost
        (comparisons_per_delimiter * delimiters_of (trees_at tree.old.nodes (Some first)))
        work.old.examined work.new.examined }
    ensures counted { work.new ≡ record work.old {
      delimiters = risen (delimiters_of (trees_at tree.old.nodes (Some first))) work.old.delimiters;
      examined = work.new.examined;
    } }
{
    open_runs.clear();
    let marked = Source {
        text: source.text.as_bytes(),
        extensions: Extensions::of(source.syntax),
    };
    let delimiters = quote_chain(tree, first);
    let done = pair_runs(tree, open_runs, marked, first, delimiters);
    work.count_pairing(delimiters as u128, open_runs.comparisons());
    done
}
