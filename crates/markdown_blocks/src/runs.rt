//! Rule 7 of a block result: runs are whole.
ghost use Rattle.std.specs.Prelude.{◌≡◌, ◌↔◌, ◌<◌, suc, IsTrue, Some, length, slice_index};
ghost use Rattle.markdown_base.specs.ArenaRules.{next_at};
ghost use Rattle.markdown_base.specs.BlockTree.{numbered};
ghost use Rattle.markdown_base.specs.WellFormed.{run_character, is_delimiter, byte_of, GoesOn, EndsRun, RunGoesOn};
ghost use Rattle.markdown_base.specs.WellFormed.{RunsAreWhole};

use markdown_base::byte_tests::is_delimiter;
use markdown_base::item::{Item, ItemBody};
use markdown_base::tree::Tree;

/// Returns the byte at an offset, or 0 outside the text.
fn byte_at(text: &str, at: usize) -> u8
    ensures { result ≡ slice_index text.now at }
{
    match text.as_bytes().get(at) {
        Some(byte) => *byte,
        None => 0,
    }
}

/// Returns whether a body is a character of a delimiter run with this count and these flags.
fn is_character(body: ItemBody, count: usize, can_open: bool, can_close: bool) -> bool
    ensures { IsTrue result ↔
        (run_character body
        ≡ Some (record { count = count; can_open = can_open; can_close = can_close })) }
{
    match body {
        ItemBody::MaybeEmphasis(n, opens, closes) => {
            n as usize == count && opens == can_open && closes == can_close
        }
        _ => false,
    }
}

/// Returns whether two nodes begin with the same byte.
fn begin_alike(text: &str, tree: &Tree<Item>, ix: usize, after: usize) -> bool
    requires first { ix < length tree.now.nodes }
    requires second { after < length tree.now.nodes }
    ensures { IsTrue result ↔
        (byte_of text.now (numbered tree.now.nodes after).item
        ≡ byte_of text.now (numbered tree.now.nodes ix).item) }
{
    byte_at(text, tree.item(after).start) == byte_at(text, tree.item(ix).start)
}

/// Returns whether a node is the character after another in one delimiter run, with this count and these flags.
fn goes_on(
    text: &str,
    tree: &Tree<Item>,
    ix: usize,
    after: usize,
    count: usize,
    can_open: bool,
    can_close: bool,
) -> bool
    requires first { ix < length tree.now.nodes }
    requires second { after < length tree.now.nodes }
    ensures { IsTrue result ↔
        GoesOn text.now (numbered tree.now.nodes ix) (numbered tree.now.nodes after)
        count can_open can_close }
{
    is_character(tree.item(after).body, count, can_open, can_close)
        && begin_alike(text, tree, ix, after)
        && tree.item(after).start == tree.item(ix).end
        && after > ix
        && after - ix == 1
}

/// Returns whether a node is not followed by a character of a delimiter run of the same kind.
fn ends_run(text: &str, tree: &Tree<Item>, ix: usize) -> bool
    requires { ix < length tree.now.nodes }
    ensures { IsTrue result ↔
        EndsRun text.now (numbered tree.now.nodes ix) (next_at tree.now.nodes ix) }
{
    match tree.next(ix) {
        None => true,
        Some(after) => match tree.item(after).body {
            ItemBody::MaybeEmphasis(_, _, _) => !begin_alike(text, tree, ix, after),
            _ => true,
        },
    }
}

/// Returns whether a delimiter run continues after a node as its count says: with a character of the count less one,
/// or, after a count of 1, not at all.
fn run_goes_on(
    text: &str,
    tree: &Tree<Item>,
    ix: usize,
    count: usize,
    can_open: bool,
    can_close: bool,
) -> bool
    requires { ix < length tree.now.nodes }
    ensures { IsTrue result ↔
        RunGoesOn text.now (numbered tree.now.nodes ix) count can_open can_close
        (next_at tree.now.nodes ix) }
{
    if count < 2 {
        return count == 1 && ends_run(text, tree, ix);
    }
    match tree.next(ix) {
        None => false,
        Some(after) => goes_on(text, tree, ix, after, count - 1, can_open, can_close),
    }
}

/// Returns whether an item is one byte that is a character of delimiter runs.
fn is_run_byte(text: &str, item: &Item) -> bool
    ensures { IsTrue result ↔
        (item.now.end ≡ suc item.now.start) × IsTrue (is_delimiter (byte_of text.now item.now)) }
{
    item.start < item.end && item.end - item.start == 1 && is_delimiter(byte_at(text, item.start))
}

/// Returns whether a node keeps rule 7, runs are whole: a character of a delimiter run is followed by as many as its
/// count says, and by no other of its kind.
pub fn runs_are_whole(text: &str, tree: &Tree<Item>, ix: usize) -> bool
    requires { ix < length tree.now.nodes }
    ensures { IsTrue result ↔
        RunsAreWhole text.now (numbered tree.now.nodes ix) (next_at tree.now.nodes ix) }
{
    match tree.item(ix).body {
        ItemBody::MaybeEmphasis(count, can_open, can_close) => {
            is_run_byte(text, tree.item(ix))
                && run_goes_on(text, tree, ix, count as usize, can_open, can_close)
        }
        _ => true,
    }
}
