//! Quotes of a chain under smart punctuation, and a hard break by a backslash at its end.
ghost use Rattle.std.specs.Prelude.{◌≡◌, ◌≤◌, ◌^◌, ℕ, Bool, List, Option, length};
ghost use Rattle.markdown_base.specs.WellFormed.{run_character};
ghost use Rattle.markdown_document.specs.Document.{shape_of};
ghost use Rattle.markdown_document.specs.Tables.{Tables};
ghost use Rattle.markdown_delims.specs.Quotes.{kind_of_shape};
ghost use Rattle.markdown_delims.specs.Quoting.{QuotesTree, CanQuote, CanQuoteChain, QuotesChain, Counts};
ghost use Rattle.markdown_delims.specs.RunReading.{counts_one};

use crate::nodes::put_body;
use markdown_base::item::{Item, ItemBody};
use markdown_base::tree::Tree;

/// The kind of a body, for reading quotes: a `'` or a `"`, with whether it can open and can close; a hard break by a
/// backslash; or any other.
#[derive(Clone, Copy)]
pub enum Kind {
    Single(bool, bool),
    Double(bool, bool),
    Break,
    Other,
}

/// The `'` that is remembered, if any, which a later one may close, and whether a `"` is open.
#[derive(Clone, Copy)]
pub struct OpenQuotes {
    /// The number of its node.
    pub single: Option<usize>,
    pub double: bool,
}

fn kind_of(body: ItemBody) -> Kind
    ensures { (tables : Tables) (source : List ℕ)
        → result ≡ kind_of_shape (shape_of tables source body) }
{
    match body {
        ItemBody::MaybeSmartQuote(quote, opens, closes) => {
            if quote == b'\'' {
                Kind::Single(opens, closes)
            } else {
                Kind::Double(opens, closes)
            }
        }
        ItemBody::HardBreak(by_backslash) => if by_backslash {
            Kind::Break
        } else {
            Kind::Other
        },
        _ => Kind::Other,
    }
}

/// Returns 1 for a character of a delimiter run, and 0 for any other body.
fn counts_one(body: ItemBody) -> u64
    ensures { result ≡ counts_one (run_character body) }
{
    match body {
        ItemBody::MaybeEmphasis(_, _, _) => 1,
        _ => 0,
    }
}

/// Reads a `'`; `single` is the one that is remembered, if any. Returns the one that is remembered afterwards.
fn quote_single(
    tree: &mut Tree<Item>,
    ix: usize,
    single: Option<usize>,
    opens: bool,
    closes: bool,
) -> Option<usize>
    requires stands { CanQuote ix tree.old single }
    ensures quotes { (double last : Bool)
        → QuotesTree (Kind.Single opens closes) ix last tree.old tree.new
        (record { single = single; double = double })
        (record { single = result; double = double }) }
{
    match single {
        None => {
            put_body(tree, ix, ItemBody::SynthesizeChar('’'));
            if opens { Some(ix) } else { None }
        }
        Some(left) => {
            if closes {
                put_body(tree, left, ItemBody::SynthesizeChar('‘'));
                put_body(tree, ix, ItemBody::SynthesizeChar('’'));
                return None;
            }
            put_body(tree, ix, ItemBody::SynthesizeChar('’'));
            if opens { Some(ix) } else { single }
        }
    }
}

/// Reads a `"`; `double` says whether another is open. Returns whether one is open afterwards.
fn quote_double(tree: &mut Tree<Item>, ix: usize, double: bool, opens: bool, closes: bool) -> bool
    requires stands { (single : Option ℕ) × CanQuote ix tree.old single }
    ensures quotes { (single : Option ℕ) (last : Bool)
        → QuotesTree (Kind.Double opens closes) ix last tree.old tree.new
        (record { single = single; double = double })
        (record { single = single; double = result }) }
{
    if double && closes {
        put_body(tree, ix, ItemBody::SynthesizeChar('”'));
        false
    } else {
        put_body(tree, ix, ItemBody::SynthesizeChar('“'));
        opens || double
    }
}

/// Reads a tree of a chain; `last` says whether none follows it. Returns the quotes that are open afterwards.
fn quote_tree(
    tree: &mut Tree<Item>,
    kind: Kind,
    ix: usize,
    last: bool,
    opened: OpenQuotes,
) -> OpenQuotes
    requires stands { CanQuote ix tree.old opened.single }
    ensures quotes { QuotesTree kind ix last tree.old tree.new opened result }
{
    match kind {
        Kind::Single(opens, closes) => OpenQuotes {
            single: quote_single(tree, ix, opened.single, opens, closes),
            double: opened.double,
        },
        Kind::Double(opens, closes) => OpenQuotes {
            single: opened.single,
            double: quote_double(tree, ix, opened.double, opens, closes),
        },
        Kind::Break => {
            if last {
                put_body(tree, ix, ItemBody::SynthesizeChar('\\'));
                return opened;
            }
            opened
        }
        Kind::Other => opened,
    }
}

/// Reads the quotes of the chain from `first` on, and its last break. Returns the number of its items that are
/// characters of delimiter runs.
pub fn quote_chain(tree: &mut Tree<Item>, first: usize) -> u64
    requires chain { CanQuoteChain tree.old.nodes first }
    ensures quotes { QuotesChain tree.old tree.new first }
    ensures count { Counts tree.old.nodes first result }
    ensures few { length tree.new.nodes ≤ 2 ^ 63 }
{
    let mut opened = OpenQuotes {
        single: None,
        double: false,
    };
    let mut delimiters = 0;
    let mut cur = Some(first);
    'trees: while let Some(ix) = cur {
        let next = tree.next(ix);
        let body = tree.item(ix).body;
        delimiters += counts_one(body);
        opened = quote_tree(tree, kind_of(body), ix, next.is_none(), opened);
        cur = next;
    }
    delimiters
}
