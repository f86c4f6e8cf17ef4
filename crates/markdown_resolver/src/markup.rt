//! Autolinks and raw HTML in a chain, read in place.
ghost use Rattle.std.specs.Prelude.{◌≡◌, ◌==◌, ◌<◌, ℕ, List, Some, false, IfErr, IfOk, IfSome, length, take};
ghost use Rattle.std.specs.Option.{option_map_or};
ghost use Rattle.markdown_base.specs.BlockTree.{item_at};
ghost use Rattle.markdown_base.specs.declared.item.ItemBody.TheVariants as body;
ghost use Rattle.markdown_document.specs.Setting.{Rules};
ghost use Rattle.markdown_document.specs.Tables.{Tables, tables_of};
ghost use Rattle.markdown_document.specs.NamedEntries.{HasGrown};
ghost use Rattle.markdown_spans.specs.AfterLess.{autolink};
ghost use Rattle.markdown_spans.specs.Finds.{end_of_markup, link_type};
ghost use Rattle.markdown_spans.specs.MarkupView.{markup_of};
ghost use Rattle.markdown_resolver.specs.MarkupItems.{IsMarkupAt, item_to, standing_for};
ghost use Rattle.markdown_resolver.specs.Rewritten.{CanPut, IsFoundAt, IsRefused, Puts, one_item};

use crate::continuation::Continuation;
use crate::found::{make_literal, put_found, put_parent};
use crate::resolver::Resolver;
use markdown_base::cow_str::CowStr;
use markdown_base::fault::Fault;
use markdown_base::item::{Item, ItemBody};
use markdown_base::tag::LinkType;
use markdown_base::tree::Tree;
use markdown_defs::{Allocations, BrokenLinkCallback};
use markdown_document::chain_place::ChainPlace;
use markdown_raw_html::raw_html::RawHtmlScanner;
use markdown_spans::after_less::{Autolink, AutolinkKind, LessThan, MarkupFound, scan_after_less};
use markdown_spans::prefixes::ContainerPrefix;

impl<'a, F: BrokenLinkCallback<'a>> Resolver<'a, F> {
    ghost use Rattle.markdown_resolver.specs.ReadsBracket.{CanReadOther, ChangesForOther, ReadsOther, StopsLooking};

    /// Reads a `<`: an autolink (CommonMark 6.5), to an absolute URI or, with the full reading, to an address, or
    /// raw HTML (6.6), if there is one and the next item starts directly after the `<`; otherwise the `<` becomes a
    /// Text, as it does where it is not before the block's end. The scanner has to be one of the text up to that end.
    /// Returns the rest of the chain.
    pub(crate) fn read_markup(
        &mut self,
        tree: &mut Tree<Item>,
        place: &ChainPlace<'a, '_>,
        scanner: &mut RawHtmlScanner<'a>,
        ix: usize,
    ) -> Result<Continuation, Fault>
        requires ready { CanReadOther place.now tree.old self.old ix }
        requires opener { (item_at tree.old.nodes ix).body ≡ body.MaybeHtml }
        requires scanner { scanner.old.text.now ≡ take place.now.block_end place.now.text.now }
        ensures reads { IfOk result (λ rest.
            ReadsOther ix rest tree.old tree.new self.old self.new) }

        // on error, and then on success and on error
        ensures stops { IfErr result (λ _. StopsLooking ix tree.old self.old self.new) }
        ensures refused { IfErr result (IsRefused tree.old tree.new) }
        ensures kept { ChangesForOther self.old self.new }
        ensures scanner { scanner.new.text ≡ scanner.old.text }
    {
        let item = *tree.item(ix);
        if item.end > place.block_end || !starts_at(tree, tree.next(ix), item.end) {
            return Ok(make_literal(tree, ix));
        }
        let prefix = ContainerPrefix::new(place);
        let text = &place.text[..place.block_end];
        let less = LessThan {
            text,
            start: item.start,
            at: item.end,
            addresses: place.syntax.addresses,
        };
        match scan_after_less(self.alloc, &less, scanner, &prefix)? {
            None => Ok(make_literal(tree, ix)),
            Some(found) => put_markup(tree, &mut self.lookup.tables, ix, found),
        }
    }
}

/// Returns whether a link leads to an item that starts at byte offset `start`.
fn starts_at(tree: &Tree<Item>, link: Option<usize>, start: usize) -> bool
    requires { IfSome link (λ ix. ix < length tree.now.nodes) }
    ensures { result ≡ option_map_or (λ ix. (item_at tree.now.nodes ix).start == start) link false }
{
    match link {
        Some(ix) => tree.item(ix).start == start,
        None => false,
    }
}

/// Puts what was found into the node of its `<`. Returns the rest of the chain.
fn put_markup<'a>(
    tree: &mut Tree<Item>,
    tables: &mut Allocations<'a>,
    ix: usize,
    found: MarkupFound<'a>,
) -> Result<Continuation, Fault>
    requires { (source : List ℕ)
        × IsMarkupAt source (tables_of tables.old) tree.old.nodes ix (markup_of found) }
    ensures puts { IfOk result (λ rest. (source : List ℕ) (rules : Rules)
        → IsMarkupAt source (tables_of tables.old) tree.old.nodes ix (markup_of found.entry)
        → Puts source ix (standing_for source rules (markup_of found.entry))
        (Some (end_of_markup (markup_of found.entry))) rest
        tree.old.nodes tree.new.nodes (tables_of tables.old) (tables_of tables.new)) }
    ensures place { IfOk result (λ _. tree.new ≡ record tree.old { nodes = tree.new.nodes }) }

    // on success and on error
    ensures tables { tables.new
        ≡ record tables.old { cows = tables.new.cows; links = tables.new.links } }
    ensures refused { IfErr result (IsRefused tree.old tree.new) }
{
    match found {
        MarkupFound::Autolink(link) => put_autolink(tree, tables, ix, link),
        MarkupFound::Html(end) => Ok(put_html(tree, ix, end, ItemBody::InlineHtml)),
        MarkupFound::OwnedHtml(end, tag) => {
            let number = tables.allocate_cow(CowStr::from(tag))?;
            Ok(put_html(tree, ix, end, ItemBody::OwnedInlineHtml(number)))
        }
    }
}

/// Puts raw HTML that ends at byte offset `end` into the node of its `<`. Returns the rest of the chain.
fn put_html(tree: &mut Tree<Item>, ix: usize, end: usize, body: ItemBody) -> Continuation
    requires { (source : List ℕ) × (tables : Tables) × (tables' : Tables) × HasGrown tables tables'
        × IsFoundAt source tables tree.old.nodes ix end
        × CanPut source tables tables' (item_to tree.old.nodes ix end body) }
    ensures puts { (source : List ℕ) (tables tables' : Tables) → HasGrown tables tables'
        → IsFoundAt source tables tree.old.nodes ix end
        → CanPut source tables tables' (item_to tree.old.nodes ix end body)
        → Puts source ix (one_item source tables' (item_to tree.old.nodes ix end body)) (Some end)
        result tree.old.nodes
        tree.new.nodes tables tables' }
    ensures place { tree.new ≡ record tree.old { nodes = tree.new.nodes } }
{
    let start = tree.item(ix).start;
    put_found(tree, ix, Item { start, end, body })
}

/// Returns the type of the link that an autolink is.
fn link_type(kind: AutolinkKind) -> LinkType
    ensures { result ≡ link_type kind }
{
    match kind {
        AutolinkKind::Uri => LinkType::Autolink,
        AutolinkKind::Email => LinkType::Email,
    }
}

/// Puts an autolink into the node of its `<`, with its URI or address as a Text below it. Returns the rest of the
/// chain.
fn put_autolink<'a>(
    tree: &mut Tree<Item>,
    tables: &mut Allocations<'a>,
    ix: usize,
    found: Autolink<'a>,
) -> Result<Continuation, Fault>
    requires { (source : List ℕ)
        × IsMarkupAt source (tables_of tables.old) tree.old.nodes ix
        (autolink found.kind found.end found.destination.now) }
    ensures puts { IfOk result (λ rest. (source : List ℕ) (rules : Rules)
        → IsMarkupAt source (tables_of tables.old) tree.old.nodes ix
        (autolink found.entry.kind found.entry.end found.entry.destination.now)
        → Puts source ix (standing_for source rules
        (autolink found.entry.kind found.entry.end found.entry.destination.now))
        (Some found.entry.end) rest tree.old.nodes tree.new.nodes (tables_of tables.old)
        (tables_of tables.new)) }
    ensures place { IfOk result (λ _. tree.new ≡ record tree.old { nodes = tree.new.nodes }) }

    // on success and on error
    ensures tables { tables.new ≡ record tables.old { links = tables.new.links } }
    ensures refused { IfErr result (IsRefused tree.old tree.new) }
{
    let item = *tree.item(ix);
    let link = tables.allocate_link(
        link_type(found.kind),
        CowStr::Borrowed(found.destination),
        CowStr::Borrowed(""),
        CowStr::Borrowed(""),
    )?;
    let outside = Item {
        start: item.start,
        end: found.end,
        body: ItemBody::Link(link),
    };
    let inside = Item {
        start: item.end,
        end: found.end - 1,
        body: ItemBody::Text {
            backslash_escaped: false,
        },
    };
    Ok(put_parent(tree, ix, outside, inside)?)
}
