//! Brackets in a chain, read in place: an opener waits for its `]`, and what a `]` becomes is put into the nodes of its
//! opener and what follows.
ghost use Rattle.std.specs.Prelude.{◌≡◌, ◌∷◌, ◌&&◌, ◌<◌, false, ℕ, List, None, Some, IfErr, IfOk, IfSome, OnOk};
ghost use Rattle.std.specs.Prelude.{OnErr, if◌then◌else◌, is_some, length};
ghost use Rattle.std.specs.Option.{option_map_or};
ghost use Rattle.markdown_base.specs.Arena.{sibling_of};
ghost use Rattle.markdown_base.specs.BlockTree.{item_at};
ghost use Rattle.markdown_base.specs.CowText.{text_of};
ghost use Rattle.markdown_base.specs.declared.item.ItemBody.TheVariants as body;
ghost use Rattle.markdown_brackets.specs.declared.closing_bracket.ClosedBracket.TheVariants.{Wikilinked};
ghost use Rattle.markdown_brackets.specs.BracketDecision.{BracketContext, Becomes, Closing, a_footnote, a_link};
ghost use Rattle.markdown_brackets.specs.DecisionView.{IsBecome, opener_of};
ghost use Rattle.markdown_brackets.specs.LeftList.{Entry, Split, inside};
ghost use Rattle.markdown_brackets.specs.LookupView.{target_view};
ghost use Rattle.markdown_brackets.specs.Openers as waiting;
ghost use Rattle.markdown_brackets.specs.Reference.{is_opener};
ghost use Rattle.markdown_brackets.specs.TargetOrigins.{IsTargetFrom, titles_of};
ghost use Rattle.markdown_document.specs.ChainRest.{start_of};
ghost use Rattle.markdown_document.specs.Tables.{Tables, tables_of};
ghost use Rattle.markdown_resolver.specs.Chains.{CanResolve};
ghost use Rattle.markdown_resolver.specs.Closes.{ClosesAt, PutsClosed};
ghost use Rattle.markdown_resolver.specs.Rewritten.{IsRefused, Puts, literal};

use crate::continuation::Continuation;
use crate::found::make_literal;
use crate::links::{
    Brackets, put_footnote, put_image_footnote, put_link, put_wikilink_name, put_wikilink_shown,
};
use markdown_base::cow_str::CowStr;
use markdown_base::fault::Fault;
use markdown_base::index::LinkIndex;
use markdown_base::item::{Item, ItemBody};
use markdown_base::syntax::Syntax;
use markdown_base::tag::LinkType;
use markdown_base::tree::Tree;
use markdown_brackets::chain_openers::ChainOpeners;
use markdown_brackets::closing_bracket::ClosedBracket;
use markdown_brackets::look_up::Target;
use markdown_brackets::openers::Opener;
use markdown_brackets::wikilink_nodes::ShownNodes;
use markdown_defs::Allocations;

/// A link or an image that a `]` closes. It ends at byte offset `end`, and the chain continues at `next` or later.
#[derive(Drop)]
struct ClosedLink<'a> {
    opener: Opener,
    target: Target<'a>,
    end: usize,
    next: usize,
}

/// A wikilink that a `]` closes. It ends at byte offset `end`.
#[derive(Drop)]
struct ClosedWikilink<'a> {
    opener: Opener,
    name: &'a str,
    has_pothole: bool,
    shown: ShownNodes,
    end: usize,
}

/// Returns whether a link leads to a `[`.
fn leads_to_opener(tree: &Tree<Item>, link: Option<usize>) -> bool
    requires { IfSome link (λ ix. ix < length tree.now.nodes) }
    ensures { result ≡ option_map_or (λ ix. is_opener (item_at tree.now.nodes ix).body) link false }
{
    match link {
        Some(ix) => matches!(tree.item(ix).body, ItemBody::MaybeLinkOpen),
        None => false,
    }
}

/// Reads an opener, `[` or `![`: it becomes a Text, and waits for its `]`; with wikilinks enabled, one that a `[`
/// follows also waits for `]]`. Returns the rest of the chain.
pub(crate) fn open_bracket(
    tree: &mut Tree<Item>,
    openers: &mut ChainOpeners,
    syntax: Syntax,
    ix: usize,
    is_image: bool,
) -> Result<Continuation, Fault>
    requires { (source : List ℕ) × (tables : Tables)
        × CanResolve source tables tree.old.nodes (Some ix) }
    ensures puts { IfOk result (λ rest. (source : List ℕ) (tables : Tables)
        → CanResolve source tables tree.old.nodes (Some ix)
        → Puts source ix (literal source) None rest tree.old.nodes tree.new.nodes tables tables) }
    ensures next { IfOk result (λ rest. rest.next ≡ sibling_of tree.old.nodes ix) }
    ensures place { IfOk result (λ _. tree.new ≡ record tree.old { nodes = tree.new.nodes }) }
    ensures brackets { OnOk result (
        openers.new.brackets
        ≡ waiting.live_opener (record { node = ix; is_image = is_image }) ∷ openers.old.brackets) }
    ensures wikilinks { OnOk result (openers.new.wikilinks
        ≡ (if syntax.wikilinks
        && option_map_or (λ n.
        is_opener (item_at tree.old.nodes n).body) (sibling_of tree.old.nodes ix) false
        then waiting.live_opener (record { node = ix; is_image = is_image }) ∷ openers.old.wikilinks
        else openers.old.wikilinks)) }
    ensures refused { IfErr result (IsRefused tree.old tree.new) }
{
    let opener = Opener { node: ix, is_image };
    openers.brackets.push(opener)?;
    if syntax.wikilinks && leads_to_opener(tree, tree.next(ix)) {
        openers.wikilinks.push(opener)?;
    }
    Ok(make_literal(tree, ix))
}

fn link_body(is_image: bool, link: LinkIndex) -> ItemBody
    ensures { result ≡ (if is_image then body.Image link else body.Link link) }
{
    if is_image {
        ItemBody::Image(link)
    } else {
        ItemBody::Link(link)
    }
}

/// Returns a Text item from byte offset `start` to `end`.
fn text_item(start: usize, end: usize) -> Item
    ensures { result ≡ record { start = start; end = end; body = body.Text false } }
{
    Item {
        start,
        end,
        body: ItemBody::Text {
            backslash_escaped: false,
        },
    }
}

/// Puts a link or an image into its opener's node. Returns the rest of the chain.
fn put_target<'a>(
    tree: &mut Tree<Item>,
    tables: &mut Allocations<'a>,
    closer: usize,
    link: ClosedLink<'a>,
) -> Result<Continuation, Fault>
    requires { (source : List ℕ) × (first : ℕ) × (left : List (Entry ℕ)) × (w : BracketContext)
        × (c : Closing ℕ)
        × (o : Split ℕ) × ClosesAt source (tables_of tables.old) tree.old.nodes first closer left w
        c
        (a_link o (target_view link.target) (titles_of link.target) link.end link.next)
        × (link.opener ≡ opener_of o)
        × IsTargetFrom source (start_of o.opener) link.end link.target }
    ensures puts { IfOk result (λ rest.
        (source : List ℕ) (first : ℕ) (left : List (Entry ℕ)) (w : BracketContext)
        (c : Closing ℕ) (o : Split ℕ)
        → ClosesAt source (tables_of tables.old) tree.old.nodes first closer left w c
        (a_link o (target_view link.entry.target) (titles_of link.entry.target) link.entry.end
        link.entry.next)
        → link.entry.opener ≡ opener_of o
        → IsTargetFrom source (start_of o.opener) link.entry.end link.entry.target
        → PutsClosed source first closer rest left w c
        (a_link o (target_view link.entry.target) (titles_of link.entry.target) link.entry.end
        link.entry.next)
        tree.old.nodes tree.new.nodes (tables_of tables.old) (tables_of tables.new)) }
    ensures place { IfOk result (λ _. tree.new ≡ record tree.old { nodes = tree.new.nodes }) }

    // on success and on error
    ensures tables { tables.new
        ≡ record tables.old { cows = tables.new.cows; links = tables.new.links } }
    ensures refused { IfErr result (IsRefused tree.old tree.new) }
{
    let ClosedLink {
        opener,
        target,
        end,
        next,
    } = link;
    let Target {
        link_type,
        destination,
        title,
        id,
    } = target;
    let link = tables.allocate_link(link_type, destination, title, id)?;
    let item = Item {
        start: tree.item(opener.node).start,
        end,
        body: link_body(opener.is_image, link),
    };
    let brackets = Brackets {
        opener: opener.node,
        closer,
    };
    Ok(put_link(tree, brackets, item, next))
}

/// Puts a footnote reference into the nodes of its brackets; the `!` of an opener `![` becomes a Text before it.
/// Returns the rest of the chain.
fn put_reference<'a>(
    tree: &mut Tree<Item>,
    tables: &mut Allocations<'a>,
    closer: usize,
    opener: Opener,
    name: CowStr<'a>,
) -> Result<Continuation, Fault>
    requires { (source : List ℕ) × (first : ℕ) × (left : List (Entry ℕ)) × (w : BracketContext)
        × (c : Closing ℕ)
        × (o : Split ℕ) × ClosesAt source (tables_of tables.old) tree.old.nodes first closer left w
        c
        (a_footnote o (text_of name)) × (opener ≡ opener_of o) }
    ensures puts { IfOk result (λ rest.
        (source : List ℕ) (first : ℕ) (left : List (Entry ℕ)) (w : BracketContext)
        (c : Closing ℕ) (o : Split ℕ)
        → ClosesAt source (tables_of tables.old) tree.old.nodes first closer left w c
        (a_footnote o (text_of name.entry))
        → opener ≡ opener_of o
        → PutsClosed source first closer rest left w c (a_footnote o (text_of name.entry))
        tree.old.nodes
        tree.new.nodes (tables_of tables.old) (tables_of tables.new)) }
    ensures place { IfOk result (λ _. tree.new ≡ record tree.old { nodes = tree.new.nodes }) }

    // on success and on error
    ensures tables { tables.new
        ≡ record tables.old { cows = tables.new.cows; links = tables.new.links } }
    ensures refused { IfErr result (IsRefused tree.old tree.new) }
{
    let body = ItemBody::FootnoteReference(tables.allocate_cow(name)?);
    let brackets = Brackets {
        opener: opener.node,
        closer,
    };
    let start = tree.item(opener.node).start;
    let end = tree.item(closer).end;
    if opener.is_image {
        let mark = text_item(start, start + 1);
        let item = Item {
            start: start + 1,
            end,
            body,
        };
        return Ok(put_image_footnote(tree, brackets, mark, item));
    }
    let item = Item { start, end, body };
    Ok(put_footnote(tree, brackets, item))
}

/// Puts a wikilink into its opener's node, as a link or as an image. Returns the rest of the chain.
fn put_wikilink<'a>(
    tree: &mut Tree<Item>,
    tables: &mut Allocations<'a>,
    closer: usize,
    wikilink: ClosedWikilink<'a>,
) -> Result<Continuation, Fault>
    requires { (source : List ℕ) × (first : ℕ) × (left : List (Entry ℕ)) × (w : BracketContext)
        × (c : Closing ℕ)
        × (becomes : Becomes ℕ)
        × ClosesAt source (tables_of tables.old) tree.old.nodes first closer left w c becomes
        × IsBecome w becomes (Wikilinked wikilink.opener wikilink.name wikilink.has_pothole
        wikilink.shown wikilink.end) }
    ensures puts { IfOk result (λ rest.
        (source : List ℕ) (first : ℕ) (left : List (Entry ℕ)) (w : BracketContext)
        (c : Closing ℕ) (becomes : Becomes ℕ)
        → ClosesAt source (tables_of tables.old) tree.old.nodes first closer left w c becomes
        → IsBecome w becomes (Wikilinked wikilink.entry.opener wikilink.entry.name
        wikilink.entry.has_pothole wikilink.entry.shown wikilink.entry.end)
        → PutsClosed source first closer rest left w c becomes tree.old.nodes tree.new.nodes
        (tables_of tables.old) (tables_of tables.new)) }
    ensures place { IfOk result (λ _. tree.new ≡ record tree.old { nodes = tree.new.nodes }) }

    // on success and on error
    ensures tables { tables.new
        ≡ record tables.old { cows = tables.new.cows; links = tables.new.links } }
    ensures refused { IfErr result (IsRefused tree.old tree.new) }
{
    let link = tables.allocate_link(
        LinkType::WikiLink {
            has_pothole: wikilink.has_pothole,
        },
        CowStr::Borrowed(wikilink.name),
        CowStr::Borrowed(""),
        CowStr::Borrowed(""),
    )?;
    let brackets = Brackets {
        opener: wikilink.opener.node,
        closer,
    };
    let item = Item {
        start: tree.item(brackets.opener).start,
        end: wikilink.end,
        body: link_body(wikilink.opener.is_image, link),
    };
    match wikilink.shown {
        ShownNodes::Over { node, start, end } => {
            let inside = text_item(start, end);
            Ok(put_wikilink_name(tree, brackets, node, item, inside))
        }
        ShownNodes::From { node, at } => Ok(put_wikilink_shown(tree, brackets, node, item, at)),
    }
}

/// Puts what a `]`, the node `closer`, becomes in its place. Returns the rest of the chain.
pub(crate) fn put_bracket<'a>(
    tree: &mut Tree<Item>,
    tables: &mut Allocations<'a>,
    closer: usize,
    found: ClosedBracket<'a>,
) -> Result<Continuation, Fault>
    requires { (source : List ℕ) × (first : ℕ) × (left : List (Entry ℕ)) × (w : BracketContext)
        × (c : Closing ℕ)
        × (becomes : Becomes ℕ)
        × ClosesAt source (tables_of tables.old) tree.old.nodes first closer left w c becomes
        × IsBecome w becomes found }
    ensures puts { IfOk result (λ rest.
        (source : List ℕ) (first : ℕ) (left : List (Entry ℕ)) (w : BracketContext)
        (c : Closing ℕ) (becomes : Becomes ℕ)
        → ClosesAt source (tables_of tables.old) tree.old.nodes first closer left w c becomes
        → IsBecome w becomes found.entry
        → PutsClosed source first closer rest left w c becomes tree.old.nodes tree.new.nodes
        (tables_of tables.old) (tables_of tables.new)) }
    ensures place { IfOk result (λ _. tree.new ≡ record tree.old { nodes = tree.new.nodes }) }

    // on success and on error
    ensures tables { tables.new
        ≡ record tables.old { cows = tables.new.cows; links = tables.new.links } }
    ensures refused { IfErr result (IsRefused tree.old tree.new) }
{
    match found {
        ClosedBracket::Text => Ok(make_literal(tree, closer)),
        ClosedBracket::Link {
            opener,
            target,
            end,
            next,
        } => {
            let link = ClosedLink {
                opener,
                target,
                end,
                next,
            };
            put_target(tree, tables, closer, link)
        }
        ClosedBracket::Footnote { opener, name } => {
            put_reference(tree, tables, closer, opener, name)
        }
        ClosedBracket::Wikilinked {
            opener,
            name,
            has_pothole,
            shown,
            end,
        } => {
            let wikilink = ClosedWikilink {
                opener,
                name,
                has_pothole,
                shown,
                end,
            };
            put_wikilink(tree, tables, closer, wikilink)
        }
    }
}
