//! Code spans and math spans in a chain, read in place.
ghost use Rattle.std.specs.Prelude.{◌≡◌, ◌<◌, ℕ, Bool, true, List, Some, IfErr, IfOk, length, slice_range};
ghost use Rattle.std.specs.Option.{option_map_or};
ghost use Rattle.markdown_base.specs.Arena.{Arena, sibling_of};
ghost use Rattle.markdown_base.specs.BlockTree.{item_at};
ghost use Rattle.markdown_base.specs.CowText.{text_of};
ghost use Rattle.markdown_base.specs.declared.item.Item.{Item};
ghost use Rattle.markdown_base.specs.declared.item.ItemBody.TheVariants as body;
ghost use Rattle.markdown_document.specs.ResolverStates.{above_cursor};
ghost use Rattle.markdown_document.specs.Origins.{origin_of};
ghost use Rattle.markdown_document.specs.PlacedNodes.{IsSlicedOf};
ghost use Rattle.markdown_document.specs.Setting.{Rules, setting_of};
ghost use Rattle.markdown_document.specs.Tables.{Tables, tables_of, text_at};
ghost use Rattle.markdown_spans.specs.ChainInArena.{HasChain};
ghost use Rattle.markdown_spans.specs.Closers.{is_dollar};
ghost use Rattle.markdown_spans.specs.CodeText.{span_origin};
ghost use Rattle.markdown_base.specs.Syntax.{gfm_footnotes};
ghost use Rattle.markdown_spans.specs.Finds.{is_escaped};
ghost use Rattle.markdown_spans.specs.MathOpening.{dollar_at};
ghost use Rattle.markdown_resolver.specs.ChainPlace.{IsPlaceOf};
ghost use Rattle.markdown_resolver.specs.PutCode.{CanPutCode, code_standing};
ghost use Rattle.markdown_resolver.specs.Rewritten.{IsRefused, Puts};
ghost use Rattle.markdown_resolver.specs.StoredText.{CanCut, StoresText, text_between};

use crate::continuation::Continuation;
use crate::found::{make_literal, put_found, put_pair};
use crate::resolver::Resolver;
use markdown_base::cow_str::CowStr;
use markdown_base::fault::Fault;
use markdown_base::index::CowIndex;
use markdown_base::item::{Item, ItemBody};
use markdown_base::tree::Tree;
use markdown_defs::BrokenLinkCallback;
use markdown_document::chain_place::ChainPlace;
use markdown_spans::prefixes::ContainerPrefix;
use markdown_spans::span_text::{SpanKind, span_text};
use std::alloc::Global;
use std::ops::Range;

/// Returns the text of a span with this content, a range of byte offsets.
fn text_between<'a>(
    alloc: Global,
    place: &ChainPlace<'a, '_>,
    kind: SpanKind,
    content: Range<usize>,
) -> Result<CowStr<'a>, Fault>
    requires { CanCut place.now.text.now content.start content.end }
    ensures value { IfOk result (λ made. (tree : Arena Item) (rules : Rules)
        → IsPlaceOf place.now tree
        → gfm_footnotes rules.syntax ≡ gfm_footnotes place.now.syntax
        → text_of made ≡ text_between (setting_of place.now.text.now rules)
        (above_cursor place.now.text.now tree)
        kind content.start content.end) }
    ensures origin { IfOk result (λ span. origin_of span
        ≡ span_origin place.now.in_table
        (slice_range place.now.text.now content.start content.end)) }
    ensures slice { IfOk result (λ span. IsSlicedOf place.now.text.now content.start content.end
        (origin_of span) (text_of span)) }
    ensures refused { IfErr result (λ fault. fault ≡ Fault.Memory) }
{
    let prefix = ContainerPrefix::new(place);
    Ok(span_text(
        alloc,
        &place.text[content.start..content.end],
        kind,
        place.in_table,
        &prefix,
    )?)
}

/// Returns the byte offset at which the item of a node ends.
fn end_of(tree: &Tree<Item>, ix: usize) -> usize
    requires { ix < length tree.now.nodes }
    ensures { result ≡ (item_at tree.now.nodes ix).end }
{
    tree.item(ix).end
}

/// Puts a code span into the node of its opener. Where the opener's first backtick is escaped, that backtick becomes a
/// Text in this node, and the span, which begins after it, goes into the closer's node. Returns the rest of the chain.
fn put_code(tree: &mut Tree<Item>, ix: usize, closer: usize, body: ItemBody) -> Continuation
    requires { (source : List ℕ) × (tables : Tables) × (tables' : Tables)
        × CanPutCode source tables tables' tree.old.nodes ix closer body }
    ensures puts { (source : List ℕ) (tables tables' : Tables)
        → CanPutCode source tables tables' tree.old.nodes ix closer body
        → Puts source ix (code_standing source tables' (is_escaped (item_at tree.old.nodes ix).body)
        (item_at tree.old.nodes ix) (item_at tree.old.nodes closer) body)
        (Some (item_at tree.old.nodes closer).end) result tree.old.nodes tree.new.nodes tables
        tables' }
    ensures place { tree.new ≡ record tree.old { nodes = tree.new.nodes } }
{
    let item = *tree.item(ix);
    let end = end_of(tree, closer);
    if !is_escaped(item.body) {
        return put_found(
            tree,
            ix,
            Item {
                start: item.start,
                end,
                body,
            },
        );
    }
    let backtick = Item {
        start: item.start,
        end: item.start + 1,
        body: ItemBody::Text {
            backslash_escaped: false,
        },
    };
    let span = Item {
        start: item.start + 1,
        end,
        body,
    };
    put_pair(tree, ix, backtick, closer, span)
}

/// Returns whether the first backtick of an opener is escaped.
fn is_escaped(body: ItemBody) -> bool
    ensures { result ≡ is_escaped body }
{
    matches!(body, ItemBody::MaybeCode(_, true))
}

/// Returns whether the item is a `$`.
fn is_dollar(body: ItemBody) -> bool
    ensures { result ≡ is_dollar body }
{
    matches!(body, ItemBody::MaybeMath(_, _, _))
}

/// Returns the byte offset at which the text of a math span starts: after its opener, or after both where the next item
/// is a `$` too.
fn math_text_start(tree: &Tree<Item>, ix: usize) -> usize
    requires { HasChain tree.now.nodes (Some ix) }
    ensures { result ≡ option_map_or (λ second. (item_at tree.now.nodes second).end)
        (dollar_at tree.now.nodes (sibling_of tree.now.nodes ix)) (item_at tree.now.nodes ix).end }
{
    match tree.next(ix) {
        Some(second) if is_dollar(tree.item(second).body) => tree.item(second).end,
        _ => tree.item(ix).end,
    }
}

impl<'a, F: BrokenLinkCallback<'a>> Resolver<'a, F> {
    ghost use Rattle.markdown_resolver.specs.ReadsBracket.{CanReadOther, ChangesForOther, ReadsOther, StopsLooking};

    /// Appends the text of a span with this content, a range of byte offsets, to the table of texts, and returns its
    /// number.
    #[inline(always)]
    fn store_text(
        &mut self,
        place: &ChainPlace<'a, '_>,
        kind: SpanKind,
        content: Range<usize>,
    ) -> Result<CowIndex, Fault>
        requires { CanCut place.now.text.now content.start content.end }
        ensures stored { IfOk result (λ cow.
            StoresText place.now.text.now content.start content.end
            (tables_of self.old.lookup.tables) (tables_of self.new.lookup.tables) cow
            (span_origin place.now.in_table
            (slice_range place.now.text.now content.start content.end))) }
        ensures text { IfOk result (λ cow. (tree : Arena Item) (rules : Rules)
            → IsPlaceOf place.now tree
            → gfm_footnotes rules.syntax ≡ gfm_footnotes place.now.syntax
            → text_at self.new.lookup.tables.cows cow.0
            ≡ text_between (setting_of place.now.text.now rules)
            (above_cursor place.now.text.now tree) kind content.start content.end) }

        // on success and on error
        ensures kept { self.new ≡ record self.old {
          lookup = record self.old.lookup {
            tables = record self.old.lookup.tables { cows = self.new.lookup.tables.cows };
          };
        } }
        ensures refused { IfErr result (λ fault. fault ≡ Fault.Memory) }
    {
        let text = text_between(self.alloc, place, kind, content)?;
        self.lookup.tables.allocate_cow(text)
    }

    /// Reads a backtick run: a code span (CommonMark 6.1), if an item closes it, and otherwise a Text. Where a
    /// backslash precedes the run, its first backtick becomes a Text, and the span goes into the closer's node. Returns
    /// the rest of the chain.
    pub(crate) fn read_code(
        &mut self,
        tree: &mut Tree<Item>,
        place: &ChainPlace<'a, '_>,
        ix: usize,
    ) -> Result<Continuation, Fault>
        requires ready { CanReadOther place.now tree.old self.old ix }
        requires opener { (count : ℕ) × (escaped : Bool)
            × ((item_at tree.old.nodes ix).body ≡ body.MaybeCode count escaped) }
        ensures reads { IfOk result (λ rest.
            ReadsOther ix rest tree.old tree.new self.old self.new) }

        // on error, and then on success and on error
        ensures stops { IfErr result (λ _. StopsLooking ix tree.old self.old self.new) }
        ensures refused { IfErr result (IsRefused tree.old tree.new) }
        ensures kept { ChangesForOther self.old self.new }
    {
        let visits = &mut self.work.code_visits;
        let Some(closer) = self.code_closers.find_code_closer(tree, ix, visits)? else {
            return Ok(make_literal(tree, ix));
        };
        let content = tree.item(ix).end..tree.item(closer).start;
        let cow = self.store_text(place, SpanKind::Code, content)?;
        Ok(put_code(tree, ix, closer, ItemBody::Code(cow)))
    }

    /// Reads a `$`: a math span, if an item closes it, and otherwise a Text. Returns the rest of the chain.
    pub(crate) fn read_math(
        &mut self,
        tree: &mut Tree<Item>,
        place: &ChainPlace<'a, '_>,
        ix: usize,
    ) -> Result<Continuation, Fault>
        requires ready { CanReadOther place.now tree.old self.old ix }
        requires opener { is_dollar (item_at tree.old.nodes ix).body ≡ true }
        ensures reads { IfOk result (λ rest.
            ReadsOther ix rest tree.old tree.new self.old self.new) }

        // on error, and then on success and on error
        ensures stops { IfErr result (λ _. StopsLooking ix tree.old self.old self.new) }
        ensures refused { IfErr result (IsRefused tree.old tree.new) }
        ensures kept { ChangesForOther self.old self.new }
    {
        let visits = &mut self.work.math_visits;
        let Some(math) = self.math_closers.find_math_closer(tree, ix, visits)? else {
            return Ok(make_literal(tree, ix));
        };
        let content = math_text_start(tree, ix)..tree.item(math.closer).start;
        let cow = self.store_text(place, SpanKind::Math, content)?;
        let found = Item {
            start: tree.item(ix).start,
            end: tree.item(math.last).end,
            body: ItemBody::Math(cow, math.display),
        };
        Ok(put_found(tree, ix, found))
    }
}
