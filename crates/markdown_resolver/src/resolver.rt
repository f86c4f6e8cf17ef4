//! Resolving chains: a chain of inline items is resolved in place, in the arena, from its first open item on. Pass one
//! reads it, and then its delimiters are paired.
use crate::blocks_above::BlocksAbove;
use crate::bracket_kind::{BracketKind, kind_of};
use crate::brackets::{open_bracket, put_bracket};
use crate::continuation::Continuation;
use crate::found::make_literal;
use markdown_base::fault::Fault;
use markdown_base::item::{Item, ItemBody};
use markdown_base::syntax::Syntax;
use markdown_base::tree::Tree;
use markdown_brackets::bracket_reader::BracketReader;
use markdown_brackets::closing_bracket::ClosedBracket;
use markdown_brackets::decision::decide_bracket;
use markdown_brackets::finish::finish_bracket;
use markdown_brackets::look_up::LabelLookup;
use markdown_brackets::waiting::WaitingBrackets;
use markdown_defs::BrokenLinkCallback;
use markdown_delims::chain::{ChainText, pair_chain};
use markdown_delims::open_runs::OpenRuns;
use markdown_document::chain_place::ChainPlace;
use markdown_document::work::Work;
use markdown_raw_html::raw_html::RawHtmlScanner;
use markdown_spans::prefixes::ContainerPrefix;
use markdown_spans::span_closers::SpanClosers;
use std::alloc::Global;

/// What resolving a chain depends on, and what passes from one chain to the next.
#[derive(Drop)]
pub struct Resolver<'a, F> {
    pub alloc: Global,
    pub text: &'a str,
    pub syntax: Syntax,
    /// What labels are looked up in, and the other entries that items refer to by number.
    pub lookup: LabelLookup<'a, F>,
    pub work: Work,
    /// What waits for the `]` of a chain. It is emptied for each chain, and keeps its memory.
    pub waiting: WaitingBrackets,
    /// What the searches for the closers of code spans, and of math spans, have learned in a chain. Both are emptied
    /// for each chain, and keep their memory.
    pub code_closers: SpanClosers,
    pub math_closers: SpanClosers,
    /// The open delimiter runs of a chain, for pairing; also emptied for each chain, with its memory kept.
    pub open_runs: OpenRuns,
}

impl<'a, F: BrokenLinkCallback<'a>> Resolver<'a, F> {
    ghost use Rattle.std.specs.Prelude.{◌≡◌, ℕ, suc, List, true, Some, IfOk, IfErr, IfSome};
    ghost use Rattle.std.specs.Prelude.{OnErr, is_some, take, false, None, []};
    ghost use Rattle.markdown_base.specs.ArenaForest.{Spells, forest_at, links_of};
    ghost use Rattle.markdown_base.specs.BlockTree.{item_at};
    ghost use Rattle.markdown_base.specs.Syntax.{gfm_footnotes};
    ghost use Rattle.markdown_brackets.specs.Reference.{is_closing_bracket};
    ghost use Rattle.markdown_brackets.specs.SpentEnds.{is_spent};
    ghost use Rattle.markdown_base.specs.Item.{is_open};
    ghost use Rattle.markdown_document.specs.Counts.{risen};
    ghost use Rattle.markdown_document.specs.Setting.{rules_from, setting_of};
    ghost use Rattle.markdown_document.specs.ResolverStates.{items_from, resolver_state, above_cursor};
    ghost use Rattle.markdown_document.specs.Tables.{tables_of};
    ghost use Rattle.markdown_resolver.specs.BlocksAbove.{IsKnownAt};
    ghost use Rattle.markdown_resolver.specs.BracketKinds.{kind_of};
    ghost use Rattle.markdown_resolver.specs.Chains.{ResolvesChain, StopsIn};
    ghost use Rattle.markdown_resolver.specs.ReadOn.{StopsInPassOne};
    ghost use Rattle.markdown_resolver.specs.Rewritten.{IsRefused};
    ghost use Rattle.markdown_resolver.specs.ReadsBracket.{CanReadNode, ChangesForBracket, ChangesForDecision};
    ghost use Rattle.markdown_resolver.specs.ReadsBracket.{ChangesForNode, DecidesClosing};
    ghost use Rattle.markdown_resolver.specs.ReadsBracket.{CanReadOther, ChangesForOther, ReadsBracket, ReadsNode};
    ghost use Rattle.markdown_resolver.specs.ReadsBracket.{ReadsOther, StopsAtNode, StopsLooking, StopsReading};
    ghost use Rattle.markdown_resolver.specs.ReadsBracket.{setting_by, resolver_state_by};
    ghost use Rattle.markdown_resolver.specs.ReadsChain.{CanResolveBelow, ChangesForChain, KeepsInput, ReadCounts, ReadsChain};

    /// Reads the item of a node of a chain, which is not a bracket. The scanner has to be one of the text up to the
    /// block's end. Returns the rest of the chain.
    fn read_other(
        &mut self,
        tree: &mut Tree<Item>,
        place: &ChainPlace<'a, '_>,
        scanner: &mut RawHtmlScanner<'a>,
        ix: usize,
    ) -> Result<Continuation, Fault>
        requires ready { CanReadOther place.now tree.old self.old ix }
        requires scanner { scanner.old.text.now ≡ take place.now.block_end place.now.text.now }
        ensures reads { IfOk result (λ rest.
            ReadsOther ix rest tree.old tree.new self.old self.new) }

        // on error, and then on success and on error
        ensures stops { IfErr result (λ _. StopsLooking ix tree.old self.old self.new) }
        ensures refused { IfErr result (IsRefused tree.old tree.new) }
        ensures kept { ChangesForOther self.old self.new }
        ensures scanner { scanner.new.text ≡ scanner.old.text }
    {
        match tree.item(ix).body {
            ItemBody::MaybeCode(_, _) => self.read_code(tree, place, ix),
            ItemBody::MaybeMath(_, _, _) => self.read_math(tree, place, ix),
            ItemBody::MaybeHtml => self.read_markup(tree, place, scanner, ix),
            _ => Ok(make_literal(tree, ix)),
        }
    }

    /// Returns what a `]` of a chain becomes, by the openers that wait, the reference and footnote definitions, and the
    /// answer of the callback.
    fn decide_closing(
        &mut self,
        tree: &Tree<Item>,
        place: &ChainPlace<'a, '_>,
        ix: usize,
    ) -> Result<ClosedBracket<'a>, Fault>
        requires can_ask { IfSome self.old.lookup.callback F.can_ask }
        requires ready { CanReadNode place.now tree.now self.old ix }
        requires closes { is_closing_bracket (item_at tree.now.nodes ix).body ≡ true }
        ensures decides { IfOk result (λ found.
            DecidesClosing F.answers place.now tree.now ix self.old self.new found) }

        // on an error, and in any case
        ensures nothing_asked { OnErr result (self.new.lookup.callback ≡ self.old.lookup.callback) }
        ensures again { IfSome self.new.lookup.callback F.can_ask }
        ensures refused { IfErr result (λ fault. fault ≡ Fault.Memory) }
        ensures kept { ChangesForDecision self.old self.new }
    {
        let rule = ContainerPrefix::new(place);
        let closer = BracketReader {
            alloc: self.alloc,
            tree,
            node: ix,
            place,
            rule: &rule,
        };
        decide_bracket(&closer, &mut self.waiting, &mut self.lookup)
    }

    /// Reads a `]`: decides what it becomes, and puts that in place. Returns the rest of the chain.
    fn close_bracket(
        &mut self,
        tree: &mut Tree<Item>,
        place: &ChainPlace<'a, '_>,
        ix: usize,
    ) -> Result<Continuation, Fault>
        requires can_ask { IfSome self.old.lookup.callback F.can_ask }
        requires ready { CanReadNode place.now tree.old self.old ix }
        requires closes { is_closing_bracket (item_at tree.old.nodes ix).body ≡ true }
        ensures reads { IfOk result (λ rest.
            ReadsBracket F.answers place.now ix rest tree.old tree.new self.old self.new) }

        // on an error, and in any case
        ensures stops { IfErr result (λ _.
            StopsAtNode F.answers place.now ix tree.old self.old self.new.lookup.callback) }
        ensures again { IfSome self.new.lookup.callback F.can_ask }
        ensures refused { IfErr result (IsRefused tree.old tree.new) }
        ensures kept { ChangesForBracket self.old self.new }
    {
        let found = self.decide_closing(tree, place, ix)?;
        finish_bracket(&mut self.waiting.openers, tree, &found);
        put_bracket(tree, &mut self.lookup.tables, ix, found)
    }

    /// Reads a bracket of a chain. Returns the rest of the chain.
    fn read_bracket(
        &mut self,
        tree: &mut Tree<Item>,
        place: &ChainPlace<'a, '_>,
        ix: usize,
        bracket: BracketKind,
    ) -> Result<Continuation, Fault>
        requires can_ask { IfSome self.old.lookup.callback F.can_ask }
        requires ready { CanReadNode place.now tree.old self.old ix }
        requires bracket { kind_of (item_at tree.old.nodes ix).body ≡ Some bracket }
        ensures reads { IfOk result (λ rest.
            ReadsBracket F.answers place.now ix rest tree.old tree.new self.old self.new) }

        // on an error, and in any case
        ensures stops { IfErr result (λ _.
            StopsAtNode F.answers place.now ix tree.old self.old self.new.lookup.callback) }
        ensures again { IfSome self.new.lookup.callback F.can_ask }
        ensures refused { IfErr result (IsRefused tree.old tree.new) }
        ensures kept { ChangesForBracket self.old self.new }
    {
        match bracket {
            BracketKind::Opener { is_image } => {
                open_bracket(tree, &mut self.waiting.openers, self.syntax, ix, is_image)
            }
            BracketKind::Closer => self.close_bracket(tree, place, ix),
        }
    }

    /// Reads the item of a node of a chain. The scanner has to be one of the text up to the block's end. Returns the
    /// rest of the chain. The only error is `Fault::Memory`; the tree is then unchanged.
    // only the loop over a chain calls this: without inlining, links would take 4 % more instructions
    #[inline(always)]
    fn read_item(
        &mut self,
        tree: &mut Tree<Item>,
        place: &ChainPlace<'a, '_>,
        scanner: &mut RawHtmlScanner<'a>,
        ix: usize,
    ) -> Result<Continuation, Fault>
        requires can_ask { IfSome self.old.lookup.callback F.can_ask }
        requires ready { CanReadNode place.now tree.old self.old ix }
        requires scanner { scanner.old.text.now ≡ take place.now.block_end place.now.text.now }
        ensures reads { IfOk result (λ rest.
            ReadsNode F.answers place.now ix rest tree.old tree.new self.old self.new) }

        // on an error, and in any case
        ensures stops { IfErr result (StopsReading F.answers place.now ix tree.old tree.new self.old
            self.new) }
        ensures again { IfSome self.new.lookup.callback F.can_ask }
        ensures scanner { scanner.new.text ≡ scanner.old.text }
        ensures kept { ChangesForNode self.old self.new }
    {
        match kind_of(tree.item(ix).body) {
            Some(bracket) => self.read_bracket(tree, place, ix, bracket),
            None => self.read_other(tree, place, scanner, ix),
        }
    }

    /// Counts the items of the chain from the node `first` on, which are not read.
    fn count_items(&mut self, tree: &Tree<Item>, first: usize)
        requires { Spells (links_of tree.now.nodes) (Some first)
            (forest_at (links_of tree.now.nodes) (Some first)) }
        ensures { self.new ≡ record self.old {
          work = record self.old.work {
            items = risen (items_from tree.now.nodes (Some first)) self.old.work.items;
          };
        } }
    {
        let mut at = Some(first);
        'chain: while let Some(ix) = at {
            self.work.count_item();
            at = tree.next(ix);
        }
    }

    /// Counts an item that was read, and those that were passed after it.
    fn count_read(&mut self, passed: usize)
        ensures { self.new ≡ record self.old {
          work = record self.old.work { items = risen (suc passed) self.old.work.items };
        } }
    {
        self.work.items = self.work.items.saturating_add(passed as u128 + 1);
    }

    /// Discards what was held for the last chain.
    fn begin_chain(&mut self)
        ensures brackets { self.new.waiting.openers.brackets ≡ [] }
        ensures wikilinks { self.new.waiting.openers.wikilinks ≡ [] }
        ensures spent { (end : ℕ) → is_spent self.new.waiting.spent end ≡ false }
        ensures kept { self.new ≡ record self.old {
          waiting = self.new.waiting;
          code_closers = None;
          math_closers = None;
        } }
    {
        self.waiting.clear();
        self.code_closers.clear();
        self.math_closers.clear();
    }

    /// Reads the chain from the node `first` on in place, in pass one, from left to right, and counts its items. The blocks
    /// above it are those of the tree's spine. The only error is `Fault::Memory`.
    // inlined into the one function that calls it
    #[inline(always)]
    fn read_chain(
        &mut self,
        tree: &mut Tree<Item>,
        above: &mut BlocksAbove,
        first: usize,
    ) -> Result<(), Fault>
        requires can_ask { IfSome self.old.lookup.callback F.can_ask }
        requires ready { CanResolveBelow self.old.text.now (tables_of self.old.lookup.tables)
            tree.old first }
        requires above { IsKnownAt (gfm_footnotes self.old.syntax) tree.old.nodes
            tree.old.spine above.old }
        ensures reads { IfOk result (λ _.
            ReadsChain F.answers first tree.old tree.new self.old self.new) }

        // on an error, and in any case
        ensures refused { IfErr result (λ fault. fault ≡ Fault.Memory) }
        ensures stops { IfErr result (λ _. StopsInPassOne F.answers (setting_by self.old)
            (above_cursor self.old.text.now tree.old) first (resolver_state_by tree.old self.old)
            self.new.lookup.callback) }
        ensures again { IfSome self.new.lookup.callback F.can_ask }
        ensures counts { ReadCounts (items_from tree.old.nodes (Some first)) self.old.work
            self.new.work }
        ensures kept { ChangesForChain self.old self.new }
        ensures above { IsKnownAt (gfm_footnotes self.old.syntax) tree.old.nodes tree.old.spine
            above.new }
    {
        self.begin_chain();
        let block = above.up_to_innermost(tree);
        let place = above.place(tree, self.text, self.syntax, block);
        let mut scanner = RawHtmlScanner::new(self.text[..place.block_end].as_bytes());
        let mut at = Some(first);
        'chain: while let Some(ix) = at {
            match self.read_item(tree, &place, &mut scanner, ix) {
                Ok(rest) => {
                    self.count_read(rest.passed);
                    at = rest.next;
                }
                Err(fault) => {
                    // the tree is unchanged since the item before
                    self.count_items(tree, ix);
                    return Err(fault);
                }
            }
        }
        Ok(())
    }

    /// Resolves the chain from the node `first` on, which is open, in place: below the nodes of the tree's spine, and
    /// the blocks among these. The only error is `Fault::Memory`; the tree and the tables are then in an unspecified state.
    pub fn resolve_chain(
        &mut self,
        tree: &mut Tree<Item>,
        above: &mut BlocksAbove,
        first: usize,
    ) -> Result<(), Fault>
        requires can_ask { IfSome self.old.lookup.callback F.can_ask }
        requires ready { CanResolveBelow self.old.text.now (tables_of self.old.lookup.tables)
            tree.old first }
        requires above { IsKnownAt (gfm_footnotes self.old.syntax) tree.old.nodes
            tree.old.spine above.old }
        requires open { is_open (item_at tree.old.nodes first).body ≡ true }
        ensures resolves { IfOk result (λ _. ResolvesChain F.answers
            (setting_of self.old.text.now
            (rules_from self.old.syntax self.old.lookup.tables (is_some self.old.lookup.callback)))
            first tree.old tree.new self.old.lookup.tables self.new.lookup.tables
            self.old.lookup.limit self.new.lookup.limit
            self.old.lookup.callback self.new.lookup.callback self.old.work self.new.work) }

        // on an error, and in any case
        ensures refused { IfErr result (λ fault. fault ≡ Fault.Memory) }
        ensures stops { IfErr result (λ _. StopsIn F.answers
            (setting_of self.old.text.now
            (rules_from self.old.syntax self.old.lookup.tables (is_some self.old.lookup.callback)))
            (above_cursor self.old.text.now tree.old) first
            (resolver_state tree.old self.old.lookup.tables self.old.lookup.limit
            self.old.lookup.callback) self.new.lookup.callback
            self.old.work self.new.work) }
        ensures again { IfSome self.new.lookup.callback F.can_ask }
        ensures kept { KeepsInput self.old self.new }
        ensures above { IsKnownAt (gfm_footnotes self.old.syntax) tree.old.nodes tree.old.spine
            above.new }
    {
        self.read_chain(tree, above, first)?;
        let source = ChainText {
            text: self.text,
            syntax: self.syntax,
        };
        pair_chain(tree, &mut self.open_runs, source, first, &mut self.work)?;
        Ok(())
    }
}
