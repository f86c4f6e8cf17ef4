//! The decision what a closing bracket becomes: it reads a tree and does not change it.
ghost use Rattle.std.specs.Prelude.{◌≡◌, ◌<◌, ◌&&◌, ℕ, Bool, List, Option, IfErr, IfOk, IfSome, OnErr};
ghost use Rattle.std.specs.Prelude.{is_some, length, not};
ghost use Rattle.markdown_base.specs.BlockTree.{item_at};
ghost use Rattle.markdown_base.specs.declared.fault.Fault.{Fault};
ghost use Rattle.markdown_base.specs.declared.item.ItemBody.{ItemBody};
ghost use Rattle.markdown_document.specs.ChainRest.{end_of};
ghost use Rattle.markdown_document.specs.Setting.{uses_of};
ghost use Rattle.markdown_defs.specs.Definitions.{Labelled};
ghost use Rattle.markdown_defs.specs.declared.footnotes.FootnoteDefs.{FootnoteDefs};
ghost use Rattle.markdown_brackets.specs.BracketDecision.{BracketContext, Closing};
ghost use Rattle.markdown_brackets.specs.Decides.{CanDecide, Decides, EachOpener, StandsBefore};
ghost use Rattle.markdown_brackets.specs.DecisionView.{CountsUses, GoesOnAfter, bracket_context_at};
ghost use Rattle.markdown_brackets.specs.HeldOpeners.{brackets_of, wikilinks_of};
ghost use Rattle.markdown_brackets.specs.LeftList.{Entry, Split};
ghost use Rattle.markdown_brackets.specs.Reference.{could_be_reference};
ghost use Rattle.markdown_brackets.specs.SpentEnds.{is_spent};
ghost use Rattle.markdown_brackets.specs.StandsAt.{FindsWikilink, IsWikilinkAt, TriesWikilink};
ghost use Rattle.markdown_brackets.specs.StandsAt.{TakesWikilink, wikilink_nodes};
ghost use Rattle.markdown_brackets.specs.Wikilink.{has_pothole};
ghost use Rattle.markdown_brackets.specs.WikilinkNodes.{CanFindWikilink};
ghost use Rattle.markdown_brackets.specs.WikilinkView.{shown_view};

use crate::bracket_reader::BracketReader;
use crate::closing_bracket::ClosedBracket;
use crate::look_up::LabelLookup;
use crate::openers::{Opener, OpenerStack};
use crate::reference::is_closing_bracket;
use crate::tries::try_opener;
use crate::waiting::WaitingBrackets;
use crate::wikilink::{Shown, scan_wikilink_body};
use crate::wikilink_nodes::{body_of, find_shown};
use markdown_base::fault::Fault;
use markdown_defs::BrokenLinkCallback;
use markdown_scan::line_rule::LineRule;

// Returns whether a wikilink's body contains a pipe.
fn has_pothole(shown: Shown) -> bool
    ensures { result ≡ has_pothole (shown_view shown) }
{
    match shown {
        Shown::Name => false,
        _ => true,
    }
}

// Returns the wikilink of an opener whose body ends before the `]`, the first of two; the second ends at the byte
// offset `end`. Returns `None` if there is no wikilink.
fn find_wikilink<'a, R>(
    at: &BracketReader<'_, 'a, R>,
    opener: Opener,
    end: usize,
) -> Option<ClosedBracket<'a>>
    requires { CanFindWikilink at.now.tree.now.nodes at.now.place.now.text.now opener.node
        at.now.node }
    ensures { IsWikilinkAt opener end
        (wikilink_nodes at.now.tree.now.nodes at.now.place.now.text.now at.now.place.now.block_end
        opener.node at.now.node) result }
{
    let first = body_of(at.tree, opener.node, at.node)?;
    let start = at.tree.item(first).start;
    let stop = at.tree.item(at.node).start;
    let body = scan_wikilink_body(at.place.text, at.place.block_end, start, stop)?;
    let shown = find_shown(at.tree, first, at.node, body.shown)?;
    Some(ClosedBracket::Wikilinked {
        opener,
        name: body.name,
        has_pothole: has_pothole(body.shown),
        shown,
        end,
    })
}

// Returns the wikilink of the opener that was taken for two `]`, the second of which ends at the byte offset `end`.
// Returns `None` if there is no wikilink.
fn try_wikilink<'a, R>(
    at: &BracketReader<'_, 'a, R>,
    taken: Option<(Opener, bool)>,
    end: usize,
) -> Option<ClosedBracket<'a>>
    requires { IfSome taken (λ t.
        CanFindWikilink at.now.tree.now.nodes at.now.place.now.text.now t.0.node at.now.node) }
    ensures { (w : BracketContext) (c : Closing ℕ) (o : Option (Split ℕ))
        → w.setting.text ≡ at.now.place.now.text.now
        → w.above.block_end ≡ at.now.place.now.block_end
        → TriesWikilink at.now.tree.now.nodes at.now.node taken c o
        → FindsWikilink w end c o result }
{
    let Some((opener, is_live)) = taken else {
        return None;
    };
    if !is_live {
        return None;
    }
    find_wikilink(at, opener, end)
}

// Returns the wikilink that the `]` and the next one close, if there is one. An opener that was tried is removed.
fn take_wikilink<'a, R>(
    at: &BracketReader<'_, 'a, R>,
    wikilinks: &mut OpenerStack,
) -> Option<ClosedBracket<'a>>
    requires closer { at.now.node < length at.now.tree.now.nodes }
    requires openers { EachOpener (λ n. CanFindWikilink at.now.tree.now.nodes
        at.now.place.now.text.now n at.now.node) wikilinks.old }
    ensures { (skipped : List ℕ → ℕ) (bodies : List ItemBody) (definitions : List Labelled)
        (footnotes : FootnoteDefs) (asks : Bool) (left : List (Entry ℕ)) (c : Closing ℕ)
        → StandsBefore at.now.tree.now.nodes at.now.node left c
        → wikilinks.old ≡ wikilinks_of left
        → TakesWikilink
        (bracket_context_at at.now.place.now skipped bodies definitions footnotes asks) c
        left wikilinks.new result }
{
    if !at.place.syntax.wikilinks {
        return None;
    }
    let Some(next) = at.tree.next(at.node) else {
        return None;
    };
    let second = *at.tree.item(next);
    if !is_closing_bracket(second.body) {
        return None;
    }
    let taken = wikilinks.take_nearest();
    try_wikilink(at, taken, second.end)
}

/// Returns what the `]` becomes, which depends on the waiting openers, the items after it, the definitions, and the
/// answers of the callback. The openers that were tried are removed. The only error is `Fault::Memory`, in which case
/// the callback was not called.
pub fn decide_bracket<'a, R: LineRule, F: BrokenLinkCallback<'a>>(
    at: &BracketReader<'_, 'a, R>,
    waiting: &mut WaitingBrackets,
    lookup: &mut LabelLookup<'a, F>,
) -> Result<ClosedBracket<'a>, Fault>
    requires ready { CanDecide at.now.tree.now.nodes at.now.place.now at.now.node
        waiting.old.openers }
    requires asks { IfSome lookup.old.callback F.can_ask }
    ensures decides { IfOk result (λ found.
        (bodies : List ItemBody) (skipped : List ℕ → ℕ) (left : List (Entry ℕ))
        (c : Closing ℕ) → GoesOnAfter (R.skipped at.now.rule.now) skipped
        → StandsBefore at.now.tree.now.nodes at.now.node left c
        → c.could_be_reference
        ≡ (could_be_reference (item_at at.now.tree.now.nodes at.now.node).body
        && not (is_spent waiting.old.spent (end_of c.node)))
        → waiting.old.openers.brackets ≡ brackets_of left
        → waiting.old.openers.wikilinks ≡ wikilinks_of left
        → Decides F.answers
        (bracket_context_at at.now.place.now skipped bodies lookup.old.tables.refdefs
        lookup.old.tables.footdefs (is_some lookup.old.callback)) c left
        lookup.old.limit lookup.new.limit (uses_of lookup.old.tables.footdefs)
        (uses_of lookup.new.tables.footdefs) waiting.old.spent waiting.new.spent
        lookup.old.callback lookup.new.callback waiting.new.openers.brackets
        waiting.new.openers.wikilinks found) }
    ensures uses { CountsUses lookup.old.tables lookup.new.tables }
    ensures again { IfSome lookup.new.callback F.can_ask }
    ensures refused { IfErr result (λ fault. fault ≡ Fault.Memory) }
    ensures nothing_asked { OnErr result (lookup.new.callback ≡ lookup.old.callback) }
{
    let bracket = waiting.openers.brackets.take_nearest();
    if let Some(found) = take_wikilink(at, &mut waiting.openers.wikilinks) {
        return Ok(found);
    }
    try_opener(at, bracket, &mut waiting.spent, lookup)
}
