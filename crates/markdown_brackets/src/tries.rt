//! What is tried for the opener of a closing bracket: an inline link, a full reference, a collapsed or shortcut
//! reference, and a footnote reference.
ghost use Rattle.std.specs.Prelude.{◌≡◌, ◌-◌, ℕ, List, [], ◌∷◌, Option, Some, None, IfErr, IfOk, IfSome, OnErr};
ghost use Rattle.std.specs.Prelude.{if◌then◌else◌};
ghost use Rattle.std.specs.Option.{option_and_then};
ghost use Rattle.markdown_base.specs.Arena.{sibling_of};
ghost use Rattle.markdown_base.specs.BlockTree.{item_at};
ghost use Rattle.markdown_base.specs.CowText.{text_of};
ghost use Rattle.markdown_base.specs.declared.fault.Fault.{Fault};
ghost use Rattle.markdown_base.specs.declared.item.ItemBody.{ItemBody};
ghost use Rattle.markdown_document.specs.ChainRest.{start_of};
ghost use Rattle.markdown_brackets.specs.BracketDecision.{BracketContext, Closing, a_link, bracket_found};
ghost use Rattle.markdown_brackets.specs.BracketDecision.{footnote_written, full, inline_target, inline_title, names_read};
ghost use Rattle.markdown_brackets.specs.BracketDecision.{link_reference, own_written};
ghost use Rattle.markdown_brackets.specs.ChainAhead.{reaches_closer};
ghost use Rattle.markdown_brackets.specs.Decides.{CanTry};
ghost use Rattle.markdown_brackets.specs.DecisionView.{CountsUses, GoesOnAfter, IsBecome, opener_of};
ghost use Rattle.markdown_brackets.specs.LeftList.{Split};
ghost use Rattle.markdown_brackets.specs.LinkTail as scanned;
ghost use Rattle.markdown_brackets.specs.LinkTailView.{IsTail};
ghost use Rattle.markdown_brackets.specs.StandsAt.{CanTryInside, ComesTo, IsFull, Spends};
ghost use Rattle.markdown_brackets.specs.StandsAt.{Tries, TriesOpener, bracket_context_by, could_be_at, reference_to};
ghost use Rattle.markdown_brackets.specs.TargetOrigins.{IsLookedUp};
ghost use Rattle.markdown_brackets.specs.WrittenView.{IsTailFrom, own_label_at, reference_at, written_at};
ghost use Rattle.markdown_brackets.specs.declared.spent_ends.SpentEnds.{SpentEnds};

use crate::bracket_reader::BracketReader;
use crate::closing_bracket::ClosedBracket;
use crate::footnote::{footnote_style, use_footnote};
use crate::items_ahead::reaches_closer;
use crate::link_tail::LinkTail;
use crate::look_up::{LabelLookup, Target, look_up_label};
use crate::openers::Opener;
use crate::reference::Form;
use crate::spent_ends::SpentEnds;
use markdown_base::cow_str::CowStr;
use markdown_base::fault::Fault;
use markdown_base::tag::LinkType;
use markdown_defs::{BrokenLink, BrokenLinkCallback};
use markdown_scan::line_rule::LineRule;

// Returns the inline link or image with this tail.
fn inline_link(opener: Opener, tail: LinkTail<'_>) -> ClosedBracket<'_>
    ensures { (w : BracketContext) (o : Split ℕ) (t : scanned.LinkTail) → opener ≡ opener_of o
        → IsTail (names_read w) w.above.in_table t tail.entry
        → IsTailFrom w.setting.text (start_of o.opener) tail.entry
        → IsBecome w (a_link o (inline_target w t) (inline_title w t ∷ []) t.ends t.ends) result }
{
    ClosedBracket::Link {
        opener,
        target: Target {
            link_type: LinkType::Inline,
            destination: tail.destination,
            title: tail.title,
            id: CowStr::Borrowed(""),
        },
        end: tail.end,
        next: tail.end,
    }
}

// Looks up the link label of a reference, after which the chain continues at the byte offset `next`. Returns a link or
// an image, or a Text if nothing is found.
fn find_reference<'a, R, F: BrokenLinkCallback<'a>>(
    at: &BracketReader<'_, 'a, R>,
    opener: Opener,
    about: BrokenLink<'a>,
    next: usize,
    lookup: &mut LabelLookup<'a, F>,
) -> Result<ClosedBracket<'a>, Fault>
    requires asks { IfSome lookup.old.callback F.can_ask }
    requires kind { IsLookedUp about.link_type }
    requires starts { about.span.start ≡ (item_at at.now.tree.now.nodes opener.node).start }
    ensures comes { IfOk result (λ found. (spends : List ℕ) (spent spent' : SpentEnds)
        → Spends spends spent spent'
        → Tries F.answers at.now opener lookup.old lookup.new spent spent'
        (λ w o. Some (link_reference o (reference_to about.entry next spends))) found) }
    ensures again { IfSome lookup.new.callback F.can_ask }
    ensures tables { lookup.new.tables ≡ lookup.old.tables }
    ensures refused { IfErr result (λ fault. fault ≡ Fault.Memory) }
    ensures nothing_asked { OnErr result (lookup.new.callback ≡ lookup.old.callback) }
{
    let end = about.span.end;
    match look_up_label(at.alloc, lookup, about)? {
        None => Ok(ClosedBracket::Text),
        Some(target) => Ok(ClosedBracket::Link {
            opener,
            target,
            end,
            next,
        }),
    }
}

// Returns a footnote reference, or a Text if the label is not one. If the footnote is defined, one more use of it is
// counted.
fn find_footnote<'a, R, F: BrokenLinkCallback<'a>>(
    at: &BracketReader<'_, 'a, R>,
    opener: Opener,
    name: CowStr<'a>,
    lookup: &mut LabelLookup<'a, F>,
) -> Result<ClosedBracket<'a>, Fault>
    ensures comes { IfOk result (λ found. (spent : SpentEnds)
        → Tries F.answers at.now opener lookup.old lookup.new spent spent
        (λ w o. footnote_written w o (text_of name.entry)) found) }
    ensures uses { CountsUses lookup.old.tables lookup.new.tables }
    ensures callback { lookup.new.callback ≡ lookup.old.callback }
    ensures refused { IfErr result (λ fault. fault ≡ Fault.Memory) }
{
    let style = footnote_style(at.place.syntax);
    if use_footnote(&mut lookup.tables.footdefs, style, name.as_str())? {
        return Ok(ClosedBracket::Footnote { opener, name });
    }
    drop(name);
    Ok(ClosedBracket::Text)
}

// Tries a full reference with this label: a `]` has to end there, and can then no longer be a reference.
fn try_full<'a, R, F: BrokenLinkCallback<'a>>(
    at: &BracketReader<'_, 'a, R>,
    opener: Opener,
    about: BrokenLink<'a>,
    spent: &mut SpentEnds,
    lookup: &mut LabelLookup<'a, F>,
) -> Result<ClosedBracket<'a>, Fault>
    requires ready { CanTry at.now.tree.now.nodes at.now.place.now at.now.node opener.node }
    requires full { IsFull at.now.tree.now.nodes opener about }
    requires asks { IfSome lookup.old.callback F.can_ask }
    ensures comes { IfOk result (λ found.
        Tries F.answers at.now opener lookup.old lookup.new spent.old spent.new
        (λ w o. if reaches_closer at.now.tree.now.nodes about.entry.span.end
        (sibling_of at.now.tree.now.nodes at.now.node)
        then Some (link_reference o (full (text_of about.entry.reference) about.entry.span.end))
        else None) found) }
    ensures again { IfSome lookup.new.callback F.can_ask }
    ensures tables { lookup.new.tables ≡ lookup.old.tables }
    ensures refused { IfErr result (λ fault. fault ≡ Fault.Memory) }
    ensures nothing_asked { OnErr result (lookup.new.callback ≡ lookup.old.callback) }
{
    let end = about.span.end;
    if !reaches_closer(at.tree, at.tree.next(at.node), end) {
        drop(about);
        return Ok(ClosedBracket::Text);
    }
    spent.insert(end)?;
    find_reference(at, opener, about, end, lookup)
}

// Tries the bytes from the opener's `[` through the `]` as a label: a link label is looked up, and a footnote label may
// be a footnote reference.
fn try_own<'a, R: LineRule, F: BrokenLinkCallback<'a>>(
    at: &BracketReader<'_, 'a, R>,
    opener: Opener,
    link_type: LinkType,
    next: usize,
    lookup: &mut LabelLookup<'a, F>,
) -> Result<ClosedBracket<'a>, Fault>
    requires ready { CanTryInside at.now.tree.now.nodes at.now.place.now at.now.node opener.node }
    requires kind { IsLookedUp link_type }
    requires asks { IfSome lookup.old.callback F.can_ask }
    ensures comes { IfOk result (λ found. (spent : SpentEnds)
        → Tries F.answers at.now opener lookup.old lookup.new spent spent
        (λ w o. option_and_then (own_written w o link_type
        (item_at at.now.tree.now.nodes at.now.node).end next)
        (own_label_at at.now.tree.now.nodes at.now.place.now (R.skipped at.now.rule.now)
        at.now.node ((item_at at.now.tree.now.nodes opener.node).end - 1))) found) }
    ensures uses { CountsUses lookup.old.tables lookup.new.tables }
    ensures again { IfSome lookup.new.callback F.can_ask }
    ensures refused { IfErr result (λ fault. fault ≡ Fault.Memory) }
    ensures nothing_asked { OnErr result (lookup.new.callback ≡ lookup.old.callback) }
{
    let start = at.tree.item(opener.node).start;
    let end = at.tree.item(at.node).end;
    let Some(label) = at.read_label(at.tree.item(opener.node).end - 1)? else {
        return Ok(ClosedBracket::Text);
    };
    if label.is_footnote {
        return find_footnote(at, opener, label.name, lookup);
    }
    let about = BrokenLink {
        span: start..end,
        link_type,
        reference: label.name,
    };
    find_reference(at, opener, about, next, lookup)
}

// Tries a reference of the form that follows the `]`, which is in the block.
fn try_reference<'a, R: LineRule, F: BrokenLinkCallback<'a>>(
    at: &BracketReader<'_, 'a, R>,
    opener: Opener,
    spent: &mut SpentEnds,
    lookup: &mut LabelLookup<'a, F>,
) -> Result<ClosedBracket<'a>, Fault>
    requires ready { CanTryInside at.now.tree.now.nodes at.now.place.now at.now.node opener.node }
    requires asks { IfSome lookup.old.callback F.can_ask }
    ensures comes { IfOk result (λ found.
        Tries F.answers at.now opener lookup.old lookup.new spent.old spent.new
        (λ w o. reference_at at.now.tree.now.nodes at.now.place.now
        (R.skipped at.now.rule.now) at.now.node w o
        (could_be_at at.now.tree.now.nodes at.now.node spent.old)
        ((item_at at.now.tree.now.nodes opener.node).end - 1)) found) }
    ensures uses { CountsUses lookup.old.tables lookup.new.tables }
    ensures again { IfSome lookup.new.callback F.can_ask }
    ensures refused { IfErr result (λ fault. fault ≡ Fault.Memory) }
    ensures nothing_asked { OnErr result (lookup.new.callback ≡ lookup.old.callback) }
{
    let end = at.tree.item(at.node).end;
    let (link_type, next) = match at.read_form()? {
        Form::Reference { label, end } => {
            let about = BrokenLink {
                span: at.tree.item(opener.node).start..end,
                link_type: LinkType::Reference,
                reference: label,
            };
            return try_full(at, opener, about, spent, lookup);
        }
        Form::Collapsed => (LinkType::Collapsed, end + 2),
        Form::Shortcut => (LinkType::Shortcut, end),
    };
    if !at.could_be_reference(spent) {
        return Ok(ClosedBracket::Text);
    }
    try_own(at, opener, link_type, next, lookup)
}

// Tries an inline link, and then a reference; nothing is read beyond the block's end.
fn try_live<'a, R: LineRule, F: BrokenLinkCallback<'a>>(
    at: &BracketReader<'_, 'a, R>,
    opener: Opener,
    spent: &mut SpentEnds,
    lookup: &mut LabelLookup<'a, F>,
) -> Result<ClosedBracket<'a>, Fault>
    requires ready { CanTry at.now.tree.now.nodes at.now.place.now at.now.node opener.node }
    requires asks { IfSome lookup.old.callback F.can_ask }
    ensures comes { IfOk result (λ found.
        Tries F.answers at.now opener lookup.old lookup.new spent.old spent.new
        (λ w o. written_at at.now.tree.now.nodes at.now.place.now
        (R.skipped at.now.rule.now) at.now.node w o
        (could_be_at at.now.tree.now.nodes at.now.node spent.old)
        ((item_at at.now.tree.now.nodes opener.node).end - 1)) found) }
    ensures uses { CountsUses lookup.old.tables lookup.new.tables }
    ensures again { IfSome lookup.new.callback F.can_ask }
    ensures refused { IfErr result (λ fault. fault ≡ Fault.Memory) }
    ensures nothing_asked { OnErr result (lookup.new.callback ≡ lookup.old.callback) }
{
    if at.tree.item(at.node).end > at.place.block_end {
        return Ok(ClosedBracket::Text);
    }
    match at.read_tail()? {
        Some(tail) => Ok(inline_link(opener, tail)),
        None => try_reference(at, opener, spent, lookup),
    }
}

/// Returns what the `]` becomes with the opener that was taken for it: a link or an image, a footnote reference, or a
/// Text.
pub(crate) fn try_opener<'a, R: LineRule, F: BrokenLinkCallback<'a>>(
    at: &BracketReader<'_, 'a, R>,
    taken: Option<(Opener, bool)>,
    spent: &mut SpentEnds,
    lookup: &mut LabelLookup<'a, F>,
) -> Result<ClosedBracket<'a>, Fault>
    requires ready { IfSome taken (λ t.
        CanTry at.now.tree.now.nodes at.now.place.now at.now.node t.0.node) }
    requires asks { IfSome lookup.old.callback F.can_ask }
    ensures tries { IfOk result (λ found.
        (bodies : List ItemBody) (skipped : List ℕ → ℕ) (c : Closing ℕ) (o : Option (Split ℕ))
        → GoesOnAfter (R.skipped at.now.rule.now) skipped
        → TriesOpener at.now.tree.now.nodes at.now.node
        (could_be_at at.now.tree.now.nodes at.now.node spent.old) taken c o
        → ComesTo F.answers (bracket_context_by at.now.place.now skipped bodies lookup.old)
        (option_and_then
        (bracket_found (bracket_context_by at.now.place.now skipped bodies lookup.old) c)
        o) lookup.old lookup.new spent.old spent.new found) }
    ensures uses { CountsUses lookup.old.tables lookup.new.tables }
    ensures again { IfSome lookup.new.callback F.can_ask }
    ensures refused { IfErr result (λ fault. fault ≡ Fault.Memory) }
    ensures nothing_asked { OnErr result (lookup.new.callback ≡ lookup.old.callback) }
{
    let Some((opener, is_live)) = taken else {
        return Ok(ClosedBracket::Text);
    };
    if !is_live {
        return Ok(ClosedBracket::Text);
    }
    try_live(at, opener, spent, lookup)
}
