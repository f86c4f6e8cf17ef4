//! Look-ups of link labels, and questions to the callback about labels that are not defined.
ghost use Rattle.std.specs.Prelude.{◌≡◌, ◌-◌, IfErr, IfOk, IfSome, OnErr, unwrap_or, []};
ghost use Rattle.std.specs.Option.{option_map};
ghost use Rattle.markdown_base.specs.BlockParts.{definition_view};
ghost use Rattle.markdown_base.specs.CowText.{text_of};
ghost use Rattle.markdown_base.specs.Questions.{Question};
ghost use Rattle.markdown_base.specs.declared.fault.Fault.{Fault};
ghost use Rattle.markdown_defs.specs.CallbackViews.{answer_of, question_of};
ghost use Rattle.markdown_brackets.specs.Lookup as lookup;
ghost use Rattle.markdown_brackets.specs.LookupView.{FindsTarget, IsAnswered, LooksUp};
ghost use Rattle.markdown_brackets.specs.LookupView.{target_by, target_view};
ghost use Rattle.markdown_brackets.specs.LookupView as view;

use markdown_base::block_parts::LinkDef;
use markdown_base::cow_str::CowStr;
use markdown_base::fault::Fault;
use markdown_base::tag::LinkType;
use markdown_defs::{Allocations, BrokenLink, BrokenLinkCallback, RefDefs};
use std::alloc::Global;

/// What labels are looked up in, and what look-ups use up.
#[derive(Drop)]
pub struct LabelLookup<'a, F> {
    /// The definitions and the footnotes, beside the other parts that items refer to by number.
    pub tables: Allocations<'a>,
    /// The number of bytes that references may still expand to.
    pub limit: usize,
    /// The callback to ask about labels that are not defined, if there is one.
    pub callback: Option<F>,
}

/// The target of a link.
#[derive(Debug, Drop)]
pub struct Target<'a> {
    pub link_type: LinkType,
    pub destination: CowStr<'a>,
    /// Empty if there is no title.
    pub title: CowStr<'a>,
    /// The link label.
    pub id: CowStr<'a>,
}

// Returns the type of a link whose label the callback resolved.
fn unknown(link_type: LinkType) -> LinkType
    ensures { result ≡ lookup.unknown link_type }
{
    match link_type {
        LinkType::Reference => LinkType::ReferenceUnknown,
        LinkType::Collapsed => LinkType::CollapsedUnknown,
        LinkType::Shortcut => LinkType::ShortcutUnknown,
        other => other,
    }
}

fn title_or_empty(title: Option<CowStr<'_>>) -> CowStr<'_>
    ensures { text_of result ≡ unwrap_or (option_map text_of title.entry) [] }
{
    match title {
        Some(title) => title,
        None => CowStr::Borrowed(""),
    }
}

// Returns the link to a definition.
fn defined_target<'a>(
    alloc: Global,
    definition: &LinkDef<'a>,
    about: BrokenLink<'a>,
) -> Result<Target<'a>, Fault>
    ensures value { IfOk result (λ t.
        target_view t ≡ lookup.defined_target about.entry.link_type
        (definition_view definition.now) (text_of about.entry.reference)) }
    ensures refused { IfErr result (λ fault. fault ≡ Fault.Memory) }
{
    let copy = definition.try_clone(alloc)?;
    Ok(Target {
        link_type: about.link_type,
        destination: copy.dest,
        title: title_or_empty(copy.title),
        id: about.reference,
    })
}

// Returns the link for an answer of the callback; `None` if it resolves nothing.
fn answered_target<'a>(
    answer: Option<(CowStr<'a>, CowStr<'a>)>,
    link_type: LinkType,
    id: CowStr<'a>,
) -> Option<Target<'a>>
    ensures { (q : Question) → q.link_type ≡ link_type → q.reference ≡ text_of id.entry
        → option_map target_view result ≡ target_by q (answer_of answer.entry) }
{
    match answer {
        Some((destination, title)) => Some(Target {
            link_type: unknown(link_type),
            destination,
            title,
            id,
        }),
        None => {
            drop(id);
            None
        }
    }
}

// Calls the callback, if there is one, for a label that is not defined, and returns the link for its answer.
fn ask<'a, F: BrokenLinkCallback<'a>>(
    alloc: Global,
    callback: &mut Option<F>,
    about: BrokenLink<'a>,
) -> Result<Option<Target<'a>>, Fault>
    requires { IfSome callback.old F.can_ask }
    ensures answered { IfOk result (λ target.
        IsAnswered F.answers (question_of about.entry) callback.old callback.new
        (option_map target_view target)) }
    ensures again { IfSome callback.new F.can_ask }
    ensures refused { IfErr result (λ fault. fault ≡ Fault.Memory) }
    ensures unchanged { OnErr result (callback.new ≡ callback.old) }
{
    let Some(callback) = callback else {
        drop(about);
        return Ok(None);
    };
    let BrokenLink {
        span,
        link_type,
        reference: id,
    } = about;
    let reference = id.try_clone(alloc)?;
    let answer = callback.handle_broken_link(BrokenLink {
        span,
        link_type,
        reference,
    });
    Ok(answered_target(answer, link_type, id))
}

// Returns the link to the label's definition or, without one, the link for the callback's answer.
fn find_target<'a, F: BrokenLinkCallback<'a>>(
    alloc: Global,
    definitions: &RefDefs<'a>,
    callback: &mut Option<F>,
    about: BrokenLink<'a>,
) -> Result<Option<Target<'a>>, Fault>
    requires { IfSome callback.old F.can_ask }
    ensures finds { IfOk result (λ target.
        FindsTarget F.answers definitions.now (question_of about.entry) callback.old callback.new
        (option_map target_view target)) }
    ensures again { IfSome callback.new F.can_ask }
    ensures refused { IfErr result (λ fault. fault ≡ Fault.Memory) }
    ensures unchanged { OnErr result (callback.new ≡ callback.old) }
{
    match definitions.get(about.reference.as_str())? {
        Some(definition) => Ok(Some(defined_target(alloc, definition, about)?)),
        None => ask(alloc, callback, about),
    }
}

// Returns the limit that is left after a link was found, or after nothing was found.
fn limit_after(limit: usize, target: &Option<Target<'_>>) -> usize
    ensures { result ≡ view.limit_after limit (option_map target_view target.now) }
{
    match target {
        None => limit,
        Some(target) => limit
            .saturating_sub(target.destination.as_str().as_bytes().len())
            .saturating_sub(target.title.as_str().as_bytes().len()),
    }
}

/// Looks up the link label of a reference. At a limit of 0, nothing is found and the callback is not called. Otherwise,
/// the definition with equal case folding is found; if there is none and there is a callback, that is called once. The
/// limit falls by the number of bytes of the destination and title that are found, but not below 0. The only error is
/// `Fault::Memory`, after which nothing has changed. Upstream: `fetch_link_type_url_title`.
pub fn look_up_label<'a, F: BrokenLinkCallback<'a>>(
    alloc: Global,
    lookup: &mut LabelLookup<'a, F>,
    about: BrokenLink<'a>,
) -> Result<Option<Target<'a>>, Fault>
    requires { IfSome lookup.old.callback F.can_ask }
    ensures looks_up { IfOk result (λ target.
        LooksUp F.answers lookup.old lookup.new (question_of about.entry)
        (option_map target_view target)) }
    ensures again { IfSome lookup.new.callback F.can_ask }
    ensures tables { lookup.new.tables ≡ lookup.old.tables }
    ensures refused { IfErr result (λ fault. fault ≡ Fault.Memory) }
    ensures unchanged { OnErr result (lookup.new ≡ lookup.old) }
{
    if lookup.limit == 0 {
        drop(about);
        return Ok(None);
    }
    let target = find_target(alloc, &lookup.tables.refdefs, &mut lookup.callback, about)?;
    lookup.limit = limit_after(lookup.limit, &target);
    Ok(target)
}
