//! Parsers under merges, which join neighbouring texts.
ghost use Rattle.std.specs.Prelude.{◌≡◌, ◌⊎◌, IfOk, IfErr, IfSome, None, string_bytes};
ghost use Rattle.std.specs.Iterator.{at_most};
ghost use Rattle.markdown_base.specs.Source.{Source};
ghost use Rattle.markdown_inline.specs.NextGives.{NextGives, IsEventOf, IsPlacedOf};
ghost use Rattle.markdown_inline.specs.ParserLeft.{ReadsText, parser_callback, parser_steps, offset_parser};
ghost use Rattle.markdown_out.specs.MergeNext.{CanMerge};
ghost use Rattle.markdown_out.specs.OutLaws.{StaysEnded};
ghost use Rattle.markdown_render.specs.Merged.{IsMergedHtmlOf, IsMergeTooDeep, merged_html_of_text};

use crate::pushed::push_items;
use markdown_blocks::Fault;
use markdown_defs::BrokenLinkCallback;
use markdown_inline::walk::{OffsetIter, Parser};
use markdown_out::merge::TextMergeStream;
use std::alloc::Global;

/// States that a parser can be merged: it stays ended, and after `None` it may be called again and has no more items
/// left. By `a_mapped_iterator_can_be_merged`, a mapped parser can be merged too.
pub fn parsers_can_be_merged<'input, F: BrokenLinkCallback<'input>>(parser: &Parser<'input, F>)
    requires { IfSome (parser_callback parser.now) F.can_ask }
    ensures stays_ended { StaysEnded (NextGives F.answers IsEventOf) parser.now }
    ensures merges { CanMerge (NextGives F.answers IsEventOf) (λ p.
        IfSome (parser_callback p) F.can_ask)
        (λ p. at_most (parser_steps p)) parser.now }
{}

/// States for a parser's events with their ranges what `parsers_can_be_merged` states for a parser.
pub fn offsets_can_be_merged<'input, F: BrokenLinkCallback<'input>>(iter: &OffsetIter<'input, F>)
    requires { IfSome (parser_callback (offset_parser iter.now)) F.can_ask }
    ensures stays_ended { StaysEnded (λ o r t.
        NextGives F.answers IsPlacedOf (offset_parser o) r (offset_parser t))
        iter.now }
    ensures merges { CanMerge (λ o r t.
        NextGives F.answers IsPlacedOf (offset_parser o) r (offset_parser t))
        (λ o. IfSome (parser_callback (offset_parser o)) F.can_ask) (λ o.
        at_most (parser_steps (offset_parser o)))
        iter.now }
{}

/// Returns the HTML of what is left of a parser, with neighbouring texts merged: of a new parser without a callback, that
/// of the text.
///
/// # Errors
///
/// `Memory` if an allocation fails, and `Depth` where more than 2^64 - 1 Starts are open in one image.
pub fn merged_html<'input, F: BrokenLinkCallback<'input>>(
    alloc: Global,
    parser: Parser<'input, F>,
) -> Result<String, Fault>
    requires { IfSome (parser_callback parser) F.can_ask }
    ensures html { IfOk result (λ html. IsMergedHtmlOf F.answers parser.entry (string_bytes html)) }
    ensures alone { (s : Source) → ReadsText s parser.entry → parser_callback parser.entry ≡ None
        → IfOk result (λ html. string_bytes html ≡ merged_html_of_text s) }
    ensures faults { IfErr result (λ fault. (fault ≡ Fault.Memory)
        ⊎ ((fault ≡ Fault.Depth) × IsMergeTooDeep F.answers parser.entry)) }
{
    let mut html = String::new(alloc);
    push_items(alloc, &mut html, TextMergeStream::new(alloc, parser))?;
    Ok(html)
}
