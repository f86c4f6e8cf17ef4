//! The items of a line's content, read in one pass over its bytes.
ghost use Rattle.std.specs.Prelude.{◌≡◌, ◌≤◌, ◌+◌, ◌-◌, ◌++◌, ◌∷◌, [], true, None, length, encode_utf8, IfOk};
ghost use Rattle.std.specs.Str.{IsCharBoundary};
ghost use Rattle.markdown_scan.specs.Entity.{text_in_utf8};
ghost use Rattle.markdown_items.specs.Dashes.{dashes_for, dashes_in_utf8, ellipsis};
ghost use Rattle.markdown_builder.specs.BuilderView.{with_items};
ghost use Rattle.markdown_builder.specs.Shown.{synthesized_item};
ghost use Rattle.markdown_items.specs.ContentItems.{AddsItems, AddsTexts, content_items, text_between};
ghost use Rattle.markdown_items.specs.LineItems.{is_after_backslash, item_syntax};
ghost use Rattle.markdown_items.specs.RestOfLine.{HasSpecialRun, RunIsOver};
ghost use Rattle.markdown_items.specs.Found.{found_at};
ghost use Rattle.markdown_items.specs.FoundView.{found_view};
ghost use Rattle.markdown_items.specs.FoundFits.{MayAppendAt, FoundFits, AppendsFound, run_after_text, view_after};

use crate::dashes::dashes_for;
use crate::delimiter_run::run_end;
use crate::extensions::ItemSyntax;
use crate::flanking::Flags;
use crate::found::{
    Found, LineRange, find_dashes, find_ellipsis, find_entity, find_escape, find_image, find_mark,
    find_run,
};
use crate::special::first_special;
use markdown_base::cow_str::CowStr;
use markdown_base::item::ItemBody;
use markdown_base::syntax::Syntax;
use markdown_builder::builder::Builder;
use markdown_scan::entity::EntityText;
use std::alloc::{AllocError, Global};

/// Returns whether a backslash escapes the byte at `at`, at which a text of the line's content begins.
fn is_after_backslash(bytes: &[u8], start: usize, at: usize) -> bool
    requires { at ≤ length bytes.now }
    ensures { result ≡ is_after_backslash bytes.now start at }
{
    start < at && bytes[at - 1] == b'\\'
}

/// Appends the text up to `to`, if there is any. Fails only if an allocation fails.
// inlined: it is called before each item, and most items are Texts
#[inline(always)]
#[tactic(auto, using(crate::proofs::RestOfLineLemmas::no_items))]
fn append_text(builder: &mut Builder<'_>, line: LineRange, to: usize) -> Result<(), AllocError>
    requires inside { builder.old.leaf ≡ true }
    requires low { builder.old.at ≤ to }
    requires boundary { IsCharBoundary builder.old.text to }
    ensures { IfOk result (λ _. builder.new ≡ record builder.old {
      at = to;
      run = run_after_text builder.old to;
      levels = with_items builder.old.levels (text_between builder.old.text line builder.old.at to);
    }) }
{
    let from = builder.at();
    if from < to {
        let backslash_escaped = is_after_backslash(builder.text().as_bytes(), line.start, from);
        builder.inline(ItemBody::Text { backslash_escaped }, to)?;
    }
    Ok(())
}

/// Appends the text before `at`, and the delimiter run from there up to `stop`. A run that directly continues the one
/// appended last becomes text, which happens where a caller ends a line within a run.
#[tactic(auto, using(crate::proofs::RestOfLineLemmas::more_items))]
fn append_run(
    builder: &mut Builder<'_>,
    line: LineRange,
    at: usize,
    stop: usize,
    flags: Flags,
) -> Result<(), AllocError>
    requires ready { MayAppendAt builder.old line at }
    requires fits { FoundFits builder.old.text line.end at (Found.Run stop flags) }
    ensures { IfOk result (λ _. builder.new
        ≡ view_after builder.old line at (Found.Run stop flags)) }
{
    let byte = builder.text().as_bytes()[at];
    if builder.at() == at && builder.follows_run(byte) {
        return Ok(());
    }
    append_text(builder, line, at)?;
    builder.run(byte, stop, flags.opens, flags.closes)?;
    Ok(())
}

/// Appends the characters of the entity up to `stop`. Fails only if an allocation fails.
// not inlined, nor are the two that follow: they are rare, and room for their texts would be cleared for each item
#[inline(never)]
fn append_entity(
    builder: &mut Builder<'_>,
    stop: usize,
    characters: EntityText,
) -> Result<(), AllocError>
    requires inside { builder.old.leaf ≡ true }
    requires low { builder.old.at ≤ stop }
    requires boundary { IsCharBoundary builder.old.text stop }
    requires few { length (text_in_utf8 characters) ≤ 6 }
    ensures { IfOk result (λ _. builder.new ≡ record builder.old {
      at = stop;
      run = None;
      texts = builder.old.texts ++ text_in_utf8 characters ∷ [];
      levels = with_items builder.old.levels
          (synthesized_item builder.old.at stop (text_in_utf8 characters) ∷ []);
    }) }
{
    builder.synthesize(characters.into_inline(), stop)
}

/// Appends the dashes for the hyphens up to `stop`. Fails only if an allocation fails.
#[inline(never)]
fn append_dashes(builder: &mut Builder<'_>, alloc: Global, stop: usize) -> Result<(), AllocError>
    requires inside { builder.old.leaf ≡ true }
    requires several { builder.old.at + 2 ≤ stop }
    requires boundary { IsCharBoundary builder.old.text stop }
    ensures { IfOk result (λ _. builder.new ≡ record builder.old {
      at = stop;
      run = None;
      texts = builder.old.texts ++ dashes_in_utf8 (dashes_for (stop - builder.old.at)) ∷ [];
      levels = with_items builder.old.levels (synthesized_item builder.old.at stop
          (dashes_in_utf8 (dashes_for (stop - builder.old.at)))
          ∷ []);
    }) }
{
    let dashes = dashes_for(stop - builder.at()).text(alloc)?;
    builder.synthesize(dashes, stop)
}

/// Appends an ellipsis for the dots up to `stop`. Fails only if an allocation fails.
#[inline(never)]
fn append_ellipsis(builder: &mut Builder<'_>, stop: usize) -> Result<(), AllocError>
    requires inside { builder.old.leaf ≡ true }
    requires low { builder.old.at ≤ stop }
    requires boundary { IsCharBoundary builder.old.text stop }
    ensures { IfOk result (λ _. builder.new ≡ record builder.old {
      at = stop;
      run = None;
      texts = builder.old.texts ++ encode_utf8 ellipsis ∷ [];
      levels = with_items builder.old.levels
          (synthesized_item builder.old.at stop (encode_utf8 ellipsis) ∷ []);
    }) }
{
    builder.synthesize(CowStr::from('…'), stop)
}

/// Appends the text before `at`, and the item that was found there, if any.
// inlined, as is what follows: for each byte only a few kinds can have been found, and the others are not asked for
#[inline(always)]
#[tactic(auto, using(crate::proofs::RestOfLineLemmas::more_items))]
fn append_found(
    builder: &mut Builder<'_>,
    alloc: Global,
    line: LineRange,
    at: usize,
    found: Found,
) -> Result<(), AllocError>
    requires ready { MayAppendAt builder.old line at }
    requires fits { FoundFits builder.old.text line.end at found }
    ensures { IfOk result (λ _. builder.new ≡ view_after builder.old line at found) }
{
    match found {
        Found::Text(_) => return Ok(()),
        Found::Run(stop, flags) => return append_run(builder, line, at, stop, flags),
        _ => {}
    }
    append_text(builder, line, at)?;
    match found {
        Found::Escape => {
            builder.skip(at + 1);
            Ok(())
        }
        Found::Mark(body) => builder.mark(body),
        Found::Image => builder.image(),
        Found::Backticks(stop) => builder.backticks(stop, false),
        Found::EscapedBackticks(stop) => {
            builder.skip(at + 1);
            builder.backticks(stop, true)
        }
        Found::Entity(stop, characters) => append_entity(builder, stop, characters),
        Found::Dashes(stop) => append_dashes(builder, alloc, stop),
        Found::Ellipsis => append_ellipsis(builder, at + 3),
        Found::Text(_) | Found::Run(_, _) => Ok(()),
    }
}

/// Appends what begins at `at`, after the text before it, and returns the byte offset at which to continue.
#[inline(always)]
#[tactic(auto, using(crate::proofs::ItemLemmas::goes_on))]
fn take_found(
    builder: &mut Builder<'_>,
    alloc: Global,
    line: LineRange,
    at: usize,
    found: Found,
) -> Result<usize, AllocError>
    requires ready { MayAppendAt builder.old line at }
    requires value { found_view found ≡ found_at line builder.old.text at }
    requires fits { FoundFits builder.old.text line.end at found }
    ensures { IfOk result (λ next. AppendsFound builder.old line at builder.new next) }
{
    let next = found.next(at);
    append_found(builder, alloc, line, at, found)?;
    Ok(next)
}

/// Appends what begins at a special byte, after the text before it, and returns the byte offset at which to continue.
// the marks share one call, so that `Builder::mark` is called in one place, and inlined there
#[inline(always)]
#[tactic(auto, unfolding(crate::specs::Found::found_at))]
fn append_special(
    builder: &mut Builder<'_>,
    alloc: Global,
    line: LineRange,
    at: usize,
) -> Result<usize, AllocError>
    requires { MayAppendAt builder.old line at }
    ensures { IfOk result (λ next. AppendsFound builder.old line at builder.new next) }
{
    let text = builder.text();
    let found = match text.as_bytes()[at] {
        b'\\' => return take_found(builder, alloc, line, at, find_escape(text, line, at)),
        b'`' => {
            let stop = run_end(text, at, line.end);
            return take_found(builder, alloc, line, at, Found::Backticks(stop));
        }
        b'&' => return take_found(builder, alloc, line, at, find_entity(text, line, at)),
        b'!' => return take_found(builder, alloc, line, at, find_image(text, line, at)),
        // the characters of `is_delimiter`; written out, they are in the same jump as the other bytes
        b'*' | b'_' | b'~' | b'^' => {
            return take_found(builder, alloc, line, at, find_run(text, line, at));
        }
        b'-' => return take_found(builder, alloc, line, at, find_dashes(text, line, at)),
        b'.' => return take_found(builder, alloc, line, at, find_ellipsis(text, line, at)),
        b'<' => Found::Mark(ItemBody::MaybeHtml),
        b'[' => Found::Mark(ItemBody::MaybeLinkOpen),
        b']' => Found::Mark(ItemBody::MaybeLinkClose(true)),
        _ => find_mark(text, line, at),
    };
    take_found(builder, alloc, line, at, found)
}

/// Appends the inline items of one line's content, from the builder's position up to `end`.
///
/// Items are delimiter runs with their flags (CommonMark 6.2), quotation marks with smart punctuation enabled, `$` with
/// math enabled, backticks, `<`, `[`, `![` and `]`, the characters of entities (2.5), and with smart punctuation enabled
/// in the full reading the dashes in place of two or more hyphens, and the ellipsis in place of three dots. A backslash
/// before ASCII punctuation is in no item (2.4). Everything else is text, one `Text` between two of these. For the flags,
/// the content is preceded by a line ending, and followed by what follows it in the text, such as the backslash of a hard
/// line break.
///
/// Fails only if an allocation fails, after which some of the items may have been appended.
#[tactic(auto, using(crate::proofs::ItemLemmas::goes_on))]
pub fn items(
    builder: &mut Builder<'_>,
    alloc: Global,
    end: usize,
    syntax: Syntax,
) -> Result<(), AllocError>
    requires inside { builder.old.leaf ≡ true }
    requires low { builder.old.at ≤ end }
    requires boundary { IsCharBoundary builder.old.text end }
    ensures same { IfOk result (λ _. builder.new ≡ record builder.old {
      at = end;
      run = builder.new.run;
      texts = builder.new.texts;
      levels = builder.new.levels;
    }) }
    ensures items { IfOk result (λ _. builder.old.run ≡ None → builder.new.levels
        ≡ with_items builder.old.levels
        (content_items builder.old.text (item_syntax syntax) builder.old.at end)) }
    ensures further { IfOk result (λ _. RunIsOver end builder.old builder.old.at
        → builder.new.levels ≡ with_items builder.old.levels
        (content_items builder.old.text (item_syntax syntax) builder.old.at end)) }
    ensures over { IfOk result (λ _. HasSpecialRun (item_syntax syntax) builder.old
        → HasSpecialRun (item_syntax syntax) builder.new) }
    ensures inside { IfOk result (λ _. AddsItems builder.old builder.new) }
    ensures texts { IfOk result (λ _. AddsTexts builder.old builder.new) }
{
    let line = LineRange {
        start: builder.at(),
        end,
        extensions: ItemSyntax::of(syntax),
    };
    let bytes = builder.text().as_bytes();
    let dashes = line.extensions.dashes;
    let mut at = first_special(bytes, line.start, end, dashes);
    'line: while at < end {
        let next = append_special(builder, alloc, line, at)?;
        at = first_special(bytes, next, end, dashes);
    }
    append_text(builder, line, end)?;
    Ok(())
}
