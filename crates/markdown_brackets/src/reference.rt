//! Link labels, footnote labels, and the form of a reference (CommonMark 6.3).
ghost use Rattle.std.specs.Prelude.{◌≡◌, ◌≤◌, ◌+◌, ◌<◌, ◌^◌, ◌&&◌, ℕ, Bool, true, List, Option, Some, IfOk, IfSome};
ghost use Rattle.std.specs.Prelude.{drop, length, slice_range};
ghost use Rattle.std.specs.Option.{option_map};
ghost use Rattle.std.specs.Str.{IsCharBoundary};
ghost use Rattle.markdown_scan.specs.Label.{link_label};
ghost use Rattle.markdown_brackets.specs.Reference as def;
ghost use Rattle.markdown_brackets.specs.declared.footnote.FootnoteStyle.{FootnoteStyle};
ghost use Rattle.markdown_brackets.specs.ReferenceView.{label_view, form_view, name_start};
ghost use Rattle.markdown_brackets.specs.ReferenceView.{BorrowsLabel, BorrowsName};

use crate::block_rules::BlockRules;
use crate::byte_at::after_byte;
use crate::footnote::FootnoteStyle;
use markdown_base::cow_str::CowStr;
use markdown_base::item::{Item, ItemBody};
use markdown_scan::label::scan_link_label;
use markdown_scan::line_rule::{LineRule, OneLine};
use std::alloc::{AllocError, Global};

/// A label that was read.
#[derive(Debug, Drop)]
pub struct FoundLabel<'t> {
    /// Whether it is the label of a footnote.
    pub is_footnote: bool,
    /// Its length in bytes, from its `[` through its `]`.
    pub length: usize,
    /// Its text, as `scan_link_label` returns it; of a footnote, without the `^`.
    pub name: CowStr<'t>,
}

/// The form of a reference.
#[derive(Debug, Drop)]
pub enum Form<'t> {
    /// `[text][label]`, with the byte offset after it.
    Reference { label: CowStr<'t>, end: usize },
    /// `[label][]`
    Collapsed,
    /// `[label]`
    Shortcut,
}

// Returns the offset of the name in a label.
fn name_start(is_footnote: bool) -> usize
    ensures { result ≡ name_start is_footnote }
{
    if is_footnote { 2 } else { 1 }
}

// Returns the label whose text is at the beginning of `text`, after its opening brackets; `None` if there is no label.
fn scan_name<'t, R: LineRule>(
    alloc: Global,
    text: &'t str,
    rule: &R,
    in_table: bool,
    is_footnote: bool,
) -> Result<Option<FoundLabel<'t>>, AllocError>
    requires { name_start is_footnote + length text.now < 2 ^ 64 }
    ensures value { IfOk result (λ found.
        option_map label_view found
        ≡ def.label_past is_footnote (name_start is_footnote)
        (link_label (R.skipped rule.now) in_table text.now)) }
    ensures borrowed { IfOk result (λ found.
        IfSome found (BorrowsLabel (name_start is_footnote) text.now)) }
    ensures kind { IfOk result (λ found. IfSome found (λ l. l.is_footnote ≡ is_footnote)) }
    ensures within { IfOk result (λ found. IfSome found (λ l. l.length
        ≤ name_start is_footnote + length text.now)) }
{
    match scan_link_label(alloc, text, rule, in_table)? {
        None => Ok(None),
        Some((length, name)) => Ok(Some(FoundLabel {
            is_footnote,
            length: name_start(is_footnote) + length,
            name,
        })),
    }
}

// Returns the footnote label whose bytes after its `[` the text begins with, with this rule for its lines; `None` if
// there is none.
fn scan_after_caret<'t, R: LineRule>(
    alloc: Global,
    text: &'t str,
    rule: &R,
    in_table: bool,
) -> Result<Option<FoundLabel<'t>>, AllocError>
    requires { 1 + length text.now < 2 ^ 64 }
    ensures value { IfOk result (λ found.
        option_map label_view found
        ≡ def.label_past true 2 (def.label_after 94 (R.skipped rule.now) in_table text.now)) }
    ensures borrowed { IfOk result (λ found. IfSome found (BorrowsLabel 2 (drop 1 text.now))) }
    ensures kind { IfOk result (λ found. IfSome found (λ l. l.is_footnote ≡ true)) }
    ensures within { IfOk result (λ found. IfSome found (λ l. l.length ≤ 1 + length text.now)) }
{
    match after_byte(text, b'^') {
        Some(name) => scan_name(alloc, name, rule, in_table, true),
        None => Ok(None),
    }
}

// Returns the footnote label of this style whose bytes after its `[` the text begins with; `None` if there is none.
fn scan_footnote_label<'t, R: LineRule>(
    rules: &BlockRules<'_, R>,
    text: &'t str,
) -> Result<Option<FoundLabel<'t>>, AllocError>
    requires { 1 + length text.now < 2 ^ 64 }
    ensures value { IfOk result (λ found.
        option_map label_view found
        ≡ def.footnote_label_in rules.now.style (R.skipped rules.now.rule.now) rules.now.in_table
        text.now) }
    ensures borrowed { IfOk result (λ found. IfSome found (BorrowsLabel 2 (drop 1 text.now))) }
    ensures kind { IfOk result (λ found. IfSome found (λ l. l.is_footnote ≡ true)) }
    ensures within { IfOk result (λ found. IfSome found (λ l. l.length ≤ 1 + length text.now)) }
{
    match rules.style {
        FootnoteStyle::Off => Ok(None),
        FootnoteStyle::Gfm => scan_after_caret(rules.alloc, text, &OneLine, rules.in_table),
        FootnoteStyle::Old => scan_after_caret(rules.alloc, text, rules.rule, rules.in_table),
    }
}

/// Returns the label that the text begins with, from its `[` on: a footnote label `[^name]` in the style of the rules, or
/// otherwise a link label; `None` if there is neither. In GitHub's style, a footnote label is on one line. Fails only
/// if an allocation fails.
pub fn scan_label<'t, R: LineRule>(
    rules: &BlockRules<'_, R>,
    text: &'t str,
) -> Result<Option<FoundLabel<'t>>, AllocError>
    ensures value { IfOk result (λ found.
        option_map label_view found
        ≡ def.bracket_label rules.now.style (R.skipped rules.now.rule.now) rules.now.in_table
        text.now) }
    ensures borrowed { IfOk result (λ found. IfSome found (BorrowsName text.now)) }
    ensures within { IfOk result (λ found. IfSome found (λ l. l.length ≤ length text.now)) }
{
    let Some(rest) = after_byte(text, b'[') else {
        return Ok(None);
    };
    match scan_footnote_label(rules, rest)? {
        Some(label) => Ok(Some(label)),
        None => scan_name(rules.alloc, rest, rules.rule, rules.in_table, false),
    }
}

// Returns the label, if it has exactly this length in bytes.
fn of_length(label: FoundLabel<'_>, length: usize) -> Option<FoundLabel<'_>>
    ensures value { option_map label_view result
        ≡ def.of_length length (Some (label_view label.entry)) }
    ensures same { IfSome result (λ l. l ≡ label.entry) }
{
    if label.length == length {
        return Some(label);
    }
    drop(label);
    None
}

/// Returns the bytes from an opener's `[` at `start` through its `]`, which ends at `end`, as a label; `None` if they
/// are not exactly one label. Fails only if an allocation fails.
pub fn scan_own_label<'t, R: LineRule>(
    rules: &BlockRules<'_, R>,
    text: &'t str,
    start: usize,
    end: usize,
) -> Result<Option<FoundLabel<'t>>, AllocError>
    requires start { IsCharBoundary text.now start }
    requires end { IsCharBoundary text.now end }
    requires order { start ≤ end }
    ensures value { IfOk result (λ found.
        option_map label_view found
        ≡ def.own_label rules.now.style (R.skipped rules.now.rule.now) rules.now.in_table text.now
        start end) }
    ensures borrowed { IfOk result (λ found.
        IfSome found (BorrowsName (slice_range text.now start end))) }
{
    match scan_label(rules, &text[start..end])? {
        None => Ok(None),
        Some(label) => Ok(of_length(label, end - start)),
    }
}

fn is_opener(body: ItemBody) -> bool
    ensures { result ≡ def.is_opener body }
{
    matches!(body, ItemBody::MaybeLinkOpen)
}

pub(crate) fn is_closing_bracket(body: ItemBody) -> bool
    ensures { result ≡ def.is_closing_bracket body }
{
    matches!(body, ItemBody::MaybeLinkClose(_))
}

/// Returns whether a `]` could be a reference.
pub(crate) fn could_be_reference(body: ItemBody) -> bool
    ensures { result ≡ def.could_be_reference body }
{
    match body {
        ItemBody::MaybeLinkClose(could_be) => could_be,
        _ => false,
    }
}

// Returns whether the two items are a `[` at the byte offset `at` and a `]` directly after it.
fn is_empty_pair(at: usize, next: Option<Item>, after: Option<Item>) -> bool
    requires { at + 1 < 2 ^ 64 }
    ensures { result ≡ (def.stands_at at def.is_opener next
        && def.stands_at (at + 1) def.is_closing_bracket after) }
{
    match (next, after) {
        (Some(first), Some(second)) => {
            first.start == at
                && is_opener(first.body)
                && second.start == at + 1
                && is_closing_bracket(second.body)
        }
        _ => false,
    }
}

fn starts_at(at: usize, next: Option<Item>) -> bool
    ensures { result ≡ def.stands_at at (λ b. true) next }
{
    match next {
        Some(item) => item.start == at,
        None => false,
    }
}

// Returns the form of a reference that this label follows: a footnote label does not count.
fn form_of(at: usize, label: FoundLabel<'_>) -> Form<'_>
    requires { at + label.length < 2 ^ 64 }
    ensures { form_view result ≡ def.form_by_label at (Some (label_view label.entry)) }
{
    if label.is_footnote {
        drop(label);
        return Form::Shortcut;
    }
    Form::Reference {
        end: at + label.length,
        label: label.name,
    }
}

/// Returns the form of a reference whose `]` ends at the byte offset `at` of the text, from the two items after that:
/// `Collapsed` if these are a `[` and a `]` directly after it, `Reference` if an item and a link label start there, and
/// otherwise `Shortcut`. Fails only if an allocation fails. Upstream: `scan_reference`.
pub fn scan_form<'t, R: LineRule>(
    rules: &BlockRules<'_, R>,
    text: &'t str,
    at: usize,
    next: Option<Item>,
    after: Option<Item>,
) -> Result<Form<'t>, AllocError>
    requires at { IsCharBoundary text.now at }
    ensures { IfOk result (λ form.
        form_view form ≡ def.form_at rules.now.style (R.skipped rules.now.rule.now)
        rules.now.in_table text.now at next after) }
{
    if is_empty_pair(at, next, after) {
        return Ok(Form::Collapsed);
    }
    if !starts_at(at, next) {
        return Ok(Form::Shortcut);
    }
    match scan_label(rules, &text[at..])? {
        None => Ok(Form::Shortcut),
        Some(label) => Ok(form_of(at, label)),
    }
}
