//! The kinds of HTML blocks, by how they begin and end (CommonMark 4.6).
ghost use Rattle.std.specs.Prelude.{◌≡◌, ◌≤◌, length, IfOk};
ghost use Rattle.std.specs.List.{list_any, prefix_len};
ghost use Rattle.markdown_lines.specs.HtmlKinds.{begins_ignoring_case, ends_at_blank, ends_in, holds};
ghost use Rattle.markdown_lines.specs.HtmlBeginnings as spec;

use crate::bytes::{bytes_from, is_white};
use crate::line::is_space_or_tab;
use markdown_raw_html::html_tag::scan_html_tag;
use markdown_scan::line_rule::OneLine;
use std::alloc::{AllocError, Global};

/// The kinds of HTML blocks, in the order of CommonMark's start conditions.
#[derive(Clone, Copy, PartialEq, Eq, Drop)]
pub enum HtmlKind {
    /// `<pre`, `<script`, `<style` or `<textarea`, up to a line with such a closing tag
    Verbatim,
    /// `<!--` up to `-->`
    Comment,
    /// `<?` up to `?>`
    Instruction,
    /// `<!` and a letter, up to `>`
    Declaration,
    /// `<![CDATA[` up to `]]>`
    CharacterData,
    /// a tag of a block, up to a blank line
    BlockTag,
    /// any other tag, alone in its line, up to a blank line
    LoneTag,
}

impl HtmlKind {
    /// Returns whether a block of this kind ends before a blank line.
    pub fn ends_at_blank(self) -> bool
        ensures { result ≡ ends_at_blank self }
    {
        match self {
            HtmlKind::BlockTag | HtmlKind::LoneTag => true,
            _ => false,
        }
    }

    /// Returns whether a block of this kind ends with a line that has these bytes.
    pub fn ends_in(self, line: &[u8]) -> bool
        ensures { result ≡ ends_in self line.now }
    {
        match self {
            HtmlKind::Verbatim => {
                holds(line, b"</pre>")
                    || holds(line, b"</script>")
                    || holds(line, b"</style>")
                    || holds(line, b"</textarea>")
            }
            HtmlKind::Comment => holds(line, b"-->"),
            HtmlKind::Instruction => holds(line, b"?>"),
            HtmlKind::Declaration => holds(line, b">"),
            HtmlKind::CharacterData => holds(line, b"]]>"),
            HtmlKind::BlockTag | HtmlKind::LoneTag => false,
        }
    }
}

/// Returns whether bytes begin with others, ignoring the case of letters.
pub fn begins_with(bytes: &[u8], beginning: &[u8]) -> bool
    ensures { result ≡ begins_ignoring_case bytes.now beginning.now }
{
    beginning.len() <= bytes.len() && bytes[..beginning.len()].eq_ignore_ascii_case(beginning)
}

/// Returns whether bytes contain others, ignoring the case of letters.
fn holds(bytes: &[u8], others: &[u8]) -> bool
    ensures { result ≡ holds bytes.now others.now }
{
    for at in 0..bytes.len() {
        if begins_with(&bytes[at..], others) {
            return true;
        }
    }
    false
}

/// The names of the tags of the first start condition, whose blocks end with a line that has one of their closing tags.
const VERBATIM: [&str; 4] = ["pre", "script", "style", "textarea"];

/// The names of the tags of the sixth start condition.
const BLOCK_TAGS: [&str; 62] = [
    "address",
    "article",
    "aside",
    "base",
    "basefont",
    "blockquote",
    "body",
    "caption",
    "center",
    "col",
    "colgroup",
    "dd",
    "details",
    "dialog",
    "dir",
    "div",
    "dl",
    "dt",
    "fieldset",
    "figcaption",
    "figure",
    "footer",
    "form",
    "frame",
    "frameset",
    "h1",
    "h2",
    "h3",
    "h4",
    "h5",
    "h6",
    "head",
    "header",
    "hr",
    "html",
    "iframe",
    "legend",
    "li",
    "link",
    "main",
    "menu",
    "menuitem",
    "nav",
    "noframes",
    "ol",
    "optgroup",
    "option",
    "p",
    "param",
    "search",
    "section",
    "summary",
    "table",
    "tbody",
    "td",
    "tfoot",
    "th",
    "thead",
    "title",
    "tr",
    "track",
    "ul",
];

/// Returns whether two names are equal, ignoring the case of letters.
#[tactic(auto, unfolding(crate::specs::HtmlBeginnings::is_same_name))]
fn is_same_name(name: &[u8], known: &str) -> bool
    ensures { result ≡ spec.is_same_name name.now known.now }
{
    name.eq_ignore_ascii_case(known.as_bytes())
}

/// Returns whether a name is in a list, ignoring the case of letters.
fn is_one_of(name: &[u8], names: &[&str]) -> bool
    ensures { result ≡ list_any (λ known. spec.is_same_name name.now known.now) names.now }
{
    for known in names {
        if is_same_name(name, known) {
            return true;
        }
    }
    false
}

/// Returns whether a name is that of a tag of the first start condition.
fn is_verbatim_tag(name: &[u8]) -> bool
    ensures { result ≡ spec.is_one_of name.now spec.verbatim_tags }
{
    is_one_of(name, &VERBATIM)
}

/// Returns whether a name is that of a tag of the sixth start condition.
fn is_block_tag(name: &[u8]) -> bool
    ensures { result ≡ spec.is_one_of name.now spec.block_tags }
{
    is_one_of(name, &BLOCK_TAGS)
}

/// Returns whether a byte is one of a tag's name: an ASCII letter, a digit or a hyphen.
fn is_name_byte(byte: u8) -> bool
    ensures { result ≡ spec.is_name_byte byte }
{
    byte.is_ascii_alphanumeric() || byte == b'-'
}

/// Returns the length in bytes of the tag's name that bytes begin with.
fn name_length(bytes: &[u8]) -> usize
    ensures value { result ≡ prefix_len spec.is_name_byte bytes.now }
    ensures within { result ≤ length bytes.now }
{
    for at in 0..bytes.len() {
        if !is_name_byte(bytes[at]) {
            return at;
        }
    }
    bytes.len()
}

/// Returns the tag's name that bytes begin with.
fn tag_name(bytes: &[u8]) -> &[u8]
    ensures value { result.now ≡ spec.name_at_start bytes.now }
    ensures within { length result.now ≤ length bytes.now }
{
    &bytes[..name_length(bytes)]
}

/// Returns whether a space, a tab, a `>` or nothing comes next.
fn is_after_name(rest: &[u8]) -> bool
    ensures { result ≡ spec.is_after_name rest.now }
{
    match rest.first() {
        None => true,
        Some(byte) => is_space_or_tab(*byte) || *byte == b'>',
    }
}

/// Returns whether a space, a tab, a `>`, a `/>` or nothing comes next.
fn is_after_block_name(rest: &[u8]) -> bool
    ensures { result ≡ spec.is_after_block_name rest.now }
{
    is_after_name(rest) || rest.starts_with(b"/>")
}

/// Returns the kind of the block that begins with `<!`, from what follows.
fn declared_kind(rest: &[u8]) -> Option<HtmlKind>
    ensures { result ≡ spec.declared_kind rest.now }
{
    if rest.starts_with(b"--") {
        Some(HtmlKind::Comment)
    } else if rest.starts_with(b"[CDATA[") {
        Some(HtmlKind::CharacterData)
    } else {
        match rest.first() {
            Some(byte) if byte.is_ascii_alphabetic() => Some(HtmlKind::Declaration),
            _ => None,
        }
    }
}

/// Returns whether a block of the first kind begins, from what follows the `<`.
fn begins_verbatim(rest: &[u8]) -> bool
    ensures { result ≡ spec.begins_verbatim rest.now }
{
    let name = tag_name(rest);
    is_verbatim_tag(name) && is_after_name(bytes_from(rest, name.len()))
}

/// Returns whether a block of the sixth kind begins, from what follows the `<`.
fn begins_block_tag(rest: &[u8]) -> bool
    ensures { result ≡ spec.begins_block_tag rest.now }
{
    let named = after_slash(rest);
    let name = tag_name(named);
    is_block_tag(name) && is_after_block_name(bytes_from(named, name.len()))
}

/// Returns the kind of the block that begins with a tag of a known name, from what follows the `<`.
fn named_kind(rest: &[u8]) -> Option<HtmlKind>
    ensures { result ≡ spec.named_kind rest.now }
{
    if begins_verbatim(rest) {
        Some(HtmlKind::Verbatim)
    } else if begins_block_tag(rest) {
        Some(HtmlKind::BlockTag)
    } else {
        None
    }
}

/// Returns the bytes after a slash at their beginning, or all bytes where there is none.
fn after_slash(bytes: &[u8]) -> &[u8]
    ensures { result.now ≡ spec.after_slash bytes.now }
{
    match bytes.split_first() {
        Some((b'/', rest)) => rest,
        _ => bytes,
    }
}

/// Returns the kind of the block, of all kinds but the seventh, from what follows the `<`.
fn known_kind(rest: &[u8]) -> Option<HtmlKind>
    ensures { result ≡ spec.known_kind rest.now }
{
    match rest.split_first() {
        Some((b'?', _)) => Some(HtmlKind::Instruction),
        Some((b'!', declared)) => declared_kind(declared),
        _ => named_kind(rest),
    }
}

/// Returns whether a line's content is a tag and white space after it, and the tag's name is not one of the first kind.
/// Fails if an allocation fails.
fn is_lone_tag(alloc: Global, line: &str) -> Result<bool, AllocError>
    ensures { IfOk result (λ lone. lone ≡ spec.is_lone_tag line.now) }
{
    let bytes = line.as_bytes();
    let Some(tag) = scan_html_tag(alloc, line, 0, &OneLine)? else {
        return Ok(false);
    };
    let name = tag_name(after_slash(bytes_from(bytes, 1)));
    Ok(!is_verbatim_tag(name) && is_white(bytes_from(bytes, tag.end)))
}

/// Returns the kind of the HTML block that begins with a line's content, whose first byte is a `<`. A block of the
/// seventh kind cannot interrupt a paragraph. Fails if an allocation fails.
pub fn html_kind(
    alloc: Global,
    line: &str,
    in_paragraph: bool,
) -> Result<Option<HtmlKind>, AllocError>
    ensures { IfOk result (λ found. found ≡ spec.html_kind_of line.now in_paragraph) }
{
    if let Some(known) = known_kind(bytes_from(line.as_bytes(), 1)) {
        return Ok(Some(known));
    }
    if !in_paragraph && is_lone_tag(alloc, line)? {
        Ok(Some(HtmlKind::LoneTag))
    } else {
        Ok(None)
    }
}
