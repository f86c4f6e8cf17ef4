//! `list_of`: the table of contents of headings, a nested Markdown list of links to them.
ghost use Rattle.std.specs.Prelude.{◌≡◌, ◌++◌, ◌∷◌, ◌<◌, ◌≤◌, ℕ, List, IfOk, IfErr, OnOk, chars, flat_map};
ghost use Rattle.std.specs.Prelude.{length, map, option_map, reverse, string_bytes, take};
ghost use Rattle.percent_encoding.specs.Percent.{percent_encode_byte};
ghost use Rattle.markdown_outline.specs.Outline.{entry_view};
ghost use Rattle.markdown_contents.specs.Contents.{contents_in_file, contents_of, depth, escaped, escaped_char};
ghost use Rattle.markdown_contents.specs.Contents.{file_char, heading_link, id_char, id_in_destination, indent};
ghost use Rattle.markdown_contents.specs.Contents.{is_address_mark, is_destination_markup, is_encoded, is_markup};
ghost use Rattle.markdown_contents.specs.Contents.{line, may_be_scheme};
ghost use Rattle.markdown_contents.specs.ContentsSoFar.{AreOpen, lower_from};

use markdown_base::fault::Fault;
use markdown_outline::Entry;
use percent_encoding::percent_encode_byte;
use std::alloc::Global;

/// Returns the number of open levels above a heading of this level: all but those at the end that are not lower.
fn count_above(open_levels: &[u8], level: u8) -> usize
    ensures within { result ≤ length open_levels.now }
    ensures lower { reverse (take result open_levels.now)
        ≡ lower_from level (reverse open_levels.now) }
{
    let mut above = open_levels.len();
    'closed: while above > 0 && open_levels[above - 1] >= level {
        above -= 1;
    }
    above
}

/// Returns the number of headings above the next heading, which has this level. Its level is then open, and of the
/// levels before it only those above it, so that each is removed once.
pub(crate) fn next_depth(open_levels: &mut Vec<u8>, level: u8) -> Result<usize, Fault>
    ensures depth { IfOk result (λ above. (levels : List ℕ)
        → AreOpen (reverse open_levels.old.items) levels → above ≡ depth level levels) }
    ensures open_levels { OnOk result ((levels : List ℕ)
        → AreOpen (reverse open_levels.old.items) levels
        → AreOpen (reverse open_levels.new.items) (level ∷ levels)) }
    ensures refused { IfErr result (λ fault. fault ≡ Fault.Memory) }
{
    let above = count_above(open_levels, level);
    open_levels.truncate(above);
    open_levels.push(level)?;
    Ok(above)
}

/// Returns whether a character may be markup in the text of a link.
fn is_markup(c: char) -> bool
    ensures { result ≡ is_markup c }
{
    matches!(c, '\\' | '[' | ']' | '*' | '_' | '`' | '<' | '&')
}

/// Appends a character of a link's text, escaped so that it is parsed as that character.
fn push_escaped_char(list: &mut String, c: char) -> Result<(), Fault>
    ensures ok { OnOk result (string_bytes list.new ≡ string_bytes list.old ++ escaped_char c) }
    ensures refused { IfErr result (λ fault. fault ≡ Fault.Memory) }
{
    if c == '\n' {
        return Ok(list.push_str("&#10;")?);
    }
    if c == '\r' {
        return Ok(list.push_str("&#13;")?);
    }
    if is_markup(c) {
        list.push_str("\\")?;
    }
    Ok(list.push(c)?)
}

/// Appends the text of a link. `\`, `[`, `]`, `*`, `_`, `` ` ``, `<` and `&` are escaped by a backslash, and a line
/// ending is a numeric reference, so that a parser without extensions reads the same text.
fn push_escaped(list: &mut String, text: &str) -> Result<(), Fault>
    ensures ok { OnOk result (string_bytes list.new ≡ string_bytes list.old ++ escaped text.now) }
    ensures refused { IfErr result (λ fault. fault ≡ Fault.Memory) }
{
    for c in text.chars() {
        push_escaped_char(list, c)?;
    }
    Ok(())
}

/// Appends two spaces for each level of depth.
fn push_indent(list: &mut String, depth: usize) -> Result<(), Fault>
    ensures ok { OnOk result (string_bytes list.new ≡ string_bytes list.old ++ indent depth) }
    ensures refused { IfErr result (λ fault. fault ≡ Fault.Memory) }
{
    for _ in 0..depth {
        list.push_str("  ")?;
    }
    Ok(())
}

/// Returns whether a character is written by its number in a destination: it is a space or a control character of
/// ASCII.
fn is_encoded(c: char) -> bool
    ensures { result ≡ is_encoded c }
{
    c <= ' ' || c == '\u{7f}'
}

/// Returns whether a character has a meaning in a destination.
fn is_destination_markup(c: char) -> bool
    ensures { result ≡ is_destination_markup c }
{
    matches!(c, '\\' | '(' | ')' | '<' | '>' | '&')
}

/// Appends a character by its number, `%` and two hexadecimal digits.
fn push_encoded(list: &mut String, c: char) -> Result<(), Fault>
    requires ascii { c < 128 }
    ensures ok { OnOk result
        (string_bytes list.new ≡ string_bytes list.old ++ percent_encode_byte c) }
    ensures refused { IfErr result (λ fault. fault ≡ Fault.Memory) }
{
    Ok(list.push_str(percent_encode_byte(c as u8))?)
}

/// Appends a character of an id.
fn push_id_char(list: &mut String, c: char) -> Result<(), Fault>
    ensures ok { OnOk result (string_bytes list.new ≡ string_bytes list.old ++ id_char c) }
    ensures refused { IfErr result (λ fault. fault ≡ Fault.Memory) }
{
    if is_encoded(c) {
        return push_encoded(list, c);
    }
    if is_destination_markup(c) {
        list.push_str("\\")?;
    }
    Ok(list.push(c)?)
}

/// Appends an id, as it stands in a destination.
fn push_id(list: &mut String, id: &str) -> Result<(), Fault>
    ensures ok { OnOk result
        (string_bytes list.new ≡ string_bytes list.old ++ id_in_destination id.now) }
    ensures refused { IfErr result (λ fault. fault ≡ Fault.Memory) }
{
    for c in id.chars() {
        push_id_char(list, c)?;
    }
    Ok(())
}

/// Returns whether a character has a meaning in an address.
fn is_address_mark(c: char) -> bool
    ensures { result ≡ is_address_mark c }
{
    matches!(c, '%' | '#' | '?')
}

/// Appends a character of a file's name.
fn push_file_char(list: &mut String, c: char) -> Result<(), Fault>
    ensures ok { OnOk result (string_bytes list.new ≡ string_bytes list.old ++ file_char c) }
    ensures refused { IfErr result (λ fault. fault ≡ Fault.Memory) }
{
    if is_address_mark(c) {
        return push_encoded(list, c);
    }
    push_id_char(list, c)
}

/// Appends the characters of a file's name.
fn push_file(list: &mut String, name: &str) -> Result<(), Fault>
    ensures ok { OnOk result
        (string_bytes list.new ≡ string_bytes list.old ++ flat_map file_char (chars name.now)) }
    ensures refused { IfErr result (λ fault. fault ≡ Fault.Memory) }
{
    for c in name.chars() {
        push_file_char(list, c)?;
    }
    Ok(())
}

/// Returns whether a file's name would be read as an address with a scheme: there is a colon in its first part.
fn may_be_scheme(name: &str) -> bool
    ensures { result ≡ may_be_scheme name.now }
{
    let bytes = name.as_bytes();
    'bytes: for byte in bytes {
        if *byte == b':' {
            return true;
        }
        if *byte == b'/' {
            return false;
        }
    }
    false
}

/// Appends the text of a heading without an id, and otherwise a link to the id in a file.
fn push_link(list: &mut String, file: &str, heading: &Entry) -> Result<(), Fault>
    ensures ok { OnOk result (string_bytes list.new ≡ string_bytes list.old
        ++ heading_link file.now (string_bytes heading.now.text)
        (option_map string_bytes heading.now.id)) }
    ensures refused { IfErr result (λ fault. fault ≡ Fault.Memory) }
{
    let id = match &heading.id {
        Some(id) => id,
        None => return push_escaped(list, heading.text.as_str()),
    };
    list.push_str("[")?;
    push_escaped(list, heading.text.as_str())?;
    list.push_str("](")?;
    if may_be_scheme(file) {
        list.push_str("./")?;
    }
    push_file(list, file)?;
    list.push_str("#")?;
    push_id(list, id.as_str())?;
    Ok(list.push_str(")")?)
}

/// Appends the line of a heading.
fn push_line(list: &mut String, file: &str, depth: usize, heading: &Entry) -> Result<(), Fault>
    ensures ok { OnOk result (string_bytes list.new
        ≡ string_bytes list.old ++ line file.now depth (entry_view heading.now)) }
    ensures refused { IfErr result (λ fault. fault ≡ Fault.Memory) }
{
    push_indent(list, depth)?;
    list.push_str("- ")?;
    push_link(list, file, heading)?;
    Ok(list.push_str("\n")?)
}

/// Returns the table of contents of the headings of a file: a line for each, below the nearest heading before it of a
/// lower level, with a link to its id in the file of this name, or in the same text if the name is empty. A heading
/// without an id is its text alone. Takes linear time.
///
/// # Errors
///
/// `Memory` if an allocation fails; there is no other error.
pub fn list_in(alloc: Global, file: &str, headings: &[Entry]) -> Result<String, Fault>
    ensures list { IfOk result (λ list.
        string_bytes list ≡ contents_in_file file.now (map entry_view headings.now)) }
    ensures refused { IfErr result (λ fault. fault ≡ Fault.Memory) }
{
    let mut list = String::new(alloc);
    let mut open_levels = Vec::new(alloc);
    'headings: for heading in headings {
        let depth = next_depth(&mut open_levels, heading.level)?;
        push_line(&mut list, file, depth, heading)?;
    }
    Ok(list)
}

/// Returns the table of contents of these headings, with links to their ids in the same text.
///
/// # Errors
///
/// `Memory` if an allocation fails; there is no other error.
pub fn list_of(alloc: Global, headings: &[Entry]) -> Result<String, Fault>
    ensures list { IfOk result (λ list.
        string_bytes list ≡ contents_of (map entry_view headings.now)) }
    ensures refused { IfErr result (λ fault. fault ≡ Fault.Memory) }
{
    list_in(alloc, "", headings)
}
