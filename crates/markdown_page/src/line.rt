//! Steps over the characters of a line: its white space, which is spaces and tabs, and what it begins and ends with.
ghost use Rattle.std.specs.Prelude.{◌≡◌, chars, option_map};
ghost use Rattle.markdown_page.specs.MetadataTitle.{is_gap};
ghost use Rattle.markdown_page.specs.MetadataTitle.{is_comment_or_nothing, is_gap_or_nothing, is_space_or_nothing};
ghost use Rattle.markdown_page.specs.MetadataTitle.{past_gap, starts_with_char, text_after, up_to_gap};

/// Returns whether a character is a space or a tab.
pub(crate) fn is_gap(c: char) -> bool
    ensures { result ≡ is_gap c }
{
    c == ' ' || c == '\t'
}

/// Returns whether a text begins with a character.
pub(crate) fn starts_with_char(text: &str, c: char) -> bool
    ensures { result ≡ starts_with_char c (chars text.now) }
{
    match text.chars().next() {
        Some(first) => first == c,
        None => false,
    }
}

/// Returns whether a text is empty or begins with white space.
pub(crate) fn is_gap_or_nothing(text: &str) -> bool
    ensures { result ≡ is_gap_or_nothing (chars text.now) }
{
    match text.chars().next() {
        Some(first) => is_gap(first),
        None => true,
    }
}

/// Returns whether a text is empty or begins with a space.
pub(crate) fn is_space_or_nothing(text: &str) -> bool
    ensures { result ≡ is_space_or_nothing (chars text.now) }
{
    match text.chars().next() {
        Some(first) => first == ' ',
        None => true,
    }
}

/// Returns whether a text is empty or begins with `#`.
pub(crate) fn is_comment_or_nothing(text: &str) -> bool
    ensures { result ≡ is_comment_or_nothing (chars text.now) }
{
    match text.chars().next() {
        Some(first) => first == '#',
        None => true,
    }
}

/// Returns a text without the white space at its beginning.
pub(crate) fn past_gap(text: &str) -> &str
    ensures { chars result.now ≡ past_gap (chars text.now) }
{
    let mut left = text;
    let mut rest = text.chars();
    while let Some(c) = rest.next() {
        if !is_gap(c) {
            return left;
        }
        left = rest.as_str();
    }
    left
}

/// Returns a text without the white space at its end.
pub(crate) fn up_to_gap(text: &str) -> &str
    ensures { chars result.now ≡ up_to_gap (chars text.now) }
{
    let mut left = text;
    let mut rest = text.chars();
    while let Some(c) = rest.next_back() {
        let front = rest.as_str();
        if !is_gap(c) {
            return left;
        }
        left = front;
    }
    left
}

/// Returns what follows some characters in a text that begins with them.
pub(crate) fn text_after<'a>(front: &str, text: &'a str) -> Option<&'a str>
    ensures { option_map (λ rest. chars rest.now) result
        ≡ text_after (chars front.now) (chars text.now) }
{
    text.strip_prefix(front)
}
