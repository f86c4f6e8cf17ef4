//! The characters around a delimiter, and their kinds (CommonMark 2.1).
ghost use Rattle.std.specs.Prelude.{◌≡◌, ◌≤◌};
ghost use Rattle.std.specs.Str.{IsCharBoundary};
ghost use Rattle.markdown_items.specs.Flanking.{character_before, character_after, is_white, is_punctuation};

/// Returns the character before the byte offset `at`, in a line's content that begins at `start`; `None` at its first
/// byte.
pub fn character_before(text: &str, start: usize, at: usize) -> Option<char>
    requires ordered { start ≤ at }
    requires start { IsCharBoundary text.now start }
    requires at { IsCharBoundary text.now at }
    ensures { result ≡ character_before text.now start at }
{
    let mut characters = text[start..at].chars();
    let last = characters.next_back();
    let _front = characters.as_str();
    last
}

/// Returns the character at the byte offset `at`, which may be after the line's content; `None` at the text's end.
pub fn character_after(text: &str, at: usize) -> Option<char>
    requires { IsCharBoundary text.now at }
    ensures { result ≡ character_after text.now at }
{
    text[at..].chars().next()
}

/// Returns whether the character is Unicode white space; `None` counts as a line ending, as at the beginning of a
/// line's content and at the end of the text.
pub fn is_white(character: Option<char>) -> bool
    ensures { result ≡ is_white character }
{
    match character {
        Some(character) => character.is_whitespace(),
        None => true,
    }
}

/// Returns whether the character is ASCII punctuation.
pub fn is_punctuation(character: Option<char>) -> bool
    ensures { result ≡ is_punctuation character }
{
    match character {
        Some(character) => character.is_ascii_punctuation(),
        None => false,
    }
}
