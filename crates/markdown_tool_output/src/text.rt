//! The text of a file, from its bytes.
ghost use Rattle.std.specs.Prelude.{◌≡◌, ◌≤◌, IfOk, IfErr, length, string_bytes};
ghost use Rattle.std.specs.Str.{IsUtf8};
ghost use Rattle.markdown_tool_output.specs.FileText.{IsNotText, line_number, without_mark};

/// Where bytes are no text.
#[derive(Clone, Copy, Debug, PartialEq, Eq, Drop)]
pub struct NotText {
    /// The number of the line of the first byte that does not belong to a character, from 1.
    pub line: usize,
    /// The offset of that byte, from 0.
    pub offset: usize,
}

/// Returns the number of the line that holds the byte at an offset, from 1: one more than the line feeds before it.
#[tactic(auto, using(crate::proofs::FileTextLemmas::line_fits))]
pub fn line_of(bytes: &[u8], offset: usize) -> usize
    requires { offset ≤ length bytes.now }
    ensures { result ≡ line_number bytes.now offset }
{
    let mut line = 1;
    'bytes: for at in 0..offset {
        if bytes[at] == b'\n' {
            line += 1;
        }
    }
    line
}

/// Returns bytes as text.
///
/// # Errors
///
/// Where they are not UTF-8.
pub fn text_of(bytes: Vec<u8>) -> Result<String, NotText>
    ensures text { IfOk result (λ text. string_bytes text ≡ bytes.items) }
    ensures not_text { IfErr result (IsNotText bytes.items) }
{
    match String::from_utf8(bytes) {
        Ok(text) => Ok(text),
        Err(error) => {
            let offset = error.utf8_error().valid_up_to();
            let line = line_of(error.as_bytes(), offset);
            Err(NotText { line, offset })
        }
    }
}

/// Returns a text without a byte order mark at its beginning.
pub fn without_mark(text: &str) -> &str
    ensures { result.now ≡ without_mark text.now }
{
    match text.strip_prefix("\u{feff}") {
        Some(rest) => rest,
        None => text,
    }
}
