//! The escapes of JSON strings.
ghost use Rattle.std.specs.Prelude.{◌≡◌, ◌++◌, ◌<◌, OnOk, OnErr, MatchOption, [], ◌∷◌};
ghost use Rattle.std.specs.List.{flat_map};
ghost use Rattle.std.specs.String.{string_bytes};
ghost use Rattle.markdown_out.specs.StringAppends.{Appends, AppendsPart};
ghost use Rattle.markdown_json.specs.Json.{control_bytes, string_byte};

use std::alloc::AllocError;

/// Appends a text unchanged. If an allocation fails, nothing is appended.
pub(crate) fn push_any(out: &mut String, text: &str) -> Result<(), AllocError>
    ensures ok { OnOk result (Appends out.old out.new text.now) }
    ensures err { OnErr result (string_bytes out.new ≡ string_bytes out.old) }
{
    if text.is_empty() {
        return Ok(());
    }
    out.push_str(text)
}

/// Returns the escape of a control.
fn control(byte: u8) -> &'static str
    requires { byte < 32 }
    ensures { result.now ≡ control_bytes byte }
{
    match byte {
        0x00 => "\\u0000",
        0x01 => "\\u0001",
        0x02 => "\\u0002",
        0x03 => "\\u0003",
        0x04 => "\\u0004",
        0x05 => "\\u0005",
        0x06 => "\\u0006",
        0x07 => "\\u0007",
        0x08 => "\\b",
        b'\t' => "\\t",
        b'\n' => "\\n",
        0x0b => "\\u000b",
        0x0c => "\\f",
        b'\r' => "\\r",
        0x0e => "\\u000e",
        0x0f => "\\u000f",
        0x10 => "\\u0010",
        0x11 => "\\u0011",
        0x12 => "\\u0012",
        0x13 => "\\u0013",
        0x14 => "\\u0014",
        0x15 => "\\u0015",
        0x16 => "\\u0016",
        0x17 => "\\u0017",
        0x18 => "\\u0018",
        0x19 => "\\u0019",
        0x1a => "\\u001a",
        0x1b => "\\u001b",
        0x1c => "\\u001c",
        0x1d => "\\u001d",
        0x1e => "\\u001e",
        _ => "\\u001f",
    }
}

/// Returns the escape of a byte, or None for a byte that is written unchanged.
#[inline(always)]
fn escape_of(byte: u8) -> Option<&'static str>
    ensures { MatchOption result (string_byte byte ≡ byte ∷ [])
        (λ escape. (escape.now ≡ string_byte byte) × (byte < 128)) }
{
    match byte {
        b'"' => Some("\\\""),
        b'\\' => Some("\\\\"),
        _ if byte < 0x20 => Some(control(byte)),
        _ => None,
    }
}

/// Appends a text, escaped. If an allocation fails, a prefix of it has been appended.
pub(crate) fn push_escaped(out: &mut String, text: &str) -> Result<(), AllocError>
    ensures ok { OnOk result (Appends out.old out.new (flat_map string_byte text.now)) }
    ensures err { OnErr result (AppendsPart out.old out.new (flat_map string_byte text.now)) }
{
    let bytes = text.as_bytes();
    let mut from = 0;
    for (i, byte) in bytes.iter().enumerate() {
        if let Some(escape) = escape_of(*byte) {
            push_any(out, &text[from..i])?;
            out.push_str(escape)?;
            from = i + 1;
        }
    }
    push_any(out, &text[from..])
}
