//! Tests of single bytes of a text.
ghost use Rattle.std.specs.Prelude.{◌≡◌, ◌≢◌, ◌==◌, ◌<◌, ◌+◌, IfSome, IsTrue, drop, length, slice_index};
ghost use Rattle.std.specs.Option.{option_map};
ghost use Rattle.markdown_brackets.specs.Reference.{stripped};

/// Returns whether the text has this byte at the byte offset `at`.
pub(crate) fn stands_at(text: &str, at: usize, byte: u8) -> bool
    requires { byte ≢ 0 }
    ensures value { result ≡ (slice_index text.now at == byte) }
    ensures here { IsTrue result → (at < length text.now) × (slice_index text.now at ≡ byte) }
{
    text.as_bytes().get(at) == Some(&byte)
}

/// Returns the text after this ASCII byte, if the text begins with it.
pub(crate) fn after_byte(text: &str, byte: u8) -> Option<&str>
    requires some { byte ≢ 0 }
    requires ascii { byte < 128 }
    ensures value { option_map (λ rest. rest.now) result ≡ stripped byte text.now }
    ensures rest { IfSome result (λ rest. rest.now ≡ drop 1 text.now) }
    ensures shorter { IfSome result (λ rest. length rest.now + 1 ≡ length text.now) }
{
    if stands_at(text, 0, byte) {
        Some(&text[1..])
    } else {
        None
    }
}
