//! The pipe of a wikilink.
ghost use Rattle.std.specs.Prelude.{◌≡◌, ◌==◌, ◌≤◌, ◌<◌, ◌+◌, IfSome, length, position, slice_index};
ghost use Rattle.std.specs.Option.{option_map};
ghost use Rattle.std.specs.Str.{IsCharBoundary};
ghost use Rattle.markdown_base.specs.Bytes.{pipe};
ghost use Rattle.markdown_scan.specs.WikilinkPipe.{wikilink_pipe};

// Returns the index of the first pipe, if there is one.
fn first_pipe(bytes: &[u8]) -> Option<usize>
    ensures value { result ≡ position (λ b. b == pipe) bytes.now }
    ensures here { IfSome result (λ n. (n < length bytes.now) × (slice_index bytes.now n ≡ pipe)) }
{
    bytes.iter().position(|byte| *byte == b'|')
}

/// Returns the byte offset after the first `|` and the text before that, within the `length` bytes of `text` from the
/// byte `start` on; `None` if these contain no pipe.
pub fn scan_wikilink_pipe(text: &str, start: usize, length: usize) -> Option<(usize, &str)>
    requires start { IsCharBoundary text.now start }
    requires end { IsCharBoundary text.now (start + length) }
    ensures value { option_map (λ p. (p.0, p.1.now)) result ≡ wikilink_pipe text.now start length }
    ensures within { IfSome result (λ p. p.0 ≤ start + length) }
    ensures boundary { IfSome result (λ p. IsCharBoundary text.now p.0) }
{
    let body = &text[start..start + length];
    let name_length = first_pipe(body.as_bytes())?;
    Some((start + name_length + 1, &body[..name_length]))
}
