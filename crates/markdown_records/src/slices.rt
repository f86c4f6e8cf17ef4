//! Slices of a text, by offset and length.
ghost use Rattle.std.specs.Prelude.{◌≡◌, MatchOption, Some, None};
ghost use Rattle.markdown_records.specs.RecordView.{slice_of};

/// Returns the slice of a text from an offset on, of this length in bytes, if characters begin and
/// end there.
pub(crate) fn slice_of(text: &str, at: usize, length: usize) -> Option<&str>
    ensures { MatchOption result (slice_of text.now at length ≡ None)
        (λ slice. slice_of text.now at length ≡ Some slice.now) }
{
    // not `get`, whose clauses do not say that an empty slice is between characters
    let end = at.checked_add(length)?;
    if !text.is_char_boundary(at) {
        return None;
    }
    if !text.is_char_boundary(end) {
        return None;
    }
    Some(&text[at..end])
}
