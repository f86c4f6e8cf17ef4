//! Runs of one byte.
ghost use Rattle.std.specs.Prelude.{◌≡◌, ◌<◌, ◌≤◌, length, slice_index};
ghost use Rattle.std.specs.Str.{IsCharBoundary};
ghost use Rattle.markdown_builder.specs.BuilderView.{IsRunOf};

/// Returns the byte offset at which the run of a byte ends that begins at byte offset `from`.
pub fn run_end(text: &str, from: usize, byte: u8) -> usize
    requires within { from < length text.now }
    requires first { slice_index text.now from ≡ byte }
    ensures { IsRunOf byte text.now from result }
{
    let bytes = text.as_bytes();
    for end in from + 1..bytes.len() {
        if bytes[end] != byte {
            return end;
        }
    }
    bytes.len()
}
