//! The result of a call: what is written to the caller's buffer, and the number that is returned.
ghost use Rattle.std.specs.Prelude.{◌≡◌, Ok, pos, length};
ghost use Rattle.markdown_c.specs.CallsFromC.{bytes_of, vec_bytes, returned_number, buffer_after, refusal_status};

use crate::readings::Refusal;

/// Writes all of these bytes to the front of `out`, if they fit. Returns how many they are.
fn fill(bytes: &[u8], out: &mut [u8]) -> i64
    ensures number { result ≡ pos (length bytes.now) }
    ensures buffer { out.new ≡ buffer_after out.old (Ok bytes.now) }
{
    if bytes.len() <= out.len() {
        out[..bytes.len()].copy_from_slice(bytes);
    }
    bytes.len() as i64
}

/// Returns the status of a refusal.
fn status(refusal: Refusal) -> i64
    ensures { result ≡ refusal_status refusal }
{
    match refusal {
        Refusal::NotUtf8 => -1,
        Refusal::Memory => -2,
        Refusal::Depth => -3,
        Refusal::UnknownOption => -4,
        Refusal::NotRecords => -5,
        Refusal::TooLong => -6,
        Refusal::OverLimit => -7,
    }
}

/// Returns the number for an outcome, and writes the bytes to the front of `out`, if there are any and they fit.
pub(crate) fn answer(outcome: Result<String, Refusal>, out: &mut [u8]) -> i64
    ensures number { result ≡ returned_number (bytes_of outcome) }
    ensures buffer { out.new ≡ buffer_after out.old (bytes_of outcome) }
{
    match outcome {
        Ok(whole) => fill(whole.as_bytes(), out),
        Err(refusal) => status(refusal),
    }
}

/// Returns the number for an outcome that is bytes, and writes them as `answer` does.
pub(crate) fn answer_bytes(outcome: Result<Vec<u8>, Refusal>, out: &mut [u8]) -> i64
    ensures number { result ≡ returned_number (vec_bytes outcome) }
    ensures buffer { out.new ≡ buffer_after out.old (vec_bytes outcome) }
{
    match outcome {
        Ok(bytes) => fill(bytes.as_slice(), out),
        Err(refusal) => status(refusal),
    }
}
