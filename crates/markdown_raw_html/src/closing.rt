//! The search for the first closing bytes: a search that failed is not repeated.
ghost use Rattle.std.specs.Prelude.{◌≡◌, ◌<◌, ◌≤◌, IfSome, None, drop, length};
ghost use Rattle.markdown_raw_html.specs.RawHtml.{end_from, through_first};

/// A text, closing bytes, and a byte offset from which on the text does not contain them. Without that offset, each
/// start that no end follows would cost a search to the end of the text: `<!a`, repeated n times, would cost n².
#[derive(Debug, Drop)]
pub(crate) struct ClosingGuard<'t> {
    pub(crate) text: &'t [u8],
    pub(crate) closing: &'t [u8],
    none_from: usize,
    ghost in_text: { none_from ≤ length text.now },
    ghost none: { through_first closing.now (drop none_from text.now) ≡ None },
}

/// Returns the length in bytes through the first closing bytes, if there are any.
fn find_closing(bytes: &[u8], closing: &[u8]) -> Option<usize>
    ensures value { result ≡ through_first closing.now bytes.now }
    ensures within { IfSome result (λ n. n ≤ length bytes.now) }
{
    let mut rest = bytes;
    let mut at = 0;
    while let Some((_, tail)) = rest.split_first() {
        if rest.starts_with(closing) {
            return Some(at + closing.len());
        }
        rest = tail;
        at += 1;
    }
    None
}

impl<'t> ClosingGuard<'t> {
    /// Returns a guard for which no search has failed yet.
    pub(crate) fn new(text: &'t [u8], closing: &'t [u8]) -> ClosingGuard<'t>
        ensures text { result.text.now ≡ text.now }
        ensures closing { result.closing.now ≡ closing.now }
    {
        ClosingGuard {
            text,
            closing,
            none_from: text.len(),
        }
    }

    /// Returns the byte offset after the first closing bytes at `start` or later. If there are none, the guard
    /// remembers that from `start` on.
    pub(crate) fn end(&mut self, start: usize) -> Option<usize>
        requires { start ≤ length self.old.text.now }
        ensures value { result ≡ end_from (through_first self.old.closing.now) self.old.text.now
            start }
        ensures within { IfSome result (λ end. end ≤ length self.old.text.now) }
        ensures text { self.new.text ≡ self.old.text }
        ensures closing { self.new.closing ≡ self.old.closing }
    {
        if start >= self.none_from {
            return None;
        }
        match find_closing(&self.text[start..], self.closing) {
            Some(length) => Some(start + length),
            None => {
                self.none_from = start;
                None
            }
        }
    }
}
