//! What is skipped at the beginning of a line on which a label or a tag continues.
ghost use Rattle.std.specs.Prelude.{◌≡◌, ◌≤◌, ℕ, List, Option, IfSome, IsTrue, None, Some, length, take};
ghost use Rattle.std.specs.List.{list_all};
ghost use Rattle.std.specs.Char.{is_ascii};

/// How a text continues after a line ending.
pub trait LineRule {
    /// The number of bytes after a line ending that are a prefix and not part of the text; `None` where a line ending
    /// is not allowed.
    ghost skipped: { Self → List ℕ → Option ℕ };

    /// Returns the length in bytes of the prefix at the beginning of `rest`, which follows a line ending; `None` where
    /// a line ending is not allowed. A prefix is ASCII.
    fn skip(&self, rest: &[u8]) -> Option<usize>
        ensures value { result ≡ skipped self.now rest.now }
        ensures within { IfSome result (λ n. n ≤ length rest.now) }
        ensures ascii { IfSome result (λ n. IsTrue (list_all is_ascii (take n rest.now))) };
}

/// The rule for lines without a prefix, as those of a paragraph directly below the document.
#[derive(Debug, Drop)]
pub struct NoPrefix;

impl LineRule for NoPrefix {
    ghost use Rattle.std.specs.Prelude.{Some};

    ghost skipped = { λ rule rest. Some 0 };

    fn skip(&self, _rest: &[u8]) -> Option<usize> {
        Some(0)
    }
}

/// The rule for a text in which no line ending is allowed.
#[derive(Debug, Drop)]
pub struct OneLine;

impl LineRule for OneLine {
    ghost use Rattle.std.specs.Prelude.{None};

    ghost skipped = { λ rule rest. None };

    fn skip(&self, _rest: &[u8]) -> Option<usize> {
        None
    }
}
