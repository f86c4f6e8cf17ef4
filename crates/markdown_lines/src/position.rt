//! A place in a line, by bytes and by columns (CommonMark 2.2).
ghost use Rattle.std.specs.Prelude.{◌≡◌, ◌<◌, ◌+◌, ◌%◌, ◌^◌};

/// A place in a line: its byte offset, and the columns between the last tab stop and it. A tab extends to the next
/// multiple of 4 columns; where only some of its columns have been read, the place is after it, and the others are
/// owed.
#[derive(Clone, Copy, Drop)]
pub struct Position {
    pub at: usize,
    pub column: usize,
    pub owed: usize,
    ghost before_stop: { column < 4 },
}

impl Position {
    /// Returns the place at the beginning of a line.
    pub fn new(at: usize) -> Position
        ensures at { result.at ≡ at }
        ensures column { result.column ≡ 0 }
        ensures owed { result.owed ≡ 0 }
    {
        Position {
            at,
            column: 0,
            owed: 0,
        }
    }

    /// Returns the place after `bytes` bytes of one column each.
    pub fn past(self, bytes: usize) -> Position
        ensures at { self.at + bytes < 2 ^ 64 → result.at ≡ self.at + bytes }
        ensures column { result.column ≡ (self.column + bytes) % 4 }
        ensures owed { result.owed ≡ 0 }
    {
        Position {
            at: self.at.saturating_add(bytes),
            column: (self.column + bytes % 4) % 4,
            owed: 0,
        }
    }
}
