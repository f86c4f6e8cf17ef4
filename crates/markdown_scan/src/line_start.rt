//! The beginning of a line, measured in columns (CommonMark 2.2).
ghost use Rattle.std.specs.Prelude.{◌≡◌, ◌≤◌, ◌<◌, ◌==◌, drop, min, if◌then◌else◌};
ghost use Rattle.markdown_scan.specs.LineStart as spec;
ghost use Rattle.markdown_scan.specs.PastSpace.{past_space};

/// The rest of a line, whose white space is read in columns. A tab extends to the next multiple of 4 columns; if only
/// some of its columns are read, the others come next.
#[derive(Drop)]
pub struct LineStart<'t> {
    line: &'t [u8],
    scanned: usize,
    owed: usize,
    column: usize,
    ghost before_stop: { column < 4 },
}

// Returns the columns of a space or a tab, and 0 for any other byte.
fn space_width(column: usize, byte: u8) -> usize
    requires { column < 4 }
    ensures value { result ≡ spec.space_width column byte }
    ensures few { result ≤ 4 }
{
    match byte {
        b' ' => 1,
        b'\t' => 4 - column,
        _ => 0,
    }
}

// Returns the column after a byte of one column, counted from the last tab stop.
fn next_column(column: usize) -> usize
    requires { column < 4 }
    ensures value { result ≡ spec.next_column column }
    ensures before_stop { result < 4 }
{
    if column == 3 { 0 } else { column + 1 }
}

// Returns the column after a space or a tab, counted from the last tab stop.
fn column_after(column: usize, byte: u8) -> usize
    requires { column < 4 }
    ensures value { result ≡ spec.column_after column byte }
    ensures before_stop { result < 4 }
{
    if byte == b'\t' {
        0
    } else {
        next_column(column)
    }
}

impl<'t> LineStart<'t> {
    ghost use Rattle.markdown_scan.specs.LineView.{line_left};
    ghost use Rattle.markdown_scan.specs.LineSteps.{width_next, past_white};

    /// Returns a reader at the beginning of the line.
    pub fn new(bytes: &'t [u8]) -> LineStart<'t>
        ensures { line_left result
            ≡ record { scanned = 0; owed = 0; column = 0; bytes = bytes.now } }
    {
        LineStart {
            line: bytes,
            scanned: 0,
            owed: 0,
            column: 0,
        }
    }

    /// Returns a reader in the middle of a line, after `scanned` bytes of these: `column` columns after the last tab stop,
    /// with `owed` columns left of a tab of which only some were read.
    pub fn at_place(bytes: &'t [u8], scanned: usize, column: usize, owed: usize) -> LineStart<'t>
        requires { column < 4 }
        ensures { line_left result ≡ record {
          scanned = scanned;
          owed = owed;
          column = column;
          bytes = drop scanned bytes.now;
        } }
    {
        LineStart {
            line: bytes,
            scanned,
            owed,
            column,
        }
    }

    /// Returns the number of bytes that were scanned.
    pub fn bytes_scanned(&self) -> usize
        ensures { result ≡ (line_left self.now).scanned }
    {
        self.scanned
    }

    /// Returns the columns that are left of a tab of which only some were read.
    pub fn remaining_space(&self) -> usize
        ensures { result ≡ (line_left self.now).owed }
    {
        self.owed
    }

    /// Returns the number of columns since the last tab stop, with all of a tab of which only some were read.
    pub fn column(&self) -> usize
        ensures value { result ≡ (line_left self.now).column }
        ensures before_stop { result < 4 }
    {
        self.column
    }

    /// Returns whether a line feed, a carriage return or the end of the bytes comes next.
    pub fn is_at_eol(&self) -> bool
        ensures { result ≡ spec.is_line_over (line_left self.now).bytes }
    {
        match self.line.get(self.scanned) {
            None => true,
            Some(byte) => *byte == b'\n' || *byte == b'\r',
        }
    }

    // Reads at most `most` columns of a space or a tab, and returns how many were read, 0 if neither comes next. The
    // other columns of a tab come next.
    fn take_white(&mut self, most: usize) -> usize
        requires none_owed { self.old.owed ≡ 0 }
        requires some { 0 < most }
        ensures columns { result ≡ min most (width_next (line_left self.old)) }
        ensures left { line_left self.new ≡ past_white most (line_left self.old) }
    {
        let Some(first) = self.line.get(self.scanned) else {
            return 0;
        };
        let width = space_width(self.column, *first);
        if width == 0 {
            return 0;
        }
        let columns = width.min(most);
        self.scanned += 1;
        self.owed = width - columns;
        self.column = column_after(self.column, *first);
        columns
    }

    /// Reads at most `n` columns of space, and returns how many were read.
    pub fn scan_space_upto(&mut self, n: usize) -> usize
        ensures columns { result ≡ (spec.leading_space n (line_left self.old)).columns }
        ensures left { line_left self.new ≡ (spec.leading_space n (line_left self.old)).after }
    {
        let mut taken = n.min(self.owed);
        self.owed -= taken;
        while taken < n {
            let columns = self.take_white(n - taken);
            if columns == 0 {
                return taken;
            }
            taken += columns;
        }
        taken
    }

    /// Reads `n` columns of space, and returns whether there were that many. If not, nothing is read.
    pub fn scan_space(&mut self, n: usize) -> bool
        ensures value { result ≡ ((spec.leading_space n (line_left self.old)).columns == n) }
        ensures left { line_left self.new
            ≡ (if result then (spec.leading_space n (line_left self.old)).after
            else line_left self.old) }
    {
        let mut after = self.copy();
        if after.scan_space_upto(n) != n {
            return false;
        }
        *self = after;
        true
    }

    // Returns a copy of the reader.
    fn copy(&self) -> LineStart<'t>
        ensures { line_left result ≡ line_left self.now }
    {
        LineStart {
            line: self.line,
            scanned: self.scanned,
            owed: self.owed,
            column: self.column,
        }
    }

    /// Reads all the space that comes next.
    pub fn scan_all_space(&mut self)
        ensures { line_left self.new ≡ past_space (line_left self.old) }
    {
        self.owed = 0;
        while self.take_white(4) > 0 {}
    }

    /// Reads a block quote marker (CommonMark 5.1), a `>` and at most one column of space after it, and returns whether
    /// there was one. If not, nothing is read.
    pub fn scan_blockquote_marker(&mut self) -> bool
        ensures value { result ≡ spec.begins_marker (line_left self.old) }
        ensures left { line_left self.new ≡ (if result then spec.past_marker (line_left self.old)
            else line_left self.old) }
    {
        match self.line.get(self.scanned) {
            Some(b'>') if self.owed == 0 => {
                self.scanned += 1;
                self.column = next_column(self.column);
                self.scan_space_upto(1);
                true
            }
            _ => false,
        }
    }
}
