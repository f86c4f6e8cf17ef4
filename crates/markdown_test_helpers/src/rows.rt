//! Comparisons with what is wanted: the error of a test names the row and both values. `assert_eq!` does so too, but
//! its proof takes several times as long, and thirty times in a loop. The error of a table names each row that differs.
use std::fmt::{Debug, InlineText};
use std::test::Fail;

/// Checks that a single value is the one wanted.
pub fn gives<R: Debug + Drop, T: PartialEq + Debug + Drop>(
    row: R,
    found: T,
    wanted: T,
) -> Result<(), Fail> {
    if found == wanted {
        return Ok(());
    }
    Err(Fail::new(format_args!("{row:?} gives {found:?}, not {wanted:?}")))
}

/// The error of a test holds 512 bytes, and the number of rows comes before this text.
const CAPACITY: usize = 480;

/// The rows of a table whose values were not as wanted, so far: how many, the first with both values, the others by
/// name as far as there is room. It is `Copy`, so that an exit from a loop has nothing to drop.
#[derive(Clone, Copy)]
pub struct Rows {
    count: usize,
    text: InlineText<{ CAPACITY }>,
}

impl Rows {
    /// Returns no rows.
    pub fn new() -> Rows {
        Rows {
            count: 0,
            text: InlineText::new(),
        }
    }

    /// Notes a row if its value is not the one wanted.
    pub fn gives<R: Debug + Drop, T: PartialEq + Debug + Drop>(
        &mut self,
        row: R,
        found: T,
        wanted: T,
    ) {
        if found == wanted {
            return;
        }
        let text = self.text;
        self.text = match self.count {
            0 => text.and(
                format_args!("{row:?} gives {found:?}, not {wanted:?}"),
                CAPACITY,
            ),
            1 => text.and(format_args!("; also {row:?}"), CAPACITY),
            _ => text.and(format_args!(", {row:?}"), CAPACITY),
        };
        self.count = self.count.saturating_add(1);
    }

    /// Notes a row if its text is not the one wanted. It takes the text, so that a loop has none to drop.
    pub fn gives_text<R: Debug + Drop>(&mut self, row: R, found: String, wanted: &str) {
        self.gives(row, found.as_str(), wanted);
    }

    /// Ends the test if any row was noted.
    pub fn end(self) -> Result<(), Fail> {
        let text = self.text.as_str();
        match self.count {
            0 => Ok(()),
            1 => Err(Fail::new(text)),
            count => Err(Fail::new(format_args!("{count} rows differ: {text}"))),
        }
    }
}
