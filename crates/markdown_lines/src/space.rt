//! White space that is read from a place in a line, by columns (CommonMark 2.2).
ghost use Rattle.std.specs.Prelude.{◌≡◌, ◌≤◌, ◌<◌, ◌+◌, ◌-◌, ◌^◌, min, true};
ghost use Rattle.markdown_lines.specs.Lines.{is_space_or_tab};
ghost use Rattle.markdown_lines.specs.Positions.{IsSpaceAt};
ghost use Rattle.markdown_scan.specs.LineStart.{space_width, column_after};

use crate::bytes::bytes_of;
use crate::line::is_space_or_tab;
use crate::position::Position;

/// White space that was read: its columns, and the place after it.
#[derive(Clone, Copy, Drop)]
pub struct Space {
    pub columns: usize,
    pub after: Position,
}

/// Returns the white space of a space or tab at a place, of which at most `most` columns are read.
fn past_white(position: Position, byte: u8, most: usize) -> Space
    requires white { is_space_or_tab byte ≡ true }
    requires room { position.at + 1 < 2 ^ 64 }
    ensures columns { result.columns ≡ min most (space_width position.column byte) }
    ensures at { result.after.at ≡ position.at + 1 }
    ensures column { result.after.column ≡ column_after position.column byte }
    ensures owed { result.after.owed ≡ space_width position.column byte - most }
{
    let (width, column) = if byte == b'\t' {
        (4 - position.column, 0)
    } else if position.column == 3 {
        (1, 0)
    } else {
        (1, position.column + 1)
    };
    let columns = width.min(most);
    Space {
        columns,
        after: Position {
            at: position.at + 1,
            column,
            owed: width - columns,
        },
    }
}

/// Returns the white space that is read from a place on, at most `most` columns, in a line whose content ends before
/// byte offset `stop`.
// inlined: it is called for most lines
#[inline(always)]
pub fn read_space(text: &str, position: Position, stop: usize, most: usize) -> Space
    ensures value { IsSpaceAt text.now position stop most result }
    ensures few { result.columns ≤ most }
{
    let owed = position.owed.min(most);
    let mut found = Space {
        columns: owed,
        after: Position {
            at: position.at,
            column: position.column,
            owed: position.owed - owed,
        },
    };
    'white: for byte in bytes_of(text, position.at, stop) {
        if found.columns == most || !is_space_or_tab(*byte) {
            break;
        }
        let read = past_white(found.after, *byte, most - found.columns);
        found = Space {
            columns: found.columns + read.columns,
            after: read.after,
        };
    }
    found
}
