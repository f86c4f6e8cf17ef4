//! `Position`, a line and a column, and the position after one more byte.
ghost use Rattle.std.specs.Prelude.{◌≡◌, ◌<◌, ◌^◌, length};
ghost use Rattle.markdown_positions.specs.Positions.{is_first_byte, is_line_end, first_position, next_position};

/// A place in a text. Both numbers count from 1.
#[derive(Clone, Copy, Debug, PartialEq, Eq, Drop)]
pub struct Position {
    pub line: usize,
    /// One more than the characters before it in its line, which are Unicode scalar values.
    pub column: usize,
}

/// Returns the position at the beginning of a text.
pub fn first_position() -> Position
    ensures { result ≡ first_position }
{
    Position { line: 1, column: 1 }
}

/// Returns whether a line ends with the byte at this offset: a line feed, or a carriage return without one after it.
fn is_line_end(bytes: &[u8], at: usize) -> bool
    requires { at < length bytes.now }
    ensures { result ≡ is_line_end bytes.now at }
{
    match bytes[at] {
        b'\n' => true,
        b'\r' => match bytes.get(at + 1) {
            Some(next) => *next != b'\n',
            None => true,
        },
        _ => false,
    }
}

/// Returns whether a byte is the first of a character.
fn is_first_byte(byte: u8) -> bool
    ensures { result ≡ is_first_byte byte }
{
    byte < 128 || 192 <= byte
}

/// Returns the position after the byte at this offset, which has this position.
pub fn next_position(bytes: &[u8], at: usize, position: Position) -> Position
    requires within { at < length bytes.now }
    requires small { (position.line < 2 ^ 63) × (position.column < 2 ^ 63) }
    ensures { result ≡ next_position bytes.now at position }
{
    if is_line_end(bytes, at) {
        return Position {
            line: position.line + 1,
            column: 1,
        };
    }
    if is_first_byte(bytes[at]) {
        return Position {
            line: position.line,
            column: position.column + 1,
        };
    }
    position
}
