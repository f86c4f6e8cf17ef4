//! Places in a line, and readers of the line from there on.
ghost use Rattle.std.specs.Prelude.{◌≡◌};
ghost use Rattle.markdown_lines.specs.Positions.{left_from};
ghost use Rattle.markdown_scan.specs.LineView.{line_left};

use crate::bytes::bytes_of;
use crate::position::Position;
use markdown_scan::line_start::LineStart;

impl Position {
    /// Returns the place that a reader of the line has reached.
    pub fn of(line: &LineStart<'_>) -> Position
        ensures at { result.at ≡ (line_left line.now).scanned }
        ensures column { result.column ≡ (line_left line.now).column }
        ensures owed { result.owed ≡ (line_left line.now).owed }
    {
        Position {
            at: line.bytes_scanned(),
            column: line.column(),
            owed: line.remaining_space(),
        }
    }

    /// Returns a reader from this place on of a line of a text, whose content ends before byte offset `stop`.
    pub fn reader<'t>(self, text: &'t str, stop: usize) -> LineStart<'t>
        ensures { line_left result ≡ left_from text.now self stop }
    {
        LineStart::at_place(bytes_of(text, 0, stop), self.at, self.column, self.owed)
    }
}
