//! The lines of a file: heads of sections, and rows.
use crate::found::Row;
use crate::section::{Given, Section, title_of};
use markdown_test_parsers::sound::is_sound_with_any;
use serde_json::Value;
use std::alloc::{AllocError, Global};
use std::test::Fail;

/// What has been read of a file.
#[derive(Drop)]
pub struct Rows<'f> {
    alloc: Global,
    file: &'f str,
    /// The title of the section, and what it is: None before the first, and where its head makes none.
    title: String,
    section: Option<Section>,
    /// The number of lines, that of rows, and that of rows that give something else and of lines that are neither.
    lines: usize,
    rows: usize,
    wrong: usize,
    report: String,
}

/// Returns the row of a line, or None where it makes none: an array of a text and what it gives, which may be missing where
/// the text shows itself, and perhaps a comment.
fn row_of<'v>(given: Given, line: &'v Value) -> Option<Row<'v>> {
    let list = line.as_array()?.as_slice();
    let text = list.get(0)?.as_str()?;
    let given = match given {
        Given::Text => text,
        _ => list.get(1)?.as_str()?,
    };
    Some(Row { text, given })
}

impl<'f> Rows<'f> {
    /// Returns a file of which nothing has been read.
    pub fn of_file(alloc: Global, file: &'f str) -> Rows<'f> {
        Rows {
            alloc,
            file,
            title: String::new(alloc),
            section: None,
            lines: 0,
            rows: 0,
            wrong: 0,
            report: String::new(alloc),
        }
    }

    /// Appends what is wrong with the line that was read last.
    fn say(&mut self, what: &str) -> Result<(), AllocError> {
        self.wrong = self.wrong.saturating_add(1);
        let line = format!(in self.alloc;
            "{}:{}: {}: {what}\n",
            self.file, self.lines, self.title
        )?;
        self.report.push_str(line.as_str())
    }

    /// Begins the section of a head.
    fn begin(&mut self, head: &Value) -> Result<(), AllocError> {
        self.section = Section::of_head(self.alloc, head)?;
        self.title = String::from_str(self.alloc, title_of(head).unwrap_or(""))?;
        match self.section {
            Some(_) => Ok(()),
            None => self.say("this head makes no section"),
        }
    }

    /// Checks a row.
    fn check_row(&mut self, section: Section, row: Row<'_>) -> Result<(), Fail> {
        self.rows = self.rows.saturating_add(1);
        let wanted = section.expectation(self.alloc, row)?;
        if let Some(found) = section.difference(self.alloc, row.text, wanted.as_str())? {
            let what = format!(in self.alloc; "{:?} gives {found:?}, not {wanted:?}", row.text)?;
            self.say(what.as_str())?;
        }
        self.check_events(row.text)
    }

    /// Checks that the events of a text are sound, also with other options.
    fn check_events(&mut self, text: &str) -> Result<(), Fail> {
        if is_sound_with_any(self.alloc, text)? {
            return Ok(());
        }
        let what = format!(in self.alloc; "{text:?} has events that are not sound")?;
        Ok(self.say(what.as_str())?)
    }

    /// Checks a line that is not the head of a section.
    fn check_array(&mut self, line: &Value) -> Result<(), Fail> {
        let Some(section) = self.section else {
            return Ok(self.say("this row has no section")?);
        };
        match row_of(section.given, line) {
            Some(row) => self.check_row(section, row),
            None => Ok(self.say("this is no row")?),
        }
    }

    /// Checks the next line.
    pub fn check(&mut self, line: &str) -> Result<(), Fail> {
        self.lines = self.lines.saturating_add(1);
        let value = Value::from_str(self.alloc, line)?;
        if value.is_object() {
            return Ok(self.begin(&value)?);
        }
        self.check_array(&value)
    }

    /// Appends the number of rows.
    pub fn end(&mut self) -> Result<(), AllocError> {
        let line = format!(in self.alloc; "{}: {} rows\n", self.file, self.rows)?;
        self.report.push_str(line.as_str())
    }

    /// Returns what was found.
    pub fn report(&self) -> &str {
        self.report.as_str()
    }

    /// Returns whether each line is a head or a row that gives what it should.
    pub fn are_right(&self) -> bool {
        self.wrong == 0
    }
}
