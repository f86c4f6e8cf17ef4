//! The lines of a file: heads of sections, and rows.
use crate::memory::written;
use crate::section::{Section, title_of};
use serde_json::Value;
use std::alloc::{AllocError, Global};
use std::test::Fail;

/// A row: a text, and what is written for it.
#[derive(Clone, Copy, Drop)]
struct Row<'v> {
    text: &'v str,
    wanted: &'v Value,
}

/// What has been read of a file.
#[derive(Drop)]
pub struct Rows<'f> {
    alloc: Global,
    file: &'f str,
    /// The title of the section, and what it is: None before the first, and where its head makes none.
    title: String,
    section: Option<Section>,
    /// The number of lines, that of rows, and that of rows for which something else is written and of lines that are neither.
    lines: usize,
    rows: usize,
    wrong: usize,
    report: String,
}

/// Returns the row of a line, or None where it makes none: an array of a text and what is written, and perhaps a comment.
fn row_of(line: &Value) -> Option<Row<'_>> {
    let list = line.as_array()?.as_slice();
    Some(Row {
        text: list.get(0)?.as_str()?,
        wanted: list.get(1)?,
    })
}

/// Appends a line of what a row says that is written, if it is one.
fn push_line(text: &mut String, line: &Value) -> Result<(), AllocError> {
    if let Some(line) = line.as_str() {
        text.push_str(line)?;
        text.push_str("\n")?;
    }
    Ok(())
}

/// Returns what a row says that is written: a text, or the lines of a list, each with a line feed.
fn text_of(alloc: Global, wanted: &Value) -> Result<String, AllocError> {
    let mut text = String::new(alloc);
    if let Some(whole) = wanted.as_str() {
        text.push_str(whole)?;
    }
    if let Some(list) = wanted.as_array() {
        for line in list {
            push_line(&mut text, line)?;
        }
    }
    Ok(text)
}

impl<'f> Rows<'f> {
    /// Returns a file of which nothing has been read.
    pub fn of_file(alloc: Global, file: &'f str) -> Rows<'f> {
        Rows {
            alloc,
            file,
            title: String::new(alloc),
            section: None,
            lines: 0,
            rows: 0,
            wrong: 0,
            report: String::new(alloc),
        }
    }

    /// Appends what is wrong with the line that was read last.
    fn say(&mut self, what: &str) -> Result<(), AllocError> {
        self.wrong = self.wrong.saturating_add(1);
        let line = format!(in self.alloc;
            "{}:{}: {}: {what}\n",
            self.file, self.lines, self.title
        )?;
        self.report.push_str(line.as_str())
    }

    /// Begins the section of a head.
    fn begin(&mut self, head: &Value) -> Result<(), AllocError> {
        self.section = Section::of_head(self.alloc, head)?;
        self.title = String::from_str(self.alloc, title_of(head).unwrap_or(""))?;
        match self.section {
            Some(_) => Ok(()),
            None => self.say("this head makes no section"),
        }
    }

    /// Returns what is wrong with a row, or None: what is written for its text is not what it has.
    fn difference(&self, section: &Section, row: Row<'_>) -> Result<Option<String>, Fail> {
        let file = section.file.as_str();
        let output = written(self.alloc, section.words.as_slice(), file, row.text)?;
        let wanted = text_of(self.alloc, row.wanted)?;
        match section.part_of(output.as_str()) {
            Some(part) if part == wanted.as_str() => Ok(None),
            Some(part) => {
                let what = format!(in self.alloc; "{:?} gives {part:?}, not {wanted:?}", row.text)?;
                Ok(Some(what))
            }
            None => {
                let what = format!(in self.alloc;
                    "{:?} gives {output:?}, which has no such part",
                    row.text
                )?;
                Ok(Some(what))
            }
        }
    }

    /// Returns what is wrong with a line that is not the head of a section, or None.
    fn wrong_in(&self, line: &Value) -> Result<Option<String>, Fail> {
        let Some(section) = &self.section else {
            return Ok(Some(String::from_str(self.alloc, "this row has no section")?));
        };
        match row_of(line) {
            Some(row) => self.difference(section, row),
            None => Ok(Some(String::from_str(self.alloc, "this is no row")?)),
        }
    }

    /// Checks a line that is not the head of a section.
    fn check_row(&mut self, line: &Value) -> Result<(), Fail> {
        self.rows = self.rows.saturating_add(1);
        if let Some(what) = self.wrong_in(line)? {
            self.say(what.as_str())?;
        }
        Ok(())
    }

    /// Checks the next line.
    pub fn check(&mut self, line: &str) -> Result<(), Fail> {
        self.lines = self.lines.saturating_add(1);
        let value = Value::from_str(self.alloc, line)?;
        if value.is_object() {
            return Ok(self.begin(&value)?);
        }
        self.check_row(&value)
    }

    /// Appends the number of rows.
    pub fn end(&mut self) -> Result<(), AllocError> {
        let line = format!(in self.alloc; "{}: {} rows\n", self.file, self.rows)?;
        self.report.push_str(line.as_str())
    }

    /// Returns what was found.
    pub fn report(&self) -> &str {
        self.report.as_str()
    }

    /// Returns whether each line is a head or a row that has what is written.
    pub fn are_right(&self) -> bool {
        self.wrong == 0
    }
}
