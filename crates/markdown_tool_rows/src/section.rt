//! Sections of tables: the words that the program is run on, and which part of the output their rows have.
use serde_json::Value;
use std::alloc::{AllocError, Global};

/// The words that the program is run on, and which part of the output the rows have.
#[derive(Drop)]
pub struct Section {
    /// The words of the command line, with the name of the program before them.
    pub words: Vec<String>,
    /// The name of the file that holds the text of a row.
    pub file: String,
    /// What stands before the part, where the output does not begin with it.
    after: Option<String>,
    /// What stands behind the part, where the output does not end with it.
    before: Option<String>,
}

/// Returns a text that the head of a section has under a name.
fn text_at<'h>(head: &'h Value, name: &str) -> Option<&'h str> {
    head.get(name)?.as_str()
}

/// Returns the title of a section, from its head.
pub fn title_of(head: &Value) -> Option<&str> {
    text_at(head, "section")
}

/// Returns a copy of a text that the head of a section has under a name, if it has one.
fn copy_at(alloc: Global, head: &Value, name: &str) -> Result<Option<String>, AllocError> {
    match text_at(head, name) {
        Some(text) => Ok(Some(String::from_str(alloc, text)?)),
        None => Ok(None),
    }
}

/// Appends the texts of a list of values. Returns whether each value is one.
fn push_texts(words: &mut Vec<String>, alloc: Global, list: &[Value]) -> Result<bool, AllocError> {
    for value in list {
        match value.as_str() {
            Some(text) => words.push(String::from_str(alloc, text)?)?,
            None => return Ok(false),
        }
    }
    Ok(true)
}

/// Returns the words of a head, with the name of the program before them, or None where it has none.
fn words_of(alloc: Global, head: &Value) -> Result<Option<Vec<String>>, AllocError> {
    let Some(list) = head.get("words").and_then(Value::as_array) else {
        return Ok(None);
    };
    let mut words = Vec::new(alloc);
    words.push(String::from_str(alloc, "markdown")?)?;
    let are_texts = push_texts(&mut words, alloc, list.as_slice())?;
    Ok(if are_texts { Some(words) } else { None })
}

impl Section {
    /// Returns the section of a head, or None where its words or its file are missing.
    pub fn of_head(alloc: Global, head: &Value) -> Result<Option<Section>, AllocError> {
        let words = words_of(alloc, head)?;
        let file = copy_at(alloc, head, "file")?;
        let after = copy_at(alloc, head, "after")?;
        let before = copy_at(alloc, head, "before")?;
        Ok(match (words, file) {
            (Some(words), Some(file)) => Some(Section {
                words,
                file,
                after,
                before,
            }),
            _ => None,
        })
    }

    /// Returns the part of an output that the rows have, or None where it has none.
    pub fn part_of<'o>(&self, output: &'o str) -> Option<&'o str> {
        let behind = match &self.after {
            Some(mark) => output.split_once(mark.as_str())?.1,
            None => output,
        };
        Some(match &self.before {
            Some(mark) => behind.split_once(mark.as_str())?.0,
            None => behind,
        })
    }
}
