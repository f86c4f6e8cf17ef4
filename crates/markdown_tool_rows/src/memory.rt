//! Files in memory, and runs of the program over them.
use markdown_tool_output::{Files, run_tool};
use std::alloc::{AllocError, Global};
use std::io;
use std::test::Fail;

/// Files in memory, of which one holds a text, and all others nothing.
#[derive(Drop)]
struct Memory<'t> {
    name: &'t str,
    text: &'t str,
    /// All that is written, one text after another.
    written: String,
}

/// What is done is seen by what is written.
impl<'t> Files for Memory<'t> {
    ghost use Rattle.std.specs.Prelude.{None};

    ghost steps = { λ _. None };

    fn read(&mut self, alloc: Global, name: &str) -> io::Result<Vec<u8>> {
        let text = if name == self.name { self.text } else { "" };
        Ok(Vec::from_slice(alloc, text.as_bytes())?)
    }

    fn write(&mut self, _name: &str, text: &str) -> io::Result<()> {
        Ok(self.written.push_str(text)?)
    }
}

/// Returns the status and the message of a run that fails.
fn failure(alloc: Global, status: u8, message: &[u8]) -> Result<String, AllocError> {
    let message = String::from_utf8_lossy(alloc, message)?;
    format!(in alloc; "status {status}: {}", message.as_str())
}

/// Returns what a run on these words writes where the file of this name holds a text, or the status and the message of a run
/// that fails.
pub fn written(alloc: Global, words: &[String], name: &str, text: &str) -> Result<String, Fail> {
    let mut memory = Memory {
        name,
        text,
        written: String::new(alloc),
    };
    let mut message = Vec::new(alloc);
    let status = run_tool(alloc, words, &mut memory, &mut message);
    if status == 0 && message.is_empty() {
        return Ok(memory.written);
    }
    Ok(failure(alloc, status, message.as_slice())?)
}
