//! The files, the standard streams and the command line of the system.
use markdown_tool_output::Files;
use std::alloc::Global;
use std::env::{self, Env};
use std::fs;
use std::io::{self, ErrorKind, Read, Write};

/// The files of the system, with its standard streams.
#[derive(Drop)]
pub struct System<'r> {
    rt: &'r HostRuntime,
}

impl<'r> System<'r> {
    /// Returns the files of a system.
    pub fn new(rt: &'r HostRuntime) -> System<'r> {
        System { rt }
    }
}

/// It is not known what the system's files hold.
impl<'r> Files for System<'r> {
    ghost use Rattle.std.specs.Prelude.{None};

    ghost steps = { λ _. None };

    fn read(&mut self, alloc: Global, name: &str) -> io::Result<Vec<u8>> {
        if name != "-" {
            return fs::read(self.rt, name);
        }
        let mut bytes = Vec::new(alloc);
        self.rt.stdin().read_to_end(&mut bytes)?;
        Ok(bytes)
    }

    fn write(&mut self, name: &str, text: &str) -> io::Result<()> {
        if name != "-" {
            return fs::write(self.rt, name, text);
        }
        let mut out = self.rt.stdout();
        out.write_all(text.as_bytes())?;
        out.flush()
    }
}

/// Returns the words of the command line, of which the first names the program.
///
/// # Errors
///
/// The exit status, where they cannot be read, and why is said on `err`, in one line: 1 if an allocation failed, otherwise
/// 2, since a word is not UTF-8.
pub fn words_of<E: Write>(rt: &(impl Env + AllocGlobal), err: &mut E) -> Result<Vec<String>, u8> {
    match read_words(rt) {
        Ok(words) => Ok(words),
        Err(error) if error.kind() == ErrorKind::OutOfMemory => {
            let _ = writeln!(err, "markdown: out of memory");
            Err(1)
        }
        Err(_) => {
            let _ = writeln!(err, "markdown: a word of the command line is not UTF-8");
            Err(2)
        }
    }
}

/// Reads the words of the command line.
fn read_words(rt: &(impl Env + AllocGlobal)) -> io::Result<Vec<String>> {
    Ok(env::args(rt)?.collect(rt.alloc())?)
}
