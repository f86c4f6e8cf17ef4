//! Files in memory, which stand in for those of a system, and runs over them.
use markdown_tool_output::{Files, run_tool};
use std::alloc::{AllocError, Global};
use std::io::{self, ErrorKind};
use std::test::Fail;

/// Files with what they hold. The name `-` is that of standard input.
static HELD: [(&str, &[u8]); 16] = [
    ("-", b"*in*"),
    ("a.md", b"a"),
    ("alert.md", b"> [!NOTE]\n> a"),
    ("b.md", b"# B *c*\n\n## D"),
    ("bad.md", b"a\nb\xff"),
    (
        "broken.md",
        b"[a][b] [c] [d][] ![e][f] ![g]\n[^h] [ ] \\[i] [j\\] [k][l](m) [n](o\n",
    ),
    ("cut.md", b"\xef\xbb\xbfa\r\n\r\n\xe2\x82"),
    ("html.md", b"a<b>c</b>&copy;"),
    (
        "lines.md",
        b"\xc3\xa4\tb [c]\r\n[d]\r[e]\n\n\xf0\x9d\x92\xb3 [f]",
    ),
    ("link.md", b"a\n[b](c)"),
    ("meta.md", b"---\ntitle: A & B\n---\n\n# C\n"),
    ("mark.md", b"\xef\xbb\xbf# A"),
    ("head.md", b"# \xff"),
    (
        "pieces.md",
        b"\xff\xfe \xf0\x90\x80 \xc0\xaf \xed\xa0\x80 \xe2\x82\xe2\x82\xac",
    ),
    ("rules.md", b"# A\n\n![b](c) [d](//e)\n\n> *f*"),
    ("strike.md", b"~~a~~ b^c^[^d]\n\n[^d]: e"),
];

/// Files in memory. What is written is kept apart, so that a test sees each write.
#[derive(Drop)]
pub struct Shelf {
    alloc: Global,
    /// How each write fails, if it does.
    write_fails: Option<ErrorKind>,
    reads: usize,
    /// Each name that is written, with the text, one after another.
    pub written: String,
}

impl Shelf {
    /// Returns files of which none was read or written, where each write fails like this, if it does.
    pub fn new(alloc: Global, write_fails: Option<ErrorKind>) -> Shelf {
        Shelf {
            alloc,
            write_fails,
            reads: 0,
            written: String::new(alloc),
        }
    }

    /// Notes that a text is written.
    fn note(&mut self, name: &str, text: &str) -> Result<(), AllocError> {
        self.written.push_str(name)?;
        self.written.push_str(": ")?;
        self.written.push_str(text)
    }
}

/// Returns what a file holds.
fn bytes_of(name: &str) -> Option<&'static [u8]> {
    for (other, bytes) in &HELD {
        if *other == name {
            return Some(*bytes);
        }
    }
    None
}

/// A test sees what is done by what it finds here afterwards.
impl Files for Shelf {
    ghost use Rattle.std.specs.Prelude.{None};

    ghost steps = { λ _. None };

    fn read(&mut self, alloc: Global, name: &str) -> io::Result<Vec<u8>> {
        self.reads = self.reads.saturating_add(1);
        match bytes_of(name) {
            Some(bytes) => Ok(Vec::from_slice(alloc, bytes)?),
            None => Err(io::Error::from(ErrorKind::NotFound)),
        }
    }

    fn write(&mut self, name: &str, text: &str) -> io::Result<()> {
        match self.write_fails {
            Some(kind) => Err(io::Error::from(kind)),
            None => Ok(self.note(name, text)?),
        }
    }
}

/// What a run leaves.
#[derive(Debug, PartialEq, Drop)]
pub struct Left {
    pub status: u8,
    pub message: String,
    /// What was written, as a `Shelf` keeps it.
    pub written: String,
    /// How many times a file was read, also where there was none.
    pub reads: usize,
}

/// Returns the words of a command line, with the name of the program before them.
fn words_of(alloc: Global, words: &[&str]) -> Result<Vec<String>, AllocError> {
    let mut all = Vec::new(alloc);
    all.push(String::from_str(alloc, "markdown")?)?;
    for word in words {
        all.push(String::from_str(alloc, word)?)?;
    }
    Ok(all)
}

/// Returns what a run on these words leaves, where each write fails like this, if it does.
pub fn after_run(
    alloc: Global,
    words: &[&str],
    write_fails: Option<ErrorKind>,
) -> Result<Left, Fail> {
    let words = words_of(alloc, words)?;
    let mut shelf = Shelf::new(alloc, write_fails);
    let mut message = Vec::new(alloc);
    let status = run_tool(alloc, words.as_slice(), &mut shelf, &mut message);
    let message = match String::from_utf8(message) {
        Ok(message) => message,
        Err(_) => return Err(Fail::new("the message is no text")),
    };
    Ok(Left {
        status,
        message,
        reads: shelf.reads,
        written: shelf.written,
    })
}
