//! Pseudorandom documents, the same on each run.
use std::alloc::{AllocError, Global};

/// The pieces of random documents: what begins, continues and ends blocks.
const PIECES: [&str; 48] = [
    "\n",
    "\n",
    "\n",
    "\n",
    "\r\n",
    "\r",
    "\n\n",
    " ",
    " ",
    "  ",
    "    ",
    "\t",
    "a",
    "b c",
    "é",
    "\u{a0}",
    "> ",
    ">",
    "- ",
    "+ ",
    "* ",
    "1. ",
    "2) ",
    "-",
    "***",
    "---",
    "===",
    "# ",
    "## ",
    "```",
    "~~~",
    "`",
    "<div>",
    "<b>",
    "<!-- ",
    "-->",
    "<?",
    "<![CDATA[",
    "[a]: ",
    "[^a]: ",
    "[",
    "]",
    "/u",
    "'t'",
    "\"",
    "\\",
    "&amp;",
    "*b*",
];

/// Returns the next pseudorandom number, and advances the seed.
fn next_number(seed: &mut u64) -> u64 {
    *seed = (*seed % 2147483648 * 1103515245 + 12345) % 2147483648;
    *seed / 65536
}

/// Returns a document of 24 pieces, and advances the seed.
pub fn random_text(alloc: Global, seed: &mut u64) -> Result<String, AllocError> {
    let mut text = String::new(alloc);
    for _ in 0..24 {
        let number = next_number(seed) as usize % PIECES.len();
        text.push_str(PIECES[number])?;
    }
    Ok(text)
}
