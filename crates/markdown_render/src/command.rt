//! The words of the command line.
ghost use Rattle.std.specs.Prelude.{◌≡◌, ◌≢◌, ◌⊎◌, Ok, Err, IfErr, IfOk, OnOk};
ghost use Rattle.std.specs.IoError.{error_kind};

use std::env::{self, Env};
use std::io::{self, ErrorKind, Write};

/// Reads the words of the command line, without the first, which names the program.
fn read_words(rt: &(impl Env + AllocGlobal)) -> io::Result<Vec<String>> {
    let args = env::args(rt)?;
    Ok(args.skip(1).collect(rt.alloc())?)
}

/// Returns the words that were read.
///
/// # Errors
///
/// The exit status, where they could not be read, and why is said on `err`, in one line: 1 if an allocation failed, 2
/// otherwise, since the only other reason is a word that is not UTF-8.
pub fn words_or_status<E: Write>(
    read: io::Result<Vec<String>>,
    err: &mut E,
) -> Result<Vec<String>, u8>
    ensures words { IfOk read (λ words. result ≡ Ok words) }
    ensures memory { IfErr read (λ error. error_kind error ≡ ErrorKind.OutOfMemory
        → result ≡ Err 1) }
    ensures not_text { IfErr read (λ error. error_kind error ≢ ErrorKind.OutOfMemory
        → result ≡ Err 2) }
    ensures status { IfErr result (λ status. (status ≡ 1) ⊎ (status ≡ 2)) }
    ensures quiet { OnOk result (err.new ≡ err.old) }
{
    match read {
        Ok(words) => Ok(words),
        Err(error) if error.kind() == ErrorKind::OutOfMemory => {
            let _ = writeln!(err, "out of memory");
            Err(1)
        }
        Err(_) => {
            let _ = writeln!(err, "unknown option: a word that is not UTF-8");
            Err(2)
        }
    }
}

/// Returns the words of the command line, without the first, which names the program.
///
/// # Errors
///
/// The exit status, as `words_or_status` has it, where they cannot be read.
pub fn command_words<E: Write>(
    rt: &(impl Env + AllocGlobal),
    err: &mut E,
) -> Result<Vec<String>, u8>
    ensures status { IfErr result (λ status. (status ≡ 1) ⊎ (status ≡ 2)) }
    ensures quiet { OnOk result (err.new ≡ err.old) }
{
    words_or_status(read_words(rt), err)
}
