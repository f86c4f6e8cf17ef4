//! The errors that the library's functions return.
ghost use Rattle.std.specs.Prelude.{◌≡◌};

use std::alloc::{AllocError, AllocFailed};
use std::error::Error;
use std::fmt;

/// Why a call failed.
#[derive(Debug, Clone, Copy, PartialEq, Eq, Drop)]
pub enum Fault {
    /// An allocation failed.
    Memory,
    /// The given block result is not well formed. It breaks one of nine rules: each node is reached once, ranges lie in
    /// the text, inline items are in order, chains are kept, nothing is resolved, markup is there, delimiter runs are
    /// whole, parts are named, blocks are settled.
    Blocks,
    /// More than 2^64 - 1 `Start` events are open in one image's alt text.
    Depth,
}

impl From<AllocError> for Fault {
    ghost use Rattle.markdown_base.specs.declared.fault.Fault.{Fault};

    ghost from_gives = { λ _ fault. fault ≡ Fault.Memory };

    fn from(_error: AllocError) -> Fault {
        Fault::Memory
    }
}

impl<T: Drop> From<AllocFailed<T>> for Fault {
    ghost use Rattle.markdown_base.specs.declared.fault.Fault.{Fault};

    ghost from_gives = { λ _ fault. fault ≡ Fault.Memory };

    fn from(refused: AllocFailed<T>) -> Fault {
        drop(refused);
        Fault::Memory
    }
}

impl fmt::Display for Fault {
    ghost use Rattle.std.specs.Prelude.{Some};
    ghost use Rattle.markdown_base.specs.FaultText.{fault_text};

    ghost output = { λ fault. Some (fault_text fault) };

    fn fmt<W: fmt::Write>(&self, f: &mut fmt::Formatter<W>) -> fmt::Result {
        match self {
            Fault::Memory => f.write_str("out of memory"),
            Fault::Blocks => f.write_str("bad block result"),
            Fault::Depth => f.write_str("image nested too deeply"),
        }
    }
}

impl Error for Fault {}
