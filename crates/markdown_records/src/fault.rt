//! Why there are no records, or nothing that they say.
use markdown_base::fault::Fault;
use std::alloc::{AllocError, AllocFailed};

/// Why there are no records, or nothing that they say.
#[derive(Clone, Copy, Debug, PartialEq, Eq, Drop)]
pub enum RecordFault {
    /// An error of the events: `Memory` if an allocation failed.
    Of(Fault),
    /// An offset, a length or a number of records is 2^32 or greater.
    TooLong,
    /// The bytes are no records, or not of this text.
    NotRecords,
}

impl From<Fault> for RecordFault {
    ghost use Rattle.std.specs.Prelude.{◌≡◌};
    ghost use Rattle.markdown_records.specs.declared.fault.RecordFault.TheVariants.{Of};

    ghost from_gives = { λ fault refusal. refusal ≡ Of fault };

    fn from(fault: Fault) -> RecordFault {
        RecordFault::Of(fault)
    }
}

impl From<AllocError> for RecordFault {
    ghost use Rattle.std.specs.Prelude.{◌≡◌};
    ghost use Rattle.markdown_records.specs.declared.fault.RecordFault.TheVariants.{Of};
    ghost use Rattle.markdown_base.specs.declared.fault.Fault.TheVariants.{Memory};

    ghost from_gives = { λ error refusal. refusal ≡ Of Memory };

    fn from(error: AllocError) -> RecordFault {
        let _ = error;
        RecordFault::Of(Fault::Memory)
    }
}

impl<T: Drop> From<AllocFailed<T>> for RecordFault {
    ghost use Rattle.std.specs.Prelude.{◌≡◌};
    ghost use Rattle.markdown_records.specs.declared.fault.RecordFault.TheVariants.{Of};
    ghost use Rattle.markdown_base.specs.declared.fault.Fault.TheVariants.{Memory};

    ghost from_gives = { λ refused refusal. refusal ≡ Of Memory };

    fn from(refused: AllocFailed<T>) -> RecordFault {
        drop(refused);
        RecordFault::Of(Fault::Memory)
    }
}
