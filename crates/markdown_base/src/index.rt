//! Numbers by which an item refers to a part of its block result.
ghost use Rattle.std.specs.Prelude.{◌≡◌, ◌<◌, ◌^◌, IfOk, IsOk};

use std::alloc::AllocError;

/// The number of a text, counted from 0.
#[derive(Clone, Copy, Debug, PartialEq, Eq)]
pub struct CowIndex(pub u32);

/// The number of a link, counted from 0.
#[derive(Clone, Copy, Debug, PartialEq, Eq)]
pub struct LinkIndex(pub usize);

/// The number of a table's alignments, counted from 0.
#[derive(Clone, Copy, Debug, PartialEq, Eq)]
pub struct AlignmentIndex(pub usize);

/// The number of a heading's attributes, counted from 1.
#[derive(Clone, Copy, Debug, PartialEq, Eq)]
pub struct HeadingIndex(pub u32);

impl CowIndex {
    /// Returns the index with this number. Fails for a number of 2^32 or more, as an allocation does.
    pub fn of(number: usize) -> Result<CowIndex, AllocError>
        ensures value { IfOk result (λ ix. ix.0 ≡ number) }
        ensures fits { number < 2 ^ 32 → IsOk result }
    {
        Ok(CowIndex(in_32_bits(number)?))
    }
}

impl HeadingIndex {
    /// Returns the index with this number. Fails for a number of 2^32 or more, as an allocation does.
    pub fn of(number: usize) -> Result<HeadingIndex, AllocError>
        ensures value { IfOk result (λ ix. ix.0 ≡ number) }
        ensures fits { number < 2 ^ 32 → IsOk result }
    {
        Ok(HeadingIndex(in_32_bits(number)?))
    }
}

/// Returns a number in the width in which items hold it. Fails for a number of 2^32 or more, as an allocation does.
pub fn in_32_bits(number: usize) -> Result<u32, AllocError>
    ensures value { IfOk result (λ held. held ≡ number) }
    ensures fits { number < 2 ^ 32 → IsOk result }
{
    if number > u32::MAX as usize {
        return Err(AllocError);
    }
    Ok(number as u32)
}
