//! `Positions`, which looks up the positions of byte offsets of a text.
ghost use Rattle.std.specs.Prelude.{◌≡◌, ◌≤◌, ◌<◌, ◌^◌, drop, length, IfOk};
ghost use Rattle.std.proofs.Props.{props};
ghost use Rattle.markdown_positions.specs.Positions.{mark_length, position_in};
ghost use Rattle.markdown_positions.specs.Samples.{AreSamples};

use crate::position::{Position, first_position, next_position};
use std::alloc::{AllocError, Global};

/// How many bytes apart the positions are that are kept.
const STEP: usize = 64;

/// The positions of byte offsets of a text. One look-up reads at most 64 bytes, whichever the order of the offsets and
/// however long the lines.
#[derive(Drop)]
pub struct Positions<'x> {
    text: &'x str,
    /// The number of bytes of its byte order mark.
    mark: usize,
    /// The bytes after that mark.
    bytes: &'x [u8],
    /// The positions of the offsets in `bytes` that are multiples of `STEP`.
    samples: Vec<Position>,
    ghost marked: { mark ≡ mark_length text.now } by { Prim.hlevel props },
    ghost after: { bytes.now ≡ drop (mark_length text.now) text.now } by { Prim.hlevel props },
    ghost sampled: { AreSamples bytes.now samples.items } by { Prim.hlevel props },
    ghost few: { length bytes.now < 2 ^ 63 } by { Prim.hlevel props },
}

/// Returns the position of a later offset, from one.
fn walk(bytes: &[u8], from: usize, to: usize, position: Position) -> Position
    requires order { (from ≤ to) × (to ≤ length bytes.now) }
    requires few { length bytes.now < 2 ^ 63 }
    requires first { position ≡ position_in bytes.now from }
    ensures { result ≡ position_in bytes.now to }
{
    let mut here = position;
    let mut at = from;
    'walk: while at < to {
        here = next_position(bytes, at, here);
        at += 1;
    }
    here
}

/// Returns the positions of the offsets that are multiples of `STEP`, in order.
fn samples_of(alloc: Global, bytes: &[u8]) -> Result<Vec<Position>, AllocError>
    requires { length bytes.now < 2 ^ 63 }
    ensures { IfOk result (λ samples. AreSamples bytes.now samples.items) }
{
    let mut samples = Vec::new(alloc);
    samples.push(first_position())?;
    let mut here = first_position();
    let mut at = 0;
    'samples: while STEP <= bytes.len() - at {
        here = walk(bytes, at, at + STEP, here);
        at += STEP;
        samples.push(here)?;
    }
    Ok(samples)
}

/// Returns the number of bytes of the byte order mark at the beginning of a text, 0 where there is none.
fn mark_length(bytes: &[u8]) -> usize
    ensures length { result ≡ mark_length bytes.now }
    ensures within { result ≤ length bytes.now }
{
    if bytes.len() < 3 {
        return 0;
    }
    if bytes[0] == 0xef && bytes[1] == 0xbb && bytes[2] == 0xbf {
        return 3;
    }
    0
}

impl<'x> Positions<'x> {
    ghost use Rattle.std.specs.Prelude.{◌≡◌, IfOk};
    ghost use Rattle.markdown_positions.specs.Positions.{position_of};
    ghost use Rattle.markdown_positions.specs.PositionsOf.{positions_text};

    /// Returns the positions of a text. Takes time in proportion to it, and memory for a position for each 64 bytes.
    pub fn new(alloc: Global, text: &'x str) -> Result<Positions<'x>, AllocError>
        ensures { IfOk result (λ positions. positions_text positions ≡ text.entry.now) }
    {
        let all = text.as_bytes();
        let mark = mark_length(all);
        let bytes = &all[mark..];
        let samples = samples_of(alloc, bytes)?;
        Ok(Positions {
            text,
            mark,
            bytes,
            samples,
        })
    }

    /// Returns the position of a byte offset; beyond the end of the text, that of its end.
    pub fn look_up(&self, offset: usize) -> Position
        ensures { result ≡ position_of (positions_text self.now) offset }
    {
        let at = offset.saturating_sub(self.mark).min(self.bytes.len());
        let from = at / STEP;
        match self.samples.get(from) {
            Some(position) => walk(self.bytes, from * STEP, at, *position),
            None => first_position(),
        }
    }
}
