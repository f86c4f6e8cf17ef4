//! Stretches of open blocks that take nothing of a line, so that no line examines each block of one. Functions that
//! return a `Result` fail only if an allocation fails.
ghost use Rattle.std.specs.Prelude.{◌≡◌, ◌≤◌, ◌+◌, ◌++◌, ◌∷◌, true, List, [], drop, length, IfOk, IfErr};
ghost use Rattle.markdown_builder.specs.declared.open_block.OpenBlock.{OpenBlock};
ghost use Rattle.markdown_plain.specs.OpenBlocks.{outer_of};
ghost use Rattle.markdown_plain.specs.Stretches.{IsOf, are_alike, begins_stretch, deep_starts, few, next_of, starts_after, taken_by};

use markdown_base::item::ItemBody;
use markdown_builder::open_block::OpenBlock;
use std::alloc::{AllocError, Global};

/// The number of the outermost blocks in which no stretch is kept, since few texts nest more: each line examines them one
/// by one.
pub const FEW: usize = 8;

/// What an open block takes of the lines in which it continues.
#[derive(Clone, Copy, Drop)]
pub enum Taking {
    /// nothing of a line that is blank and of which nothing is left, and it continues in each
    NothingOfBlank,
    /// nothing of a line that is not blank, and it continues in each
    NothingOfFilled,
    /// something, or it ends
    Something,
}

/// Returns what an open block takes. `old` is whether footnote definitions are those of the old style.
pub fn taken_by(body: ItemBody, old: bool) -> Taking
    ensures { result ≡ taken_by old body }
{
    match body {
        ItemBody::List(_, _, _) | ItemBody::ListItem(_) => Taking::NothingOfBlank,
        ItemBody::FootnoteDefinition(_) if old => Taking::NothingOfFilled,
        ItemBody::FootnoteDefinition(_) => Taking::NothingOfBlank,
        _ => Taking::Something,
    }
}

/// Returns whether two blocks take the same.
fn are_alike(outside: ItemBody, inside: ItemBody, old: bool) -> bool
    ensures { result ≡ are_alike old outside inside }
{
    match (taken_by(outside, old), taken_by(inside, old)) {
        (Taking::NothingOfBlank, Taking::NothingOfBlank) => true,
        (Taking::NothingOfFilled, Taking::NothingOfFilled) => true,
        (Taking::Something, Taking::Something) => true,
        _ => false,
    }
}

/// Returns whether the innermost of the open blocks is unlike the block around it, and both are inside the few outermost
/// ones.
fn begins_stretch(blocks: &[OpenBlock], old: bool) -> bool
    ensures { result ≡ begins_stretch old (drop few blocks.now) }
{
    if blocks.len() < FEW + 2 {
        return false;
    }
    begins_deep(blocks, old)
}

/// Returns whether the innermost of more than a few open blocks is unlike the block around it.
#[inline(never)]
fn begins_deep(blocks: &[OpenBlock], old: bool) -> bool
    requires { few + 2 ≤ length blocks.now }
    ensures { result ≡ begins_stretch old blocks.now }
{
    let last = blocks.len() - 1;
    !are_alike(blocks[last - 1].body, blocks[last].body, old)
}

/// Adds the number of a block that begins a stretch.
#[inline(never)]
fn push_start(starts: &mut Vec<usize>, number: usize) -> Result<(), AllocError>
    ensures begun { IfOk result (λ _. starts.new.items ≡ starts.old.items ++ number ∷ []) }
    ensures refused { IfErr result (λ _. starts.new.items ≡ starts.old.items) }
{
    starts.push(number)?;
    Ok(())
}

/// Where stretches of open blocks begin: each is of blocks that take the same. The innermost open block is in none, nor
/// are the few outermost ones.
#[derive(Drop)]
pub struct Stretches {
    /// whether footnote definitions are those of the old style
    old_notes: bool,
    /// whether it is known which blocks are open, as long as no memory was refused
    known: bool,
    /// the numbers of the blocks that are unlike the block around them
    starts: Vec<usize>,
}

impl Stretches {
    #[tactic(auto, unfolding(crate::specs::Stretches::deep_starts, crate::specs::Stretches::starts))]
    /// Returns the stretches where no block is open. `old` is whether footnote definitions are those of the old style.
    pub fn new(alloc: Global, old: bool) -> Stretches
        ensures { IsOf result [] }
    {
        Stretches {
            old_notes: old,
            known: true,
            starts: Vec::new(alloc),
        }
    }

    /// Records that a block is opened inside the innermost of the open blocks.
    pub fn enter(&mut self, blocks: &[OpenBlock]) -> Result<(), AllocError>
        ensures entered { IfOk result (λ _. IsOf self.old (outer_of blocks.now)
            → IsOf self.new blocks.now) }
        ensures refused { IfErr result (λ _. (outer : List OpenBlock) → IsOf self.old outer
            → IsOf self.new outer) }
    {
        if begins_stretch(blocks, self.old_notes) {
            push_start(&mut self.starts, blocks.len() - 1)?;
        }
        Ok(())
    }

    /// Records that the block inside the innermost of the open blocks was closed.
    pub fn leave(&mut self, blocks: &[OpenBlock])
        ensures { IsOf self.old blocks.now → IsOf self.new (outer_of blocks.now) }
    {
        if begins_stretch(blocks, self.old_notes) {
            let _ = self.starts.pop();
        }
    }

    /// Records that it is not known which blocks are open.
    pub fn forget(&mut self)
        ensures { (outer : List OpenBlock) → IsOf self.new outer }
    {
        self.known = false;
    }

    /// Returns the stretches that a line has ahead. `old` is whether footnote definitions are those of the old style.
    pub fn ahead(&self, old: bool) -> Ahead<'_>
        ensures notes { result.old_notes ≡ old }
        ensures ahead { (outer : List OpenBlock) → IsOf self.now outer
            → result.known ≡ true → result.starts.now ≡ deep_starts old outer }
    {
        Ahead {
            old_notes: old,
            known: self.known && self.old_notes == old,
            starts: &self.starts,
        }
    }
}

/// The stretches of open blocks that a line has ahead.
#[derive(Clone, Copy, Drop)]
pub struct Ahead<'s> {
    /// whether footnote definitions are those of the old style
    pub old_notes: bool,
    /// whether the stretches are known
    pub known: bool,
    /// the numbers of the blocks that begin one
    pub starts: &'s [usize],
}

/// Returns the number of the next block that begins a stretch, or else `last`.
pub fn next_start(starts: &[usize], last: usize) -> usize
    ensures { result ≡ next_of last starts.now }
{
    match starts.first() {
        Some(number) => *number,
        None => last,
    }
}

/// Returns where stretches begin that are ahead of the block with a number: not the one that begins with it.
pub fn starts_after(starts: &[usize], number: usize) -> &[usize]
    ensures { result.now ≡ starts_after number starts.now }
{
    match starts.first() {
        Some(first) if *first == number => starts.split_at(1).1,
        _ => starts,
    }
}
