//! The files that the program reads and writes, as a trait, so that a test can stand in for a system.
use std::alloc::Global;
use std::io;

/// Files by their names. `-` is standard input where it is read, and standard output where it is written.
pub trait Files {
    ghost use Rattle.std.specs.Prelude.{◌≡◌, ◌∷◌, [], List, Option, IfOk, OnErr};
    ghost use Rattle.markdown_tool_output.specs.Steps.{FileStep, Takes, reads, writes};

    /// What has been read, and what writes have been tried, where that is known.
    ghost steps: { Self → Option (List FileStep) };

    /// Returns the bytes of a file.
    fn read(&mut self, alloc: Global, name: &str) -> io::Result<Vec<u8>>
        ensures read { IfOk result (λ bytes.
            Takes (steps self.old) (steps self.new) (reads name.now bytes.items ∷ [])) }
        ensures failed { OnErr result (steps self.new ≡ steps self.old) };

    /// Writes a file anew.
    fn write(&mut self, name: &str, text: &str) -> io::Result<()>
        ensures tried { Takes (steps self.old) (steps self.new) (writes name.now text.now ∷ []) };
}
