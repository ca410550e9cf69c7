//! The outside that never fails and keeps nothing: each count of failures is constantly 0, and nothing is told of contents.

ghost use Rattle.std.specs.Prelude.{◌≡◌, None};

use asm_base::{Channel, Console, Failed, Inputs, Output};

/// An input in which every name is a file of one byte repeated without end. It never fails.
#[derive(Clone, Copy, Drop)]
pub struct RepeatInputs {
    byte: u8,
    taken: u64,
}

impl RepeatInputs {
    /// No byte was read.
    pub fn new(byte: u8) -> RepeatInputs
        ensures byte { result.byte ≡ byte }
        ensures taken { result.taken ≡ 0 }
    {
        RepeatInputs { byte, taken: 0 }
    }

    /// How many bytes were read.
    pub fn taken(&self) -> u64
        ensures { result ≡ self.now.taken }
    {
        self.taken
    }
}

impl Inputs for RepeatInputs {
    // A file without end has no contents that a list could hold.
    ghost contents = { λ _. None };

    ghost rest = { λ _. None };

    ghost faults = { λ _. 0 };

    ghost missing = { λ _. 0 };

    ghost taken = { λ i. i.taken };

    ghost history = { λ _. None };

    fn start(&mut self, _name: &str) -> Result<(), Failed> {
        Ok(())
    }

    fn read(&mut self, buffer: &mut [u8]) -> Result<usize, Failed> {
        buffer.fill(self.byte);
        let count = buffer.len();
        self.taken = self.taken.saturating_add(count as u64);
        Ok(count)
    }
}

/// An output that takes every piece whole and keeps nothing. It never fails.
#[derive(Clone, Copy, Drop)]
pub struct NullOutput;

impl Output for NullOutput {
    ghost made = { λ _. None };

    ghost faults = { λ _. 0 };

    fn create(&mut self, _name: &str) -> Result<(), Failed> {
        Ok(())
    }

    fn write(&mut self, piece: &[u8]) -> Result<usize, Failed> {
        Ok(piece.len())
    }

    fn finish(&mut self) -> Result<(), Failed> {
        Ok(())
    }
}

/// A console that takes every piece whole and keeps nothing. It never fails.
#[derive(Clone, Copy, Drop)]
pub struct NullConsole;

impl Console for NullConsole {
    ghost said = { λ _. None };

    ghost faults = { λ _. 0 };

    fn say(&mut self, _to: Channel, piece: &[u8]) -> Result<usize, Failed> {
        Ok(piece.len())
    }
}
