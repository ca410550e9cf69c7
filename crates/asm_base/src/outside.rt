//! The outside as the assembler sees it: an input, an output and a console, each with a count of the calls that failed.
//! Where an object tells what it holds, its clauses say what each call does to that; told or not, they say when a call may fail.

ghost use Rattle.std.specs.Prelude.{◌≡◌, ℕ, ◌<◌, ◌≤◌, List, Option, length, take, IfOk, OnOk, OnErr};
ghost use Rattle.std.specs.Option.{option_map};
ghost use Rattle.std.specs.Io.KnownBytes.{ReadConsumes};
ghost use Rattle.asm_base.specs.Counts.{HasCause, HasRisen};
ghost use Rattle.asm_base.specs.Inputs.{Contents, Starts, CountsMissing, CountsTaken};
ghost use Rattle.asm_base.specs.History.{FileEvent, HappensAtStart, HappensAtRead};
ghost use Rattle.asm_base.specs.Output.{Made, after_create, after_write, after_finish};

/// A call of the outside failed. The object's count of failures has risen.
#[derive(Clone, Copy, PartialEq, Eq, Debug)]
pub struct Failed;

/// A call failed: its count rises, and stands still at its type's end. For who writes an outside of its own.
pub fn failure(count: &mut u64) -> Failed
    ensures cause { HasRisen count.old count.new }
    ensures kept { count.old ≤ count.new }
{
    *count = count.saturating_add(1);
    Failed
}

/// Files that are read, one open at a time.
pub trait Inputs {
    /// The contents by name, where this input tells them. No call changes them.
    ghost contents: { Self → Option Contents };

    /// The bytes that are left of the started file, where this input tells them.
    ghost rest: { Self → Option (List ℕ) };

    /// How often a call failed. The count never falls.
    ghost faults: { Self → ℕ };

    /// How often a name was started that has no contents. The count never falls.
    ghost missing: { Self → ℕ };

    /// How many bytes were read in all.
    ghost taken: { Self → ℕ };

    /// Which files were started so far, and which of them were read to their end, where this input tells it.
    ghost history: { Self → Option (List FileEvent) };

    /// Starts a file by its name; the empty name is standard input.
    fn start(&mut self, name: &str) -> Result<(), Failed>
        ensures contents { contents self.new ≡ contents self.old }
        ensures cause { HasCause (faults self.old) (faults self.new) result }
        ensures missing { CountsMissing (contents self.old) name.now
            (missing self.old) (missing self.new) }
        ensures found { OnOk result (missing self.new ≡ missing self.old) }
        ensures taken { taken self.new ≡ taken self.old }
        ensures history { HappensAtStart name.now result (history self.old) (history self.new) }
        ensures started { Starts (contents self.old) name.now result (rest self.new) }
        ensures err { OnErr result (rest self.new ≡ rest self.old) };

    /// Reads the next bytes of the started file into the front of the buffer, and answers how many: none at the end alone.
    fn read(&mut self, buffer: &mut [u8]) -> Result<usize, Failed>
        ensures at_most { IfOk result (λ n. n ≤ length buffer.old) }
        ensures contents { contents self.new ≡ contents self.old }
        ensures cause { HasCause (faults self.old) (faults self.new) result }
        ensures missing { missing self.new ≡ missing self.old }
        ensures taken { CountsTaken result (taken self.old) (taken self.new) }
        ensures history { HappensAtRead (length buffer.old) result
            (history self.old) (history self.new) }
        ensures rest { ReadConsumes (rest self.old) (rest self.new) result buffer.new };
}

/// Makes one file, piece by piece.
pub trait Output {
    /// What is made so far, where this output tells it.
    ghost made: { Self → Option Made };

    /// How often a call failed. The count never falls.
    ghost faults: { Self → ℕ };

    /// Makes a file of this name, without bytes.
    fn create(&mut self, name: &str) -> Result<(), Failed>
        ensures ok { OnOk result
            (made self.new ≡ option_map (after_create name.now) (made self.old)) }
        ensures err { OnErr result (made self.new ≡ made self.old) }
        ensures cause { HasCause (faults self.old) (faults self.new) result };

    /// Appends a prefix of the piece, at least one byte of one that is not empty, and answers its length in bytes.
    fn write(&mut self, piece: &[u8]) -> Result<usize, Failed>
        ensures some { IfOk result (λ n. 0 < length piece.now → 0 < n) }
        ensures at_most { IfOk result (λ n. n ≤ length piece.now) }
        ensures ok { IfOk result
            (λ n. made self.new ≡ option_map (after_write (take n piece.now)) (made self.old)) }
        ensures err { OnErr result (made self.new ≡ made self.old) }
        ensures cause { HasCause (faults self.old) (faults self.new) result };

    /// Ends the file.
    fn finish(&mut self) -> Result<(), Failed>
        ensures ok { OnOk result (made self.new ≡ option_map after_finish (made self.old)) }
        ensures err { OnErr result (made self.new ≡ made self.old) }
        ensures cause { HasCause (faults self.old) (faults self.new) result };
}

/// Where something is said.
#[derive(Clone, Copy, PartialEq, Eq, Debug)]
pub enum Channel {
    /// Standard output.
    Out,
    /// Standard error.
    Err,
}

/// Says text on two channels.
pub trait Console {
    ghost use Rattle.asm_base.specs.Console.{Said, after_say};

    /// What was said so far, where this console tells it.
    ghost said: { Self → Option Said };

    /// How often a call failed. The count never falls.
    ghost faults: { Self → ℕ };

    /// Says a prefix of the piece, at least one byte of one that is not empty, and answers its length in bytes.
    fn say(&mut self, to: Channel, piece: &[u8]) -> Result<usize, Failed>
        ensures some { IfOk result (λ n. 0 < length piece.now → 0 < n) }
        ensures at_most { IfOk result (λ n. n ≤ length piece.now) }
        ensures ok { IfOk result
            (λ n. said self.new ≡ option_map (after_say to (take n piece.now)) (said self.old)) }
        ensures err { OnErr result (said self.new ≡ said self.old) }
        ensures cause { HasCause (faults self.old) (faults self.new) result };
}
