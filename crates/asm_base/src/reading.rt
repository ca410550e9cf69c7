//! Reading a source file whole.

ghost use Rattle.std.specs.Prelude.{◌≡◌, ◌⊎◌, ◌+◌, ◌<◌, ◌≤◌, [], ◌∷◌, length, OnOk, IfOk, IfErr, vec_len};
ghost use Rattle.std.specs.Io.KnownBytes.{IsAtEnd};
ghost use Rattle.asm_base.specs.Counts.{grown};
ghost use Rattle.asm_base.specs.declared.reading.TextFault.TheVariants.{Read, NoMemory};
ghost use Rattle.asm_base.specs.Inputs.{CountsMissing};
ghost use Rattle.asm_base.specs.History.{end_events, ends, happened, whole_file, HappensInFront, HappensToFile, HappensToRest};
ghost use Rattle.asm_base.specs.WholeFile.{most_bytes, ReadsOn, StopsReading, ReadsRest, ReadsName, HasReadCause, TakesBytes};

use crate::outside::{Failed, Inputs};
use crate::texts::Text;
use std::alloc::{AllocError, Global};
use thiserror::Error;

/// The most bytes that a source file may have.
pub const MOST_BYTES: usize = 1 << 26;

/// How many bytes are asked for at a time.
const BUFFER_BYTES: usize = 1 << 16;

/// Why a file was not read.
#[derive(Clone, Copy, PartialEq, Eq, Debug, Error)]
pub enum TextFault {
    /// The file has more than 2^26 bytes.
    #[error("source file is too large")]
    TooLarge,
    /// The input failed. Its count of failures has risen.
    #[error("source file can't be read")]
    Read,
    /// Memory was refused.
    #[error("out of memory")]
    NoMemory,
}

impl From<Failed> for TextFault {
    ghost from_gives = { λ _ e. e ≡ Read };

    fn from(_failed: Failed) -> TextFault {
        TextFault::Read
    }
}

impl From<AllocError> for TextFault {
    ghost from_gives = { λ _ e. e ≡ NoMemory };

    fn from(_refused: AllocError) -> TextFault {
        TextFault::NoMemory
    }
}

/// A buffer of this many bytes.
fn make_buffer(alloc: Global, bytes: usize) -> Result<Vec<u8>, AllocError>
    ensures { IfOk result (λ buffer. vec_len buffer ≡ bytes) }
{
    vec![in alloc; 0u8; bytes]
}

/// Reads the next bytes of the started file to the end of those already read, and answers how many.
#[tactic(auto, using(crate::proofs::WholeFileLemmas::end_in_front, crate::proofs::WholeFileLemmas::nothing_happened))]
fn read_piece<I: Inputs>(
    ins: &mut I,
    buffer: &mut [u8],
    bytes: &mut Vec<u8>,
) -> Result<usize, TextFault>
    requires room { 0 < length buffer.old }
    requires few { vec_len bytes.old ≤ most_bytes }
    ensures value { OnOk result
        (ReadsOn (I.rest ins.old) bytes.old.items (I.rest ins.new) bytes.new.items) }
    ensures err { IfErr result (λ fault. StopsReading fault) }
    ensures end { IfOk result (λ count. count ≡ 0 → IsAtEnd (I.rest ins.new)) }
    ensures length { IfOk result (λ count. vec_len bytes.new ≡ vec_len bytes.old + count) }
    ensures within { vec_len bytes.new ≤ most_bytes + 1 }
    ensures cause { HasReadCause result (I.faults ins.old) (I.faults ins.new) }
    ensures taken { IfOk result (λ count. I.taken ins.new ≡ grown count (I.taken ins.old)) }
    ensures kept { I.taken ins.old ≤ I.taken ins.new }
    ensures room { I.taken ins.new + vec_len bytes.old ≤ I.taken ins.old + (most_bytes + 1) }
    ensures history { IfOk result (λ count.
        I.history ins.new ≡ happened (I.history ins.old) (end_events 1 count)) }
    ensures unread { result ≡ Err TextFault.Read → I.history ins.new ≡ I.history ins.old }
    ensures front { HappensInFront (ends ∷ []) (I.history ins.old) (I.history ins.new) }
    ensures contents { I.contents ins.new ≡ I.contents ins.old }
    ensures missing { I.missing ins.new ≡ I.missing ins.old }
{
    let most = buffer.len().min(MOST_BYTES + 1 - bytes.len());
    let piece = &mut buffer[..most];
    let count = ins.read(piece)?;
    bytes.extend_from_slice(&piece[..count])?;
    Ok(count)
}

/// Reads what is left of the started file.
#[tactic(auto, using(crate::proofs::WholeFileLemmas::read_whole, crate::proofs::WholeFileLemmas::read_too_much, crate::proofs::WholeFileLemmas::read_stopped, crate::proofs::WholeFileLemmas::taken_stopped, crate::proofs::WholeFileLemmas::nothing_happened, crate::proofs::WholeFileLemmas::end_happened))]
fn read_rest<I: Inputs>(alloc: Global, ins: &mut I) -> Result<Text, TextFault>
    ensures text { ReadsRest (I.rest ins.old) result (I.rest ins.new) }
    ensures cause { HasReadCause result (I.faults ins.old) (I.faults ins.new) }
    ensures taken { TakesBytes result (I.taken ins.old) (I.taken ins.new) }
    ensures whole { OnOk result (IsAtEnd (I.rest ins.new)) }
    ensures history { HappensToRest result (I.history ins.old) (I.history ins.new) }
    ensures front { HappensInFront (ends ∷ []) (I.history ins.old) (I.history ins.new) }
    ensures contents { I.contents ins.new ≡ I.contents ins.old }
    ensures missing { I.missing ins.new ≡ I.missing ins.old }
{
    let mut bytes = Vec::new(alloc);
    let mut buffer = make_buffer(alloc, BUFFER_BYTES)?;
    'pieces: while bytes.len() <= MOST_BYTES {
        match read_piece(ins, &mut buffer, &mut bytes) {
            Ok(0) => {
                // What is left over is given back, so that a text of up to 32 MiB is memory that is
                // used again once the text is let go.
                bytes.shrink_to_fit();
                return Ok(Text::new(bytes));
            }
            Ok(_) => {}
            Err(fault) => return Err(fault),
        }
    }
    Err(TextFault::TooLarge)
}

/// Reads a file whole by its name; the empty name is standard input. It reads at most 2^26 + 1 bytes.
pub fn read_text<I: Inputs>(alloc: Global, ins: &mut I, name: &str) -> Result<Text, TextFault>
    ensures text { ReadsName (I.contents ins.old) name.now result (I.rest ins.new) }
    ensures cause { HasReadCause result (I.faults ins.old) (I.faults ins.new) }
    ensures taken { TakesBytes result (I.taken ins.old) (I.taken ins.new) }
    ensures whole { OnOk result (IsAtEnd (I.rest ins.new)) }
    ensures history { HappensToFile name.now result (I.history ins.old) (I.history ins.new) }
    ensures front { HappensInFront (whole_file name.now)
        (I.history ins.old) (I.history ins.new) }
    ensures contents { I.contents ins.new ≡ I.contents ins.old }
    ensures unchanged { result ≡ Err TextFault.Read
        ⊎ (I.missing ins.new ≡ I.missing ins.old) }
    ensures missing { CountsMissing (I.contents ins.old) name.now
        (I.missing ins.old) (I.missing ins.new) }
{
    ins.start(name)?;
    read_rest(alloc, ins)
}
