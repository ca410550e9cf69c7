//! The listing of bytes, said piece by piece.

ghost use Rattle.std.specs.Prelude.{◌≡◌, ◌<◌, ◌≤◌, ◌⊎◌, IfOk, OnOk, OnErr, Err, length};
ghost use Rattle.asm_base.specs.Counts.{HasRisen};
ghost use Rattle.dis_run.specs.Saying.{SaysLines, SaysLinesInPart};
ghost use Rattle.dis_run.specs.declared.listing.ListingFault.TheVariants.{Write, NoMemory};

use crate::saying::say_all;
use asm_base::{Channel, Console, Failed};
use listings::{Texts, put_lines};
use std::alloc::{AllocError, Global};

/// How many bytes a piece has at first: so many lines make it full, and the last of them may go beyond.
const PIECE_BYTES: usize = (1 << 16) + 256;

/// Why a listing was said in part only.
#[derive(Clone, Copy, PartialEq, Eq, Debug)]
pub(crate) enum ListingFault {
    /// The console failed. Its count of failures has risen.
    Write,
    /// Memory was refused.
    NoMemory,
}

impl From<Failed> for ListingFault {
    ghost from_gives = { λ _ e. e ≡ Write };

    fn from(_failed: Failed) -> ListingFault {
        ListingFault::Write
    }
}

impl From<AllocError> for ListingFault {
    ghost from_gives = { λ _ e. e ≡ NoMemory };

    fn from(_refused: AllocError) -> ListingFault {
        ListingFault::NoMemory
    }
}

/// Says the lines from the offset on that fill a piece, and answers the offset after the last of them.
#[tactic(auto, using(crate::proofs::Spoken::lines_said, crate::proofs::Spoken::lines_cut, crate::proofs::Spoken::none_said))]
fn say_piece<T: Texts, C: Console>(
    bytes: &[u8],
    at: usize,
    piece: &mut Vec<u8>,
    con: &mut C,
) -> Result<usize, ListingFault>
    requires { at < length bytes.now }
    ensures ok { IfOk result (λ end. SaysLines T.text bytes.now at end (C.said con.old) (C.said con.new)) }
    ensures progress { IfOk result (λ end. at < end) }
    ensures within { IfOk result (λ end. end ≤ length bytes.now) }
    ensures err { OnErr result (SaysLinesInPart T.text bytes.now at (C.said con.old) (C.said con.new)) }
    ensures cause { result ≡ Err ListingFault.Write
        → HasRisen (C.faults con.old) (C.faults con.new) }
    ensures quiet { (result ≡ Err ListingFault.Write) ⊎ (C.faults con.new ≡ C.faults con.old) }
    ensures count { C.faults con.old ≤ C.faults con.new }
{
    piece.clear();
    let end = put_lines::<T>(bytes, at, piece)?;
    say_all(con, Channel::Out, piece.as_slice())?;
    Ok(end)
}

/// Says the listing of the bytes on standard output.
#[tactic(auto, using(crate::proofs::Spoken::none_listed, crate::proofs::Spoken::said_on, crate::proofs::Spoken::cut_on, crate::proofs::Spoken::none_said))]
pub(crate) fn say_listing<T: Texts, C: Console>(
    alloc: Global,
    bytes: &[u8],
    con: &mut C,
) -> Result<(), ListingFault>
    ensures ok { OnOk result (SaysLines T.text bytes.now 0 (length bytes.now) (C.said con.old) (C.said con.new)) }
    ensures err { OnErr result (SaysLinesInPart T.text bytes.now 0 (C.said con.old) (C.said con.new)) }
    ensures cause { result ≡ Err ListingFault.Write
        → HasRisen (C.faults con.old) (C.faults con.new) }
    ensures quiet { (result ≡ Err ListingFault.Write) ⊎ (C.faults con.new ≡ C.faults con.old) }
    ensures count { C.faults con.old ≤ C.faults con.new }
{
    let mut piece = Vec::with_capacity(alloc, PIECE_BYTES)?;
    let mut at = 0;
    'pieces: while at < bytes.len() {
        at = say_piece::<T, C>(bytes, at, &mut piece, con)?;
    }
    Ok(())
}
