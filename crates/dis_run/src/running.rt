//! One run, from the words of the command line to the answer.

ghost use Rattle.std.specs.Prelude.{◌≡◌, ◌≤◌, ◌⊎◌, None, Some, IfOk, map, string_bytes};
ghost use Rattle.asm_base.specs.Counts.{HasRisen, IsQuiet};
ghost use Rattle.std.specs.Io.KnownBytes.{IsAtEnd};
ghost use Rattle.asm_base.specs.History.{HappensInFront, happened, whole_file};
ghost use Rattle.asm_base.specs.Inputs.{CountsMissing};
ghost use Rattle.std.specs.Prelude.{ℕ, List};
ghost use Rattle.x86_decode.specs.declared.fronts.Front.{Front};
ghost use Rattle.dis_words.specs.Invoked.{invoked};
ghost use Rattle.dis_words.specs.Words.{command_of};
ghost use Rattle.dis_run.specs.Outcome.{CommandHolds, refused, shown_name, too_large_text};
ghost use Rattle.dis_run.specs.Answers.{Answers, Completes, CountsMissingFile, IsListed, ReadsWhole, StartsFile, TakesTooMuch, text_for};

use crate::listing::{ListingFault, say_listing};
use crate::saying::say_all;
use asm_base::{
    Bytes, Channel, Console, Failed, Fault, Files, Inputs, NoMemory, Pos, StatementFault, Status,
    TextFault, read_text, refusal,
};
use dis_words::{Invocation, read_command};
use listings::Texts;
use std::alloc::{AllocError, Global};

/// What is said where the words are no command.
const USAGE: &[u8] = b"usage: asdis [--intel] [FILE]\n";

/// The name under which messages show a file.
fn shown_name(name: &str) -> &str
    ensures { result.now ≡ shown_name name.now }
{
    if name.is_empty() {
        "{standard input}"
    } else {
        name
    }
}

/// What is said of a file that is too large.
fn too_large_text(alloc: Global, name: &str) -> Result<Bytes, NoMemory>
    ensures { IfOk result (λ text. text ≡ too_large_text name.now) }
{
    let mut files = Files::new(alloc);
    files.add(String::from_str(alloc, shown_name(name))?)?;
    let fault = Fault::Statement(StatementFault::FileTooLarge);
    refusal(alloc, &fault, &Pos { file: 0, line: 1 }, &[], &files)
}

/// Says that a file is too large.
fn refuse<C: Console>(alloc: Global, name: &str, con: &mut C) -> Status
    ensures answer { (att intel : Front → List ℕ) → Answers att intel
        (refused (too_large_text name.now)) result (C.said con.old) (C.said con.new) }
    ensures write_fault { result ≡ Status.WriteFault
        → HasRisen (C.faults con.old) (C.faults con.new) }
    ensures quiet { (result ≡ Status.WriteFault) ⊎ (C.faults con.new ≡ C.faults con.old) }
    ensures count { C.faults con.old ≤ C.faults con.new }
    ensures complete { (result ≡ Status.WriteFault) ⊎ Completes (refused (too_large_text name.now)) result }
    ensures never_done { result ≡ Status.Done → ⊥ }
{
    match too_large_text(alloc, name) {
        Ok(text) => match say_all(con, Channel::Err, text.as_slice()) {
            Ok(()) => Status::SourceFault,
            Err(Failed) => Status::WriteFault,
        },
        Err(AllocError) => Status::NoMemory,
    }
}

/// Says the listing of the bytes.
fn list<T: Texts, C: Console>(alloc: Global, bytes: &[u8], con: &mut C) -> Status
    ensures answer { IsListed T.text bytes.now result (C.said con.old) (C.said con.new) }
    ensures write_fault { result ≡ Status.WriteFault
        → HasRisen (C.faults con.old) (C.faults con.new) }
    ensures quiet { (result ≡ Status.WriteFault) ⊎ (C.faults con.new ≡ C.faults con.old) }
    ensures count { C.faults con.old ≤ C.faults con.new }
{
    match say_listing::<T, C>(alloc, bytes, con) {
        Ok(()) => Status::Done,
        Err(ListingFault::Write) => Status::WriteFault,
        Err(ListingFault::NoMemory) => Status::NoMemory,
    }
}

/// Says the listing of the bytes in the syntax that is asked for.
fn list_in<A: Texts, B: Texts, C: Console>(
    alloc: Global,
    intel: bool,
    bytes: &[u8],
    con: &mut C,
) -> Status
    ensures answer { IsListed (text_for A.text B.text intel) bytes.now result
        (C.said con.old) (C.said con.new) }
    ensures write_fault { result ≡ Status.WriteFault
        → HasRisen (C.faults con.old) (C.faults con.new) }
    ensures quiet { (result ≡ Status.WriteFault) ⊎ (C.faults con.new ≡ C.faults con.old) }
    ensures count { C.faults con.old ≤ C.faults con.new }
{
    if intel {
        list::<B, C>(alloc, bytes, con)
    } else {
        list::<A, C>(alloc, bytes, con)
    }
}

/// Reads the file that is asked for, and says its listing.
#[tactic(auto, using(crate::proofs::Answered::listed_answers, crate::proofs::Answered::refused_answers, crate::proofs::Answered::fault_answers, crate::proofs::Answered::memory_answers, crate::proofs::Answered::listed_completes, crate::proofs::Answered::refused_completes, crate::proofs::Answered::memory_completes))]
fn list_file<A: Texts, B: Texts, I: Inputs, C: Console>(
    alloc: Global,
    invocation: Invocation<'_>,
    ins: &mut I,
    con: &mut C,
) -> Status
    ensures answer { CommandHolds (Some (invoked invocation.entry)) (I.contents ins.old)
        (λ outcome. Answers A.text B.text outcome result (C.said con.old) (C.said con.new)) }
    ensures complete { (result ≡ Status.ReadFault) ⊎ (result ≡ Status.WriteFault)
        ⊎ CommandHolds (Some (invoked invocation.entry)) (I.contents ins.old)
        (λ outcome. Completes outcome result) }
    ensures read_fault { result ≡ Status.ReadFault
        → HasRisen (I.faults ins.old) (I.faults ins.new) }
    ensures write_fault { result ≡ Status.WriteFault
        → HasRisen (C.faults con.old) (C.faults con.new) }
    ensures source_fault { result ≡ Status.SourceFault
        → TakesTooMuch (I.taken ins.old) (I.taken ins.new) }
    ensures input_quiet { (result ≡ Status.ReadFault) ⊎ (I.faults ins.new ≡ I.faults ins.old) }
    ensures console_quiet { (result ≡ Status.WriteFault) ⊎ (C.faults con.new ≡ C.faults con.old) }
    ensures input_count { I.faults ins.old ≤ I.faults ins.new }
    ensures console_count { C.faults con.old ≤ C.faults con.new }
    ensures command { result ≡ Status.Usage → ⊥ }
    ensures missing_quiet { (result ≡ Status.ReadFault) ⊎ (I.missing ins.new ≡ I.missing ins.old) }
    ensures taken { I.taken ins.old ≤ I.taken ins.new }
    ensures whole { result ≡ Status.Done → IsAtEnd (I.rest ins.new) }
    ensures missing { (I.missing ins.new ≡ I.missing ins.old)
        ⊎ CountsMissing (I.contents ins.old) invocation.entry.file.now (I.missing ins.old) (I.missing ins.new) }
    ensures reads { result ≡ Status.Done → I.history ins.new
        ≡ happened (I.history ins.old) (whole_file invocation.entry.file.now) }
    ensures contents { I.contents ins.new ≡ I.contents ins.old }
    ensures starts { HappensInFront (whole_file invocation.entry.file.now)
        (I.history ins.old) (I.history ins.new) }
{
    match read_text(alloc, ins, invocation.file) {
        Ok(text) => list_in::<A, B, C>(alloc, invocation.intel, text.as_bytes(), con),
        Err(TextFault::TooLarge) => refuse(alloc, invocation.file, con),
        Err(TextFault::Read) => Status::ReadFault,
        Err(TextFault::NoMemory) => Status::NoMemory,
    }
}

/// Reads the words, and says the listing of the file that they name, in the syntax that they ask for: the
/// texts of the one are those of AT&T syntax, of the other those of Intel syntax.
#[tactic(auto, unfolding(dis_words::specs::Words::usage_text), using(crate::proofs::Answered::quiet_completes))]
pub fn run_with<A: Texts, B: Texts, I: Inputs, C: Console>(
    alloc: Global,
    words: &Vec<String>,
    ins: &mut I,
    con: &mut C,
) -> Status
    ensures answer { CommandHolds (command_of (map string_bytes words.now.items)) (I.contents ins.old)
        (λ outcome. Answers A.text B.text outcome result (C.said con.old) (C.said con.new)) }

    // Where no call fails, the status is that of what the words stand for.
    ensures complete { IsQuiet (I.faults ins.old) (I.faults ins.new)
        → IsQuiet (C.faults con.old) (C.faults con.new)
        → CommandHolds (command_of (map string_bytes words.now.items)) (I.contents ins.old)
        (λ outcome. Completes outcome result) }
    ensures usage { result ≡ Status.Usage → command_of (map string_bytes words.now.items) ≡ None }
    ensures usage_known { IsQuiet (C.faults con.old) (C.faults con.new)
        → command_of (map string_bytes words.now.items) ≡ None
        → (result ≡ Status.Usage) ⊎ (result ≡ Status.NoMemory) }

    // The cause of each answer.
    ensures read_fault { result ≡ Status.ReadFault
        → HasRisen (I.faults ins.old) (I.faults ins.new) }
    ensures write_fault { result ≡ Status.WriteFault
        → HasRisen (C.faults con.old) (C.faults con.new) }
    ensures source_fault { result ≡ Status.SourceFault
        → TakesTooMuch (I.taken ins.old) (I.taken ins.new) }
    ensures input_quiet { (result ≡ Status.ReadFault) ⊎ (I.faults ins.new ≡ I.faults ins.old) }
    ensures console_quiet { (result ≡ Status.WriteFault) ⊎ (C.faults con.new ≡ C.faults con.old) }
    ensures input_count { I.faults ins.old ≤ I.faults ins.new }
    ensures console_count { C.faults con.old ≤ C.faults con.new }

    // What is read.
    ensures missing_quiet { (result ≡ Status.ReadFault) ⊎ (I.missing ins.new ≡ I.missing ins.old) }
    ensures taken { I.taken ins.old ≤ I.taken ins.new }
    ensures whole { result ≡ Status.Done → IsAtEnd (I.rest ins.new) }
    ensures missing { CountsMissingFile (command_of (map string_bytes words.now.items))
        (I.contents ins.old) (I.missing ins.old) (I.missing ins.new) }
    ensures reads { result ≡ Status.Done → ReadsWhole (command_of (map string_bytes words.now.items))
        (I.history ins.old) (I.history ins.new) }
    ensures contents { I.contents ins.new ≡ I.contents ins.old }
    ensures starts { StartsFile (command_of (map string_bytes words.now.items))
        (I.history ins.old) (I.history ins.new) }
    ensures usage_reads_nothing { command_of (map string_bytes words.now.items) ≡ None
        → ins.new ≡ ins.old }
{
    match read_command(alloc, words.as_slice()) {
        Ok(Some(invocation)) => list_file::<A, B, I, C>(alloc, invocation, ins, con),
        Ok(None) => match say_all(con, Channel::Err, USAGE) {
            Ok(()) => Status::Usage,
            Err(Failed) => Status::WriteFault,
        },
        Err(AllocError) => Status::NoMemory,
    }
}
