//! One run of a source that is asked for, to its status.

ghost use Rattle.std.specs.Prelude.{◌≡◌, ◌≤◌, ◌⊎◌, Some, IfOk, OnOk, OnErr};
ghost use Rattle.std.specs.Option.{option_map};
ghost use Rattle.asm_base.specs.Counts.{HasCause, HasRisen};
ghost use Rattle.asm_front.specs.Sources.{file, given, main_of};
ghost use Rattle.load_text.specs.Load.{load_text};
ghost use Rattle.run_words.specs.Invoked.{invoked};
ghost use Rattle.source_ends.specs.Synthesis.{Synthesis};
ghost use Rattle.source_runs.specs.Outcome.{CommandHolds, invocation_outcome, main_of_invocation};
ghost use Rattle.source_runs.specs.Readable.{InvocationIsReadable};
ghost use Rattle.source_runs.specs.Answers.{Answers, CountsMissingOutcome, MakesFile, MakesFileInPart, MakesInPart, MakesObject, ReadsAll, ReadsToEnd, StartsFront};

use crate::saying::{say_all, say_report};
use crate::summary::report_of;
use asm_base::{Channel, Console, Failed, Inputs, NoMemory, Output, Status, refusal};
use asm_front::{AsmFault, Main, Options, assemble};
use elf_object::Object;
use load_text::self_load;
use run_words::Invocation;
use std::alloc::Global;

/// The main source that is made here, of so many functions.
fn given_main(alloc: Global, functions: u32) -> Result<Main, NoMemory>
    ensures { IfOk result (λ main. main_of main ≡ given (load_text functions)) }
{
    let text = self_load(alloc, functions)?;
    Ok(Main::Given(text))
}

/// The main source of the file of this name.
fn file_main(alloc: Global, name: &str) -> Result<Main, NoMemory>
    ensures { IfOk result (λ main. main_of main ≡ file name.now) }
{
    let name = String::from_str(alloc, name)?;
    Ok(Main::File(name))
}

/// The main source that is asked for: one that is made here, or that of a file.
fn main_for(alloc: Global, invocation: Invocation) -> Result<Main, NoMemory>
    ensures { IfOk result (λ main. main_of main ≡ main_of_invocation (invoked invocation.entry)) }
{
    match invocation.self_load {
        Some(functions) => given_main(alloc, functions),
        None => file_main(alloc, invocation.file),
    }
}

/// What the assembler is asked for.
fn options_for(alloc: Global, invocation: Invocation) -> Result<Options, NoMemory>
    ensures source { IfOk result (λ options.
        main_of options.source ≡ main_of_invocation (invoked invocation.entry)) }
    ensures no_warn { IfOk result (λ options. options.no_warn ≡ invocation.entry.no_warn) }
    ensures scfi { IfOk result (λ options. options.scfi ≡ invocation.entry.scfi) }
    ensures fatal_warnings { IfOk result (λ options.
        options.fatal_warnings ≡ invocation.entry.fatal_warnings) }
{
    Ok(Options {
        source: main_for(alloc, invocation)?,
        scfi: invocation.scfi,
        no_warn: invocation.no_warn,
        fatal_warnings: invocation.fatal_warnings,
    })
}

/// Creates, writes and finishes the file of this name with the object. It takes no memory.
#[tactic(auto, using(crate::proofs::MadeFiles::made_whole))]
fn make_object<O: Output>(name: &str, object: &Object, obj: &mut O) -> Result<(), Failed>
    ensures ok { OnOk result (MakesFile name.now object.now (O.made obj.old) (O.made obj.new)) }
    ensures err { OnErr result
        (MakesFileInPart name.now object.now (O.made obj.old) (O.made obj.new)) }
    ensures cause { HasCause (O.faults obj.old) (O.faults obj.new) result }
{
    obj.create(name)?;
    object.write_to(obj)?;
    obj.finish()
}

/// Says the messages and the summary, if there is one, and only then makes the file of this name with the object. It is given no allocator and
/// has no answer for want of memory: none is taken from the first message to the end of the file.
#[tactic(auto, using(crate::proofs::Deliveries::delivered_in_part))]
pub fn deliver<O: Output, C: Console>(
    name: &str,
    object: &Object,
    messages: &[u8],
    summary: Option<&[u8]>,
    obj: &mut O,
    con: &mut C,
) -> Result<(), Failed>
    ensures ok { OnOk result (MakesObject name.now object.now messages.now
        (option_map (λ text. text.now) summary.entry) (record {
          said = C.said con.old;
          said_after = C.said con.new;
          made = O.made obj.old;
          made_after = O.made obj.new;
        })) }
    ensures err { OnErr result (MakesInPart name.now object.now messages.now
        (option_map (λ text. text.now) summary.entry) (record {
          said = C.said con.old;
          said_after = C.said con.new;
          made = O.made obj.old;
          made_after = O.made obj.new;
        })) }
    ensures cause { OnErr result
        (HasRisen (O.faults obj.old) (O.faults obj.new) ⊎ HasRisen (C.faults con.old) (C.faults con.new)) }
    ensures output_quiet { OnOk result (O.faults obj.new ≡ O.faults obj.old) }
    ensures console_quiet { OnOk result (C.faults con.new ≡ C.faults con.old) }
    ensures output_count { O.faults obj.old ≤ O.faults obj.new }
    ensures console_count { C.faults con.old ≤ C.faults con.new }
{
    say_report(con, messages, summary)?;
    make_object(name, object, obj)
}

/// Assembles the source that is asked for.
#[tactic(auto, using(crate::proofs::StandingOutcomes::memory_lost, crate::proofs::StartedFiles::none_started, crate::proofs::StartedFiles::starts_none))]
pub fn run_source<I: Inputs, O: Output, C: Console>(
    alloc: Global,
    invocation: Invocation,
    ins: &mut I,
    obj: &mut O,
    con: &mut C,
) -> Status
    ensures answer { CommandHolds (Some (invoked invocation.entry)) (I.contents ins.old) result
        (λ made outcome. Answers (Some (invoked invocation.entry)) outcome result (record {
          said = C.said con.old;
          said_after = C.said con.new;
          made = O.made obj.old;
          made_after = O.made obj.new;
        })) }
    ensures read_fault { result ≡ Status.ReadFault
        → HasRisen (I.faults ins.old) (I.faults ins.new) }
    ensures write_fault { result ≡ Status.WriteFault
        → HasRisen (O.faults obj.old) (O.faults obj.new)
        ⊎ HasRisen (C.faults con.old) (C.faults con.new) }
    ensures input_quiet { (result ≡ Status.ReadFault) ⊎ (I.faults ins.new ≡ I.faults ins.old) }
    ensures missing_quiet { (result ≡ Status.ReadFault) ⊎ (I.missing ins.new ≡ I.missing ins.old) }
    ensures output_quiet { (result ≡ Status.WriteFault) ⊎ (O.faults obj.new ≡ O.faults obj.old) }
    ensures console_quiet { (result ≡ Status.WriteFault) ⊎ (C.faults con.new ≡ C.faults con.old) }
    ensures no_memory { result ≡ Status.NoMemory
        → (C.said con.new ≡ C.said con.old) × (O.made obj.new ≡ O.made obj.old) }
    ensures input_count { I.faults ins.old ≤ I.faults ins.new }
    ensures output_count { O.faults obj.old ≤ O.faults obj.new }
    ensures console_count { C.faults con.old ≤ C.faults con.new }
    ensures readable { result ≡ Status.Done
        → CommandHolds (Some (invoked invocation.entry)) (I.contents ins.old) result (λ made outcome.
        InvocationIsReadable (invoked invocation.entry) made (I.contents ins.old)) }
    ensures missing { (made : Synthesis) → CountsMissingOutcome
        (invocation_outcome (invoked invocation.entry) made (I.contents ins.old))
        (I.missing ins.old) (I.missing ins.new) }
    ensures taken { I.taken ins.old ≤ I.taken ins.new }
    ensures contents { I.contents ins.new ≡ I.contents ins.old }
    ensures whole { result ≡ Status.Done
        → ReadsToEnd (main_of_invocation (invoked invocation.entry)) (I.rest ins.old) (I.rest ins.new) }
    ensures starts { (made : Synthesis) → StartsFront
        (invocation_outcome (invoked invocation.entry) made (I.contents ins.old))
        (main_of_invocation (invoked invocation.entry))
        (I.history ins.old) (I.history ins.new) (I.taken ins.old) (I.taken ins.new) }
    ensures reads { result ≡ Status.Done
        → CommandHolds (Some (invoked invocation.entry)) (I.contents ins.old) result (λ made outcome.
        ReadsAll outcome (main_of_invocation (invoked invocation.entry))
        (I.history ins.old) (I.history ins.new) (I.taken ins.old) (I.taken ins.new)) }
{
    let options = match options_for(alloc, invocation) {
        Ok(options) => options,
        Err(_) => return Status::NoMemory,
    };
    match assemble(alloc, options, ins) {
        Ok(made) => match report_of(alloc, invocation.self_load, &made) {
            Ok(report) => {
                let messages = report.messages.as_slice();
                let summary = report.summary_bytes();
                match deliver(invocation.object, &made.object, messages, summary, obj, con) {
                    Ok(()) => Status::Done,
                    Err(Failed) => Status::WriteFault,
                }
            }
            Err(_) => Status::NoMemory,
        },
        Err(AsmFault::Source(fault, pos, notes, files)) => {
            match refusal(alloc, &fault, &pos, notes.as_slice(), &files) {
                Ok(text) => match say_all(con, Channel::Err, text.as_slice()) {
                    Ok(()) => Status::SourceFault,
                    Err(Failed) => Status::WriteFault,
                },
                Err(_) => Status::NoMemory,
            }
        }
        Err(AsmFault::Read) => Status::ReadFault,
        Err(AsmFault::NoMemory) => Status::NoMemory,
    }
}
