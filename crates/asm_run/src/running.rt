//! One run, from the words of the command line to the answer.

ghost use Rattle.std.specs.Prelude.{◌≡◌, ◌≤◌, ◌⊎◌, map, None, Some, string_bytes};
ghost use Rattle.asm_base.specs.Counts.{HasRisen, IsQuiet};
ghost use Rattle.run_words.specs.Words.{command_of};
ghost use Rattle.source_ends.specs.Synthesis.{Synthesis};
ghost use Rattle.source_runs.specs.Outcome.{CommandHolds, CommandIsMade};
ghost use Rattle.source_runs.specs.Answers.{Answers, CountsMissingOutcome, ReadsAll, ReadsToEnd, StartsFront};
ghost use Rattle.asm_run.specs.Outcome.{main_of_command, outcome};
ghost use Rattle.asm_run.specs.Completes.{Completes};
ghost use Rattle.asm_run.specs.Readable.{CommandIsReadable};
ghost use Rattle.asm_run.specs.ReadsBack.{CommandReadsBack};
ghost use Rattle.asm_run.specs.Recovers.{CommandRecovers};

use asm_base::{Channel, Console, Failed, Inputs, Output, Status};
use asm_front::written_reads_back;
use load_text::loads_are_bytes;
use recovery_laws::objects_recover;
use run_words::read_command;
use source_ends::synthesis_is_one;
use source_runs::{nothing_starts_no_file, refused_memory_leaves_all, run_source, say_all};
use std::alloc::{AllocError, Global};

/// What is said where the words are no command.
const USAGE: &[u8] =
    b"usage: as [-o FILE] [--64] [--scfi=experimental] [-W|--no-warn] [--fatal-warnings] [--self-load N] [FILE]\n";

/// Reads the words, assembles the source that they name, says the messages, and makes the object.
#[tactic(auto, unfolding(run_words::specs::Words::usage_text), using(crate::proofs::OneOutcome::command_is_one, crate::proofs::ReadsBackAgain::command_reads_back, crate::proofs::RecoversAgain::command_recovers, crate::proofs::Commands::completes, crate::proofs::Commands::usage_said, crate::proofs::Commands::usage_cut))]
pub fn run<I: Inputs, O: Output, C: Console>(
    alloc: Global,
    words: &Vec<String>,
    ins: &mut I,
    obj: &mut O,
    con: &mut C,
) -> Status
    // What the words stand for hangs on what synthesis comes to, where it is asked for. That is one thing: so is what they stand for.
    ensures one { (one other : Synthesis)
        → CommandIsMade (command_of (map string_bytes words.now.items)) (I.contents ins.old) one
        → CommandIsMade (command_of (map string_bytes words.now.items)) (I.contents ins.old) other
        → outcome (map string_bytes words.now.items) one (I.contents ins.old)
        ≡ outcome (map string_bytes words.now.items) other (I.contents ins.old) }
    ensures answer { CommandHolds (command_of (map string_bytes words.now.items))
        (I.contents ins.old) result (λ made outcome.
        Answers (command_of (map string_bytes words.now.items)) outcome result (record {
          said = C.said con.old;
          said_after = C.said con.new;
          made = O.made obj.old;
          made_after = O.made obj.new;
        })) }

    // The cause of each answer: which counts of failures have risen, and which are as before.
    ensures read_fault { result ≡ Status.ReadFault
        → HasRisen (I.faults ins.old) (I.faults ins.new) }
    ensures write_fault { result ≡ Status.WriteFault
        → HasRisen (O.faults obj.old) (O.faults obj.new)
        ⊎ HasRisen (C.faults con.old) (C.faults con.new) }
    ensures input_quiet { (result ≡ Status.ReadFault) ⊎ (I.faults ins.new ≡ I.faults ins.old) }
    ensures missing_quiet { (result ≡ Status.ReadFault) ⊎ (I.missing ins.new ≡ I.missing ins.old) }
    ensures output_quiet { (result ≡ Status.WriteFault) ⊎ (O.faults obj.new ≡ O.faults obj.old) }
    ensures console_quiet { (result ≡ Status.WriteFault) ⊎ (C.faults con.new ≡ C.faults con.old) }
    ensures input_count { I.faults ins.old ≤ I.faults ins.new }
    ensures output_count { O.faults obj.old ≤ O.faults obj.new }
    ensures console_count { C.faults con.old ≤ C.faults con.new }

    // Where memory is refused nothing was said, and nothing was made.
    ensures no_memory { result ≡ Status.NoMemory
        → (C.said con.new ≡ C.said con.old) × (O.made obj.new ≡ O.made obj.old) }

    // Where no call fails, the status is that of the outcome; told or not, that of the words where the console is quiet.
    ensures complete { IsQuiet (I.faults ins.old) (I.faults ins.new)
        → IsQuiet (O.faults obj.old) (O.faults obj.new) → IsQuiet (C.faults con.old) (C.faults con.new)
        → CommandHolds (command_of (map string_bytes words.now.items)) (I.contents ins.old) result
        (λ made outcome. Completes outcome result) }
    ensures usage { result ≡ Status.Usage → command_of (map string_bytes words.now.items) ≡ None }
    ensures usage_told { IsQuiet (C.faults con.old) (C.faults con.new)
        → command_of (map string_bytes words.now.items) ≡ None
        → (result ≡ Status.Usage) ⊎ (result ≡ Status.NoMemory) }

    // In the object that the words stand for, each instruction's place reads as the instruction that was handed out, and as no other,
    // and the frame table as the rows that directives mean, or as those that were worked out of functions.
    ensures reads_back { CommandReadsBack (command_of (map string_bytes words.now.items))
        (I.contents ins.old) }

    // The frame tables that are worked out are true, if files are bytes: the row that a function's entry in `.eh_frame` gives recovers the
    // caller along each execution in which calls keep the registers, the return address and the slots, and stores whose place is not followed
    // leave these alone. The bytes executed are those of the object but for relocated fields, which may hold anything; at exits the seven
    // registers are as at entry. Code in a section without bytes in the file (of zeros) is left out.
    ensures recovers { CommandRecovers (command_of (map string_bytes words.now.items))
        (I.contents ins.old) }

    // All numbers of the object that was made fit their fields, and a reader finds its sections by their headers, where those places are.
    ensures readable { result ≡ Status.Done
        → CommandHolds (command_of (map string_bytes words.now.items)) (I.contents ins.old) result
        (λ made outcome. CommandIsReadable (command_of (map string_bytes words.now.items)) made
        (I.contents ins.old)) }

    // What is read.
    ensures missing { (made : Synthesis) → CountsMissingOutcome
        (outcome (map string_bytes words.now.items) made (I.contents ins.old))
        (I.missing ins.old) (I.missing ins.new) }
    ensures taken { I.taken ins.old ≤ I.taken ins.new }
    ensures contents { I.contents ins.new ≡ I.contents ins.old }
    ensures whole { result ≡ Status.Done
        → ReadsToEnd (main_of_command (command_of (map string_bytes words.now.items)))
        (I.rest ins.old) (I.rest ins.new) }
    ensures starts { (made : Synthesis)
        → StartsFront (outcome (map string_bytes words.now.items) made (I.contents ins.old))
        (main_of_command (command_of (map string_bytes words.now.items)))
        (I.history ins.old) (I.history ins.new) (I.taken ins.old) (I.taken ins.new) }
    ensures reads { result ≡ Status.Done
        → CommandHolds (command_of (map string_bytes words.now.items)) (I.contents ins.old) result
        (λ made outcome. ReadsAll outcome
        (main_of_command (command_of (map string_bytes words.now.items)))
        (I.history ins.old) (I.history ins.new) (I.taken ins.old) (I.taken ins.new)) }
    ensures usage_reads_nothing { command_of (map string_bytes words.now.items) ≡ None
        → ins.new ≡ ins.old }
{
    written_reads_back();
    objects_recover();
    loads_are_bytes();
    synthesis_is_one();
    refused_memory_leaves_all();
    nothing_starts_no_file();
    match read_command(alloc, words.as_slice()) {
        Ok(Some(invocation)) => run_source(alloc, invocation, ins, obj, con),
        Ok(None) => match say_all(con, Channel::Err, USAGE) {
            Ok(()) => Status::Usage,
            Err(Failed) => Status::WriteFault,
        },
        Err(AllocError) => Status::NoMemory,
    }
}
