//! The answer of a call of `assemble`, by what expansion answered.

ghost use Rattle.std.specs.Prelude.{◌≡◌, [], IfOk, OnOk, string_bytes};
ghost use Rattle.asm_base.specs.declared.faults.Fault.TheVariants.{Statement};
ghost use Rattle.asm_functions.specs.FollowedSource.{notes_of};
ghost use Rattle.asm_place.specs.Sources.{pos_at, fault_at};
ghost use Rattle.asm_front.specs.Answering.{AnswersSmall, AnswersSource, IsAnswered, line_answer};
ghost use Rattle.asm_front.specs.Assembly as spec;
ghost use Rattle.asm_front.specs.Assembly.{macro_fault, main_file, shown_name, shown_files};
ghost use Rattle.asm_front.specs.Fitting.{AnswersFollowed};

use crate::answers::{Asked, AsmFault, Assembled};
use crate::placers::{SourcePlacer, StatementRefusal};
use asm_base::{Fault, Files, NoMemory, Notes, Pos, Refusal, StatementFault};
use asm_lines::LineCause;
use asm_macro::ExpandFault;
use asm_place::FaultAt;
use macro_words::MacroCause;
use source_ends::{NotedObject, finished, synthesized_object};
use std::alloc::{AllocError, Global};

/// The number of the source, which is the first file.
const MAIN_FILE: u32 = 0;

/// A fault of the source at a line of it, before which no note stands.
pub(crate) fn fault_on_line(alloc: Global, fault: StatementFault, line: u32) -> FaultAt
    ensures { result ≡ fault_at (Statement fault) (pos_at main_file line) [] }
{
    FaultAt {
        fault: Fault::Statement(fault),
        pos: Pos {
            file: MAIN_FILE,
            line,
        },
        notes: Notes::new(alloc),
    }
}

/// A fault of the lines of the source, at its place.
fn line_fault(alloc: Global, cause: LineCause) -> FaultAt
    ensures { result ≡ line_answer cause }
{
    match cause {
        LineCause::NulByte(line) => fault_on_line(alloc, StatementFault::NulByte, line),
        LineCause::UnclosedString(line) => {
            fault_on_line(alloc, StatementFault::UnclosedString, line)
        }
        LineCause::UnclosedComment(line) => {
            fault_on_line(alloc, StatementFault::UnclosedComment, line)
        }
        LineCause::StatementTooLong(line) => {
            fault_on_line(alloc, StatementFault::StatementTooLong, line)
        }
    }
}

/// The fault of the source that a fault of expansion is.
fn macro_fault(cause: MacroCause) -> StatementFault
    ensures { result ≡ macro_fault cause }
{
    match cause {
        MacroCause::NulByte => StatementFault::NulByte,
        MacroCause::UnclosedString => StatementFault::UnclosedString,
        MacroCause::UnclosedComment => StatementFault::UnclosedComment,
        MacroCause::StatementTooLong => StatementFault::StatementTooLong,
        MacroCause::FileTooLarge => StatementFault::FileTooLarge,
        MacroCause::BadExpression => StatementFault::BadExpression,
        MacroCause::NumberTooWide => StatementFault::NumberTooWide,
        MacroCause::ExpressionTooDeep => StatementFault::ExpressionTooDeep,
        MacroCause::DivisionByZero => StatementFault::DivisionByZero,
        MacroCause::ValueNotKnown => StatementFault::ValueNotKnown,
        MacroCause::NotASumOfSymbols => StatementFault::NotASumOfSymbols,
        MacroCause::BadMacroLine => StatementFault::BadMacroLine,
        MacroCause::MissingArgument => StatementFault::MissingArgument,
        MacroCause::UnclosedBlock => StatementFault::UnclosedBlock,
        MacroCause::EndWithoutBeginning => StatementFault::EndWithoutBeginning,
        MacroCause::NestedTooDeeply => StatementFault::NestedTooDeeply,
        MacroCause::ExpansionTooLong => StatementFault::ExpansionTooLong,
        MacroCause::MacroAlreadyDefined => StatementFault::MacroAlreadyDefined,
        MacroCause::BadFileName => StatementFault::BadFileName,
    }
}

/// The name under which messages show the source.
fn shown_name(alloc: Global, name: &str) -> Result<String, NoMemory>
    ensures { IfOk result (λ shown. string_bytes shown ≡ shown_name name.now) }
{
    if name.is_empty() {
        String::from_str(alloc, "{standard input}")
    } else {
        String::from_str(alloc, name)
    }
}

/// The names of files as messages show them: the source is the first that was started.
fn shown_files(alloc: Global, name: &str, started: &Files) -> Result<Files, NoMemory>
    ensures { IfOk result (λ files. files ≡ shown_files name.now started.now) }
{
    let mut files = Files::new(alloc);
    files.add(shown_name(alloc, name)?)?;
    for number in 1..started.len() {
        let Ok(number) = u32::try_from(number) else {
            return Err(AllocError);
        };
        files.add(String::from_str(alloc, started.name(number))?)?;
    }
    Ok(files)
}

/// A fault is answered with the names of the files.
pub(crate) fn faulty(
    alloc: Global,
    name: &str,
    started: &Files,
    at: FaultAt,
) -> Result<Assembled, AsmFault>
    ensures { IsAnswered (spec.faulty at (shown_files name.now started.now)) result }
{
    let FaultAt { fault, pos, notes } = at;
    match shown_files(alloc, name, started) {
        Ok(files) => Err(AsmFault::Source(fault, pos, notes, files)),
        Err(_) => Err(AsmFault::NoMemory),
    }
}

/// The object of all that was placed, or the fault at the end, by what synthesis comes to, if it is
/// asked for.
#[tactic(auto, using(crate::proofs::SynthesizedEnds::plain_answers, crate::proofs::SynthesizedEnds::frames_answer))]
fn followed_object(
    alloc: Global,
    asked: &Asked,
    placer: SourcePlacer,
) -> Result<NotedObject, Refusal<FaultAt>>
    ensures { AnswersFollowed asked.now placer result }
{
    let fatal = asked.fatal_warnings;
    match placer.into_parts() {
        Ok((parts, functions)) => {
            let count = functions.len() as u64;
            if asked.scfi {
                synthesized_object(alloc, fatal, count, parts, functions)
            } else {
                finished(alloc, fatal, count, parts)
            }
        }
        Err(_) => Err(Refusal::NoMemory),
    }
}

/// The object of what was placed, or the fault at the end, is answered with the names of the files.
#[tactic(auto, using(crate::proofs::SynthesizedEnds::object_at_end, crate::proofs::SynthesizedEnds::fault_at_end, crate::proofs::SynthesizedEnds::memory_at_end))]
fn ended(
    alloc: Global,
    asked: &Asked,
    started: &Files,
    placer: SourcePlacer,
) -> Result<Assembled, AsmFault>
    ensures { AnswersSource asked.now started.now placer (Ok tt) result }
{
    let name = asked.file.as_str();
    match followed_object(alloc, asked, placer) {
        Ok(
            NotedObject {
                object,
                notes,
                counts,
            },
        ) => match shown_files(alloc, name, started) {
            Ok(files) => Ok(Assembled {
                notes,
                files,
                object,
                counts,
            }),
            Err(_) => Err(AsmFault::NoMemory),
        },
        Err(Refusal::Fault(fault)) => faulty(alloc, name, started, fault),
        Err(Refusal::NoMemory) => Err(AsmFault::NoMemory),
    }
}

/// A fault of expansion is answered with all notes before it.
fn stopped(
    alloc: Global,
    name: &str,
    started: &Files,
    placer: SourcePlacer,
    cause: MacroCause,
    pos: Pos,
) -> Result<Assembled, AsmFault>
    ensures { IsAnswered (spec.faulty
        (fault_at (Statement (macro_fault cause)) pos (notes_of placer))
        (shown_files name.now started.now)) result }
{
    let fault = Fault::Statement(macro_fault(cause));
    match placer.into_parts() {
        Ok((parts, _)) => {
            let notes = parts.notes;
            faulty(alloc, name, started, FaultAt { fault, pos, notes })
        }
        Err(_) => Err(AsmFault::NoMemory),
    }
}

/// The answer for the source that is asked for, by what expansion answered.
#[tactic(auto, using(crate::proofs::SynthesizedEnds::read_answer, crate::proofs::SynthesizedEnds::memory_answer))]
pub(crate) fn answer(
    alloc: Global,
    asked: &Asked,
    started: &Files,
    placer: SourcePlacer,
    expanded: Result<(), ExpandFault<StatementRefusal>>,
) -> Result<Assembled, AsmFault>
    ensures answer { AnswersSource asked.now started.now placer expanded result }
    ensures small { AnswersSmall expanded result }
{
    let name = asked.file.as_str();
    match expanded {
        Ok(()) => ended(alloc, asked, started, placer),
        Err(ExpandFault::Lines(cause)) => {
            faulty(alloc, name, &Files::new(alloc), line_fault(alloc, cause))
        }
        Err(ExpandFault::Expansion(cause, pos)) => {
            stopped(alloc, name, started, placer, cause, pos)
        }
        Err(ExpandFault::Placing(refusal)) => { faulty(alloc, name, started, refusal.into_fault()) }
        Err(ExpandFault::Read) => Err(AsmFault::Read),
        Err(ExpandFault::NoMemory) => Err(AsmFault::NoMemory),
    }
}
