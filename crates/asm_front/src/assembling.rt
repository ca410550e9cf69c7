//! From a source to its object.

ghost use Rattle.std.specs.Prelude.{◌≡◌, [], ◌∷◌, string_bytes, IfOk, OnOk};
ghost use Rattle.std.specs.Io.KnownBytes.{IsAtEnd};
ghost use Rattle.asm_front.specs.Answering.{AnswersFile, AnswersMain, AnswersText, CountsText, IsAnswered, ReadsText, StartsIncluded};
ghost use Rattle.asm_front.specs.Assembly as spec;
ghost use Rattle.asm_front.specs.Assembly.{main_file, shown_files, too_large};
ghost use Rattle.asm_front.specs.Outcome.{flags_asked, flags_of, CountsMisses, HasAssemblyCause, KeepsCount, NamesFiles, ReadsFiles, StartsFiles, StopsAtEnd, TakesFiles, TakesSource, TakesText};
ghost use Rattle.asm_front.specs.Sources.{file, given, main_of, name_of};
ghost use Rattle.source_ends.specs.Synthesis.{Synthesis};

use crate::answering::{answer, fault_on_line, faulty};
use crate::answers::{Asked, AsmFault, Assembled, Main, Options};
use crate::laws::{told_files_are_known, written_is_readable, written_reads_back};
use crate::placers::SourcePlacer;
use asm_base::{Files, Inputs, MOST_BYTES, NoMemory, StatementFault, Text, TextFault, read_text};
use asm_macro::expand_source;
use source_ends::the_end_is_no_reading;
use std::alloc::Global;

/// The source as the one file that was started.
fn started_source(alloc: Global, name: &str) -> Result<Files, NoMemory>
    ensures { IfOk result (λ files. files ≡ name.now ∷ []) }
{
    let mut files = Files::new(alloc);
    files.add(String::from_str(alloc, name)?)?;
    Ok(files)
}

/// A source that is too large is refused at its first line.
fn refuse_large(alloc: Global, name: &str) -> Result<Assembled, AsmFault>
    ensures { IsAnswered (spec.faulty (too_large main_file) (shown_files name.now [])) result }
{
    let fault = fault_on_line(alloc, StatementFault::FileTooLarge, 1);
    faulty(alloc, name, &Files::new(alloc), fault)
}

/// Assembles a text that is not too large, with the files that it starts. The text's room is given
/// back before the object takes some.
#[tactic(auto, using(crate::proofs::AnswersMade::text_wanted, crate::proofs::AnswersMade::none_missed, crate::proofs::StartedFiles::none_starts))]
fn assemble_text<I: Inputs>(
    alloc: Global,
    asked: &Asked,
    text: Text,
    ins: &mut I,
) -> Result<Assembled, AsmFault>
    ensures outcome { AnswersText asked.now (I.contents ins.old) text result }
    ensures names { NamesFiles (string_bytes asked.now.file) result }
    ensures cause { HasAssemblyCause result (I.faults ins.old) (I.faults ins.new) }
    ensures missing { (made : Synthesis) → CountsText (flags_asked asked.now made)
        (I.contents ins.old) (string_bytes asked.now.file) text
        (I.missing ins.old) (I.missing ins.new) }
    ensures found { KeepsCount result (I.missing ins.old) (I.missing ins.new) }
    ensures taken { TakesSource (file (string_bytes asked.now.file)) result
        (I.taken ins.old) (I.taken ins.new) }
    ensures at_most { TakesText result (I.taken ins.old) (I.taken ins.new) }
    ensures starts { (made : Synthesis) → StartsIncluded (flags_asked asked.now made)
        (I.contents ins.old) (string_bytes asked.now.file) text
        (I.history ins.old) (I.history ins.new) (I.taken ins.old) (I.taken ins.new) }
    ensures contents { I.contents ins.new ≡ I.contents ins.old }
    ensures history { ReadsText result (I.history ins.old) (I.history ins.new) }
    ensures whole { IsAtEnd (I.rest ins.old) → OnOk result (IsAtEnd (I.rest ins.new)) }
{
    the_end_is_no_reading();
    let name = asked.file.as_str();
    let mut started = match started_source(alloc, name) {
        Ok(started) => started,
        Err(_) => return Err(AsmFault::NoMemory),
    };
    let mut placer = match SourcePlacer::new(alloc, asked.no_warn, asked.scfi) {
        Ok(placer) => placer,
        Err(_) => return Err(AsmFault::NoMemory),
    };
    let expanded = expand_source(alloc, text, &mut started, &mut placer, ins);
    answer(alloc, asked, &started, placer, expanded)
}

/// Reads the file of a name and the files that it includes, and assembles it.
#[tactic(auto, using(crate::proofs::AnswersMade::file_failed, crate::proofs::AnswersMade::file_wanted, crate::proofs::WholeSources::source_missed, crate::proofs::StartedFiles::source_starts))]
fn assemble_file<I: Inputs>(
    alloc: Global,
    asked: &Asked,
    ins: &mut I,
) -> Result<Assembled, AsmFault>
    ensures outcome { AnswersMain (flags_asked asked.now) (file (string_bytes asked.now.file))
        (I.contents ins.old) result }
    ensures names { NamesFiles (string_bytes asked.now.file) result }
    ensures cause { HasAssemblyCause result (I.faults ins.old) (I.faults ins.new) }
    ensures missing { (made : Synthesis) → CountsMisses (flags_asked asked.now made)
        (I.contents ins.old) (file (string_bytes asked.now.file))
        (I.missing ins.old) (I.missing ins.new) }
    ensures found { KeepsCount result (I.missing ins.old) (I.missing ins.new) }
    ensures taken { TakesSource (file (string_bytes asked.now.file)) result
        (I.taken ins.old) (I.taken ins.new) }
    ensures at_most { TakesFiles (file (string_bytes asked.now.file)) result
        (I.taken ins.old) (I.taken ins.new) }
    ensures starts { (made : Synthesis) → StartsFiles (flags_asked asked.now made)
        (I.contents ins.old) (file (string_bytes asked.now.file))
        (I.history ins.old) (I.history ins.new) (I.taken ins.old) (I.taken ins.new) }
    ensures contents { I.contents ins.new ≡ I.contents ins.old }
    ensures history { ReadsFiles (file (string_bytes asked.now.file)) result
        (I.history ins.old) (I.history ins.new) }
    ensures whole { OnOk result (IsAtEnd (I.rest ins.new)) }
{
    written_reads_back();
    written_is_readable();
    told_files_are_known();
    let name = asked.file.as_str();
    match read_text(alloc, ins, name) {
        Ok(text) => assemble_text(alloc, asked, text, ins),
        Err(TextFault::TooLarge) => refuse_large(alloc, name),
        Err(TextFault::Read) => Err(AsmFault::Read),
        Err(TextFault::NoMemory) => Err(AsmFault::NoMemory),
    }
}

/// Assembles a text that is given, with the files that it starts. It has no name of its own.
fn assemble_given<I: Inputs>(
    alloc: Global,
    asked: &Asked,
    text: Text,
    ins: &mut I,
) -> Result<Assembled, AsmFault>
    requires { string_bytes asked.now.file ≡ [] }
    ensures outcome { AnswersMain (flags_asked asked.now) (given text) (I.contents ins.old) result }
    ensures names { NamesFiles [] result }
    ensures cause { HasAssemblyCause result (I.faults ins.old) (I.faults ins.new) }
    ensures missing { (made : Synthesis) → CountsMisses (flags_asked asked.now made)
        (I.contents ins.old) (given text) (I.missing ins.old) (I.missing ins.new) }
    ensures found { KeepsCount result (I.missing ins.old) (I.missing ins.new) }
    ensures taken { TakesSource (given text) result (I.taken ins.old) (I.taken ins.new) }
    ensures at_most { TakesText result (I.taken ins.old) (I.taken ins.new) }
    ensures starts { (made : Synthesis) → StartsFiles (flags_asked asked.now made)
        (I.contents ins.old) (given text)
        (I.history ins.old) (I.history ins.new) (I.taken ins.old) (I.taken ins.new) }
    ensures contents { I.contents ins.new ≡ I.contents ins.old }
    ensures history { ReadsFiles (given text) result (I.history ins.old) (I.history ins.new) }
    ensures whole { IsAtEnd (I.rest ins.old) → OnOk result (IsAtEnd (I.rest ins.new)) }
{
    written_reads_back();
    written_is_readable();
    told_files_are_known();
    let name = asked.file.as_str();
    let size = text.as_bytes().len();
    if size > MOST_BYTES {
        refuse_large(alloc, name)
    } else {
        assemble_text(alloc, asked, text, ins)
    }
}

/// Assembles the source that is asked for, with the files that it includes: its object, or its first fault.
pub fn assemble<I: Inputs>(
    alloc: Global,
    options: Options,
    ins: &mut I,
) -> Result<Assembled, AsmFault>
    ensures outcome { AnswersFile options (I.contents ins.old) result }
    ensures names { NamesFiles (name_of (main_of options.source)) result }
    ensures cause { HasAssemblyCause result (I.faults ins.old) (I.faults ins.new) }
    ensures missing { (made : Synthesis) → CountsMisses (flags_of options made)
        (I.contents ins.old) (main_of options.source) (I.missing ins.old) (I.missing ins.new) }
    ensures found { KeepsCount result (I.missing ins.old) (I.missing ins.new) }
    ensures taken { TakesSource (main_of options.source) result
        (I.taken ins.old) (I.taken ins.new) }
    ensures at_most { TakesFiles (main_of options.source) result
        (I.taken ins.old) (I.taken ins.new) }
    ensures starts { (made : Synthesis) → StartsFiles (flags_of options made)
        (I.contents ins.old) (main_of options.source)
        (I.history ins.old) (I.history ins.new) (I.taken ins.old) (I.taken ins.new) }
    ensures contents { I.contents ins.new ≡ I.contents ins.old }
    ensures history { ReadsFiles (main_of options.source) result
        (I.history ins.old) (I.history ins.new) }
    ensures whole { StopsAtEnd (main_of options.source) result (I.rest ins.old) (I.rest ins.new) }
{
    let Options {
        source,
        scfi,
        no_warn,
        fatal_warnings,
    } = options;
    match source {
        Main::File(name) => {
            let asked = Asked {
                file: name,
                scfi,
                no_warn,
                fatal_warnings,
            };
            assemble_file(alloc, &asked, ins)
        }
        Main::Given(text) => {
            let asked = Asked {
                file: String::new(alloc),
                scfi,
                no_warn,
                fatal_warnings,
            };
            assemble_given(alloc, &asked, text, ins)
        }
    }
}
