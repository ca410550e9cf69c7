//! The texts of faults and notes, and the lines that a run says of them.

ghost use Rattle.std.specs.Prelude.{◌≡◌, ◌++◌, IfOk, OnOk, Ok, codes, string_bytes};
ghost use Rattle.asm_base.specs.FaultTexts.{register_name, error_text, statement_text, end_text, scfi_text, fault_text, note_text};
ghost use Rattle.asm_base.specs.Messages.{heading, position_text, error_line, warning_line};

use crate::faults::{EndFault, Fault, Note, SavedRegister, ScfiFault, StatementFault};
use crate::positions::{Files, Pos};
use crate::texts::{Bytes, SaidText};
use std::alloc::{AllocError, Global};

/// Memory was refused.
pub type NoMemory = AllocError;

fn register_name(register: SavedRegister) -> &'static str
    ensures { result.now ≡ register_name register }
{
    match register {
        SavedRegister::Rbx => "rbx",
        SavedRegister::Rbp => "rbp",
        SavedRegister::R12 => "r12",
        SavedRegister::R13 => "r13",
        SavedRegister::R14 => "r14",
        SavedRegister::R15 => "r15",
    }
}

/// What `.error` says with its text, and `.err` without one.
fn error_text(text: &SaidText) -> &[u8]
    ensures { result.now ≡ error_text text.now }
{
    text.or(b".err encountered")
}

fn statement_text(fault: &StatementFault) -> &[u8]
    ensures { result.now ≡ statement_text fault.now }
{
    match fault {
        StatementFault::NulByte => b"NUL byte in source",
        StatementFault::UnclosedString => b"string is not closed",
        StatementFault::UnclosedComment => b"comment is not closed",
        StatementFault::StatementTooLong => b"statement is too long",
        StatementFault::FileTooLarge => b"source file is too large",
        StatementFault::BadExpression => b"bad expression",
        StatementFault::NumberTooWide => b"number is too wide",
        StatementFault::ExpressionTooDeep => b"expression is nested too deeply",
        StatementFault::DivisionByZero => b"division by zero",
        StatementFault::ValueNotKnown => b"value is not known here",
        StatementFault::NotASumOfSymbols => b"expression is not a sum of symbols",
        StatementFault::BadMacroLine => b"bad macro line",
        StatementFault::MissingArgument => b"missing macro argument",
        StatementFault::UnclosedBlock => b"block is not closed",
        StatementFault::EndWithoutBeginning => b"end without a beginning",
        StatementFault::NestedTooDeeply => b"nested too deeply",
        StatementFault::ExpansionTooLong => b"expansion is too long",
        StatementFault::MacroAlreadyDefined => b"macro is already defined",
        StatementFault::ErrorDirective(text) => error_text(text),
        StatementFault::UnknownMnemonic => b"unknown mnemonic",
        StatementFault::UnknownDirective => b"unknown directive",
        StatementFault::BadOperand => b"bad operand",
        StatementFault::NoSuchForm => b"no form with these operands",
        StatementFault::UnknownOperandSize => b"operand size is not known",
        StatementFault::OutOfRange => b"value out of range",
        StatementFault::BadSection => b"bad section",
        StatementFault::SymbolAlreadyDefined => b"symbol is already defined",
        StatementFault::BadSymbolUse => b"bad use of symbol",
        StatementFault::CfiOutsideProcedure => b"CFI directive outside a procedure",
        StatementFault::UnbalancedCfiState => b"CFI states do not balance",
        StatementFault::FunctionSplit => b"function is split over sections",
        StatementFault::BadFileName => b"bad file name",
        StatementFault::UnassignedFileNumber => b"file number is not assigned",
        StatementFault::FileNumberInUse => b"file number is already in use",
    }
}

fn end_text(fault: EndFault) -> &'static [u8]
    ensures { result.now ≡ end_text fault }
{
    match fault {
        EndFault::UndefinedLocalSymbol => b"undefined local symbol",
        EndFault::NoRelocation => b"no relocation for this value",
        EndFault::DistanceOutOfRange => b"distance out of range",
        EndFault::OrgMovesBackwards => b".org moves backwards",
        EndFault::SectionTooLarge => b"section is too large",
        EndFault::UnclosedProcedure => b"CFI procedure is not closed",
        EndFault::WarningsAreErrors => b"warnings are treated as errors",
    }
}

fn scfi_text(alloc: Global, fault: ScfiFault) -> Result<String, NoMemory>
    ensures { IfOk result (λ text. string_bytes text ≡ scfi_text fault) }
{
    match fault {
        ScfiFault::FrameLost => String::from_str(alloc, "SCFI: frame is lost"),
        ScfiFault::RegisterLost(register) => {
            let name = register_name(register);
            format!(in alloc; "SCFI: %{name} is lost")
        }
        ScfiFault::ReturnAddressOverwritten => {
            String::from_str(alloc, "SCFI: return address is overwritten")
        }
        ScfiFault::StackNotRestored(None) => {
            String::from_str(alloc, "SCFI: stack is not restored: unknown")
        }
        ScfiFault::StackNotRestored(Some(distance)) => {
            format!(in alloc; "SCFI: stack is not restored: {distance}")
        }
        ScfiFault::RegisterNotRestored(register) => {
            let name = register_name(register);
            format!(in alloc; "SCFI: %{name} is not restored")
        }
        ScfiFault::UntraceableJump => String::from_str(alloc, "SCFI: jump cannot be traced"),
        ScfiFault::CallIntoFunction => String::from_str(alloc, "SCFI: call into the function"),
        ScfiFault::NotInstructions => String::from_str(alloc, "SCFI: code is not instructions"),
        ScfiFault::RunsPastEnd => String::from_str(alloc, "SCFI: function runs past its end"),
        ScfiFault::UnsupportedStackUse => String::from_str(alloc, "SCFI: unsupported stack use"),
        ScfiFault::OffsetTooLarge => String::from_str(alloc, "SCFI: offset is too large"),
    }
}

/// `FILE: Assembler messages:` and a line end, for the file of the first message.
pub fn heading(alloc: Global, pos: &Pos, files: &Files) -> Result<Bytes, NoMemory>
    ensures { IfOk result (λ text. text ≡ heading files.now pos.now) }
{
    let mut bytes = Vec::from_slice(alloc, files.name(pos.file).as_bytes())?;
    bytes.extend_from_slice(b": Assembler messages:\n")?;
    Ok(Bytes::new(bytes))
}

/// Appends the fault's text.
fn put_fault(alloc: Global, bytes: &mut Vec<u8>, fault: &Fault) -> Result<(), NoMemory>
    ensures { OnOk result (bytes.new.items ≡ bytes.old.items ++ fault_text fault.now) }
{
    match fault {
        Fault::Statement(fault) => bytes.extend_from_slice(statement_text(fault)),
        Fault::End(fault) => bytes.extend_from_slice(end_text(*fault)),
        Fault::Scfi(fault) => {
            let text = scfi_text(alloc, *fault)?;
            bytes.extend_from_slice(text.as_bytes())
        }
    }
}

/// How a message begins: `FILE:LINE: ` and this label.
fn message_front(alloc: Global, pos: &Pos, files: &Files, label: &[u8]) -> Result<Vec<u8>, NoMemory>
    ensures { IfOk result (λ front. front.items ≡ position_text files.now pos.now ++ label.now) }
{
    let mut bytes = Vec::from_slice(alloc, files.name(pos.file).as_bytes())?;
    let line = pos.line.to_string(alloc)?;
    bytes.extend_from_slice(b":")?;
    bytes.extend_from_slice(line.as_bytes())?;
    bytes.extend_from_slice(b": ")?;
    bytes.extend_from_slice(label)?;
    Ok(bytes)
}

/// The message with its line end.
fn ended(mut bytes: Vec<u8>) -> Result<Bytes, NoMemory>
    ensures { IfOk result (λ line. line ≡ bytes.items ++ codes "\n") }
{
    bytes.extend_from_slice(b"\n")?;
    Ok(Bytes::new(bytes))
}

/// The line of a fault at a place: `FILE:LINE: Error: TEXT` and a line end.
pub fn message(alloc: Global, fault: &Fault, pos: &Pos, files: &Files) -> Result<Bytes, NoMemory>
    ensures { IfOk result (λ text. text ≡ error_line files.now fault.now pos.now) }
{
    let mut bytes = message_front(alloc, pos, files, b"Error: ")?;
    put_fault(alloc, &mut bytes, fault)?;
    ended(bytes)
}

/// The text of a note, without the place.
fn note_text(note: &Note) -> &[u8]
    ensures { result.now ≡ note_text note.now }
{
    match note {
        Note::Written(text) => text.as_bytes(),
        Note::CfiIgnored => b"CFI directives are ignored under synthesis",
        Note::ValueTruncated => b"value is truncated",
    }
}

/// The line of a note at a place: `FILE:LINE: Warning: TEXT` and a line end.
pub fn warning(alloc: Global, note: &Note, pos: &Pos, files: &Files) -> Result<Bytes, NoMemory>
    ensures { IfOk result (λ text. text ≡ warning_line files.now note.now pos.now) }
{
    let mut bytes = message_front(alloc, pos, files, b"Warning: ")?;
    bytes.extend_from_slice(note_text(note))?;
    ended(bytes)
}
