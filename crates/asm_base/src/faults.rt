//! What a source is refused for, and what is only noted: one variant for each cause, and the text of its message.

use crate::texts::{SaidText, Text};

/// A fault that is found while statements are read, in the order in which a statement is looked at.
#[derive(Drop)]
pub enum StatementFault {
    /// A byte 0 stands in the source.
    NulByte,
    /// A string does not close on its line.
    UnclosedString,
    /// A block comment does not close.
    UnclosedComment,
    /// A statement has more than 2^16 bytes, those of comments not counted.
    StatementTooLong,
    /// A source file has more than 2^26 bytes.
    FileTooLarge,
    /// An operand or a closing parenthesis is missing.
    BadExpression,
    /// A number is above 2^64 - 1.
    NumberTooWide,
    /// More than 64 parentheses and prefix operators are open, or the tree is higher than 256.
    ExpressionTooDeep,
    /// The right side of `/` or `%` is 0.
    DivisionByZero,
    /// A value is needed where it is not known.
    ValueNotKnown,
    /// An operator other than `+` and `-` has an operand that is no constant.
    NotASumOfSymbols,
    /// A line of a macro, repeat, conditional or include is malformed.
    BadMacroLine,
    /// A call leaves out an argument that is required.
    MissingArgument,
    /// A block is open at the end of its file, call or repeat.
    UnclosedBlock,
    /// The end of a block that did not begin.
    EndWithoutBeginning,
    /// More than 32 files, or more than 64 calls and repeats, are open.
    NestedTooDeeply,
    /// Expansion gives more than 2^22 statements.
    ExpansionTooLong,
    /// A macro of this name is already defined.
    MacroAlreadyDefined,
    /// `.err`, or `.error` with its text.
    ErrorDirective(SaidText),
    /// No instruction has this name.
    UnknownMnemonic,
    /// No directive has this name.
    UnknownDirective,
    /// An operand is malformed, missing, or one too many.
    BadOperand,
    /// The instruction has no form with these operands.
    NoSuchForm,
    /// Nothing fixes the size of the operation.
    UnknownOperandSize,
    /// A number is outside its range.
    OutOfRange,
    /// A section is used against its flags or its type.
    BadSection,
    /// A symbol is defined twice.
    SymbolAlreadyDefined,
    /// A symbol is used in a way that its other uses rule out.
    BadSymbolUse,
    /// A CFI directive stands outside `.cfi_startproc` and `.cfi_endproc`.
    CfiOutsideProcedure,
    /// CFI states or procedures do not pair.
    UnbalancedCfiState,
    /// An instruction of a function stands in another section.
    FunctionSplit,
    /// An included file's name is empty, or no text.
    BadFileName,
    /// A `.loc` names a file number that no `.file` before it gave.
    UnassignedFileNumber,
    /// A `.file` gives a number again with another directory or name.
    FileNumberInUse,
}

// A result of a statement is copied at each `?`.
const _: () = prove!(size_of::<StatementFault>() <= 16);

/// A fault that shows at the end of the source.
#[derive(Clone, Copy, Drop)]
pub enum EndFault {
    /// A local symbol is named and never defined.
    UndefinedLocalSymbol,
    /// No relocation has the form of the value.
    NoRelocation,
    /// A distance does not fit its field.
    DistanceOutOfRange,
    /// An `.org` moves backwards.
    OrgMovesBackwards,
    /// A section has more than 2^30 bytes.
    SectionTooLarge,
    /// A `.cfi_startproc` has no `.cfi_endproc`.
    UnclosedProcedure,
    /// A warning was made under `--fatal-warnings`.
    WarningsAreErrors,
}

/// A register that a called function keeps (psABI for AMD64, section 3.2.1), the stack pointer aside.
#[derive(Clone, Copy, PartialEq, Eq, Debug, Drop)]
pub enum SavedRegister {
    Rbx,
    Rbp,
    R12,
    R13,
    R14,
    R15,
}

/// A fault that the synthesis of frame tables finds.
#[derive(Clone, Copy, Drop)]
pub enum ScfiFault {
    /// Neither the stack pointer's nor the frame pointer's distance from the frame address is known.
    FrameLost,
    /// The register's value at entry is nowhere.
    RegisterLost(SavedRegister),
    /// The return address is overwritten, or the stack pointer rises above it.
    ReturnAddressOverwritten,
    /// The function is left with this distance of the stack pointer from the frame address, in bytes, or an unknown one.
    StackNotRestored(Option<i64>),
    /// The function is left with another value in the register.
    RegisterNotRestored(SavedRegister),
    /// A jump's target is not one symbol.
    UntraceableJump,
    /// A call goes to a label inside the function.
    CallIntoFunction,
    /// Data stands in the function's flow.
    NotInstructions,
    /// Control runs past the function's last instruction.
    RunsPastEnd,
    /// A form of `push`, `pop` or `ret` that the synthesis does not follow.
    UnsupportedStackUse,
    /// A distance is beyond 2^30 bytes.
    OffsetTooLarge,
}

/// What a run is refused for.
#[derive(Drop)]
pub enum Fault {
    Statement(StatementFault),
    End(EndFault),
    Scfi(ScfiFault),
}

/// What a run tells and goes on.
#[derive(Drop)]
pub enum Note {
    /// The text of a `.warning`.
    Written(Text),
    /// Written CFI directives are ignored, since the frame tables are synthesized.
    CfiIgnored,
    /// A value was cut to the low bytes of its item.
    ValueTruncated,
}
