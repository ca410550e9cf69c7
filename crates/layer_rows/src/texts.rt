//! Tokens, and messages one by one.

use asm_base::{
    Fault, Files, Note, Pos, StatementFault, Text, TokenKind, Tokens, heading, message, warning,
};
use row_texts::{write_line, write_text};
use std::alloc::{AllocError, Global};
use std::io;

/// The word for a class of tokens.
fn word(kind: TokenKind) -> &'static str {
    match kind {
        TokenKind::Name => "name",
        TokenKind::Digits => "digits",
        TokenKind::Character => "character",
        TokenKind::String => "string",
        TokenKind::Operator => "operator",
        TokenKind::Other => "other",
    }
}

/// `tokens TEXT`: a token a line.
pub fn write_tokens(alloc: Global, text: &str, out: &mut Vec<u8>) -> io::Result<()> {
    let tokens = Tokens::read(alloc, text.as_bytes())?;
    for token in tokens.as_slice() {
        write_text(word(token.kind), out)?;
        write_text(" ", out)?;
        out.extend_from_slice(token.bytes)?;
        write_line("", out)?;
    }
    Ok(())
}

/// The names of the one file `x.s`.
fn one_file(alloc: Global) -> Result<Files, AllocError> {
    let mut files = Files::new(alloc);
    files.add(String::from_str(alloc, "x.s")?)?;
    Ok(files)
}

/// `messages`: a heading, a message, and two warnings.
pub fn write_messages(alloc: Global, out: &mut Vec<u8>) -> io::Result<()> {
    let files = one_file(alloc)?;
    let pos = Pos { file: 0, line: 7 };
    out.extend_from_slice(heading(alloc, &pos, &files)?.as_slice())?;
    let fault = Fault::Statement(StatementFault::UnknownMnemonic);
    out.extend_from_slice(message(alloc, &fault, &pos, &files)?.as_slice())?;
    out.extend_from_slice(warning(alloc, &Note::ValueTruncated, &pos, &files)?.as_slice())?;
    let written = Note::Written(Text::new(b"of old".to_vec(alloc)?));
    out.extend_from_slice(warning(alloc, &written, &pos, &files)?.as_slice())?;
    Ok(())
}
