//! How a file is written: many pieces in few writes.

ghost use Rattle.std.specs.Prelude.{◌≡◌, ℕ, ◌≤◌, [], ◌++◌, length, take, OnErr, OnOk, option_map};
ghost use Rattle.asm_base.specs.Counts.{HasCause};
ghost use Rattle.asm_base.specs.Output.{after_write};
ghost use Rattle.item_contents.specs.Contents.{repeated};
ghost use Rattle.elf_file.specs.Pieces.{piece_bytes, flat, mixed_bytes};
ghost use Rattle.elf_file.specs.Waiting.{Sends, SendsFront};

use crate::file_pieces::{Blocks, Mixed, Piece, Repetition};
use crate::image::ElfFile;
use crate::output_buffer::{Buffer, ROOM, zeros};
use asm_base::{Failed, Output};

/// Writes bytes: all of them, or a front of them where the output fails.
fn write_bytes<O: Output>(obj: &mut O, bytes: &[u8]) -> Result<(), Failed>
    ensures ok { OnOk result (O.made obj.new
        ≡ option_map (after_write bytes.now) (O.made obj.old)) }
    ensures prefix { (n : ℕ) × (n ≤ length bytes.now) × (O.made obj.new
        ≡ option_map (after_write (take n bytes.now)) (O.made obj.old)) }
    ensures cause { HasCause (O.faults obj.old) (O.faults obj.new) result }
{
    let mut at = 0;
    'pieces: while at < bytes.len() {
        at += obj.write(&bytes[at..])?;
    }
    Ok(())
}

/// Writes bytes `count` times: all of them, or a front of them where the output fails.
fn write_repeated<O: Output>(obj: &mut O, bytes: &[u8], count: u64) -> Result<(), Failed>
    ensures ok { OnOk result (O.made obj.new
        ≡ option_map (after_write (repeated count bytes.now)) (O.made obj.old)) }
    ensures prefix { (n : ℕ) × (n ≤ length (repeated count bytes.now)) × (O.made obj.new
        ≡ option_map (after_write (take n (repeated count bytes.now))) (O.made obj.old)) }
    ensures cause { HasCause (O.faults obj.old) (O.faults obj.new) result }
{
    for i in 0..count {
        write_bytes(obj, bytes)?;
    }
    Ok(())
}

/// Writes a repetition in blocks: all of it, or a front of it where the output fails.
#[inline(never)]
fn write_repetition<O: Output>(obj: &mut O, held: &Repetition) -> Result<(), Failed>
    ensures ok { OnOk result (O.made obj.new
        ≡ option_map (after_write held.now) (O.made obj.old)) }
    ensures prefix { (n : ℕ) × (n ≤ length held.now) × (O.made obj.new
        ≡ option_map (after_write (take n held.now)) (O.made obj.old)) }
    ensures cause { HasCause (O.faults obj.old) (O.faults obj.new) result }
{
    let mut block = zeros();
    let Blocks { size, count, rest } = held.fill(&mut block);
    write_repeated(obj, &block[..size], count)?;
    write_bytes(obj, &block[..rest])
}

/// Writes the bytes that wait: all of them, or a front of them where the output fails.
fn flush<O: Output>(obj: &mut O, buffer: &mut Buffer) -> Result<(), Failed>
    ensures ok { OnOk result (O.made obj.new
        ≡ option_map (after_write buffer.old) (O.made obj.old)) }
    ensures empty { OnOk result (buffer.new ≡ []) }
    ensures front { OnErr result (SendsFront (O.made obj.old) (O.made obj.new) buffer.old) }
    ensures cause { HasCause (O.faults obj.old) (O.faults obj.new) result }
{
    write_bytes(obj, buffer.as_slice())?;
    buffer.clear();
    Ok(())
}

/// Puts bytes behind those that wait, which are written first.
#[inline(never)]
fn put_more<O: Output>(obj: &mut O, buffer: &mut Buffer, bytes: &[u8]) -> Result<(), Failed>
    ensures sent { OnOk result (Sends (O.made obj.old) (O.made obj.new)
        (buffer.old ++ bytes.now) buffer.new) }
    ensures front { OnErr result (SendsFront (O.made obj.old) (O.made obj.new)
        (buffer.old ++ bytes.now)) }
    ensures cause { HasCause (O.faults obj.old) (O.faults obj.new) result }
{
    flush(obj, buffer)?;
    if bytes.len() > ROOM {
        return write_bytes(obj, bytes);
    }
    buffer.put(bytes);
    Ok(())
}

/// Puts bytes behind those that wait.
fn put_bytes<O: Output>(obj: &mut O, buffer: &mut Buffer, bytes: &[u8]) -> Result<(), Failed>
    ensures sent { OnOk result (Sends (O.made obj.old) (O.made obj.new)
        (buffer.old ++ bytes.now) buffer.new) }
    ensures front { OnErr result (SendsFront (O.made obj.old) (O.made obj.new)
        (buffer.old ++ bytes.now)) }
    ensures cause { HasCause (O.faults obj.old) (O.faults obj.new) result }
{
    if bytes.is_empty() {
        return Ok(());
    }
    if bytes.len() > buffer.room() {
        return put_more(obj, buffer, bytes);
    }
    buffer.put(bytes);
    Ok(())
}

/// Puts a repetition behind the bytes that wait, which are written first.
#[inline(never)]
fn put_large<O: Output>(obj: &mut O, buffer: &mut Buffer, held: &Repetition) -> Result<(), Failed>
    ensures sent { OnOk result (Sends (O.made obj.old) (O.made obj.new)
        (buffer.old ++ held.now) buffer.new) }
    ensures front { OnErr result (SendsFront (O.made obj.old) (O.made obj.new)
        (buffer.old ++ held.now)) }
    ensures cause { HasCause (O.faults obj.old) (O.faults obj.new) result }
{
    flush(obj, buffer)?;
    match held.len() {
        Some(size) if size <= ROOM => {
            buffer.put_repetition(held, size);
            Ok(())
        }
        _ => write_repetition(obj, held),
    }
}

/// Puts a repetition behind the bytes that wait.
fn put_repetition<O: Output>(
    obj: &mut O,
    buffer: &mut Buffer,
    held: &Repetition,
) -> Result<(), Failed>
    ensures sent { OnOk result (Sends (O.made obj.old) (O.made obj.new)
        (buffer.old ++ held.now) buffer.new) }
    ensures front { OnErr result (SendsFront (O.made obj.old) (O.made obj.new)
        (buffer.old ++ held.now)) }
    ensures cause { HasCause (O.faults obj.old) (O.faults obj.new) result }
{
    match held.len() {
        Some(size) if size <= buffer.room() => {
            buffer.put_repetition(held, size);
            Ok(())
        }
        _ => put_large(obj, buffer, held),
    }
}

/// Puts held bytes and a repetition behind the bytes that wait.
fn put_both<O: Output>(
    obj: &mut O,
    buffer: &mut Buffer,
    bytes: &[u8],
    held: &Repetition,
) -> Result<(), Failed>
    ensures sent { OnOk result (Sends (O.made obj.old) (O.made obj.new)
        (buffer.old ++ (bytes.now ++ held.now)) buffer.new) }
    ensures front { OnErr result (SendsFront (O.made obj.old) (O.made obj.new)
        (buffer.old ++ (bytes.now ++ held.now))) }
    ensures cause { HasCause (O.faults obj.old) (O.faults obj.new) result }
{
    put_bytes(obj, buffer, bytes)?;
    put_repetition(obj, buffer, held)
}

/// Puts held bytes with repetitions between them behind the bytes that wait.
fn put_mixed<O: Output>(obj: &mut O, buffer: &mut Buffer, held: &Mixed) -> Result<(), Failed>
    ensures sent { OnOk result (Sends (O.made obj.old) (O.made obj.new)
        (buffer.old ++ mixed_bytes held.now) buffer.new) }
    ensures front { OnErr result (SendsFront (O.made obj.old) (O.made obj.new)
        (buffer.old ++ mixed_bytes held.now)) }
    ensures cause { HasCause (O.faults obj.old) (O.faults obj.new) result }
{
    let bytes = held.bytes.as_slice();
    let between = held.between.as_slice();
    let mut at = 0;
    for one in between {
        let upto = at + one.held.min(bytes.len() - at);
        put_both(obj, buffer, &bytes[at..upto], &one.repetition)?;
        at = upto;
    }
    put_bytes(obj, buffer, &bytes[at..])
}

/// Puts a piece behind the bytes that wait.
fn put_piece<O: Output>(obj: &mut O, buffer: &mut Buffer, piece: &Piece) -> Result<(), Failed>
    ensures sent { OnOk result (Sends (O.made obj.old) (O.made obj.new)
        (buffer.old ++ piece_bytes piece.now) buffer.new) }
    ensures front { OnErr result (SendsFront (O.made obj.old) (O.made obj.new)
        (buffer.old ++ piece_bytes piece.now)) }
    ensures cause { HasCause (O.faults obj.old) (O.faults obj.new) result }
{
    match piece {
        Piece::Bytes(bytes) => put_bytes(obj, buffer, bytes),
        Piece::Repeated(held) => put_repetition(obj, buffer, held),
        Piece::Mixed(held) => put_mixed(obj, buffer, held),
    }
}

/// Puts pieces behind the bytes that wait.
fn put_pieces<O: Output>(obj: &mut O, buffer: &mut Buffer, pieces: &[Piece]) -> Result<(), Failed>
    ensures sent { OnOk result (Sends (O.made obj.old) (O.made obj.new)
        (buffer.old ++ flat pieces.now) buffer.new) }
    ensures front { OnErr result (SendsFront (O.made obj.old) (O.made obj.new)
        (buffer.old ++ flat pieces.now)) }
    ensures cause { HasCause (O.faults obj.old) (O.faults obj.new) result }
{
    for piece in pieces {
        put_piece(obj, buffer, piece)?;
    }
    Ok(())
}

/// Writes a header and the pieces behind it: all of them, or a front of them where the output fails.
fn write_pieces<O: Output>(obj: &mut O, header: &[u8], pieces: &[Piece]) -> Result<(), Failed>
    ensures ok { OnOk result (O.made obj.new
        ≡ option_map (after_write (header.now ++ flat pieces.now)) (O.made obj.old)) }
    ensures prefix { (n : ℕ) × (n ≤ length (header.now ++ flat pieces.now)) × (O.made obj.new
        ≡ option_map (after_write (take n (header.now ++ flat pieces.now))) (O.made obj.old)) }
    ensures cause { HasCause (O.faults obj.old) (O.faults obj.new) result }
{
    let mut buffer = Buffer::new();
    put_bytes(obj, &mut buffer, header)?;
    put_pieces(obj, &mut buffer, pieces)?;
    flush(obj, &mut buffer)
}

impl ElfFile {
    ghost use Rattle.std.specs.Prelude.{◌≡◌, ℕ, ◌≤◌, length, take, OnOk, option_map};
    ghost use Rattle.asm_base.specs.Counts.{HasCause};
    ghost use Rattle.asm_base.specs.Output.{after_write};

    /// Writes the bytes to the file that the output makes: all of them, or a front of them where the output fails.
    /// It takes no memory.
    pub fn write_to<O: Output>(&self, obj: &mut O) -> Result<(), Failed>
        ensures ok { OnOk result (O.made obj.new
            ≡ option_map (after_write self.now) (O.made obj.old)) }
        ensures prefix { (n : ℕ) × (n ≤ length self.now) × (O.made obj.new
            ≡ option_map (after_write (take n self.now)) (O.made obj.old)) }
        ensures cause { HasCause (O.faults obj.old) (O.faults obj.new) result }
    {
        write_pieces(obj, &self.header, &self.pieces)
    }
}
