//! The outside over a real file, real streams and memory, and a count of steps.

ghost use Rattle.std.specs.Prelude.{◌≡◌, ℕ, ◌<◌};

use asm_base::{
    Channel, Console, Failed, FileInputs, FileOutput, Inputs, Output, Steps, read_text,
};
use memory_outside::{MemoryFile, MemoryInputs};
use row_texts::{write_count, write_line, write_number, write_text};
use std::alloc::Global;
use std::fs::{self, Files};
use std::io::Input;
use std::marker::Brand;
use std::sync::ledger::{Blank, Ledger};
use std::test::Fail;

/// Writes a file, and answers how many bytes were taken.
fn write_file(obj: &mut impl Output) -> Result<usize, Failed> {
    obj.create("written.tmp")?;
    let taken = obj.write(b"nop\n")?;
    obj.finish()?;
    Ok(taken)
}

/// Reads the file again, and asks for a name that no file has.
fn read_file(alloc: Global, ins: &mut impl Inputs, out: &mut Vec<u8>) -> Result<(), Fail> {
    let text = read_text(alloc, ins, "written.tmp")?;
    out.extend_from_slice(text.as_bytes())?;
    let told = match ins.start("no such file") {
        Ok(()) => "started",
        Err(_) => "not started",
    };
    write_line(told, out)?;
    Ok(())
}

/// A file that is written is read back, and removed; a name that no file has is told so.
pub fn write_real_file(
    rt: &(impl Files + Input + Alloc),
    alloc: Global,
    out: &mut Vec<u8>,
) -> Result<(), Fail> {
    let taken = write_file(&mut FileOutput::new(rt, 11)?)?;
    write_count(taken as u64, " bytes taken, and read again:", out)?;
    read_file(alloc, &mut FileInputs::new(rt), out)?;
    fs::remove_file(rt, "written.tmp")?;
    Ok(())
}

/// What is said on a console is taken whole.
pub fn write_console(con: &mut impl Console, out: &mut Vec<u8>) -> Result<(), Fail> {
    let on_output = con.say(Channel::Out, b"said\n")?;
    let on_error = con.say(Channel::Err, b"said\n")?;
    write_number(on_output as u64, out)?;
    write_text(" and ", out)?;
    write_count(on_error as u64, " bytes said", out)?;
    Ok(())
}

/// The count after three steps.
fn three_steps<L: Ledger>(blank: Blank) -> Steps<L>
    requires name { blank.name ≡ L.name }
    requires parts { blank.parts ≡ L.parts }
    requires some { 0 < blank.parts }
    ensures { result ≡ 3 }
{
    let mut steps = Steps::new(blank);
    steps.tick();
    steps.tick();
    steps.tick();
    steps
}

/// Counts three steps on a ledger of its own.
fn count_steps<L: Ledger>(blank: Blank)
    requires name { blank.name ≡ L.name }
    requires parts { blank.parts ≡ L.parts }
    requires some { 0 < blank.parts }
{
    let _counted: Steps<L> = three_steps(blank);
}

/// A file of an input in memory, a name that none has, and a count of steps.
pub fn write_memory(alloc: Global, out: &mut Vec<u8>) -> Result<(), Fail> {
    let files = [MemoryFile {
        name: "x.s",
        bytes: b"ret",
    }];
    let mut ins = MemoryInputs::new(&files);
    let text = read_text(alloc, &mut ins, "x.s")?;
    let empty = read_text(alloc, &mut ins, "y.s")?;
    write_number(text.as_bytes().len() as u64, out)?;
    write_text(" and ", out)?;
    write_count(empty.as_bytes().len() as u64, " bytes in memory", out)?;
    count_steps::<Brand>(Blank::new(1));
    Ok(())
}
