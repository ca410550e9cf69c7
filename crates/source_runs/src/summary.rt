//! What is said of a source with an object: its messages, and the summary of one that the assembler makes by itself.

ghost use Rattle.std.specs.Prelude.{◌≡◌, ◌++◌, IfOk, OnOk, length};
ghost use Rattle.std.specs.Option.{option_map};
ghost use Rattle.asm_base.specs.Messages.{remarks};
ghost use Rattle.source_runs.specs.Summary.{layout_lines, summary_by, summary_line, summary_text};

use asm_base::{Bytes, NoMemory, remarks};
use asm_front::Assembled;
use itoa::Buffer;
use source_ends::Counts;
use std::alloc::Global;

/// What is said of a source with an object.
#[derive(Drop)]
pub struct Report {
    pub messages: Bytes,
    /// Of a source that comes from a file there is none.
    pub summary: Option<Bytes>,
}

impl Report {
    /// The bytes of the summary, if there is one.
    pub fn summary_bytes(&self) -> Option<&[u8]>
        ensures { option_map (λ text. text.now) result ≡ self.now.summary }
    {
        match &self.summary {
            Some(text) => Some(text.as_slice()),
            None => None,
        }
    }
}

/// Appends a line of the summary.
fn put_line(text: &mut Vec<u8>, label: &[u8], number: u64) -> Result<(), NoMemory>
    ensures { OnOk result (text.new.items ≡ text.old.items ++ summary_line label.now number) }
{
    let mut buffer = Buffer::new();
    text.extend_from_slice(label)?;
    text.extend_from_slice(b" ")?;
    text.extend_from_slice(buffer.format(number).as_bytes())?;
    text.extend_from_slice(b"\n")
}

/// Appends the lines on the layout.
#[tactic(auto, unfolding(crate::specs::Summary::layout_lines))]
fn put_layout(text: &mut Vec<u8>, counts: &Counts) -> Result<(), NoMemory>
    ensures { OnOk result (text.new.items ≡ text.old.items ++ layout_lines counts.now) }
{
    put_line(text, b"text bytes", counts.text_bytes)?;
    put_line(text, b"near jumps", counts.near_jumps)?;
    put_line(text, b"rounds", counts.rounds)
}

/// The summary of a source of which this is counted, with an object of so many bytes.
#[tactic(auto, unfolding(crate::specs::Summary::summary_text))]
fn summary(alloc: Global, counts: &Counts, size: u64) -> Result<Bytes, NoMemory>
    ensures { IfOk result (λ text. text ≡ summary_text counts.now size) }
{
    let mut text = Vec::new(alloc);
    put_line(&mut text, b"functions", counts.functions)?;
    put_layout(&mut text, counts)?;
    put_line(&mut text, b"frames", counts.frames)?;
    put_line(&mut text, b"object bytes", size)?;
    Ok(Bytes::new(text))
}

/// The summary, where the source is made of a number of functions.
fn summary_of(
    alloc: Global,
    self_load: Option<u32>,
    made: &Assembled,
) -> Result<Option<Bytes>, NoMemory>
    ensures { IfOk result (λ summary.
        summary ≡ summary_by self_load made.now.counts (length made.now.object)) }
{
    match self_load {
        Some(_) => Ok(Some(summary(alloc, &made.counts, made.object.len())?)),
        None => Ok(None),
    }
}

/// What is said of a source with this object, where it is made of a number of functions or comes from a file.
pub fn report_of(
    alloc: Global,
    self_load: Option<u32>,
    made: &Assembled,
) -> Result<Report, NoMemory>
    ensures messages { IfOk result (λ report.
        report.messages ≡ remarks made.now.files made.now.notes) }
    ensures summary { IfOk result (λ report.
        report.summary ≡ summary_by self_load made.now.counts (length made.now.object)) }
{
    Ok(Report {
        messages: remarks(alloc, made.notes.as_slice(), &made.files)?,
        summary: summary_of(alloc, self_load, made)?,
    })
}
