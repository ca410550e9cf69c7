//! Included files (GNU as manual, ".include").

ghost use Rattle.std.specs.Prelude.{◌≡◌, ◌≤◌, length, map, string_bytes, vec_len};
ghost use Rattle.asm_base.specs.Tokens.{spelled};
ghost use Rattle.asm_lines.specs.Statements.{statements_of};
ghost use Rattle.macro_words.specs.Files.{in_file};
ghost use Rattle.macro_blocks.specs.Frames.{level_of};
ghost use Rattle.asm_macro.specs.Expansion as spec;
ghost use Rattle.asm_macro.specs.Readings.{Uses, input_by};
ghost use Rattle.asm_macro.specs.Starts.{files_after};
ghost use Rattle.asm_macro.specs.Turning.{EntersFile, IsOpened, IsRewriting, KeepsFew, state_of};

use crate::expander::Expander;
use crate::faults::ExpandFault;
use crate::open_parts::Part;
use crate::refusing::{standing, whole};
use crate::turned::Turned;
use asm_base::{Inputs, Pos, Text, TextFault, Token, read_text};
use asm_lines::fault_of_lines;
use macro_blocks::Frame;
use macro_words::{MacroCause, file_name, line_cause, line_of_cause};
use std::alloc::Global;
use std::rc::Rc;

/// The statements of a file that was read, started in the call of this number, if in one, or the fault of its lines.
fn open_file<F: Drop>(
    alloc: Global,
    text: Text,
    file: u32,
    number: Option<u64>,
) -> Result<Turned, ExpandFault<F>>
    ensures { IsOpened result number file (in_file (statements_of file text)) }
{
    match fault_of_lines(alloc, &text, file) {
        Err(_) => Err(ExpandFault::NoMemory),
        Ok(Some(cause)) => {
            let line = line_of_cause(cause);
            Err(ExpandFault::Expansion(line_cause(cause), Pos { file, line }))
        }
        Ok(None) => match Rc::new(alloc, text) {
            Err(_) => Err(ExpandFault::NoMemory),
            Ok(text) => match Part::new(alloc, Frame::file(alloc, text, file, 0, 1, number)) {
                Err(_) => Err(ExpandFault::NoMemory),
                Ok(part) => Ok(Turned::Enters(part)),
            },
        },
    }
}

impl Expander {
    /// A file is read whole, and becomes its statements.
    fn read_file<I: Inputs, F: Drop>(
        &mut self,
        ins: &mut I,
        name: String,
        frame: &Frame,
    ) -> Result<Turned, ExpandFault<F>>
        requires { length self.old.files ≤ self.old.given }
        ensures turn { IsRewriting result
            (spec.include_told (level_of frame.now).call_number (string_bytes name)
            (I.contents ins.old)
            (spec.under (level_of frame.now) (state_of self.old)))
            (level_of frame.now) self.old.files (state_of self.new) }
        ensures input { Uses result
            (files_after self.old.files
            (spec.include_told (level_of frame.now).call_number (string_bytes name)
            (I.contents ins.old)
            (spec.under (level_of frame.now) (state_of self.old))))
            self.old.files self.new.files
            (input_by I.contents I.rest I.faults I.missing I.taken I.history ins.old)
            (input_by I.contents I.rest I.faults I.missing I.taken I.history ins.new) }
        ensures given { self.new.given ≡ self.old.given }
        ensures parts { vec_len self.new.frames ≤ vec_len self.old.frames }
        ensures file { EntersFile result }
        ensures levels { (state_of self.new).levels ≡ (state_of self.old).levels }
    {
        let file = self.files.len() as u32;
        match read_text(self.alloc, ins, &name) {
            Ok(text) => match self.files.add(name) {
                Ok(()) => open_file(self.alloc, text, file, frame.call_number()),
                Err(_) => Err(ExpandFault::NoMemory),
            },
            Err(TextFault::TooLarge) => match self.files.add(name) {
                Ok(()) => {
                    let pos = Pos { file, line: 1 };
                    Err(ExpandFault::Expansion(MacroCause::FileTooLarge, pos))
                }
                Err(_) => Err(ExpandFault::NoMemory),
            },
            Err(TextFault::Read) => Err(ExpandFault::Read),
            Err(TextFault::NoMemory) => Err(ExpandFault::NoMemory),
        }
    }

    /// An include becomes the file's statements.
    #[tactic(auto, using(crate::proofs::Wholes::uses_none), unfolding(crate::specs::Expansion::include))]
    pub(crate) fn include<I: Inputs, F: Drop>(
        &mut self,
        ins: &mut I,
        pos: Pos,
        operands: &[Token],
        frame: &Frame,
    ) -> Result<Turned, ExpandFault<F>>
        requires { length self.old.files ≤ self.old.given }
        ensures turn { IsRewriting result
            (spec.include (I.contents ins.old) pos (map spelled operands.now)
            (level_of frame.now) (state_of self.old))
            (level_of frame.now) self.old.files (state_of self.new) }
        ensures input { Uses result
            (files_after self.old.files
            (spec.include (I.contents ins.old) pos (map spelled operands.now)
            (level_of frame.now) (state_of self.old)))
            self.old.files self.new.files
            (input_by I.contents I.rest I.faults I.missing I.taken I.history ins.old)
            (input_by I.contents I.rest I.faults I.missing I.taken I.history ins.new) }
        ensures given { self.new.given ≡ self.old.given }
        ensures parts { vec_len self.new.frames ≤ vec_len self.old.frames }
        ensures few { KeepsFew (level_of frame.now) (state_of self.old)
            result (level_of frame.now) (state_of self.new) }
    {
        let name = match file_name(self.alloc, operands) {
            Ok(name) => name,
            Err(refusal) => return whole(Err(standing(refusal, pos))),
        };
        if self.has_most_files(frame) {
            return Err(ExpandFault::Expansion(MacroCause::NestedTooDeeply, pos));
        }
        self.read_file(ins, name, frame)
    }
}
