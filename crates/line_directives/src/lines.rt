//! The directives of a line table, taken one after the other.

use crate::faults::{LineTableCause, LineTableFault};
use crate::loc_lines::LocLine;
use crate::numbered::make_room;
use crate::sequences::{Sequence, add_row};
use crate::source_files::SourceFiles;
use asm_base::{Bytes, Pos, SectionPlace};
use line_rows::LineRow;
use std::alloc::{AllocError, Global};
use std::marker::Model;

/// The line table of the directives so far.
#[derive(Drop)]
pub struct Lines {
    alloc: Global,
    /// Where the first `.file` with a number is.
    first: Option<Pos>,
    files: SourceFiles,
    is_stmt: bool,
    isa: u32,
    /// The rows of each section, by its number.
    sequences: Vec<Option<Sequence>>,
}

impl Model for Lines {
    ghost use Rattle.line_directives.specs.Taking.{LineTable};

    ghost Value = { LineTable };

    ghost view = { λ inside. record {
      first = inside.first;
      files = inside.files;
      is_stmt = inside.is_stmt;
      isa = inside.isa;
      sequences = inside.sequences.items;
    } };
}

impl Lines {
    ghost use Rattle.std.specs.Prelude.{◌≡◌, OnOk};
    ghost use Rattle.line_directives.specs.Taking as spec;

    /// No directive.
    pub fn new(alloc: Global) -> Lines
        ensures { result ≡ spec.no_lines }
    {
        Lines {
            alloc,
            first: None,
            files: SourceFiles::new(alloc),
            is_stmt: true,
            isa: 0,
            sequences: Vec::new(alloc),
        }
    }

    /// `.file` with a number (GNU as manual, ".file"), at its position. `FileNumberInUse` comes exactly where the number is
    /// given again with another directory or name. A refusal for it changes nothing; after want of memory the table is only
    /// dropped.
    pub fn file(
        &mut self,
        pos: Pos,
        number: u32,
        directory: Option<Bytes>,
        name: Bytes,
    ) -> Result<(), LineTableFault>
        ensures { spec.Changes self.old self.new result
            (spec.filed pos number directory name self.old) }
    {
        match self.files.is_given(number, &directory, &name) {
            Some(true) => Ok(()),
            Some(false) => Err(LineTableFault::Fault(LineTableCause::FileNumberInUse)),
            None => {
                self.files.put(number, directory, name)?;
                self.first = Some(self.first.unwrap_or(pos));
                Ok(())
            }
        }
    }

    /// Puts a row last among those of its section.
    #[tactic(auto, using(crate::proofs::UnderLemmas::at_place))]
    fn add(&mut self, row: &LineRow, at: SectionPlace) -> Result<(), AllocError>
        ensures { OnOk result (self.new ≡ spec.with_section_row at row.now self.old) }
    {
        let section = at.section as usize;
        make_room(&mut self.sequences, section + 1)?;
        let alloc = self.alloc;
        add_row(&mut self.sequences[section], alloc, row, at.place)
    }

    /// `.loc` at its place (GNU as manual, ".loc"): a row of the section. `UnassignedFileNumber` comes exactly where no
    /// `.file` before it gave its file number. A refusal for it changes nothing; after want of memory the table is only
    /// dropped.
    pub fn loc(&mut self, line: LocLine, at: SectionPlace) -> Result<(), LineTableFault>
        ensures { spec.Changes self.old self.new result (spec.located line at self.old) }
    {
        if !self.files.has(line.file) {
            return Err(LineTableFault::Fault(LineTableCause::UnassignedFileNumber));
        }
        let row = line.row(self.is_stmt, self.isa);
        self.add(&row, at)?;
        self.is_stmt = row.is_stmt;
        self.isa = row.isa;
        Ok(())
    }

    /// Where the first `.file` with a number is, at which faults of what is made for the table are reported.
    pub fn first(&self) -> Option<Pos>
        ensures { result ≡ self.now.first }
    {
        self.first
    }

    /// The files.
    pub fn files(&self) -> &SourceFiles
        ensures { result.now ≡ self.now.files }
    {
        &self.files
    }

    /// The rows of each section, by its number.
    pub fn sequences(&self) -> &[Option<Sequence>]
        ensures { result.now ≡ self.now.sequences }
    {
        self.sequences.as_slice()
    }
}
