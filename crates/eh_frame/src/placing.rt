//! A frame table, put behind what stands in its section.

ghost use Rattle.std.specs.Prelude.{◌≡◌, ◌<◌, ◌≤◌, true, false, List, [], ◌∷◌, ◌++◌, None, Ok, Err, codes, length, OnOk, IfOk, IfErr, slice_get};
ghost use Rattle.asm_base.specs.declared.refusals.Refusal.TheVariants.{NoMemory};
ghost use Rattle.asm_base.specs.Refusals.{Gives};
ghost use Rattle.asm_base.specs.declared.causes.FragCause.TheVariants.{BadSection};
ghost use Rattle.std.specs.List.{list_any};
ghost use Rattle.asm_frags.specs.SectionOf.{is_section_named, section_number};
ghost use Rattle.cfi_directives.specs.declared.frames.Frame.{Frame as FrameValue};
ghost use Rattle.table_pieces.specs.Ends as ends;
ghost use Rattle.table_pieces.specs.Pieces.{Takes, Tables, pieces_put, tables_of};
ghost use Rattle.eh_frame.specs.Commons.{common_pieces};
ghost use Rattle.eh_frame.specs.Progress.{commons_in, putting_in};
ghost use Rattle.eh_frame.specs.Placing as spec;

use crate::commons::{
    behind_common, behind_common_rest, put_common_head, put_common_rest, share_common,
};
use crate::entries::put_entry;
use asm_base::{SectionPlace, Text};
use asm_frags::{FragCause, FragFault, SHT_NOBITS, SHT_PROGBITS, SectionFlags, Sections};
use asm_symbols::Symbols;
use cfi_directives::{Frame, Frames};
use std::alloc::Global;
use table_pieces::{SectionEnd, Table};

/// The name of the section of frame tables (psABI for AMD64, section 4.2.4).
const NAME: &[u8] = b".eh_frame";

/// The exponent of the padding of an entry before so many others: the last one fills the section up to its alignment.
fn padded_log(following: &[Frame]) -> u8
    ensures log { result ≡ spec.padded_log following.now }
    ensures small { result ≤ 30 }
{
    match following {
        [] => 3,
        [_, ..] => 2,
    }
}

/// A CIE that stands at a place, by a procedure that it is made for.
#[derive(Clone, Copy)]
struct KnownCommon<'a> {
    frame: &'a Frame,
    place: SectionPlace,
}

/// The CIEs so far, and the end of the section behind what was put.
#[derive(Drop)]
struct Progress<'a> {
    commons: Vec<KnownCommon<'a>>,
    end: SectionEnd,
}

/// Where the CIE of a procedure stands, if it is there.
#[tactic(auto, using(crate::proofs::ProgressLemmas::place_here, crate::proofs::ProgressLemmas::place_on, crate::proofs::ProgressLemmas::place_none))]
fn place_of(commons: &[KnownCommon], frame: &Frame) -> Option<SectionPlace>
    ensures { result ≡ spec.place_of frame.now (commons_in commons.now) }
{
    for common in commons {
        if share_common(common.frame, frame) {
            return Some(common.place);
        }
    }
    None
}

/// Puts the CIE of a procedure behind this end of the section, and answers the end behind it. An end past 2^64 is
/// refused as want of memory.
fn put_common(
    alloc: Global,
    symbols: &Symbols,
    sections: &mut Sections,
    section: u32,
    end: SectionEnd,
    frame: &Frame,
) -> Result<SectionEnd, FragFault>
    requires { Takes section sections.old }
    ensures ok { OnOk result (tables_of symbols.now sections.new
        ≡ pieces_put section frame.now.pos (common_pieces frame.now)
        (tables_of symbols.now sections.old)) }
    ensures end { IfOk result (λ behind. behind
        ≡ ends.behind_pieces (common_pieces frame.now) end) }
    ensures takes { OnOk result (Takes section sections.new) }
    ensures memory { IfErr result (λ fault. fault ≡ NoMemory) }
{
    let Some(behind) = behind_common(end, frame) else {
        return Err(FragFault::NoMemory);
    };
    let table = Table {
        section,
        pos: frame.pos,
    };
    put_common_head(symbols, sections, table, frame)?;
    put_common_rest(alloc, symbols, sections, table, frame)?;
    Ok(behind)
}

/// Puts the CIE of a procedure behind what the section has, and answers the end behind it.
fn put_first_common(
    alloc: Global,
    symbols: &Symbols,
    sections: &mut Sections,
    section: u32,
    frame: &Frame,
) -> Result<SectionEnd, FragFault>
    requires { Takes section sections.old }
    ensures ok { OnOk result (tables_of symbols.now sections.new
        ≡ (spec.common_begun section frame.now (tables_of symbols.now sections.old)).tables) }
    ensures end { IfOk result (λ behind. behind
        ≡ (spec.common_begun section frame.now (tables_of symbols.now sections.old)).end) }
    ensures takes { OnOk result (Takes section sections.new) }
    ensures memory { IfErr result (λ fault. fault ≡ NoMemory) }
{
    let table = Table {
        section,
        pos: frame.pos,
    };
    put_common_head(symbols, sections, table, frame)?;
    let begun = SectionEnd::of(sections, section);
    let Some(behind) = behind_common_rest(begun, frame) else {
        return Err(FragFault::NoMemory);
    };
    put_common_rest(alloc, symbols, sections, table, frame)?;
    Ok(behind)
}

/// The same, which is the only CIE so far.
fn first_progress<'a>(
    alloc: Global,
    symbols: &Symbols,
    sections: &mut Sections,
    section: u32,
    frame: &'a Frame,
) -> Result<Progress<'a>, FragFault>
    requires { Takes section sections.old }
    ensures ok { IfOk result (λ progress.
        putting_in progress (tables_of symbols.now sections.new)
        ≡ spec.common_begun section frame.now (tables_of symbols.now sections.old)) }
    ensures takes { OnOk result (Takes section sections.new) }
    ensures memory { IfErr result (λ fault. fault ≡ NoMemory) }
{
    let place = SectionEnd::of(sections, section).place(section);
    let end = put_first_common(alloc, symbols, sections, section, frame)?;
    let mut commons = Vec::new(alloc);
    commons.push(KnownCommon { frame, place })?;
    Ok(Progress { commons, end })
}

/// Puts the CIE of a procedure, unless it is there, and answers its place.
fn common_of<'a>(
    alloc: Global,
    symbols: &Symbols,
    sections: &mut Sections,
    section: u32,
    progress: &mut Progress<'a>,
    frame: &'a Frame,
) -> Result<SectionPlace, FragFault>
    requires { Takes section sections.old }
    ensures place { IfOk result (λ place. place ≡ spec.common_place section frame.now
        (putting_in progress.old (tables_of symbols.now sections.old))) }
    ensures ok { OnOk result (putting_in progress.new (tables_of symbols.now sections.new)
        ≡ spec.common_put section frame.now
        (spec.place_of frame.now (commons_in progress.old.commons.items))
        (putting_in progress.old (tables_of symbols.now sections.old))) }
    ensures takes { OnOk result (Takes section sections.new) }
    ensures memory { IfErr result (λ fault. fault ≡ NoMemory) }
{
    match place_of(progress.commons.as_slice(), frame) {
        Some(place) => Ok(place),
        None => {
            let place = progress.end.place(section);
            progress.end = put_common(alloc, symbols, sections, section, progress.end, frame)?;
            progress.commons.push(KnownCommon { frame, place })?;
            Ok(place)
        }
    }
}

/// Puts the FDE of a procedure, behind its CIE where that is not there.
fn put_frame<'a>(
    alloc: Global,
    symbols: &mut Symbols,
    sections: &mut Sections,
    section: u32,
    progress: &mut Progress<'a>,
    log: u8,
    frame: &'a Frame,
) -> Result<(), FragFault>
    requires takes { Takes section sections.old }
    requires small { log ≤ 30 }
    ensures ok { OnOk result (putting_in progress.new (tables_of symbols.new sections.new)
        ≡ spec.frame_put section log frame.now
        (putting_in progress.old (tables_of symbols.old sections.old))) }
    ensures takes { OnOk result (Takes section sections.new) }
    ensures memory { IfErr result (λ fault. fault ≡ NoMemory) }
{
    let common = common_of(alloc, symbols, sections, section, progress, frame)?;
    progress.end = put_entry(
        alloc,
        symbols,
        sections,
        section,
        progress.end,
        common,
        log,
        frame,
    )?;
    Ok(())
}

/// Puts the FDEs of procedures, one behind the other.
fn put_entries<'a>(
    alloc: Global,
    symbols: &mut Symbols,
    sections: &mut Sections,
    section: u32,
    progress: Progress<'a>,
    frames: &'a [Frame],
) -> Result<(), FragFault>
    requires { Takes section sections.old }
    ensures ok { OnOk result (tables_of symbols.new sections.new
        ≡ (spec.entries_put section frames.now
        (putting_in progress.entry (tables_of symbols.old sections.old))).tables) }
    ensures memory { IfErr result (λ fault. fault ≡ NoMemory) }
{
    let mut progress = progress;
    for i in 0..frames.len() {
        let log = padded_log(&frames[i + 1..]);
        put_frame(
            alloc,
            symbols,
            sections,
            section,
            &mut progress,
            log,
            &frames[i],
        )?;
    }
    Ok(())
}

/// Puts the FDEs of procedures, of which this is the first, and before the first of those that share it a CIE.
fn put_table(
    alloc: Global,
    symbols: &mut Symbols,
    sections: &mut Sections,
    section: u32,
    first: &Frame,
    frames: &[Frame],
) -> Result<(), FragFault>
    requires { Takes section sections.old }
    ensures ok { OnOk result (tables_of symbols.new sections.new
        ≡ spec.table_put section first.now frames.now (tables_of symbols.old sections.old)) }
    ensures memory { IfErr result (λ fault. fault ≡ NoMemory) }
{
    let progress = first_progress(alloc, symbols, sections, section, first)?;
    put_entries(alloc, symbols, sections, section, progress, frames)
}

/// A new section for the table, which is the last. There is room for it after the statements of a source.
#[tactic(auto, using(crate::proofs::NewTable::table_added, crate::proofs::NewTable::table_number, crate::proofs::NewTable::table_takes))]
fn new_table(alloc: Global, sections: &mut Sections) -> Result<u32, FragFault>
    requires { list_any (is_section_named (codes ".eh_frame")) sections.old ≡ false }
    ensures ok { OnOk result (sections.new ≡ sections.old ++ spec.new_table ∷ []) }
    ensures number { IfOk result (λ number. number ≡ length sections.old) }
    ensures takes { IfOk result (λ number. Takes number sections.new) }
    ensures memory { IfErr result (λ fault. fault ≡ NoMemory) }
{
    let name = Text::new(Vec::from_slice(alloc, NAME)?);
    match sections.add_table(name, SectionFlags::ALLOC, SHT_PROGBITS, 0) {
        Ok(number) => Ok(number),
        Err(_) => Err(FragFault::NoMemory),
    }
}

/// Whether the section of this number takes zeros alone.
fn takes_zeros_alone(sections: &Sections, section: u32) -> bool
    requires { section < length sections.now }
    ensures nobits { result ≡ true
        → (first : FrameValue) (frames : List FrameValue) (tables : Tables)
        → spec.placed_there section (slice_get sections.now section) first frames tables
        ≡ Err BadSection }
    ensures takes { result ≡ false → Takes section sections.now }
    ensures due { result ≡ false → (first : FrameValue) (frames : List FrameValue) (tables : Tables)
        → spec.placed_there section (slice_get sections.now section) first frames tables
        ≡ Ok (spec.table_put section first frames tables) }
{
    sections.section(section).kind() == SHT_NOBITS
}

/// Puts the table of procedures, of which this is the first, into `.eh_frame`, which is made if it is not there.
fn place_all(
    alloc: Global,
    symbols: &mut Symbols,
    sections: &mut Sections,
    first: &Frame,
    frames: &[Frame],
) -> Result<(), FragFault>
    ensures { Gives (tables_of symbols.new sections.new) result
        (spec.placed_in (section_number (codes ".eh_frame") sections.old) first.now frames.now
        (tables_of symbols.old sections.old)) }
{
    let section = match sections.find(NAME) {
        Some(number) => {
            if takes_zeros_alone(sections, number) {
                return Err(FragFault::Fault(FragCause::BadSection));
            }
            number
        }
        None => new_table(alloc, sections)?,
    };
    put_table(alloc, symbols, sections, section, first, frames)
}

/// Puts the frame table of procedures behind what stands in `.eh_frame`, which is made if it is not there: for each
/// procedure, in the order of their beginnings, its CIE, unless an earlier procedure shares one, then its FDE (psABI for
/// AMD64, section 4.2.4; DWARF 5, section 6.4). Procedures share a CIE whose pointers are written alike and that have one
/// personality. Places that distances lead from and to get labels. Where there is no procedure, nothing is put and nothing
/// made. `BadSection` comes exactly where there is one and the section has the type `SHT_NOBITS`; it is told at the first
/// procedure's line. A symbol more than there may be is refused as want of memory.
#[tactic(auto, unfolding(crate::specs::Placing::placed))]
pub fn place(
    alloc: Global,
    frames: &Frames,
    symbols: &mut Symbols,
    sections: &mut Sections,
) -> Result<(), FragFault>
    ensures { Gives (tables_of symbols.new sections.new) result
        (spec.placed frames.now (tables_of symbols.old sections.old)) }
{
    match frames.as_slice() {
        [] => Ok(()),
        [first, ..] => place_all(alloc, symbols, sections, first, frames.as_slice()),
    }
}
