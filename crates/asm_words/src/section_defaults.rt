//! The flags and the type of a section that are not said, by its name (gABI, chapter 4, "Special Sections").

ghost use Rattle.std.specs.Prelude.{◌≡◌};
ghost use Rattle.asm_words.specs.SectionDefaults as spec;

use asm_frags::{
    SHT_FINI_ARRAY, SHT_INIT_ARRAY, SHT_NOBITS, SHT_NOTE, SHT_PREINIT_ARRAY, SHT_PROGBITS,
};

/// `sh_flags` and `sh_type`.
#[derive(Clone, Copy)]
pub struct DefaultHeader {
    pub flags: u64,
    pub kind: u32,
}

/// The section is loaded, and executed.
const CODE: u64 = 6;

/// The section is loaded, and written to.
const DATA: u64 = 3;

/// The section is loaded, written to, and there for each thread.
const THREAD_DATA: u64 = 0x403;

/// The section is loaded, and only read.
const CONSTANT: u64 = 2;

/// Whether nothing is left of the name, or a dot begins what is.
fn is_dotted(rest: &[u8]) -> bool
    ensures { result ≡ spec.is_dotted rest.now }
{
    match rest {
        [] => true,
        [first, ..] => *first == b'.',
    }
}

/// Whether it is the name, or has a dot and more behind it.
fn is_under(base: &[u8], name: &[u8]) -> bool
    ensures { result ≡ spec.is_under base.now name.now }
{
    name.starts_with(base) && is_dotted(&name[base.len()..])
}

/// Whether it is a name of code.
fn is_code(name: &[u8]) -> bool
    ensures { result ≡ spec.is_code name.now }
{
    is_under(b".text", name) || is_under(b".init", name) || is_under(b".fini", name)
}

/// Whether it is a name of data that is only read.
fn is_constant(name: &[u8]) -> bool
    ensures { result ≡ spec.is_constant name.now }
{
    is_under(b".rodata", name) || is_under(b".eh_frame", name)
}

fn header(flags: u64, kind: u32) -> DefaultHeader
    ensures { result ≡ spec.header flags kind }
{
    DefaultHeader { flags, kind }
}

/// The flags and the type of a section of notes, and of one whose name says nothing.
#[tactic(auto, unfolding(crate::specs::SectionDefaults::note_header))]
fn note_header(name: &[u8]) -> DefaultHeader
    ensures { result ≡ spec.note_header name.now }
{
    if name == b".note.GNU-stack".as_slice() {
        header(0, SHT_PROGBITS)
    } else if name.starts_with(b".note") {
        header(0, SHT_NOTE)
    } else {
        header(0, SHT_PROGBITS)
    }
}

/// The flags and the type of a section of addresses of functions; another may be one of notes.
#[tactic(auto, unfolding(crate::specs::SectionDefaults::array_header))]
fn array_header(name: &[u8]) -> DefaultHeader
    ensures { result ≡ spec.array_header name.now }
{
    if is_under(b".init_array", name) {
        header(DATA, SHT_INIT_ARRAY)
    } else if is_under(b".fini_array", name) {
        header(DATA, SHT_FINI_ARRAY)
    } else if is_under(b".preinit_array", name) {
        header(DATA, SHT_PREINIT_ARRAY)
    } else {
        note_header(name)
    }
}

/// The flags and the type of a section of data of each thread; another may be one of addresses.
#[tactic(auto, unfolding(crate::specs::SectionDefaults::thread_header))]
fn thread_header(name: &[u8]) -> DefaultHeader
    ensures { result ≡ spec.thread_header name.now }
{
    if is_under(b".tdata", name) {
        header(THREAD_DATA, SHT_PROGBITS)
    } else if is_under(b".tbss", name) {
        header(THREAD_DATA, SHT_NOBITS)
    } else {
        array_header(name)
    }
}

/// The flags and the type of a section of this name.
#[tactic(auto, unfolding(crate::specs::SectionDefaults::default_header))]
pub fn default_header(name: &[u8]) -> DefaultHeader
    ensures { result ≡ spec.default_header name.now }
{
    if is_code(name) {
        header(CODE, SHT_PROGBITS)
    } else if is_under(b".data", name) {
        header(DATA, SHT_PROGBITS)
    } else if is_under(b".bss", name) {
        header(DATA, SHT_NOBITS)
    } else if is_constant(name) {
        header(CONSTANT, SHT_PROGBITS)
    } else {
        thread_header(name)
    }
}
