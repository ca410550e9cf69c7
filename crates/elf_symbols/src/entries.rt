//! The entries of the symbol table (gABI, chapter 4, "Symbol Table").

ghost use Rattle.std.specs.Prelude.{◌≡◌, ◌<◌, IfOk, option_map};
ghost use Rattle.assigned_forms.specs.Expanding.{AreExpansions};
ghost use Rattle.elf_symbols.specs.Limits.{SymbolFits};
ghost use Rattle.elf_symbols.specs.SymbolTable as spec;
ghost use Rattle.elf_symbols.specs.Views.{symbol_view};

use crate::aliases::{symbol_kind, symbol_size};
use crate::symbol_values::{
    Placement, SymbolSection, SymbolValue, binding_of, is_file_local, is_local, is_thread_local,
    size_value, symbol_value_of,
};
use asm_base::NoMemory;
use asm_expr::{Linear, Name};
use asm_frags::{Laid, Sections};
use asm_symbols::{Binding, Kind, Symbol, Visibility};
use assigned_forms::Expansions;
use elf_file::elf_symbol;
use std::alloc::Global;

/// What a symbol stands for (`STT_`).
#[derive(Clone, Copy)]
pub enum SymbolType {
    NoType,
    Object,
    Function,
    Section,
    File,
    Common,
    Tls,
}

impl SymbolType {
    /// `STT_NOTYPE` and the others.
    fn number(self) -> u8
        ensures value { result ≡ spec.type_number self }
        ensures within { result < 7 }
    {
        self as u8
    }
}

/// `STB_LOCAL` and the others.
fn binding_number(binding: Binding) -> u8
    ensures value { result ≡ spec.binding_number binding }
    ensures within { result < 3 }
{
    match binding {
        Binding::Local => 0,
        Binding::Global => 1,
        Binding::Weak => 2,
    }
}

/// `STV_DEFAULT` and the others.
fn visibility_number(visibility: Option<Visibility>) -> u8
    ensures { result ≡ spec.visibility_number visibility }
{
    match visibility {
        None => 0,
        Some(Visibility::Internal) => 1,
        Some(Visibility::Hidden) => 2,
        Some(Visibility::Protected) => 3,
    }
}

/// A symbol of the table.
#[derive(Clone, Copy)]
pub struct TableSymbol<'a> {
    pub(crate) name: &'a [u8],
    pub(crate) binding: Binding,
    pub(crate) kind: SymbolType,
    pub(crate) visibility: Option<Visibility>,
    pub(crate) section: SymbolSection,
    pub(crate) value: u64,
    /// In bytes.
    pub(crate) size: u64,
}

/// Whether the symbol is local.
#[tactic(auto, unfolding(crate::specs::Views::symbol_view))]
pub(crate) fn is_local_entry(symbol: &TableSymbol) -> bool
    ensures { result ≡ spec.is_local_entry (symbol_view symbol.now) }
{
    is_local(symbol.binding)
}

/// `SHN_UNDEF`, `SHN_ABS` and `SHN_COMMON`, and the header indices of sections.
fn section_index_of(headers: &[usize], section: SymbolSection) -> usize
    ensures { result ≡ spec.section_index_of headers.now section }
{
    match section {
        SymbolSection::Undefined => 0,
        SymbolSection::Absolute => 0xfff1,
        SymbolSection::Common => 0xfff2,
        SymbolSection::InSection(number) => headers.get(number as usize).copied().unwrap_or(0),
        SymbolSection::InGroup(index) => index as usize + 1,
    }
}

/// The entry of a symbol whose name stands at this offset (`Elf64_Sym`); sections have these header indices.
#[tactic(auto, unfolding(crate::specs::Views::symbol_view))]
pub(crate) fn symbol_bytes(headers: &[usize], name: usize, symbol: &TableSymbol) -> [u8; 24]
    ensures bytes { result ≡ spec.symbol_bytes headers.now name (symbol_view symbol.now) }
    ensures numbers { SymbolFits (symbol_view symbol.now) }
{
    elf_symbol(
        name,
        16 * binding_number(symbol.binding) + symbol.kind.number(),
        visibility_number(symbol.visibility),
        section_index_of(headers, symbol.section),
        symbol.value,
        symbol.size,
    )
}

/// What is said of the kind of a symbol.
fn said_type(kind: Option<Kind>) -> SymbolType
    ensures { result ≡ spec.said_type kind }
{
    match kind {
        None | Some(Kind::NoType) => SymbolType::NoType,
        Some(Kind::Object) => SymbolType::Object,
        Some(Kind::Function) => SymbolType::Function,
        Some(Kind::Tls) => SymbolType::Tls,
        Some(Kind::Common) => SymbolType::Common,
    }
}

/// The type of a symbol that stands there. Symbols in a TLS section, and those that are named as
/// thread-local, have type `STT_TLS`.
fn type_of(
    sections: &Sections<Laid>,
    thread_local: bool,
    section: SymbolSection,
    kind: Option<Kind>,
) -> SymbolType
    ensures { result ≡ spec.type_of sections.now thread_local section kind }
{
    if thread_local || is_thread_local(sections, section) {
        SymbolType::Tls
    } else {
        said_type(kind)
    }
}

/// The value of a size, and 0 where no size is said.
fn size_of(
    alloc: Global,
    at: Placement,
    expansions: &Expansions,
    size: Option<&Linear>,
) -> Result<u64, NoMemory>
    requires { AreExpansions at.symbols.now expansions.now }
    ensures { IfOk result (λ bytes. bytes
        ≡ spec.size_of at.entry.symbols.now at.entry.sections.now (option_map
        (λ form. form.now) size.entry)) }
{
    match size {
        None => Ok(0),
        Some(form) => Ok(size_value(alloc, at, expansions, form)?.unwrap_or(0)),
    }
}

/// The bytes of a name.
fn text_of(name: &Name) -> &[u8]
    ensures { result.now ≡ spec.text_of name.now }
{
    match name {
        Name::Plain(text) => text.as_bytes(),
        _ => &[],
    }
}

/// The entry of a symbol that stands there.
#[tactic(auto, unfolding(crate::specs::Views::symbol_view))]
fn entry_at<'a>(
    alloc: Global,
    at: Placement,
    expansions: &Expansions,
    thread_local: bool,
    symbol: &'a Symbol,
    there: SymbolValue,
) -> Result<TableSymbol<'a>, NoMemory>
    requires { AreExpansions at.symbols.now expansions.now }
    ensures { IfOk result (λ entry. symbol_view entry
        ≡ spec.entry_at at.entry.symbols.now at.entry.sections.now thread_local symbol.now
        there) }
{
    Ok(TableSymbol {
        name: text_of(&symbol.name),
        binding: binding_of(&symbol.meaning, symbol.binding),
        kind: type_of(
            at.sections,
            thread_local,
            there.section,
            symbol_kind(at.symbols, symbol),
        ),
        visibility: symbol.visibility,
        section: there.section,
        value: there.value,
        size: size_of(alloc, at, expansions, symbol_size(at.symbols, symbol))?,
    })
}

/// Whether the symbol stands in the table only where a relocation names it.
fn needs_naming(symbol: &Symbol, there: SymbolValue) -> bool
    ensures { result ≡ spec.needs_naming symbol.now there }
{
    matches!(there.section, SymbolSection::Undefined)
        || (is_file_local(&symbol.name) && is_local(binding_of(&symbol.meaning, symbol.binding)))
}

/// Whether the name is the signature of a group.
fn is_signature(sections: &Sections<Laid>, name: &Name) -> bool
    ensures { result ≡ spec.is_signature sections.now name.now }
{
    match name {
        Name::Plain(text) => sections.has_group(text.as_bytes()),
        _ => false,
    }
}

/// Whether a group names the symbol: it is that of its signature, and this object defines it.
fn is_named_by_group(sections: &Sections<Laid>, symbol: &Symbol, there: SymbolValue) -> bool
    ensures { result ≡ spec.is_named_by_group sections.now symbol.now there }
{
    !matches!(there.section, SymbolSection::Undefined) && is_signature(sections, &symbol.name)
}

/// Where a symbol stands that has this value; one without a value is undefined.
fn value_or_undefined(value: Option<SymbolValue>) -> SymbolValue
    ensures { result ≡ spec.value_or_undefined value }
{
    match value {
        Some(there) => there,
        None => SymbolValue {
            section: SymbolSection::Undefined,
            value: 0,
        },
    }
}

/// The entry of a symbol, if it stands in the table; `named` where a relocation names it, and
/// `thread_local` where one does as thread-local.
#[tactic(auto, unfolding(crate::specs::SymbolTable::listed))]
pub(crate) fn listed<'a>(
    alloc: Global,
    at: Placement,
    expansions: &Expansions,
    named: bool,
    thread_local: bool,
    symbol: &'a Symbol,
) -> Result<Option<TableSymbol<'a>>, NoMemory>
    requires { AreExpansions at.symbols.now expansions.now }
    ensures { IfOk result (λ entry. option_map symbol_view entry
        ≡ spec.listed at.entry.symbols.now at.entry.sections.now named thread_local symbol.now) }
{
    let there = value_or_undefined(symbol_value_of(alloc, at, expansions, &symbol.meaning)?);
    if needs_naming(symbol, there) && !(named || is_named_by_group(at.sections, symbol, there)) {
        return Ok(None);
    }
    let entry = entry_at(alloc, at, expansions, thread_local, symbol, there)?;
    Ok(Some(entry))
}

/// The entry of a source file's name.
#[tactic(auto, unfolding(crate::specs::Views::symbol_view))]
pub(crate) fn file_entry(name: &Name) -> TableSymbol<'_>
    ensures { symbol_view result ≡ spec.file_entry name.now }
{
    TableSymbol {
        name: text_of(name),
        binding: Binding::Local,
        kind: SymbolType::File,
        visibility: None,
        section: SymbolSection::Absolute,
        value: 0,
        size: 0,
    }
}

/// The entry of the signature of the group of this index, which is the group itself.
#[tactic(auto, unfolding(crate::specs::Views::symbol_view))]
pub(crate) fn signature_entry(index: u32, signature: &[u8]) -> TableSymbol<'_>
    ensures { symbol_view result ≡ spec.signature_entry index signature.now }
{
    TableSymbol {
        name: signature,
        binding: Binding::Local,
        kind: SymbolType::NoType,
        visibility: None,
        section: SymbolSection::InGroup(index),
        value: 0,
        size: 0,
    }
}

/// The entry that stands for the section of this number.
#[tactic(auto, unfolding(crate::specs::Views::symbol_view))]
pub(crate) fn section_entry<'a>(number: usize) -> TableSymbol<'a>
    ensures { symbol_view result ≡ spec.section_entry number }
{
    TableSymbol {
        name: b"",
        binding: Binding::Local,
        kind: SymbolType::Section,
        visibility: None,
        section: SymbolSection::InSection(number as u64),
        value: 0,
        size: 0,
    }
}
