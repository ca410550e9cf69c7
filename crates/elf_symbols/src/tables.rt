//! The symbol table and the string table of its names (gABI, chapter 4, "Symbol Table").

ghost use Rattle.std.specs.Prelude.{◌≡◌, ◌++◌, All, map, length, OnOk, IfOk};
ghost use Rattle.elf_symbols.specs.Limits.{SymbolFits};
ghost use Rattle.elf_symbols.specs.SymbolTable.{symbol_names, symbol_table_of, symbol_bytes};
ghost use Rattle.elf_file.specs.StringTable.{string_table_of, ended_name, name_offset_after};
ghost use Rattle.elf_symbols.specs.Views.{symbol_view};

use crate::entries::{TableSymbol, symbol_bytes};
use elf_file::{SYM_SIZE, put_name};
use std::alloc::{AllocError, Global};

/// The entries of a symbol table, and the string table of its names.
#[derive(Drop)]
pub struct SymbolTable {
    pub entries: Vec<u8>,
    pub strings: Vec<u8>,
}

impl SymbolTable {
    /// Appends a symbol.
    fn put(&mut self, headers: &[usize], symbol: &TableSymbol) -> Result<(), AllocError>
        ensures entries { OnOk result (self.new.entries.items ≡ self.old.entries.items
            ++ symbol_bytes headers.now (name_offset_after (length self.old.strings.items)
            symbol.now.name.now) (symbol_view symbol.now)) }
        ensures strings { OnOk result (self.new.strings.items
            ≡ self.old.strings.items ++ ended_name symbol.now.name.now) }
        ensures numbers { OnOk result (SymbolFits (symbol_view symbol.now)) }
    {
        let name = put_name(&mut self.strings, symbol.name)?;
        self.entries
            .extend_from_slice(&symbol_bytes(headers, name, symbol))
    }
}

/// The table of these symbols, which begins with the null symbol; sections have these header indices.
#[tactic(auto, unfolding(crate::specs::SymbolTable::symbol_table_of, crate::specs::SymbolTable::symbol_names, elf_file::specs::StringTable::string_table_of, elf_file::specs::StringTable::name_offsets, crate::specs::Views::symbol_view))]
pub fn symbol_table(
    alloc: Global,
    headers: &[usize],
    symbols: &[TableSymbol],
) -> Result<SymbolTable, AllocError>
    ensures entries { IfOk result (λ t. t.entries.items
        ≡ symbol_table_of headers.now (map symbol_view symbols.now)) }
    ensures strings { IfOk result (λ t. t.strings.items
        ≡ string_table_of (symbol_names (map symbol_view symbols.now))) }
    ensures numbers { OnOk result (All SymbolFits (map symbol_view symbols.now)) }
{
    let room = symbols.len().saturating_add(1).saturating_mul(SYM_SIZE);
    let mut entries = Vec::with_capacity(alloc, room)?;
    entries.resize(SYM_SIZE, 0)?;
    let mut table = SymbolTable {
        entries,
        strings: vec![in alloc; 0; 1]?,
    };
    for symbol in symbols {
        table.put(headers, symbol)?;
    }
    Ok(table)
}
