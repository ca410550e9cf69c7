//! Common symbols, and space in `.bss` (GNU as manual, ".comm", ".lcomm").

ghost use Rattle.std.specs.Prelude.{◌≡◌, ◌<◌, ◌≤◌, length, map, IfOk};
ghost use Rattle.asm_declarations.specs.Commons as spec;
ghost use Rattle.asm_base.specs.Tokens.{spelled};
ghost use Rattle.asm_base.specs.Refusals.{Gives, GivesBy};
ghost use Rattle.asm_declarations.specs.Commons.{space_words, with_space, with_common, place_space, place_comm, place_lcomm};
ghost use Rattle.asm_declarations.specs.SpaceWordsIn.{space_words_in};
ghost use Rattle.asm_values.specs.PlacedBy.{placed_by, PlacesBy};

use asm_base::{Pos, Token};
use asm_operands::{Operands, PlaceFault, begins_with_place, needed_name};
use asm_symbols::{Binding, Definition, SymId, Symbols};
use asm_uses::{Naming, spot_at};
use asm_values::{Assembler, KnownOperands};
use asm_words::{log_of, space_of, space_size};
use item_contents::{Align, Content};

/// The number of `.bss`.
const BSS: u32 = 2;

/// Whether the symbol was said to be local.
#[tactic(auto, unfolding(crate::specs::Commons::is_said_local))]
fn is_said_local(symbols: &Symbols, id: SymId) -> bool
    requires { id < length symbols.now.symbols }
    ensures { result ≡ spec.is_said_local symbols.now id }
{
    matches!(symbols.symbol(id).binding, Some(Binding::Local))
}

/// The symbol of the name, and the size and the alignment that are said.
#[derive(Drop)]
struct SpaceWords {
    id: SymId,
    given: KnownOperands,
}

/// A name, which is a symbol's from now on, and as many expressions as there may be.
#[tactic(auto, unfolding(crate::specs::Commons::space_words))]
fn space_words(
    assembler: &mut Assembler,
    pos: Pos,
    most: usize,
    tokens: &[Token],
) -> Result<SpaceWords, PlaceFault>
    ensures value { GivesBy (space_words_in (placed_by assembler.new)) result
        (space_words pos (placed_by assembler.old) most (map spelled tokens.now)) }
    ensures kept { assembler.new.notes ≡ assembler.old.notes }
    ensures within { IfOk result (λ words. words.id < length assembler.new.table.symbols.symbols) }
{
    let mut operands = Operands::new(tokens);
    let name = needed_name(assembler.alloc, &mut operands)?;
    let before = assembler.table.symbols().len();
    let id = assembler.table.intern_text(pos, name.as_bytes())?;
    let given = assembler.known_operands(pos, most, &mut operands)?;
    let naming = Naming {
        before,
        meant: given.naming.meant,
    };
    Ok(SpaceWords {
        id,
        given: KnownOperands {
            naming,
            values: given.values,
        },
    })
}

/// Aligned zeros in `.bss`, which are the symbol's.
#[tactic(auto, unfolding(crate::specs::Commons::with_space))]
fn with_space(
    assembler: &mut Assembler,
    pos: Pos,
    naming: Naming,
    id: SymId,
    size: u64,
    log: u8,
) -> Result<(), PlaceFault>
    requires log { log ≤ 30 }
    requires there { id < length assembler.old.table.symbols.symbols }
    ensures placed { PlacesBy (with_space pos naming id size log) assembler.old assembler.new result }
    ensures kept { assembler.new.notes ≡ assembler.old.notes }
{
    let space = space_of(size, 0)?;
    assembler.push_into(pos, BSS, Content::Align(Align::zeros(log)))?;
    let spot = spot_at(&assembler.sections, BSS);
    assembler.push_into(pos, BSS, space)?;
    assembler
        .table
        .define_space(assembler.alloc, naming, id, size, Definition::Space(spot))
}

/// Space that the linker finds.
#[tactic(auto, unfolding(crate::specs::Commons::with_common))]
fn with_common(
    assembler: &mut Assembler,
    naming: Naming,
    id: SymId,
    size: u64,
    log: u8,
) -> Result<(), PlaceFault>
    requires log { log ≤ 30 }
    requires there { id < length assembler.old.table.symbols.symbols }
    ensures placed { PlacesBy (with_common naming id size log) assembler.old assembler.new result }
    ensures kept { assembler.new.notes ≡ assembler.old.notes }
{
    let what = Definition::Common {
        size,
        align: 1 << log,
    };
    assembler
        .table
        .define_space(assembler.alloc, naming, id, size, what)
}

/// The space of a symbol: this object's, or one that the linker finds.
fn place_space(
    assembler: &mut Assembler,
    own: bool,
    pos: Pos,
    naming: Naming,
    id: SymId,
    size: u64,
    log: u8,
) -> Result<(), PlaceFault>
    requires log { log ≤ 30 }
    requires there { id < length assembler.old.table.symbols.symbols }
    ensures placed { PlacesBy (place_space own pos naming id size log)
        assembler.old assembler.new result }
    ensures kept { assembler.new.notes ≡ assembler.old.notes }
{
    if own {
        with_space(assembler, pos, naming, id, size, log)
    } else {
        with_common(assembler, naming, id, size, log)
    }
}

/// `.comm`: of a symbol that is local the space is this object's.
#[tactic(auto, unfolding(crate::specs::Commons::place_comm))]
pub fn place_comm(assembler: &mut Assembler, pos: Pos, tokens: &[Token]) -> Result<(), PlaceFault>
    ensures placed { PlacesBy (place_comm pos (map spelled tokens.now))
        assembler.old assembler.new result }
    ensures kept { assembler.new.notes ≡ assembler.old.notes }
{
    let words = space_words(assembler, pos, 2, tokens)?;
    let size = space_size(words.given.values.first)?;
    let log = log_of(words.given.values.second, size)?;
    let own = is_said_local(assembler.table.symbols(), words.id);
    place_space(assembler, own, pos, words.given.naming, words.id, size, log)?;
    assembler.unless_dot(begins_with_place(tokens))
}

/// `.lcomm`
#[tactic(auto, unfolding(crate::specs::Commons::place_lcomm))]
pub fn place_lcomm(assembler: &mut Assembler, pos: Pos, tokens: &[Token]) -> Result<(), PlaceFault>
    ensures placed { PlacesBy (place_lcomm pos (map spelled tokens.now))
        assembler.old assembler.new result }
    ensures kept { assembler.new.notes ≡ assembler.old.notes }
{
    let words = space_words(assembler, pos, 1, tokens)?;
    let size = space_size(words.given.values.first)?;
    let log = log_of(None, size)?;
    place_space(
        assembler,
        true,
        pos,
        words.given.naming,
        words.id,
        size,
        log,
    )?;
    assembler.unless_dot(begins_with_place(tokens))
}
