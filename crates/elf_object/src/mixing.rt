//! The bytes of items between the plain bytes of their section.

ghost use Rattle.std.specs.Prelude.{◌≡◌, ◌<◌, ◌≤◌, ◌++◌, length, OnOk};
ghost use Rattle.item_contents.specs.Contents.{repeated};

use elf_file::{Between, Mixed, Repetition};
use item_contents::TakesBytes;
use std::alloc::{AllocError, Global};
use std::marker::Model;

/// Plain bytes and the bytes of items, one behind the other. What stands once is held, and what is repeated stands
/// between held bytes.
#[derive(Drop)]
pub(crate) struct Mixing {
    held: Vec<u8>,
    between: Vec<Between>,
    /// How many held bytes stand before the last repetition.
    last: usize,
}

impl Model for Mixing {
    ghost use Rattle.std.specs.Prelude.{◌≡◌, ◌≤◌, ℕ, List, length};
    ghost use Rattle.elf_file.specs.Pieces.{mixed, held_before};

    ghost Value = { List ℕ };

    ghost view = { λ mixing. mixed mixing.held.items mixing.between.items };

    ghost invariant = { λ mixing. (held_before mixing.between.items ≡ mixing.last)
        × (mixing.last ≤ length mixing.held.items) };
}

impl Mixing {
    ghost use Rattle.std.specs.Prelude.{[], IfOk};
    ghost use Rattle.elf_file.specs.Pieces.{mixed_bytes};

    /// No bytes, with room for so many that are held.
    pub(crate) fn new(alloc: Global, room: usize) -> Result<Mixing, AllocError>
        ensures { IfOk result (λ mixing. mixing ≡ []) }
    {
        Ok(Mixing {
            held: Vec::with_capacity(alloc, room)?,
            between: Vec::new(alloc),
            last: 0,
        })
    }

    /// Puts bytes last that are held.
    #[inline(always)]
    pub(crate) fn hold(&mut self, bytes: &[u8]) -> Result<(), AllocError>
        ensures { OnOk result (self.new ≡ self.old ++ bytes.now) }
    {
        if bytes.is_empty() {
            return Ok(());
        }
        self.held.extend_from_slice(bytes)
    }

    /// Puts a unit last, `count` times, as a repetition.
    fn repeat(&mut self, unit: &[u8], count: u64) -> Result<(), AllocError>
        requires some { 0 < length unit.now }
        requires short { length unit.now ≤ 10 }
        requires once { 0 < count }
        ensures { OnOk result (self.new ≡ self.old ++ repeated count unit.now) }
    {
        let held = self.held.len();
        self.between.push(Between {
            held: held - self.last,
            repetition: Repetition::new(unit, count),
        })?;
        self.last = held;
        Ok(())
    }

    /// Puts a unit last, `count` times.
    fn put(&mut self, unit: &[u8], count: u64) -> Result<(), AllocError>
        requires { length unit.now ≤ 10 }
        ensures { OnOk result (self.new ≡ self.old ++ repeated count unit.now) }
    {
        if count == 1 {
            return self.hold(unit);
        }
        if unit.is_empty() {
            return Ok(());
        }
        if count == 0 {
            return Ok(());
        }
        self.repeat(unit, count)
    }

    /// All bytes.
    pub(crate) fn into_mixed(self) -> Mixed
        ensures { mixed_bytes result ≡ self }
    {
        let Mixing {
            held,
            between,
            last: _,
        } = self;
        Mixed {
            bytes: held,
            between,
        }
    }
}

/// The bytes are put last. After an `Err` what was put is only dropped.
impl TakesBytes for Mixing {
    type Out = Result<(), AllocError>;

    ghost takes = { λ before bytes answer after. OnOk answer (after ≡ before ++ bytes) };

    fn pieces(&mut self, unit: &[u8], count: u64, rest: &[u8]) -> Result<(), AllocError> {
        self.put(unit, count)?;
        self.hold(rest)?;
        Ok(())
    }
}
