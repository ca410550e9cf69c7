//! The bytes of items, piece by piece.

ghost use Rattle.std.specs.Prelude.{◌≡◌, ◌≤◌, ◌==◌, ℕ, List, [], ◌++◌, length, not, replicate};
ghost use Rattle.item_bytes.specs.Leb128.{leb128_bytes};
ghost use Rattle.item_contents.specs.declared.kinds.Padding.TheVariants as padding;
ghost use Rattle.item_contents.specs.Contents.{repeated, fill_bytes, padding_bytes, grown_bytes, bytes_of};

use crate::contents::{Align, Content, Fill, Growing, Org};
use crate::kinds::{Growth, Padding};
use crate::visiting::FragVisit;
use crate::walking::visit;
use arrayvec::ArrayVec;
use item_bytes::{advance, jump, leb128, no_operation, no_operation_parts};

/// A taker of bytes, piece by piece.
pub trait TakesBytes {
    /// The answer for a piece: whether it was taken.
    type Out;

    /// The taker before, the bytes, the answer, and the taker after.
    ghost takes: { Self → List ℕ → Self.Out → Self → Type 0 };

    /// Takes the unit `count` times, and then the rest.
    fn pieces(&mut self, unit: &[u8], count: u64, rest: &[u8]) -> Self::Out
        requires unit { length unit.now ≤ 10 }
        requires rest { length rest.now ≤ 10 }
        ensures { takes self.old (repeated count unit.now ++ rest.now) result self.new };
}

/// Hands out bytes.
#[tactic(auto, unfolding(crate::specs::Contents::repeated))]
fn put_alone<T: TakesBytes>(bytes: &[u8], taker: &mut T) -> T::Out
    requires { length bytes.now ≤ 10 }
    ensures { T.takes taker.old bytes.now result taker.new }
{
    taker.pieces(&[], 0, bytes)
}

/// Hands out a unit so many times.
fn put_units<T: TakesBytes>(unit: &[u8], count: u64, taker: &mut T) -> T::Out
    requires { length unit.now ≤ 10 }
    ensures { T.takes taker.old (repeated count unit.now) result taker.new }
{
    taker.pieces(unit, count, &[])
}

/// Hands out a byte so many times.
fn put_byte<T: TakesBytes>(byte: u8, count: u64, taker: &mut T) -> T::Out
    ensures { T.takes taker.old (replicate count byte) result taker.new }
{
    put_units(&[byte], count, taker)
}

/// Hands out no-operations of this size.
#[tactic(auto, unfolding(item_bytes::specs::NoOperations::no_operation))]
fn put_no_operations<T: TakesBytes>(size: u64, taker: &mut T) -> T::Out
    ensures { T.takes taker.old (padding_bytes padding.NoOperations size) result taker.new }
{
    let parts = no_operation_parts(size);
    taker.pieces(no_operation(9), parts.longest, parts.last)
}

/// Hands out padding of this size.
fn put_padding<T: TakesBytes>(padding: Padding, size: u64, taker: &mut T) -> T::Out
    ensures { T.takes taker.old (padding_bytes padding size) result taker.new }
{
    match padding {
        Padding::Byte(fill) => put_byte(fill, size, taker),
        Padding::NoOperations => put_no_operations(size, taker),
    }
}

/// A number in so many groups of 7 bits.
#[tactic(auto, unfolding(item_bytes::specs::Leb128::leb128_bytes))]
fn number(signed: bool, groups: usize, value: u64) -> ArrayVec<u8, 10>
    requires { groups ≤ 10 }
    ensures { result.items ≡ leb128_bytes signed value groups }
{
    if groups == 0 {
        return ArrayVec::new();
    }
    leb128(signed, value, groups)
}

/// Whether a jump of this size is a near one.
fn is_near(size: u64) -> bool
    ensures { result ≡ not (size == 2) }
{
    size != 2
}

/// Hands out the bytes of what grows, of this size and with this value.
fn put_grown<T: TakesBytes>(kind: Growth, size: u64, value: u64, taker: &mut T) -> T::Out
    ensures { T.takes taker.old (grown_bytes kind size value) result taker.new }
{
    match kind {
        Growth::Jump(condition) => put_alone(&jump(condition, is_near(size), value), taker),
        Growth::Leb128 { signed } => {
            put_alone(&number(signed, size.min(10) as usize, value), taker)
        }
        Growth::Advance => put_alone(&advance(size.min(4) as u8, value), taker),
    }
}

/// Hands out the bytes of an item of this size, which holds this value if it holds any.
pub struct BytesOf<'a, T> {
    pub size: u64,
    pub value: u64,
    pub taker: &'a mut T,
}

impl<'a, T: TakesBytes> FragVisit for BytesOf<'a, T> {
    type Out = T::Out;

    ghost run_gives = { λ before answer after.
        (after.taker.ghost_name ≡ before.taker.ghost_name)
        × T.takes before.taker.now [] answer after.taker.now };

    ghost fill_gives = { λ before held answer after.
        (after.taker.ghost_name ≡ before.taker.ghost_name)
        × T.takes before.taker.now (fill_bytes held) answer after.taker.now };

    ghost align_gives = { λ before held answer after.
        (after.taker.ghost_name ≡ before.taker.ghost_name)
        × T.takes before.taker.now (padding_bytes held.padding before.size)
        answer after.taker.now };

    ghost org_gives = { λ before held answer after.
        (after.taker.ghost_name ≡ before.taker.ghost_name)
        × T.takes before.taker.now (replicate before.size held.fill) answer after.taker.now };

    ghost growing_gives = { λ before held answer after.
        (after.taker.ghost_name ≡ before.taker.ghost_name)
        × T.takes before.taker.now (grown_bytes held.kind before.size before.value)
        answer after.taker.now };

    fn run(&mut self) -> T::Out {
        put_alone(&[], self.taker)
    }

    fn fill(&mut self, held: &Fill) -> T::Out {
        let unit = held.unit();
        put_units(&unit[..held.size() as usize], held.count(), self.taker)
    }

    fn align(&mut self, held: &Align) -> T::Out {
        put_padding(held.padding(), self.size, self.taker)
    }

    fn org(&mut self, held: &Org) -> T::Out {
        put_byte(held.fill(), self.size, self.taker)
    }

    fn growing(&mut self, held: Growing) -> T::Out {
        put_grown(held.kind, self.size, self.value, self.taker)
    }
}

/// Hands out the bytes of an item of this size, which holds this value if it holds any.
pub fn put_bytes<T: TakesBytes>(content: &Content, size: u64, value: u64, taker: &mut T) -> T::Out
    ensures { T.takes taker.old (bytes_of content.now size value) result taker.new }
{
    let mut visitor = BytesOf { size, value, taker };
    let answer = visit(content, &mut visitor);
    let BytesOf {
        size: _,
        value: _,
        taker: _,
    } = visitor;
    answer
}
