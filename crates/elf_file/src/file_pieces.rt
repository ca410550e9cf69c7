//! The bytes of a file in pieces: bytes that are held, and a held unit that is repeated.

ghost use Rattle.std.specs.Prelude.{◌≡◌, ◌+◌, ◌*◌, ◌<◌, ◌≤◌, ◌++◌, drop, length, take, IfSome};
ghost use Rattle.item_contents.specs.Contents.{repeated};
ghost use Rattle.elf_file.specs.Pieces.{repeated_size};

use std::alloc::{AllocError, Global};
use std::marker::Model;

/// Copies bytes of the front behind it.
fn copy_front(block: &mut [u8], front: usize, more: usize)
    requires few { more ≤ front }
    requires room { front + more ≤ length block.old }
    ensures { block.new
        ≡ take front block.old ++ (take more block.old ++ drop (front + more) block.old) }
{
    let (first, rest) = block.split_at_mut(front);
    rest[..more].copy_from_slice(&first[..more]);
}

/// Fills a block with units: those that stand are doubled until all stand.
#[inline(never)]
fn double_units(block: &mut [u8], unit: &[u8], count: usize)
    requires some { 0 < count }
    requires room { length block.old ≡ count * length unit.now }
    ensures { block.new ≡ repeated count unit.now }
{
    block[..unit.len()].copy_from_slice(unit);
    let mut done = 1;
    'units: while done < count {
        let more = done.min(count - done);
        copy_front(block, done * unit.len(), more * unit.len());
        done += more;
    }
}

/// Fills a block with units.
#[tactic(auto, using(crate::proofs::PieceLemmas::filled_alone, crate::proofs::PieceLemmas::filled_once))]
fn fill_units(block: &mut [u8], unit: &[u8], count: usize)
    requires some { 0 < count }
    requires room { length block.old ≡ count * length unit.now }
    ensures { block.new ≡ repeated count unit.now }
{
    if count == 1 {
        block.copy_from_slice(unit);
    } else if unit.len() == 1 {
        block.fill(unit[0]);
    } else {
        double_units(block, unit, count);
    }
}

/// A repetition in a block: its first `size` bytes `count` times, and then its first `rest` bytes.
pub(crate) struct Blocks {
    pub(crate) size: usize,
    pub(crate) count: u64,
    pub(crate) rest: usize,
}

/// A unit of 1 to 10 bytes, repeated.
#[derive(Drop)]
pub struct Repetition {
    unit: [u8; 10],
    size: u8,
    count: u64,
}

impl Model for Repetition {
    ghost use Rattle.std.specs.Prelude.{ℕ, List, ◌<◌, ◌≤◌, take};
    ghost use Rattle.item_contents.specs.Contents.{repeated};

    ghost Value = { List ℕ };

    ghost view = { λ r. repeated r.count (take r.size r.unit) };

    ghost invariant = { λ r. (0 < r.count) × (0 < r.size) × (r.size ≤ 10) };
}

impl Repetition {
    ghost use Rattle.std.specs.Prelude.{◌≡◌, ◌<◌, ◌≤◌, ◌++◌, length, take, IfSome};
    ghost use Rattle.item_contents.specs.Contents.{repeated};

    /// The unit `count` times.
    pub fn new(unit: &[u8], count: u64) -> Repetition
        requires some { 0 < length unit.now }
        requires short { length unit.now ≤ 10 }
        requires once { 0 < count }
        ensures { result ≡ repeated count unit.now }
    {
        let mut held = [0; 10];
        held[..unit.len()].copy_from_slice(unit);
        Repetition {
            unit: held,
            size: unit.len() as u8,
            count,
        }
    }

    /// How many bytes it stands for, if fewer than 2^64.
    pub(crate) fn len(&self) -> Option<usize>
        ensures { IfSome result (λ n. n ≡ length self.now) }
    {
        (self.count as usize).checked_mul(self.size as usize)
    }

    /// Fills a block of its size.
    pub(crate) fn put(&self, block: &mut [u8])
        requires { length block.old ≡ length self.now }
        ensures { block.new ≡ self.now }
    {
        fill_units(block, &self.unit[..self.size as usize], self.count as usize);
    }

    /// Fills a block with whole units, and tells how often it is written.
    pub(crate) fn fill(&self, block: &mut [u8]) -> Blocks
        requires { 10 ≤ length block.old }
        ensures bytes { self.now ≡ repeated result.count (take result.size block.new)
            ++ take result.rest block.new }
        ensures size { result.size ≤ length block.new }
        ensures rest { result.rest ≤ length block.new }
    {
        let length = self.size as usize;
        let units = block.len() / length;
        let size = units * length;
        fill_units(&mut block[..size], &self.unit[..length], units);
        Blocks {
            size,
            count: self.count / units as u64,
            rest: (self.count % units as u64) as usize * length,
        }
    }
}

/// A repetition behind held bytes.
#[derive(Drop)]
pub struct Between {
    /// How many held bytes stand before it, behind the repetition in front of it.
    pub held: usize,
    pub repetition: Repetition,
}

/// Bytes that are held, and repetitions between them.
#[derive(Drop)]
pub struct Mixed {
    pub bytes: Vec<u8>,
    pub between: Vec<Between>,
}

/// How many bytes the repetitions stand for, if fewer than 2^64.
fn total(between: &[Between]) -> Option<usize>
    ensures { IfSome result (λ n. n ≡ repeated_size between.now) }
{
    let mut sum = 0usize;
    for one in between {
        sum = sum.checked_add(one.repetition.len()?)?;
    }
    Some(sum)
}

impl Mixed {
    ghost use Rattle.std.specs.Prelude.{◌≡◌, length, IfSome};
    ghost use Rattle.elf_file.specs.Pieces.{mixed_bytes};

    /// How many bytes it stands for, if fewer than 2^64.
    pub(crate) fn len(&self) -> Option<usize>
        ensures { IfSome result (λ n. n ≡ length (mixed_bytes self.now)) }
    {
        self.bytes.len().checked_add(total(&self.between)?)
    }
}

/// Bytes of a file.
#[derive(Drop)]
pub(crate) enum Piece {
    Bytes(Vec<u8>),
    Repeated(Repetition),
    Mixed(Mixed),
}

/// Pieces, one behind the other.
#[derive(Drop)]
pub(crate) struct Pieces {
    list: Vec<Piece>,
}

impl Model for Pieces {
    ghost use Rattle.std.specs.Prelude.{ℕ, List};
    ghost use Rattle.elf_file.specs.Pieces.{flat};

    ghost Value = { List ℕ };

    ghost view = { λ p. flat p.list.items };
}

impl Pieces {
    ghost use Rattle.std.specs.Prelude.{◌≡◌, [], ◌∷◌, ◌++◌, OnOk};
    ghost use Rattle.item_contents.specs.Contents.{repeated};
    ghost use Rattle.elf_file.specs.Pieces.{piece_bytes, flat};

    /// No pieces.
    pub(crate) fn new(alloc: Global) -> Pieces
        ensures { result ≡ [] }
    {
        Pieces {
            list: Vec::new(alloc),
        }
    }

    /// Appends a piece.
    #[tactic(auto, using(crate::proofs::PieceLemmas::flat_push))]
    pub(crate) fn put(&mut self, piece: Piece) -> Result<(), AllocError>
        ensures { OnOk result (self.new ≡ self.old ++ piece_bytes piece) }
    {
        Ok(self.list.push(piece)?)
    }

    /// Appends zeros.
    pub(crate) fn put_zeros(&mut self, count: u64) -> Result<(), AllocError>
        ensures { OnOk result (self.new ≡ self.old ++ repeated count (0 ∷ [])) }
    {
        if count == 0 {
            return Ok(());
        }
        self.put(Piece::Repeated(Repetition::new(&[0], count)))
    }

    /// The list of the pieces.
    pub(crate) fn into_list(self) -> Vec<Piece>
        ensures { flat result.items ≡ self }
    {
        self.list
    }
}
