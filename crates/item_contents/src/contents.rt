//! The contents of items: a run of plain bytes, a fill, an alignment, an `.org`, or what grows with its value.

ghost use Rattle.std.specs.Prelude.{◌≡◌, ◌≤◌, ◌^◌, take};

use crate::kinds::{Growth, Padding};
use std::marker::Model;

/// `count` units of `size` bytes: the low 4 bytes of a value, then zeros (GNU as manual, ".fill").
#[derive(Drop)]
pub struct Fill {
    value: u64,
    count: u32,
    size: u32,
}

impl Model for Fill {
    ghost use Rattle.std.specs.Prelude.{◌≤◌, ◌^◌};
    ghost use Rattle.item_contents.specs.ItemParts.{FillOf};

    ghost Value = { FillOf };

    ghost view = { λ fill. record { count = fill.count; size = fill.size; value = fill.value } };

    ghost invariant = { λ fill. (fill.count ≤ 2 ^ 30) × (fill.size ≤ 8) };
}

impl Fill {
    ghost use Rattle.item_contents.specs.Contents.{unit_of};

    /// `count` units of `size` bytes.
    pub fn new(count: u64, size: u64, value: u64) -> Fill
        requires few { count ≤ 2 ^ 30 }
        requires small { size ≤ 8 }
        ensures { result ≡ record { count = count; size = size; value = value } }
    {
        Fill {
            value,
            count: count as u32,
            size: size as u32,
        }
    }

    /// The number of units.
    pub fn count(&self) -> u64
        ensures count { result ≡ self.now.count }
        ensures within { result ≤ 2 ^ 30 }
    {
        u64::from(self.count)
    }

    /// The size of a unit in bytes.
    pub fn size(&self) -> u64
        ensures size { result ≡ self.now.size }
        ensures within { result ≤ 8 }
    {
        u64::from(self.size)
    }

    /// The bytes of a unit; those past its size are of no account.
    #[tactic(auto, using(crate::proofs::Units::unit_is), unfolding(crate::specs::Contents::unit_of))]
    pub fn unit(&self) -> [u8; 8]
        ensures { take self.now.size result ≡ unit_of self.now }
    {
        let [one, two, three, four] = ((self.value % (1 << 32)) as u32).to_le_bytes();
        [one, two, three, four, 0, 0, 0, 0]
    }

    /// The value that a unit holds.
    pub fn value(&self) -> u64
        ensures { result ≡ self.now.value }
    {
        self.value
    }
}

/// Padding up to the next multiple of a power of two, and none where that takes more bytes than
/// are allowed (GNU as manual, ".p2align").
#[derive(Drop)]
pub struct Align {
    most: u64,
    log: u8,
    padding: Padding,
}

impl Model for Align {
    ghost use Rattle.std.specs.Prelude.{◌≤◌};
    ghost use Rattle.item_contents.specs.ItemParts.{AlignOf};

    ghost Value = { AlignOf };

    ghost view = { λ align.
        record { log = align.log; most = align.most; padding = align.padding } };

    ghost invariant = { λ align. align.log ≤ 30 };
}

impl Align {
    ghost use Rattle.item_contents.specs.ItemParts.{zeros_up_to};

    /// An alignment to a multiple of 2^log by at most so many bytes.
    pub fn new(log: u8, most: u64, padding: Padding) -> Align
        requires { log ≤ 30 }
        ensures { result ≡ record { log = log; most = most; padding = padding } }
    {
        Align { most, log, padding }
    }

    /// Zeros up to the next multiple of 2^log, however many that takes.
    pub fn zeros(log: u8) -> Align
        requires { log ≤ 30 }
        ensures { result ≡ zeros_up_to log }
    {
        Align::new(log, 1 << log, Padding::Byte(0))
    }

    /// The exponent of the power of two.
    pub fn log(&self) -> u8
        ensures log { result ≡ self.now.log }
        ensures within { result ≤ 30 }
    {
        self.log
    }

    /// The most bytes that it adds.
    pub fn most(&self) -> u64
        ensures { result ≡ self.now.most }
    {
        self.most
    }

    /// What it is filled with.
    pub fn padding(&self) -> Padding
        ensures { result ≡ self.now.padding }
    {
        self.padding
    }
}

/// Bytes up to a place that stands so far from an earlier one of its section (GNU as manual, ".org").
#[derive(Drop)]
pub struct Org {
    /// How many bytes it counts forwards, modulo 2^32, and how often 2^32 besides.
    ahead: u32,
    ahead_high: u8,
    fill: u8,
    from: u32,
    /// How many bytes it counts backwards, modulo 2^32, and how often 2^32 besides.
    behind: u32,
    behind_high: u32,
}

impl Model for Org {
    ghost use Rattle.std.specs.Prelude.{◌≤◌, ◌+◌, ◌*◌, ◌^◌};
    ghost use Rattle.item_contents.specs.ItemParts.{OrgOf};

    ghost Value = { OrgOf };

    ghost view = { λ org.
        record {
          from = org.from;
          ahead = org.ahead_high * 2 ^ 32 + org.ahead;
          behind = org.behind_high * 2 ^ 32 + org.behind;
          fill = org.fill;
        } };

    ghost invariant = { λ org. org.ahead_high * 2 ^ 32 + org.ahead ≤ 2 ^ 34 };
}

impl Org {
    /// Bytes of this value up to the place `ahead` bytes past the beginning of the section and
    /// `behind` bytes before that, both moved as the first plain byte behind `from` items is.
    pub fn new(from: u32, ahead: u64, behind: u64, fill: u8) -> Org
        requires { ahead ≤ 2 ^ 34 }
        ensures { result ≡ record { from = from; ahead = ahead; behind = behind; fill = fill } }
    {
        Org {
            ahead: (ahead % (1 << 32)) as u32,
            ahead_high: (ahead / (1 << 32)) as u8,
            fill,
            from,
            behind: (behind % (1 << 32)) as u32,
            behind_high: (behind / (1 << 32)) as u32,
        }
    }

    /// How many items of the section stand before the place that it counts from.
    pub fn from(&self) -> u32
        ensures { result ≡ self.now.from }
    {
        self.from
    }

    /// How many bytes it counts forwards.
    pub fn ahead(&self) -> u64
        ensures ahead { result ≡ self.now.ahead }
        ensures within { result ≤ 2 ^ 34 }
    {
        u64::from(self.ahead_high) * (1 << 32) + u64::from(self.ahead)
    }

    /// How many bytes it counts backwards.
    pub fn behind(&self) -> u64
        ensures { result ≡ self.now.behind }
    {
        u64::from(self.behind_high) * (1 << 32) + u64::from(self.behind)
    }

    /// The byte that it is filled with.
    pub fn fill(&self) -> u8
        ensures { result ≡ self.now.fill }
    {
        self.fill
    }
}

/// What grows with the value that it holds, which is that of a field of its section.
#[derive(Clone, Copy)]
pub struct Growing {
    pub kind: Growth,
    /// The index of the field whose value it holds.
    pub field: usize,
}

/// The contents of an item. Large sources have many, so it is small.
#[derive(Drop)]
pub enum Content {
    /// Plain bytes, which the section holds, up to the next item.
    Run,
    Fill(Fill),
    Align(Align),
    Org(Org),
    Growing(Growing),
}

impl Content {
    ghost use Rattle.item_contents.specs.Contents as spec;

    /// Whether it is a run.
    pub fn is_run(&self) -> bool
        ensures { result ≡ spec.is_run self.now }
    {
        match self {
            Content::Run => true,
            Content::Fill(_) | Content::Align(_) | Content::Org(_) | Content::Growing(_) => false,
        }
    }

    /// The index of the field whose value it holds, if it holds one.
    pub fn field(&self) -> Option<usize>
        ensures { result ≡ spec.held_field self.now }
    {
        match self {
            Content::Growing(held) => Some(held.field),
            Content::Run | Content::Fill(_) | Content::Align(_) | Content::Org(_) => None,
        }
    }
}
