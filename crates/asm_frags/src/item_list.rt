//! The items of a section in order, and what is kept of them all.

ghost use Rattle.std.specs.Prelude.{◌≡◌, ◌<◌, ◌≤◌, ◌^◌, [], ◌∷◌, ◌++◌, length, map, OnOk, IfOk, IfErr};
ghost use Rattle.asm_base.specs.declared.refusals.Refusal.TheVariants.{NoMemory};
ghost use Rattle.asm_frags.specs.Substituting.{laid_item};
ghost use Rattle.asm_frags.specs.Addresses.{changed_at, item_laid_at};

use crate::faults::FragFault;
use crate::items::Frag;
use crate::known_extents::KnownExtent;
use crate::phases::{Laid, Loose, Phase};
use item_contents::asked_alignment;
use std::alloc::Global;
use std::marker::Model;

/// The most items of a section. Each has at most 2^33 bytes, so all have at most 2^61.
const MOST_ITEMS: usize = 1 << 28;

/// Items in order.
#[derive(Drop)]
pub struct Items<P: Phase> {
    items: Vec<Frag<P>>,
    alignment: u64,
    extent: KnownExtent,
    /// The last item is a run.
    in_run: bool,
}

impl<P: Phase> Model for Items<P> {
    ghost use Rattle.std.specs.Prelude.{List};
    ghost use Rattle.asm_frags.specs.declared.items.Frag.{Frag};
    ghost use Rattle.asm_frags.specs.SoundItems.{AreItems};

    ghost Value = { List (Frag P P.Address) };

    ghost view = { λ inside. inside.items.items };

    ghost invariant = { λ inside.
        AreItems inside.items.items inside.alignment inside.extent inside.in_run };
}

impl<P: Phase> Items<P> {
    ghost use Rattle.asm_frags.specs.Alignments.{alignment_of_all};
    ghost use Rattle.asm_frags.specs.KnownExtents.{extent_of};
    ghost use Rattle.asm_frags.specs.Writing as spec;

    /// No items.
    pub fn new(alloc: Global) -> Items<P>
        ensures { result ≡ [] }
    {
        Items {
            items: Vec::new(alloc),
            alignment: 1,
            extent: KnownExtent {
                breaks: 0,
                bytes: 0,
            },
            in_run: false,
        }
    }

    /// How many items there are.
    pub fn len(&self) -> usize
        ensures length { result ≡ length self.now }
        ensures within { result ≤ 2 ^ 28 }
    {
        self.items.len()
    }

    /// The items.
    pub fn as_slice(&self) -> &[Frag<P>]
        ensures items { result.now ≡ self.now }
        ensures within { length result.now ≤ 2 ^ 28 }
    {
        self.items.as_slice()
    }

    /// The greatest alignment of an item, and 1 where no item is aligned.
    pub fn alignment(&self) -> u64
        ensures { result ≡ alignment_of_all self.now }
    {
        self.alignment
    }

    /// The known extent.
    pub fn extent(&self) -> KnownExtent
        ensures extent { result ≡ extent_of self.now }
        ensures breaks { result.breaks ≤ 2 ^ 28 }
        ensures bytes { result.bytes ≤ 2 ^ 61 }
    {
        self.extent
    }

    /// Whether the last item is a run.
    pub fn ends_in_run(&self) -> bool
        ensures { result ≡ spec.ends_in_run self.now }
    {
        self.in_run
    }

    /// Puts the item last. There are at most 2^28 items; one more is refused as want of memory.
    #[inline(never)]
    pub fn add(&mut self, item: Frag<P>) -> Result<(), FragFault>
        ensures ok { OnOk result (self.new ≡ self.old ++ item ∷ []) }
        ensures err { IfErr result (λ fault. (fault ≡ NoMemory) × (self.new ≡ self.old)) }
    {
        if self.items.len() >= MOST_ITEMS {
            return Err(FragFault::NoMemory);
        }
        let asked = asked_alignment(&item.content);
        let is_run = item.content.is_run();
        let extent = self.extent.advanced(&item);
        put_last(&mut self.items, item)?;
        self.alignment = self.alignment.max(asked);
        self.extent = extent;
        self.in_run = is_run;
        Ok(())
    }
}

/// Puts an item last, at once where there is room for it.
#[inline(always)]
fn put_last<P: Phase>(items: &mut Vec<Frag<P>>, item: Frag<P>) -> Result<(), FragFault>
    ensures ok { OnOk result (items.new.items ≡ items.old.items ++ item ∷ []) }
    ensures err { IfErr result (λ fault. (fault ≡ NoMemory) × (items.new.items ≡ items.old.items)) }
{
    if items.len() < items.capacity() {
        items.push_reserved(item);
        return Ok(());
    }
    Ok(items.push(item)?)
}

/// The items at address 0.
fn laid_items(alloc: Global, items: Vec<Frag<Loose>>) -> Result<Vec<Frag<Laid>>, FragFault>
    ensures ok { IfOk result (λ made. made.items ≡ map laid_item items.items) }
    ensures memory { IfErr result (λ fault. fault ≡ NoMemory) }
{
    let mut made = Vec::with_capacity(alloc, items.len())?;
    for item in items {
        put_last(&mut made, item.laid())?;
    }
    Ok(made)
}

impl Items<Loose> {
    /// The items at address 0.
    pub fn laid(self, alloc: Global) -> Result<Items<Laid>, FragFault>
        ensures ok { IfOk result (λ made. made ≡ map laid_item self) }
        ensures memory { IfErr result (λ fault. fault ≡ NoMemory) }
    {
        let Items {
            items,
            alignment,
            extent,
            in_run,
        } = self;
        let items = laid_items(alloc, items)?;
        Ok(Items {
            items,
            alignment,
            extent,
            in_run,
        })
    }
}

impl Items<Laid> {
    /// Sets the address and the size of the item of this index.
    pub fn lay(&mut self, item: usize, address: u64, size: u64)
        requires { item < length self.old }
        ensures { self.new ≡ changed_at (item_laid_at address size) self.old item }
    {
        let laid = &mut self.items[item];
        laid.address = address;
        laid.size = size;
    }
}
