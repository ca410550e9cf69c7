//! Sections: the words of their headers, their plain bytes with fields, and their items in order.

ghost use Rattle.std.specs.Prelude.{◌≡◌, ◌<◌, ◌≤◌, ◌^◌, ◌++◌, length, option_map, IfOk, IfErr, OnOk, OnErr};
ghost use Rattle.asm_base.specs.declared.refusals.Refusal.TheVariants.{NoMemory};
ghost use Rattle.asm_frags.specs.Substituting.{laid_section};
ghost use Rattle.asm_frags.specs.Addresses.{section_laid_at};

use crate::faults::{FragCause, FragFault};
use crate::fields::{Field, FieldSize};
use crate::flags::{SHT_NOBITS, SectionFlags};
use crate::groups::Group;
use crate::item_list::Items;
use crate::items::Frag;
use crate::known_extents::KnownExtent;
use crate::phases::{Laid, Loose, Phase};
use crate::roles::{FieldRole, growth_role};
use crate::substituting::{Substitution, substitute_fields};
use asm_base::{Pos, Text};
use asm_expr::Linear;
use item_contents::{Content, Growing, Growth, are_zeros, is_known_zeros};
use std::alloc::{AllocError, Global};
use std::marker::Model;
use x86_insn::Suffix;

/// The most plain bytes of a section.
const MOST_BYTES: usize = 1 << 33;

/// A section.
#[derive(Drop)]
pub struct Section<P: Phase> {
    name: Text,
    flags: SectionFlags,
    kind: u32,
    entry_size: u64,
    group: Option<Group>,
    bytes: Vec<u8>,
    fields: Vec<Field>,
    items: Items<P>,
}

impl<P: Phase> Model for Section<P> {
    ghost use Rattle.std.specs.Prelude.{length};
    ghost use Rattle.asm_frags.specs.declared.items.Frag.{Frag};
    ghost use Rattle.asm_frags.specs.SectionOf.{SectionOf};
    ghost use Rattle.asm_frags.specs.PlainBytes.{AreBytes};
    ghost use Rattle.asm_frags.specs.SoundItems.{AreBehind};

    ghost Value = { SectionOf (Frag P P.Address) };

    ghost view = { λ inside. record {
      name = inside.name;
      flags = inside.flags;
      kind = inside.kind;
      entry_size = inside.entry_size;
      group = inside.group;
      bytes = inside.bytes.items;
      fields = inside.fields.items;
      items = inside.items;
    } };

    ghost invariant = { λ inside. AreBytes inside.bytes.items inside.fields.items
        × AreBehind (length inside.bytes.items) inside.items };
}

impl<P: Phase> Section<P> {
    ghost use Rattle.asm_frags.specs.Alignments.{alignment_of_all};
    ghost use Rattle.asm_frags.specs.KnownExtents.{extent_of};
    ghost use Rattle.asm_frags.specs.PlainBytes.{AreBytes};
    ghost use Rattle.asm_frags.specs.SoundItems.{AreBehind};
    ghost use Rattle.asm_frags.specs.Groups.{is_member_named};
    ghost use Rattle.asm_frags.specs.SectionOf.{new_section, is_alike};

    /// A section that nothing was put into.
    pub fn new(
        alloc: Global,
        name: Text,
        flags: SectionFlags,
        kind: u32,
        entry_size: u64,
        group: Option<Group>,
    ) -> Section<P>
        ensures { result ≡ record (new_section name flags kind entry_size) { group = group } }
    {
        Section {
            name,
            flags,
            kind,
            entry_size,
            group,
            bytes: Vec::new(alloc),
            fields: Vec::new(alloc),
            items: Items::new(alloc),
        }
    }

    /// The name.
    pub fn name(&self) -> &[u8]
        ensures { result.now ≡ self.now.name }
    {
        self.name.as_bytes()
    }

    /// `sh_flags`.
    pub fn flags(&self) -> SectionFlags
        ensures { result ≡ self.now.flags }
    {
        self.flags
    }

    /// `sh_type`.
    pub fn kind(&self) -> u32
        ensures { result ≡ self.now.kind }
    {
        self.kind
    }

    /// `sh_entsize`.
    pub fn entry_size(&self) -> u64
        ensures { result ≡ self.now.entry_size }
    {
        self.entry_size
    }

    /// The group that the section is in, if it is in one.
    pub fn group(&self) -> Option<&Group>
        ensures { option_map (λ group. group.now) result ≡ self.now.group }
    {
        self.group.as_ref()
    }

    /// Whether the section has this name and is in the group of this signature.
    pub(crate) fn is_member_named(&self, signature: &[u8], name: &[u8]) -> bool
        ensures { result ≡ is_member_named signature.now name.now self.now }
    {
        match &self.group {
            Some(group) => {
                signature == group.signature.as_bytes() && name == self.name.as_bytes()
            }
            None => false,
        }
    }

    /// The plain bytes, which are 0 at each field.
    pub fn bytes(&self) -> &[u8]
        ensures bytes { result.now ≡ self.now.bytes }
        ensures within { AreBytes self.now.bytes self.now.fields }
    {
        self.bytes.as_slice()
    }

    /// The fields, in the order of their offsets.
    pub fn fields(&self) -> &[Field]
        ensures fields { result.now ≡ self.now.fields }
        ensures within { AreBytes self.now.bytes self.now.fields }
    {
        self.fields.as_slice()
    }

    /// The items in order.
    pub fn items(&self) -> &[Frag<P>]
        ensures items { result.now ≡ self.now.items }
        ensures within { length result.now ≤ 2 ^ 28 }
        ensures behind { AreBehind (length self.now.bytes) result.now }
    {
        self.items.as_slice()
    }

    /// `sh_addralign`: the greatest alignment of an item, and 1 where no item is aligned.
    pub fn alignment(&self) -> u64
        ensures { result ≡ alignment_of_all self.now.items }
    {
        self.items.alignment()
    }

    /// The known extent of the section.
    pub fn extent(&self) -> KnownExtent
        ensures extent { result ≡ extent_of self.now.items }
        ensures breaks { result.breaks ≤ 2 ^ 28 }
        ensures bytes { result.bytes ≤ 2 ^ 61 }
    {
        self.items.extent()
    }

    /// Whether the section has these flags, this type and this entry size.
    pub(crate) fn is_alike(&self, flags: SectionFlags, kind: u32, entry_size: u64) -> bool
        ensures { result ≡ is_alike self.now flags kind entry_size }
    {
        self.flags == flags && self.kind == kind && self.entry_size == entry_size
    }
}

/// Puts bytes behind these. Most are few: one to four need no copy of a slice where there is room.
#[inline(always)]
fn append(bytes: &mut Vec<u8>, more: &[u8]) -> Result<(), AllocError>
    ensures ok { OnOk result (bytes.new.items ≡ bytes.old.items ++ more.now) }
    ensures kept { OnErr result (bytes.new.items ≡ bytes.old.items) }
{
    match more {
        [byte] => match bytes.push(*byte) {
            Ok(()) => Ok(()),
            Err(_) => Err(AllocError),
        },
        [a, b] if bytes.capacity() - bytes.len() >= 2 => {
            bytes.push_reserved(*a);
            bytes.push_reserved(*b);
            Ok(())
        }
        [a, b, c] if bytes.capacity() - bytes.len() >= 3 => {
            bytes.push_reserved(*a);
            bytes.push_reserved(*b);
            bytes.push_reserved(*c);
            Ok(())
        }
        [a, b, c, d] if bytes.capacity() - bytes.len() >= 4 => {
            bytes.push_reserved(*a);
            bytes.push_reserved(*b);
            bytes.push_reserved(*c);
            bytes.push_reserved(*d);
            Ok(())
        }
        _ => bytes.extend_from_slice(more),
    }
}

impl Section<Loose> {
    ghost use Rattle.asm_frags.specs.Answers.{Changes};
    ghost use Rattle.std.specs.Prelude.{◌≡◌, ◌+◌, ◌≤◌, ◌^◌, false, length, Ok};
    ghost use Rattle.asm_frags.specs.Writing.{bytes_put, ends_in_run, field_put, growing_put, item_put, with_bytes};

    /// Puts the item last. `BadSection` comes exactly where the section has the type `SHT_NOBITS` and the item is not known
    /// to be zeros.
    pub(crate) fn put(&mut self, item: Frag<Loose>) -> Result<(), FragFault>
        ensures { Changes self.old self.new result (item_put item self.old) }
    {
        if self.kind == SHT_NOBITS && !is_known_zeros(&item.content) {
            return Err(FragFault::Fault(FragCause::BadSection));
        }
        self.items.add(item.behind(self.bytes.len()))
    }

    /// Puts plain bytes last. `BadSection` comes exactly where the section has the type `SHT_NOBITS` and a byte is not 0.
    /// A section has at most 2^33 plain bytes; more are refused as want of memory.
    pub(crate) fn put_bytes(&mut self, pos: Pos, bytes: &[u8]) -> Result<(), FragFault>
        ensures { Changes self.old self.new result (bytes_put pos bytes.now self.old) }
    {
        if self.kind == SHT_NOBITS && !are_zeros(bytes) {
            return Err(FragFault::Fault(FragCause::BadSection));
        }
        if bytes.len() > MOST_BYTES - self.bytes.len() {
            return Err(FragFault::NoMemory);
        }
        if !self.items.ends_in_run() {
            return self.begin_run(pos, bytes);
        }
        append(&mut self.bytes, bytes)?;
        Ok(())
    }

    /// Puts plain bytes last, as a new run.
    #[inline(never)]
    fn begin_run(&mut self, pos: Pos, bytes: &[u8]) -> Result<(), FragFault>
        requires new { ends_in_run self.old.items ≡ false }
        requires few { length self.old.bytes + length bytes.now ≤ 2 ^ 33 }
        ensures { Changes self.old self.new result (Ok (with_bytes pos bytes.now self.old)) }
    {
        self.bytes.reserve(bytes.len())?;
        self.items
            .add(Frag::new(pos, Content::Run).behind(self.bytes.len()))?;
        // `reserve` made room for them.
        self.bytes.extend_from_slice(bytes).unwrap();
        Ok(())
    }

    /// Puts a field last, over zeros, in the section, which has this number. `BadSection` comes exactly where the section has the type `SHT_NOBITS`.
    /// A section has at most 2^33 plain bytes; more are refused as want of memory.
    pub(crate) fn put_field(
        &mut self,
        pos: Pos,
        number: u32,
        size: FieldSize,
        role: FieldRole,
        form: Linear,
    ) -> Result<(), FragFault>
        ensures { Changes self.old self.new result (field_put pos number size role form self.old) }
    {
        if self.kind == SHT_NOBITS {
            return Err(FragFault::Fault(FragCause::BadSection));
        }
        let offset = self.bytes.len();
        if size.bytes() > MOST_BYTES - offset {
            return Err(FragFault::NoMemory);
        }
        self.fields.reserve(1)?;
        self.bytes.reserve(size.bytes())?;
        if !self.items.ends_in_run() {
            self.items
                .add(Frag::new(pos, Content::Run).behind(self.bytes.len()))?;
        }
        let item = self.items.len() as u32;
        // `reserve` made room for them.
        self.bytes.extend_from_slice(size.blank()).unwrap();
        self.fields
            .push(Field {
                pos,
                item,
                offset,
                section: number,
                size,
                role,
                in_item: false,
                form,
            })
            .unwrap();
        Ok(())
    }

    /// Puts an item last that grows with the value of this form, in the section, which has this
    /// number. `BadSection` comes exactly where the section has the type `SHT_NOBITS`.
    pub(crate) fn put_growing(
        &mut self,
        pos: Pos,
        number: u32,
        kind: Growth,
        suffix: Option<Suffix>,
        form: Linear,
    ) -> Result<(), FragFault>
        ensures { Changes self.old self.new result
            (growing_put pos number kind suffix form self.old) }
    {
        if self.kind == SHT_NOBITS {
            return Err(FragFault::Fault(FragCause::BadSection));
        }
        self.fields.reserve(1)?;
        let offset = self.bytes.len();
        let field = self.fields.len();
        let held = Content::Growing(Growing { kind, field });
        self.items.add(Frag::new(pos, held).behind(offset))?;
        let item = self.items.len() as u32;
        // `reserve` made room for it.
        self.fields
            .push(Field {
                pos,
                item,
                offset,
                section: number,
                size: FieldSize::Four,
                role: growth_role(kind, suffix),
                in_item: true,
                form,
            })
            .unwrap();
        Ok(())
    }
}

impl Section<Loose> {
    /// The section with the form of each field substituted, each item at address 0.
    pub(crate) fn substituted<R: Substitution>(
        self,
        alloc: Global,
        substitution: &R,
    ) -> Result<Section<Laid>, FragFault>
        ensures ok { IfOk result (λ made.
            made ≡ laid_section (R.substitute substitution.now) self) }
        ensures memory { IfErr result (λ fault. fault ≡ NoMemory) }
    {
        let Section {
            name,
            flags,
            kind,
            entry_size,
            group,
            bytes,
            mut fields,
            items,
        } = self;
        substitute_fields(&mut fields, substitution)?;
        let items = items.laid(alloc)?;
        Ok(Section {
            name,
            flags,
            kind,
            entry_size,
            group,
            bytes,
            fields,
            items,
        })
    }
}

impl Section<Laid> {
    /// Sets the address and the size of the item of this index.
    pub(crate) fn lay(&mut self, item: usize, address: u64, size: u64)
        requires { item < length self.old.items }
        ensures { self.new ≡ section_laid_at self.old item address size }
    {
        self.items.lay(item, address, size);
    }
}
