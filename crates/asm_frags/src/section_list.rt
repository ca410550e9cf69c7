//! The sections of a source in the order in which they are first seen.

ghost use Rattle.std.specs.Prelude.{◌≡◌, ◌==◌, ◌+◌, ◌≤◌, ◌<◌, ◌^◌, [], ◌∷◌, ◌++◌, length, position, false, All, map, slice_get, Some, IfOk, IfErr, IfSome, OnOk, is_some};
ghost use Rattle.std.specs.List.{list_any};
ghost use Rattle.asm_frags.specs.Substituting.{laid_section};
ghost use Rattle.asm_base.specs.declared.refusals.Refusal.TheVariants.{NoMemory};

use crate::faults::FragFault;
use crate::fields::FieldSize;
use crate::flags::{SHT_NOBITS, SHT_PROGBITS, SectionFlags};
use crate::items::Frag;
use crate::parts::Section;
use crate::phases::{Laid, Loose, Phase};
use crate::roles::FieldRole;
use crate::section_keys::MemberKey;
use crate::substituting::Substitution;
use asm_base::{Pos, Text};
use asm_expr::Linear;
use bitflags::Flags;
use indexmap::IndexMap;
use item_contents::Growth;
use std::alloc::Global;
use std::marker::Model;
use x86_insn::Suffix;

/// The sections of a source, each with its number, and the groups that they are in.
#[derive(Drop)]
pub struct Sections<P: Phase = Loose> {
    pub(crate) alloc: Global,
    /// The numbers of those in no group.
    pub(crate) names: IndexMap<Vec<u8>, u32>,
    /// The numbers of those in groups.
    pub(crate) members: IndexMap<MemberKey, u32>,
    /// The groups in first-seen order, by their signatures: whether a linker keeps one alone.
    pub(crate) groups: IndexMap<Vec<u8>, bool>,
    pub(crate) sections: Vec<Section<P>>,
}

impl<P: Phase> Model for Sections<P> {
    ghost use Rattle.std.specs.Prelude.{List, map};
    ghost use Rattle.asm_frags.specs.declared.items.Frag.{Frag};
    ghost use Rattle.asm_frags.specs.SectionOf.{SectionOf};
    ghost use Rattle.asm_frags.specs.Sound.{AreNamed, heading_of, plain_groups, plain_names};

    ghost Value = { List (SectionOf (Frag P P.Address)) };

    ghost view = { λ inside. inside.sections.items };

    ghost invariant = { λ inside. AreNamed (plain_names inside.names.entries)
        inside.members.entries (plain_groups inside.groups.entries)
        (map heading_of inside.sections.items) };
}

impl<P: Phase> Sections<P> {
    ghost use Rattle.asm_frags.specs.Groups.{groups_of, has_signature, IsFlagged};
    ghost use Rattle.asm_frags.specs.SectionOf.{is_section_named, section_number};

    /// How many sections there are.
    pub fn len(&self) -> usize
        ensures len { result ≡ length self.now }
        ensures within { result ≤ 30005 }
    {
        self.sections.len()
    }

    /// Whether there is none.
    pub fn is_empty(&self) -> bool
        ensures { result ≡ (length self.now == 0) }
    {
        self.sections.is_empty()
    }

    /// The sections, in the order of their numbers.
    pub fn as_slice(&self) -> &[Section<P>]
        ensures sections { result.now ≡ self.now }
        ensures within { length result.now ≤ 30005 }
        ensures flagged { All IsFlagged result.now }
    {
        self.sections.as_slice()
    }

    /// How many groups there are.
    pub fn group_count(&self) -> usize
        ensures len { result ≡ length (groups_of self.now) }
        ensures within { length self.now + result ≤ 30005 }
    {
        self.groups.len()
    }

    /// Where the group of this signature stands among the groups, in the order in which they are first
    /// seen.
    pub fn group_index(&self, signature: &[u8]) -> Option<usize>
        ensures { result ≡ position (has_signature signature.now) (groups_of self.now) }
    {
        self.groups.get_index_of(signature)
    }

    /// Whether there is a group of this signature.
    pub fn has_group(&self, signature: &[u8]) -> bool
        ensures { result ≡ list_any (has_signature signature.now) (groups_of self.now) }
    {
        self.groups.contains_key(signature)
    }

    /// The signature of the group of this index, and whether a linker keeps one alone.
    pub fn group(&self, index: usize) -> (&[u8], bool)
        requires { index < length (groups_of self.now) }
        ensures { slice_get (groups_of self.now) index
            ≡ Some (record { signature = result.0.now; comdat = result.1 }) }
    {
        match self.groups.get_index(index) {
            Some((signature, comdat)) => (signature.as_slice(), *comdat),
            None => (&[], false),
        }
    }

    /// The number of the section of this name that is in no group.
    pub fn find(&self, name: &[u8]) -> Option<u32>
        ensures number { result ≡ section_number name.now self.now }
        ensures within { IfSome result (λ number. number < length self.now) }
        ensures presence { is_some result ≡ list_any (is_section_named name.now) self.now }
    {
        self.names.get(name).copied()
    }

    /// The section of this number.
    pub fn section(&self, number: u32) -> &Section<P>
        requires { number < length self.now }
        ensures section { slice_get self.now number ≡ Some result.now }
        ensures within { length result.now.name ≤ 2 ^ 16 }
        ensures flagged { IsFlagged result.now }
    {
        &self.sections[number as usize]
    }
}

impl Sections<Loose> {
    ghost use Rattle.asm_frags.specs.Groups.{counted, says_group};
    ghost use Rattle.asm_frags.specs.Sections.{first_sections, put_into};
    ghost use Rattle.asm_frags.specs.SectionOf.{new_section, is_section_named};
    ghost use Rattle.asm_frags.specs.Answers.{Changes};
    ghost use Rattle.asm_frags.specs.Writing.{item_put, bytes_put, field_put, growing_put};

    /// Adds one of the first three sections.
    #[tactic(auto, using(crate::proofs::NamedLemmas::counted_bare))]
    fn begin(&mut self, name: &[u8], flags: SectionFlags, kind: u32) -> Result<(), FragFault>
        requires new { list_any (is_section_named name.now) self.old ≡ false }
        requires short { length name.now ≤ 2 ^ 16 }
        requires few { counted self.old < 3 }
        requires bare { says_group flags ≡ false }
        ensures ok { OnOk result (self.new ≡ self.old ++ new_section name.now flags kind 0 ∷ []) }
        ensures count { OnOk result (counted self.new ≡ counted self.old + 1) }
        ensures memory { IfErr result (λ fault. fault ≡ NoMemory) }
    {
        let name = Text::new(Vec::from_slice(self.alloc, name)?);
        match self.add(name, flags, kind, 0) {
            Ok(_) => Ok(()),
            Err(_) => Err(FragFault::NoMemory),
        }
    }

    /// `.text`, `.data` and `.bss`, as numbers 0, 1 and 2.
    #[tactic(auto, unfolding(crate::specs::Sections::first_sections))]
    pub fn new(alloc: Global) -> Result<Sections<Loose>, FragFault>
        ensures ok { IfOk result (λ sections. sections ≡ first_sections) }
        ensures memory { IfErr result (λ fault. fault ≡ NoMemory) }
    {
        let mut sections = Sections {
            alloc,
            names: IndexMap::new(alloc),
            members: IndexMap::new(alloc),
            groups: IndexMap::new(alloc),
            sections: Vec::new(alloc),
        };
        let written = SectionFlags::WRITE.union(SectionFlags::ALLOC);
        let executed = SectionFlags::ALLOC.union(SectionFlags::EXECINSTR);
        sections.begin(b".text", executed, SHT_PROGBITS)?;
        sections.begin(b".data", written, SHT_PROGBITS)?;
        sections.begin(b".bss", written, SHT_NOBITS)?;
        Ok(sections)
    }

    /// Puts an item last in the section of this number. `BadSection` comes exactly where the section has the type
    /// `SHT_NOBITS` and the item is not known to be zeros.
    pub fn push(&mut self, section: u32, item: Frag<Loose>) -> Result<(), FragFault>
        requires { section < length self.old }
        ensures { Changes self.old self.new result (put_into (item_put item) self.old section) }
    {
        let section = &mut self.sections[section as usize];
        section.put(item)
    }

    /// Puts plain bytes last in the section of this number. `BadSection` comes exactly where the section has the type
    /// `SHT_NOBITS` and a byte is not 0.
    pub fn push_bytes(&mut self, section: u32, pos: Pos, bytes: &[u8]) -> Result<(), FragFault>
        requires { section < length self.old }
        ensures { Changes self.old self.new result
            (put_into (bytes_put pos bytes.now) self.old section) }
    {
        let section = &mut self.sections[section as usize];
        section.put_bytes(pos, bytes)
    }

    /// Puts a field last in the section of this number, over zeros. `BadSection` comes exactly where the section has the type
    /// `SHT_NOBITS`.
    pub fn push_field(
        &mut self,
        section: u32,
        pos: Pos,
        size: FieldSize,
        role: FieldRole,
        form: Linear,
    ) -> Result<(), FragFault>
        requires { section < length self.old }
        ensures { Changes self.old self.new result
            (put_into (field_put pos section size role form) self.old section) }
    {
        let held = &mut self.sections[section as usize];
        held.put_field(pos, section, size, role, form)
    }

    /// Puts an item last in the section of this number that grows with the value of this form. That of
    /// a jump counts from its end, and is less the symbol `own_place`; it alone may have a suffix.
    /// `BadSection` comes exactly where the section has the type `SHT_NOBITS`.
    pub fn push_growing(
        &mut self,
        section: u32,
        pos: Pos,
        kind: Growth,
        suffix: Option<Suffix>,
        form: Linear,
    ) -> Result<(), FragFault>
        requires { section < length self.old }
        ensures { Changes self.old self.new result
            (put_into (growing_put pos section kind suffix form) self.old section) }
    {
        let held = &mut self.sections[section as usize];
        held.put_growing(pos, section, kind, suffix, form)
    }
}

/// The sections with the form of each field substituted, each item at address 0.
fn substitute_sections<R: Substitution>(
    alloc: Global,
    sections: Vec<Section<Loose>>,
    substitution: &R,
) -> Result<Vec<Section<Laid>>, FragFault>
    ensures ok { IfOk result (λ made.
        made.items ≡ map (laid_section (R.substitute substitution.now)) sections.items) }
    ensures memory { IfErr result (λ fault. fault ≡ NoMemory) }
{
    let mut made = Vec::with_capacity(alloc, sections.len())?;
    for section in sections {
        made.push(section.substituted(alloc, substitution)?)?;
    }
    Ok(made)
}

impl Sections<Loose> {
    ghost use Rattle.asm_frags.specs.Substituting.{laid_sections};

    /// The sections as layout takes them over: the form of each field is substituted, and each item is at address 0 until
    /// `lay` sets its address and its size. The old items of a section are let go before the next section is made.
    pub fn substituted<R: Substitution>(self, substitution: &R) -> Result<Sections<Laid>, FragFault>
        ensures ok { IfOk result (λ laid.
            laid ≡ laid_sections (R.substitute substitution.now) self) }
        ensures memory { IfErr result (λ fault. fault ≡ NoMemory) }
    {
        let Sections {
            alloc,
            names,
            members,
            groups,
            sections,
        } = self;
        let sections = substitute_sections(alloc, sections, substitution)?;
        Ok(Sections {
            alloc,
            names,
            members,
            groups,
            sections,
        })
    }
}

impl Sections<Laid> {
    ghost use Rattle.asm_frags.specs.Addresses.{HasItem, sections_laid_at};

    /// Sets the address and the size of the item of this index in the section of this number, without memory.
    pub fn lay(&mut self, section: u32, item: usize, address: u64, size: u64)
        requires section { section < length self.old }
        requires item { HasItem self.old section item }
        ensures sections { self.new ≡ sections_laid_at self.old section item address size }
        ensures kept { length self.new ≡ length self.old }
    {
        self.sections[section as usize].lay(item, address, size);
    }
}
