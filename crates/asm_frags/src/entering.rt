//! The number of the section that a statement names, and the sections and groups that names add.

ghost use Rattle.std.specs.Prelude.{◌≡◌, ◌+◌, ◌≤◌, ◌<◌, ◌^◌, length, nat_lt, true, false, slice_get, Some, IfOk, IfSome, is_some};
ghost use Rattle.std.specs.List.{list_any};
ghost use Rattle.asm_frags.specs.Groups.{is_otherwise};

use crate::faults::{FragCause, FragFault};
use crate::flags::SectionFlags;
use crate::groups::Group;
use crate::parts::Section;
use crate::phases::Loose;
use crate::section_keys::MemberKey;
use crate::section_list::Sections;
use asm_base::Text;
use std::alloc::{AllocError, Global};

/// The most sections and groups of a source: 30,000 that it makes, and the three sections that are there
/// from the beginning.
const MOST_SECTIONS: usize = 30_003;

/// The most with the sections of the two tables that are put after all statements.
const MOST_WITH_TABLES: usize = 30_005;

/// Whether one of these is said and the other is not.
fn is_otherwise(one: bool, other: bool) -> bool
    ensures { result ≡ is_otherwise one other }
{
    one != other
}

/// A copy of the text.
fn copied(alloc: Global, text: &Text) -> Result<Text, AllocError>
    ensures { IfOk result (λ copy. copy ≡ text.now) }
{
    Ok(Text::new(Vec::from_slice(alloc, text.as_bytes())?))
}

impl Sections<Loose> {
    ghost use Rattle.asm_frags.specs.Groups.{counted, groups_of, is_member_named, is_said_otherwise, member_number, new_groups, says_group};
    ghost use Rattle.asm_frags.specs.Sections.{entered, entered_in, entered_member, entered_there, Enters, new_last, new_member, put_last, table_last};
    ghost use Rattle.asm_frags.specs.SectionOf.{new_section, is_section_named};

    /// Whether there is room for a section more, and for so many groups, where there are at most so many.
    fn has_room(&self, groups: usize, most: usize) -> bool
        requires { groups ≤ 1 }
        ensures { result ≡ nat_lt (counted self.now + groups) most }
    {
        self.sections.len() + self.groups.len() + groups < most
    }

    /// Puts a section in no group last, whose name is new, and gives its number.
    fn put_bare(
        &mut self,
        name: Text,
        flags: SectionFlags,
        kind: u32,
        entry_size: u64,
    ) -> Result<u32, FragFault>
        requires new { list_any (is_section_named name) self.old ≡ false }
        requires room { counted self.old < 30005 }
        requires short { length name ≤ 2 ^ 16 }
        requires bare { says_group flags ≡ false }
        ensures { Enters self.old self.new result
            (put_last self.old (new_section name flags kind entry_size)) }
    {
        let number = self.sections.len() as u32;
        let key = Vec::from_slice(self.alloc, name.as_bytes())?;
        self.sections.reserve(1)?;
        self.names.insert(key, number)?;
        // `reserve` made room for it.
        self.sections
            .push(Section::new(self.alloc, name, flags, kind, entry_size, None))
            .unwrap();
        Ok(number)
    }

    /// Adds a section in no group whose name is new, and gives its number.
    pub(crate) fn add(
        &mut self,
        name: Text,
        flags: SectionFlags,
        kind: u32,
        entry_size: u64,
    ) -> Result<u32, FragFault>
        requires new { list_any (is_section_named name) self.old ≡ false }
        requires short { length name ≤ 2 ^ 16 }
        requires bare { says_group flags ≡ false }
        ensures { Enters self.old self.new result
            (new_last self.old (new_section name flags kind entry_size)) }
    {
        if !self.has_room(0, MOST_SECTIONS) {
            return Err(FragFault::Fault(FragCause::BadSection));
        }
        self.put_bare(name, flags, kind, entry_size)
    }

    /// Adds the section of a table that is put after all statements, which is in no group and whose name is
    /// new, and gives its number. `BadSection` comes exactly where there would be more than 30,005 sections
    /// and groups: never in the first two calls after those of a source.
    pub fn add_table(
        &mut self,
        name: Text,
        flags: SectionFlags,
        kind: u32,
        entry_size: u64,
    ) -> Result<u32, FragFault>
        requires new { list_any (is_section_named name) self.old ≡ false }
        requires short { length name ≤ 2 ^ 16 }
        requires bare { says_group flags ≡ false }
        ensures { Enters self.old self.new result
            (table_last self.old (new_section name flags kind entry_size)) }
    {
        if !self.has_room(0, MOST_WITH_TABLES) {
            return Err(FragFault::Fault(FragCause::BadSection));
        }
        self.put_bare(name, flags, kind, entry_size)
    }

    /// The number of the section of this name in its group.
    fn find_member(&self, key: &MemberKey) -> Option<u32>
        ensures number { result ≡ member_number key.now.signature key.now.name self.now }
        ensures within { IfSome result (λ number. number < length self.now) }
        ensures presence { is_some result
            ≡ list_any (is_member_named key.now.signature key.now.name) self.now }
    {
        self.members.get(key).copied()
    }

    /// Whether the group was seen before with the other word on what a linker keeps.
    fn is_said_otherwise(&self, signature: &Text, comdat: bool) -> bool
        ensures { result ≡ is_said_otherwise
            (record { signature = signature.now; comdat = comdat }) self.now }
    {
        match self.groups.get(signature.as_bytes()) {
            Some(seen) => is_otherwise(comdat, *seen),
            None => false,
        }
    }

    /// How many groups more there are with this one.
    fn new_groups(&self, signature: &Text, comdat: bool) -> usize
        ensures value { result ≡ new_groups (groups_of self.now)
            (Some (record { signature = signature.now; comdat = comdat })) }
        ensures within { result ≤ 1 }
    {
        if self.has_group(signature.as_bytes()) {
            0
        } else {
            1
        }
    }

    /// Adds a section whose name is new in its group, and gives its number.
    fn add_member(
        &mut self,
        key: MemberKey,
        comdat: bool,
        flags: SectionFlags,
        kind: u32,
        entry_size: u64,
    ) -> Result<u32, FragFault>
        requires new { list_any (is_member_named key.signature key.name) self.old ≡ false }
        requires same { is_said_otherwise
            (record { signature = key.signature; comdat = comdat }) self.old ≡ false }
        requires short { length key.name ≤ 2 ^ 16 }
        requires flagged { says_group flags ≡ true }
        ensures { Enters self.old self.new result (new_last self.old
            (new_member (record { signature = key.signature; comdat = comdat })
            key.name flags kind entry_size)) }
    {
        if !self.has_room(self.new_groups(&key.signature, comdat), MOST_SECTIONS) {
            return Err(FragFault::Fault(FragCause::BadSection));
        }
        let number = self.sections.len() as u32;
        let seen = Vec::from_slice(self.alloc, key.signature.as_bytes())?;
        let signature = copied(self.alloc, &key.signature)?;
        let name = copied(self.alloc, &key.name)?;
        let group = Some(Group { signature, comdat });
        self.sections.reserve(1)?;
        self.members.reserve(1)?;
        self.groups.insert(seen, comdat)?;
        // `reserve` made room for both.
        self.members.insert(key, number).unwrap();
        self.sections
            .push(Section::new(self.alloc, name, flags, kind, entry_size, group))
            .unwrap();
        Ok(number)
    }

    /// The number of a section that is there, which has to be as it is said now.
    fn enter_there(
        &self,
        number: u32,
        flags: SectionFlags,
        kind: u32,
        entry_size: u64,
    ) -> Result<u32, FragFault>
        requires { number < length self.now }
        ensures { Enters self.now self.now result
            (entered_there self.now number (slice_get self.now number) flags kind entry_size) }
    {
        if self.section(number).is_alike(flags, kind, entry_size) {
            Ok(number)
        } else {
            Err(FragFault::Fault(FragCause::BadSection))
        }
    }

    /// The number of the section of this name that is in no group, which is added where there is none.
    fn enter_bare(
        &mut self,
        name: Text,
        flags: SectionFlags,
        kind: u32,
        entry_size: u64,
    ) -> Result<u32, FragFault>
        requires short { length name ≤ 2 ^ 16 }
        requires bare { says_group flags ≡ false }
        ensures { Enters self.old self.new result (entered self.old name flags kind entry_size) }
    {
        match self.find(name.as_bytes()) {
            Some(number) => self.enter_there(number, flags, kind, entry_size),
            None => self.add(name, flags, kind, entry_size),
        }
    }

    /// The number of the section of this name in its group, which is added where there is none.
    fn enter_member(
        &mut self,
        key: MemberKey,
        comdat: bool,
        flags: SectionFlags,
        kind: u32,
        entry_size: u64,
    ) -> Result<u32, FragFault>
        requires short { length key.name ≤ 2 ^ 16 }
        requires flagged { says_group flags ≡ true }
        ensures { Enters self.old self.new result (entered_member self.old key.name flags kind
            entry_size (record { signature = key.signature; comdat = comdat })) }
    {
        if self.is_said_otherwise(&key.signature, comdat) {
            return Err(FragFault::Fault(FragCause::BadSection));
        }
        match self.find_member(&key) {
            Some(number) => self.enter_there(number, flags, kind, entry_size),
            None => self.add_member(key, comdat, flags, kind, entry_size),
        }
    }

    /// The number of the section of this name, in the group of the given signature or in none, which is
    /// added where there is none. `BadSection` comes exactly where the section has other flags, another
    /// type or another entry size, where the group was seen before with the other word on what a linker
    /// keeps, or where there would be more than 30,003 sections and groups.
    pub fn enter(
        &mut self,
        name: Text,
        flags: SectionFlags,
        kind: u32,
        entry_size: u64,
        group: Option<(Text, bool)>,
    ) -> Result<u32, FragFault>
        requires short { length name ≤ 2 ^ 16 }
        requires flagged { says_group flags ≡ is_some group }
        ensures { Enters self.old self.new result
            (entered_in self.old name flags kind entry_size group) }
    {
        match group {
            None => self.enter_bare(name, flags, kind, entry_size),
            Some((signature, comdat)) => {
                let key = MemberKey { signature, name };
                self.enter_member(key, comdat, flags, kind, entry_size)
            }
        }
    }
}
