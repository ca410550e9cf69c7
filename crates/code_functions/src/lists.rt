//! The items of each section in which a function began.

ghost use Rattle.std.specs.Prelude.{◌≡◌, ◌<◌, ◌^◌, [], ◌∷◌, ◌++◌, length, OnOk, OnErr};

use crate::items::CodeItem;
use asm_base::NoMemory;
use std::alloc::{AllocError, Global};
use std::marker::Model;

/// The items that are put into a section, fewer than 2^32.
#[derive(Drop)]
pub(crate) struct SectionItems {
    items: Vec<CodeItem>,
}

impl Model for SectionItems {
    ghost use Rattle.std.specs.Prelude.{List, ◌<◌, ◌^◌, length};
    ghost use Rattle.code_functions.specs.declared.items.CodeItem.{CodeItem};

    ghost Value = { List CodeItem };

    ghost view = { λ inside. inside.items.items };

    ghost invariant = { λ inside. length inside.items.items < 2 ^ 32 };
}

impl SectionItems {
    fn new(alloc: Global) -> SectionItems
        ensures { result ≡ [] }
    {
        SectionItems {
            items: Vec::new(alloc),
        }
    }

    pub(crate) fn as_slice(&self) -> &[CodeItem]
        ensures items { result.now ≡ self.now }
        ensures few { length result.now < 2 ^ 32 }
    {
        self.items.as_slice()
    }

    /// Puts an item last. One more than there may be is refused as want of memory.
    fn put(&mut self, item: CodeItem) -> Result<(), NoMemory>
        ensures ok { OnOk result (self.new ≡ self.old ++ item ∷ []) }
        ensures err { OnErr result (self.new ≡ self.old) }
    {
        if self.items.len() >= 0xffff_ffff {
            return Err(AllocError);
        }
        if self.items.len() < self.items.capacity() {
            self.items.push_reserved(item);
            return Ok(());
        }
        self.items.push(item)?;
        Ok(())
    }
}

/// The items of sections, by the numbers of these.
#[derive(Drop)]
pub(crate) struct ItemLists {
    alloc: Global,
    lists: Vec<SectionItems>,
}

impl Model for ItemLists {
    ghost use Rattle.std.specs.Prelude.{List};
    ghost use Rattle.code_functions.specs.declared.items.CodeItem.{CodeItem};

    ghost Value = { List (List CodeItem) };

    ghost view = { λ inside. inside.lists.items };
}

impl ItemLists {
    ghost use Rattle.code_functions.specs.Lists.{items_in, put_into, IsGrown};

    pub(crate) fn new(alloc: Global) -> ItemLists
        ensures { result ≡ [] }
    {
        ItemLists {
            alloc,
            lists: Vec::new(alloc),
        }
    }

    /// Gives the section a list, if it has none.
    #[tactic(auto, using(crate::proofs::SpanLemmas::grown_more, crate::proofs::SpanLemmas::grown_none))]
    pub(crate) fn reach(&mut self, section: u32) -> Result<(), NoMemory>
        ensures grown { IsGrown self.old self.new }
        ensures ok { OnOk result (section < length self.new) }
    {
        'lists: while self.lists.len() <= section as usize {
            self.lists.push(SectionItems::new(self.alloc))?;
        }
        Ok(())
    }

    /// The items of a section that has a list.
    pub(crate) fn items(&self, section: u32) -> &SectionItems
        requires { section < length self.now }
        ensures { result.now ≡ items_in self.now section }
    {
        &self.lists[section as usize]
    }

    /// Puts an item last in the list of its section, if there is one.
    pub(crate) fn put(&mut self, section: u32, item: CodeItem) -> Result<(), NoMemory>
        ensures ok { OnOk result (self.new ≡ put_into section item self.old) }
        ensures err { OnErr result (self.new ≡ self.old) }
    {
        if (section as usize) < self.lists.len() {
            let items = &mut self.lists[section as usize];
            items.put(item)
        } else {
            Ok(())
        }
    }
}
