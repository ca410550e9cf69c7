//! The macros that are known, by name.

ghost use Rattle.std.specs.Prelude.{◌≡◌, [], ◌∷◌, ◌++◌, false, IfOk, OnOk};
ghost use Rattle.std.specs.List.{find, list_any};
ghost use Rattle.std.specs.Option.{option_map};

use asm_base::Text;
use indexmap::IndexMap;
use macro_texts::Parameter;
use std::alloc::{AllocError, Global};
use std::marker::Model;
use std::rc::Rc;

/// A macro that is known.
#[derive(Drop)]
pub(crate) struct Macro {
    pub parameters: Vec<Parameter>,
    /// The text of its body, shared by the calls that take it as it is.
    pub body: Rc<Text>,
}

/// The macros that are known, in the order in which they were defined.
#[derive(Drop)]
pub(crate) struct Macros {
    by_name: IndexMap<Vec<u8>, Rc<Macro>>,
}

impl Model for Macros {
    ghost use Rattle.std.specs.Prelude.{List, map};
    ghost use Rattle.asm_macro.specs.Expansion.{MacroAs};
    ghost use Rattle.asm_macro.specs.Macros.{entry_seen};

    ghost Value = { List MacroAs };

    ghost view = { λ macros. map entry_seen macros.by_name.entries };
}

impl Macros {
    ghost use Rattle.asm_macro.specs.Expansion.{is_called, without};
    ghost use Rattle.asm_macro.specs.Macros.{seen_as};

    /// No macro.
    pub(crate) fn new(alloc: Global) -> Macros
        ensures { result ≡ [] }
    {
        Macros {
            by_name: IndexMap::new(alloc),
        }
    }

    /// The macro of this name, if it is known.
    pub(crate) fn named(&self, name: &[u8]) -> Result<Option<Rc<Macro>>, AllocError>
        ensures { IfOk result (λ found. option_map (λ one. seen_as name.now one.value) found
            ≡ find (is_called name.now) self.now) }
    {
        match self.by_name.get(name) {
            Some(one) => Ok(Some(one.clone()?)),
            None => Ok(None),
        }
    }

    /// Whether a macro of this name is known.
    pub(crate) fn has(&self, name: &[u8]) -> bool
        ensures { result ≡ list_any (is_called name.now) self.now }
    {
        self.by_name.contains_key(name)
    }

    /// Another macro is known from here on.
    pub(crate) fn add(&mut self, alloc: Global, name: Vec<u8>, one: Macro) -> Result<(), AllocError>
        requires { list_any (is_called name.items) self.old ≡ false }
        ensures { OnOk result (self.new ≡ self.old ++ seen_as name.items one ∷ []) }
    {
        let one = Rc::new(alloc, one)?;
        self.by_name.insert(name, one)?;
        Ok(())
    }

    /// The macro of this name is known no more.
    pub(crate) fn forget(&mut self, name: &[u8])
        ensures { self.new ≡ without name.now self.old }
    {
        self.by_name.shift_remove(name);
    }
}
