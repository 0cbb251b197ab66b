//! The names of the types, and the types that they name.

ghost use Rattle.std.specs.Prelude.{◌≡◌, ◌<◌, ◌≤◌, [], ◌∷◌, ◌++◌, true, false, length, slice_index_or, OnOk};
ghost use Rattle.gc_script.specs.Grammar.{is_in_use};
ghost use Rattle.gc_script.specs.Words.{is_type_name, type_named};
ghost use Rattle.gc_script.specs.Written.{name_of};

use crate::fault::Cause;
use indexmap::IndexSet;
use std::alloc::{AllocError, Global};
use std::marker::Model;

/// The names of the types from type 1 on, in the order of their lines, each 1 to 16 bytes `a` to `z`. A name
/// is looked up by its hash, so that on average it takes no longer where there are many.
#[derive(Debug, Drop)]
pub(crate) struct Names {
    names: IndexSet<Vec<u8>>,
}

impl Model for Names {
    ghost use Rattle.std.specs.Prelude.{◌≡◌, true, ℕ, List, map, All};
    ghost use Rattle.gc_script.specs.Words.{is_type_name};

    ghost Value = { List (List ℕ) };

    ghost view = { λ n. map (λ name. name.items) n.names.keys };

    ghost invariant = { λ n. All (λ name. is_type_name name.items ≡ true) n.names.keys };
}

impl Names {
    /// No names, which take no memory.
    pub(crate) fn new(alloc: Global) -> Names
        ensures { result ≡ [] }
    {
        Names {
            names: IndexSet::new(alloc),
        }
    }

    /// How many names there are.
    pub(crate) fn len(&self) -> usize
        ensures { result ≡ length self.now }
    {
        self.names.len()
    }

    /// The number of the type of a declared name.
    pub(crate) fn type_named(&self, word: &[u8]) -> Result<u8, Cause>
        requires { length self.now < 256 }
        ensures { result ≡ type_named self.now word.now }
    {
        match self.names.get_index_of(word) {
            Some(index) => Ok(index as u8 + 1),
            None => Err(Cause::Type),
        }
    }

    /// Whether the name is `common`, or is declared.
    pub(crate) fn is_in_use(&self, name: &[u8]) -> bool
        ensures { result ≡ is_in_use self.now name.now }
    {
        name == b"common".as_slice() || self.names.contains(name)
    }

    /// The name of this index, counted from 0; no bytes where there is none.
    pub(crate) fn at(&self, index: usize) -> &[u8]
        ensures name { result.now ≡ slice_index_or self.now index [] }
        ensures short { length result.now ≤ 16 }
    {
        match self.names.get_index(index) {
            Some(name) => name.as_slice(),
            None => &[],
        }
    }

    /// The name of the type of this number; no bytes where no name is declared for it.
    pub(crate) fn name_of(&self, ty: u64) -> &[u8]
        ensures name { result.now ≡ name_of self.now ty }
        ensures short { length result.now ≤ 16 }
    {
        match ty.checked_sub(1) {
            Some(index) => self.at(index as usize),
            None => &[],
        }
    }

    /// Appends a type name that isn't in use.
    pub(crate) fn add(&mut self, alloc: Global, name: &[u8]) -> Result<(), AllocError>
        requires free { is_in_use self.old name.now ≡ false }
        requires letters { is_type_name name.now ≡ true }
        ensures { OnOk result (self.new ≡ self.old ++ name.now ∷ []) }
    {
        self.names.insert(Vec::from_slice(alloc, name)?)?;
        Ok(())
    }
}
