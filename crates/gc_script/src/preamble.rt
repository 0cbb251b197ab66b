//! What stands before the call lines of a script.

ghost use Rattle.std.specs.Prelude.{◌≡◌, ◌<◌, ◌≤◌, ◌+◌, true, false, length, map, Err, MatchResult};
ghost use Rattle.gc_script.specs.Grammar.{shape_of};

use crate::fault::{Cause, Fault, ReadError};
use crate::names::Names;
use crate::words::{is_type_name, small};
use gc_layout::{Shape, Types};
use std::alloc::Global;
use std::marker::Model;

/// What stands before the call lines: the number of mutators, and the types with their names.
#[derive(Debug, Drop)]
pub(crate) struct Preamble {
    mutators: u8,
    names: Names,
    types: Types,
}

impl Model for Preamble {
    ghost use Rattle.std.specs.Prelude.{◌≡◌, ◌+◌, ◌≤◌, length};
    ghost use Rattle.gc_script.specs.Script.{Preamble};

    ghost Value = { Preamble };

    ghost view = { λ p. record { mutators = p.mutators; names = p.names; types = p.types } };

    ghost invariant = { λ p. (length p.names + 1 ≡ length p.types) × (1 ≤ p.mutators) × (p.mutators ≤ 8) };
}

impl Preamble {
    ghost use Rattle.gc_script.specs.Fault.{Reads};
    ghost use Rattle.gc_script.specs.Grammar.{is_in_use, type_line, with_type};
    ghost use Rattle.gc_script.specs.Script.{first_preamble};
    ghost use Rattle.gc_script.specs.Words.{is_type_name};
    ghost use Rattle.gc_script.specs.declared.fault.ReadError.TheVariants.{Memory};

    /// Nothing is declared yet.
    pub(crate) fn make(alloc: Global, mutators: u8) -> Result<Preamble, ReadError<Fault>>
        requires some { 1 ≤ mutators }
        requires few { mutators ≤ 8 }
        ensures { MatchResult result (λ made. made ≡ first_preamble mutators) (λ error. error ≡ Memory) }
    {
        let Ok(types) = Types::make(alloc) else {
            return Err(ReadError::Memory);
        };
        Ok(Preamble {
            mutators,
            names: Names::new(alloc),
            types,
        })
    }

    /// How many mutators there are, 1 to 8.
    pub(crate) fn mutators(&self) -> u8
        ensures mutators { result ≡ self.now.mutators }
        ensures some { 1 ≤ result }
        ensures few { result ≤ 8 }
    {
        self.mutators
    }

    /// The names of the types, from type 1 on.
    pub(crate) fn names(&self) -> &Names
        ensures names { result.now ≡ self.now.names }
        ensures few { length result.now < 256 }
        ensures types { length result.now + 1 ≡ length self.now.types }
    {
        // The count says that there are at most 256 types.
        let _count = self.types.count();
        &self.names
    }

    /// The types, by number.
    pub(crate) fn types(&self) -> &Types
        ensures { result.now ≡ self.now.types }
    {
        &self.types
    }

    /// What is declared once a type line is read.
    pub(crate) fn with_type_line(
        self,
        alloc: Global,
        words: &[&[u8]],
    ) -> Result<Preamble, ReadError<Cause>>
        ensures { Reads (λ preamble. preamble) result (type_line self (map (λ word. word.now) words.now)) }
    {
        match self.new_type(words) {
            Ok((name, shape)) => self.with_type(alloc, name, shape),
            Err(cause) => Err(ReadError::Refused(cause)),
        }
    }

    /// The name and the shape that a type line gives, where all that is left to test is the room for it.
    #[tactic(auto, unfolding(crate::specs::Grammar::type_line))]
    fn new_type<'a>(&self, words: &[&'a [u8]]) -> Result<(&'a [u8], Shape), Cause>
        ensures { MatchResult result
            (λ new. (is_in_use self.now.names new.0.now ≡ false) × (is_type_name new.0.now ≡ true) × (type_line self.now (map (λ word. word.now) words.now) ≡ with_type self.now new.0.now new.1))
            (λ cause. type_line self.now (map (λ word. word.now) words.now) ≡ Err cause) }
    {
        let [_, name, slots, numbers] = words else {
            return Err(Cause::Word);
        };
        if !is_type_name(name) {
            return Err(Cause::Type);
        }
        if self.names.is_in_use(name) {
            return Err(Cause::Duplicate);
        }
        Ok((*name, shape_of(slots, numbers)?))
    }

    /// What is declared with one more type, whose name is a type name and isn't in use.
    #[tactic(auto, unfolding(crate::specs::Grammar::with_type))]
    pub(crate) fn with_type(
        self,
        alloc: Global,
        name: &[u8],
        shape: Shape,
    ) -> Result<Preamble, ReadError<Cause>>
        requires free { is_in_use self.names name.now ≡ false }
        requires letters { is_type_name name.now ≡ true }
        ensures { Reads (λ preamble. preamble) result (with_type self name.now shape) }
    {
        let Preamble {
            mutators,
            mut names,
            mut types,
        } = self;
        if types.add(shape).is_err() {
            return Err(ReadError::Refused(Cause::Type));
        }
        names.add(alloc, name)?;
        Ok(Preamble {
            mutators,
            names,
            types,
        })
    }
}

/// The numbers of slots and of number fields.
#[tactic(auto, unfolding(crate::specs::Grammar::shape_of))]
fn shape_of(slots: &[u8], numbers: &[u8]) -> Result<Shape, Cause>
    ensures { result ≡ shape_of slots.now numbers.now }
{
    Ok(Shape {
        slots: small(slots)?,
        numbers: small(numbers)?,
    })
}
