//! A script as its callers see it.

ghost use Rattle.std.specs.Prelude.{◌≡◌, ◌<◌, ◌≤◌, ◌↔◌, length, slice_get, IsNone, IfSome};
ghost use Rattle.gc_script.specs.Text.{most_bytes};

use crate::heading::Heading;
use crate::lines::Lines;
use crate::preamble::Preamble;
use gc_layout::Types;
use gc_model::Line;
use std::marker::Model;

/// The number of the first line behind the version line and the line of the mutators.
pub(crate) const FIRST_LINE: u32 = 3;

/// A script that a text is read as: the number of mutators, 1 to 8, the types with their names, and the call
/// lines. What it is written as is read as it.
#[derive(Debug, Drop)]
pub struct Script {
    preamble: Preamble,
    lines: Lines,
}

impl Model for Script {
    ghost use Rattle.gc_script.specs.Laws.{IsWritable};
    ghost use Rattle.gc_script.specs.Script.{Script};

    ghost Value = { Script };

    ghost view = { λ s. record { preamble = s.preamble; lines = s.lines } };

    ghost invariant = { λ s. IsWritable (record { preamble = s.preamble; lines = s.lines }) };
}

impl Script {
    ghost use Rattle.std.specs.Prelude.{All};
    ghost use Rattle.gc_script.specs.Laws.{IsReadBack, IsReadLine};
    ghost use Rattle.gc_script.specs.Script.{IsFitLine, IsScriptLine, number_of_line};

    pub(crate) fn new(preamble: Preamble, lines: Lines) -> Script
        requires few { length lines ≤ most_bytes }
        requires read_back { IsReadBack (record { preamble = preamble; lines = lines }) }
        ensures { result ≡ record { preamble = preamble; lines = lines } }
    {
        Script { preamble, lines }
    }

    /// What stands before the call lines.
    pub(crate) fn preamble(&self) -> &Preamble
        ensures preamble { result.now ≡ self.now.preamble }
        ensures read_back { IsReadBack self.now }
    {
        &self.preamble
    }

    /// How many mutators there are, 1 to 8.
    pub fn mutators(&self) -> u8
        ensures mutators { result ≡ self.now.preamble.mutators }
        ensures some { 1 ≤ result }
        ensures few { result ≤ 8 }
    {
        self.preamble.mutators()
    }

    /// The types, by number; type 0 is the common object's.
    pub fn types(&self) -> &Types
        ensures { result.now ≡ self.now.preamble.types }
    {
        self.preamble.types()
    }

    /// How many call lines there are. Each is one that a call line can be read as: its mutator is there, its call is
    /// no End, its type is declared and not the common object's, and its place of the common object is
    /// below 16.
    pub fn count(&self) -> usize
        ensures count { result ≡ length self.now.lines }
        ensures most { result ≤ most_bytes }
        ensures lines { All (IsScriptLine self.now.preamble) self.now.lines }
        ensures fit { All (IsFitLine self.now.preamble) self.now.lines }
    {
        self.lines.len()
    }

    /// A call line, counted from 0, which is read from the words that it is written as. None exactly where `i` isn't
    /// below the count.
    pub fn line(&self, i: usize) -> Option<Line>
        ensures line { result ≡ slice_get self.now.lines i }
        ensures none { IsNone result ↔ (length self.now.lines ≤ i) }
        ensures read_back { IfSome result (IsReadLine self.now.preamble) }
        ensures readable { IfSome result (IsScriptLine self.now.preamble) }
        ensures fit { IfSome result (IsFitLine self.now.preamble) }
    {
        self.lines.get(i)
    }

    /// The call lines, to be lent, and what stands before them, which can be made a script again with them.
    pub fn into_parts(self) -> (Heading, Vec<Line>)
        ensures heading { result.0 ≡ self }
        ensures lines { result.1.items ≡ self.lines }
        ensures few { length self.lines ≤ most_bytes }
        ensures fit { All (IsFitLine self.preamble) self.lines }
    {
        let Script { preamble, lines } = self;
        let heading = Heading::new(preamble, &lines);
        (heading, lines.into_vec())
    }

    /// The number in the text, from 1, of a call line counted from 0. None exactly where `i` isn't below
    /// the count.
    pub fn line_number(&self, i: usize) -> Option<u32>
        ensures number { IfSome result (λ number. number ≡ number_of_line self.now i) }
        ensures none { IsNone result ↔ (length self.now.lines ≤ i) }
    {
        if i < self.lines.len() {
            let declared = self.preamble.names().len();
            Some(FIRST_LINE + declared as u32 + i as u32)
        } else {
            None
        }
    }
}
