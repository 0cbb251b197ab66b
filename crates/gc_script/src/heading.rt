//! A script without its call lines, while these are lent.

ghost use Rattle.std.specs.Prelude.{◌≡◌, ◌≤◌};

use crate::lines::Lines;
use crate::preamble::Preamble;
use crate::script::{FIRST_LINE, Script};
use gc_layout::Types;
use gc_model::Line;
use std::marker::Model;
use std::snapshot::Snapshot;

/// What stands before the call lines of a script. It knows, for clauses alone, which script that is.
#[derive(Drop)]
pub struct Heading {
    preamble: Preamble,
    lines: Snapshot<Lines>,
}

impl Model for Heading {
    ghost use Rattle.gc_script.specs.Laws.{IsWritable};
    ghost use Rattle.gc_script.specs.Script.{Script};

    ghost Value = { Script };

    ghost view = { λ h. record { preamble = h.preamble; lines = h.lines.value } };

    ghost invariant = { λ h. IsWritable (record { preamble = h.preamble; lines = h.lines.value }) };
}

impl Heading {
    ghost use Rattle.gc_script.specs.Laws.{IsWritable};
    ghost use Rattle.gc_script.specs.Script.{number_of_line};

    pub(crate) fn new(preamble: Preamble, lines: &Lines) -> Heading
        requires { IsWritable (record { preamble = preamble; lines = lines.now }) }
        ensures { result ≡ record { preamble = preamble; lines = lines.now } }
    {
        Heading {
            preamble,
            lines: Snapshot::of(lines),
        }
    }

    /// The types, by number; type 0 is the common object's.
    pub fn types(&self) -> &Types
        ensures { result.now ≡ self.now.preamble.types }
    {
        self.preamble.types()
    }

    /// The number in the text, from 1, of the first call line, or of the line that it would be: 3 to 258.
    pub fn first_line(&self) -> u32
        ensures number { result ≡ number_of_line self.now 0 }
        ensures few { result ≤ 258 }
    {
        FIRST_LINE + self.preamble.names().len() as u32
    }

    /// The script whole again, with the lines that it had.
    pub fn with_lines(self, lines: Vec<Line>) -> Script
        requires { lines.items ≡ self.lines }
        ensures { result ≡ self }
    {
        let Heading { preamble, lines: _ } = self;
        Script::new(preamble, Lines::from_vec(lines))
    }
}
