//! The call lines of a script, as a list.

ghost use Rattle.std.specs.Prelude.{◌≡◌, [], ◌∷◌, ◌++◌, length, slice_get, IfOk, OnOk, OnErr};

use gc_model::Line;
use std::alloc::{AllocError, Global};
use std::marker::Model;

/// The call lines of a script, seen as their list.
#[derive(Debug, Drop)]
pub(crate) struct Lines {
    lines: Vec<Line>,
}

impl Model for Lines {
    ghost use Rattle.std.specs.Prelude.{List};
    ghost use Rattle.gc_model.specs.declared.call.Line.{Line};

    ghost Value = { List Line };

    ghost view = { λ l. l.lines.items };
}

impl Lines {
    pub(crate) fn new(alloc: Global) -> Lines
        ensures { result ≡ [] }
    {
        Lines {
            lines: Vec::new(alloc),
        }
    }

    /// No lines, with room for so many.
    pub(crate) fn with_capacity(alloc: Global, room: usize) -> Result<Lines, AllocError>
        ensures { IfOk result (λ lines. lines ≡ []) }
    {
        Ok(Lines {
            lines: Vec::with_capacity(alloc, room)?,
        })
    }

    /// These lines.
    pub(crate) fn from_vec(lines: Vec<Line>) -> Lines
        ensures { result ≡ lines.items }
    {
        Lines { lines }
    }

    pub(crate) fn into_vec(self) -> Vec<Line>
        ensures { result.items ≡ self }
    {
        let Lines { lines } = self;
        lines
    }

    pub(crate) fn push(&mut self, line: Line) -> Result<(), AllocError>
        ensures ok { OnOk result (self.new ≡ self.old ++ line ∷ []) }
        ensures err { OnErr result (self.new ≡ self.old) }
    {
        // In two parts, since the prover has to be shown the type of the call here.
        let Line { mutator, call } = line;
        self.lines.push(Line { mutator, call })?;
        Ok(())
    }

    pub(crate) fn len(&self) -> usize
        ensures { result ≡ length self.now }
    {
        self.lines.len()
    }

    pub(crate) fn get(&self, i: usize) -> Option<Line>
        ensures { result ≡ slice_get self.now i }
    {
        self.lines.get(i).copied()
    }
}
