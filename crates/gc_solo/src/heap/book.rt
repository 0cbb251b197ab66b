//! The report book: the reports of a heap's collections, in their order, with all memory taken when it is made.
ghost use Rattle.std.specs.Prelude.{◌≡◌, ◌≤◌, ◌-◌, ◌++◌, ◌∷◌, [], IfOk};

use gc_layout::NoMemory;
use gc_model::RunReport;
use std::alloc::Global;
use std::marker::Model;

/// The reports so far, and for how many more there is room.
#[derive(Debug, Drop)]
pub(crate) struct Book {
    reports: Vec<RunReport>,
    room: u32,
}

impl Model for Book {
    ghost use Rattle.gc_solo.specs.Reports.{ReportList};

    ghost Value = { ReportList };

    ghost use Rattle.gc_solo.specs.Reports.{HasItsRoom, list_of};

    ghost view = { list_of };

    ghost invariant = { HasItsRoom };
}

impl Book {
    /// A book without reports, with room for so many.
    pub(crate) fn make(alloc: Global, room: u32) -> Result<Book, NoMemory>
        ensures empty { IfOk result (λ book. book.reports ≡ []) }
        ensures room { IfOk result (λ book. book.room ≡ room) }
    {
        let Ok(reports) = Vec::with_capacity(alloc, room as usize) else {
            return Err(NoMemory);
        };
        Ok(Book { reports, room })
    }

    /// Puts a report behind the others.
    pub(crate) fn append(&mut self, report: RunReport)
        requires room { 1 ≤ self.old.room }
        ensures reports { self.new.reports ≡ self.old.reports ++ report ∷ [] }
        ensures room { self.new.room ≡ self.old.room - 1 }
    {
        self.reports.push_reserved(report);
        self.room -= 1;
    }

    /// The reports, in their order.
    pub(crate) fn reports(&self) -> &[RunReport]
        ensures { result.now ≡ self.now.reports }
    {
        self.reports.as_slice()
    }

    /// For how many more reports there is room.
    pub(crate) fn room(&self) -> u32
        ensures { result ≡ self.now.room }
    {
        self.room
    }
}
