//! The journal that is handed back.
ghost use Rattle.std.specs.Prelude.{◌≡◌, ◌+◌, ◌<◌, ◌≤◌, ◌↔◌, [], length, slice_get, IsNone};
ghost use Rattle.gc_locked.specs.Order.{entry_at};

use crate::plan::{call_at, mutator_at};
use gc_model::{Entry, Line, Reply, RunReport};
use gc_solo::Solo;
use std::marker::Model;

/// The entries of one legal history, in their order, and the heap that stands for it. Beside them are the lines that were
/// to be played.
#[derive(Drop)]
pub struct Journal {
    pub(crate) solo: Solo,
    pub(crate) lines: Vec<Line>,
    /// The places of the calls that were made, in that order. A collection has the place of its report, behind those of
    /// all calls.
    pub(crate) order: Vec<u32>,
    /// The reply at each place.
    pub(crate) replies: Vec<Reply>,
}

impl Model for Journal {
    ghost use Rattle.gc_locked.specs.Journal.{Entries, IsJournal, entries_of_journal};

    ghost Value = { Entries };

    ghost view = { entries_of_journal };

    ghost invariant = { IsJournal };
}

impl Journal {
    ghost use Rattle.gc_model.specs.History.{FitsScript, replies_by_line};
    ghost use Rattle.gc_solo.specs.Reports.{reports_of};
    ghost use Rattle.gc_solo.specs.Stands.{StandsFor};

    /// How many entries there are.
    pub fn count(&self) -> usize
        ensures { result ≡ length self.now.entries }
    {
        self.order.len()
    }

    /// An entry, counted from 0. None exactly where there are no more.
    pub fn entry(&self, i: usize) -> Option<Entry>
        ensures entry { result ≡ slice_get self.now.entries i }
        ensures none { IsNone result ↔ (length self.now.entries ≤ i) }
        ensures stands { StandsFor self.now.heap self.now.entries }
    {
        let place = *self.order.get(i)?;
        Some(entry_at(
            self.lines.as_slice(),
            self.replies.as_slice(),
            self.solo.reports(),
            place,
        ))
    }

    /// For each line, in their order, the reply to it, where all lines were made. There are at most 16,777,216.
    pub fn replies(&self) -> &[Reply]
        ensures count { length result.now ≡ length self.now.lines }
        ensures few { length result.now ≤ 16777216 }
        ensures answered { FitsScript self.now.heap.layout.mutators self.now.lines self.now.entries
            → result.now ≡ replies_by_line self.now.entries [] self.now.lines }
    {
        let (answered, _) = self.replies.split_at(self.lines.len());
        answered
    }

    /// The reports of the collections, in their order.
    pub fn reports(&self) -> &[RunReport]
        ensures reports { result.now ≡ reports_of self.now.entries }
    {
        self.solo.reports()
    }
}

/// The entry that a place stands for.
fn entry_at(lines: &[Line], replies: &[Reply], reports: &[RunReport], place: u32) -> Entry
    requires there { place < length replies.now + length reports.now }
    requires few { length replies.now < length lines.now + 256 }
    ensures { result ≡ entry_at lines.now replies.now reports.now place }
{
    match replies.get(place as usize) {
        Some(reply) => Entry::Made {
            mutator: mutator_at(lines, place),
            call: call_at(lines, place),
            reply: *reply,
        },
        None => Entry::Run(reports[place as usize - replies.len()]),
    }
}
