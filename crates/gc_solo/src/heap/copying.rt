//! Copying. An object in a half that a collection reaches is copied once, and its forwarding word is then the address
//! of the copy; whoever meets the object later finds the copy there. An object in a page stays, and a full collection
//! marks it. The copy goes to the next words of its maker's
//! current half and has the bit seen. An object that had the bit before survives a second time: it is promoted to a
//! cell of its class where there is one, is old there, and stands on its maker's remembered list, since its slots may
//! name objects in halves. A copy with slots goes on its maker's grey list: what its slots hold is still where the
//! objects were. In a full collection a copy in a page is marked, and each copy is counted by its maker's tally.
//!
//! A half always has room for its copies: they have no more words than the objects in the half that was left.
ghost use Rattle.std.specs.Prelude.{◌⊎◌, true, false, ◌≡◌, ◌≤◌, ◌<◌, ◌+◌, ℕ, Option, length};
ghost use Rattle.gc_layout.specs.Head.{fresh_head};
ghost use Rattle.gc_placement.specs.Changes.{CopiesObject};
ghost use Rattle.gc_placement.specs.Headers.{is_full};
ghost use Rattle.gc_placement.specs.Holders.{Done};
ghost use Rattle.gc_placement.specs.Placement.{Placement, with_place};
ghost use Rattle.gc_solo.specs.Collecting.{Beginning, Holds, IsCollecting, IsForwarded, IsToCopy, Stage, work_left};
ghost use Rattle.gc_solo.specs.Copying.{CanTakeCopy, IsPut, IsTaken};
ghost use Rattle.gc_solo.specs.Kept.{kept_of, memory_of};

use crate::heap::Heap;
use gc_bay::Bay;
use gc_layout::{FORWARDING_WORD, Head};
use gc_model::RunKind;

impl Heap {
    /// The address at which an object is kept that a word names: that of its copy where it lies in a half, which is
    /// made now where there is none yet. What lies in a page stays there, marked by a full collection, and nothing stays
    /// nothing.
    pub(crate) fn forward(&mut self, kind: RunKind, address: u64) -> u64
        requires collecting { (start : Beginning) × (after : Placement) × (done : Done) × (stage : Stage) × (name : Option ℕ)
            × (start.kind ≡ kind) × IsCollecting (kept_of self.old) start after done stage × Holds start name address }
        ensures forwarded { (start : Beginning) (after : Placement) (done : Done) (stage : Stage) (name : Option ℕ)
            → start.kind ≡ kind → IsCollecting (kept_of self.old) start after done stage → Holds start name address
            → IsForwarded (kept_of self.new) start after done stage name result }
        ensures ends { work_left self.new.bays.items ≤ work_left self.old.bays.items }
        ensures rest { self.new ≡ record self.old { words = self.new.words; bays = self.new.bays } }
    {
        if address == 0 {
            return address;
        }
        let head = self.head(address);
        if head.old {
            if kind == RunKind::Full && !head.marked {
                self.mark(address);
            }
            return address;
        }
        match self.word(address + FORWARDING_WORD) {
            0 => self.copy_object(kind, address),
            copy => copy,
        }
    }

    /// Copies an object, and gives the address of the copy.
    fn copy_object(&mut self, kind: RunKind, address: u64) -> u64
        requires collecting { (start : Beginning) × (after : Placement) × (done : Done) × (stage : Stage) × (number : ℕ)
            × (start.kind ≡ kind) × IsCollecting (kept_of self.old) start after done stage × IsToCopy start after number address }
        ensures copied { (start : Beginning) (after : Placement) (done : Done) (stage : Stage) (number : ℕ)
            → start.kind ≡ kind → IsCollecting (kept_of self.old) start after done stage → IsToCopy start after number address
            → IsCollecting (kept_of self.new) start (with_place after number result) done stage }
        ensures ends { work_left self.new.bays.items < work_left self.old.bays.items }
        ensures rest { self.new ≡ record self.old { words = self.new.words; bays = self.new.bays } }
    {
        let head = self.head(address);
        let shape = self.types.shape(head.ty).unwrap();
        let size = shape.size();
        let owner = self.places.owner(address).unwrap();
        let bay = &mut self.bays[usize::from(owner)];
        let (copy, kept) = place_copy(kind, bay, head, size, shape.slots > 0);
        self.copy_words(address, copy, size, kept.word());
        copy
    }

    /// Copies the words of an object of so many words to another place, behind this header and a forwarding word 0, and
    /// stores the address of the copy in the object's own forwarding word.
    fn copy_words(&mut self, address: u64, copy: u64, size: u64, header: u64)
        requires least { 2 ≤ size }
        requires within { address + size ≤ length self.old.words.items }
        requires room { copy + size ≤ length self.old.words.items }
        requires apart { (address + size ≤ copy) ⊎ (copy + size ≤ address) }
        ensures copied { CopiesObject (memory_of (kept_of self.old)).word (memory_of (kept_of self.new)).word address copy size header }
        ensures count { length self.new.words.items ≡ length self.old.words.items }
        ensures rest { self.new ≡ record self.old { words = self.new.words } }
    {
        let (from, to) = (address as usize, copy as usize);
        self.words
            .copy_within(from + 2..from + size as usize, to + 2);
        self.words[to] = header;
        self.words[to + 1] = 0;
        self.words[from + 1] = copy;
    }
}

/// Gives the copy of an object with this header and of so many words its place in its maker's bay, puts it on the grey list
/// where it has slots, and in a full collection counts it. The result is its address and its header.
fn place_copy(kind: RunKind, bay: &mut Bay, head: Head, size: u64, has_slots: bool) -> (u64, Head)
    requires { CanTakeCopy kind bay.old size }
    ensures { IsPut kind bay.old bay.new head result.1 size result.0 has_slots }
{
    let (copy, kept) = take_place(kind, bay, head, size);
    if has_slots {
        bay.grey(copy);
    }
    if kind == RunKind::Full {
        bay.count_kept(size);
    }
    (copy, kept)
}

/// Takes a cell for the copy, and puts it on the remembered list, where the object survives a second time and there is a
/// cell; and else takes the next words of the current half.
fn take_place(kind: RunKind, bay: &mut Bay, head: Head, size: u64) -> (u64, Head)
    requires { CanTakeCopy kind bay.old size }
    ensures { IsTaken kind bay.old bay.new head result.1 size result.0 }
{
    let cell = if head.seen { bay.cell(size) } else { None };
    match cell {
        Some(copy) => {
            bay.remember(copy);
            (copy, promoted_head(kind, head))
        }
        None => (bay.bump(size).unwrap(), survivor_head(head)),
    }
}

/// The header of a copy in a half, from that of its object: it has the bit seen, and no other.
fn survivor_head(head: Head) -> Head
    ensures { result ≡ record (fresh_head head.ty false) { seen = true } }
{
    Head {
        seen: true,
        ..Head::fresh(head.ty, false)
    }
}

/// The header of a copy in a page: it is old and remembered, and marked in a full collection.
fn promoted_head(kind: RunKind, head: Head) -> Head
    ensures { result ≡ record (fresh_head head.ty true) { remembered = true; marked = is_full kind } }
{
    Head {
        remembered: true,
        marked: kind == RunKind::Full,
        ..Head::fresh(head.ty, true)
    }
}
