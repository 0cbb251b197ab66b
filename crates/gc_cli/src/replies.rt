//! The replies to the lines of a script.

ghost use Rattle.std.specs.Prelude.{◌≡◌, ◌<◌, ◌≤◌, ◌++◌, ◌∷◌, ◌↔◌, [], length, slice_get, IfOk, IsNone};

use gc_layout::NoMemory;
use gc_model::Reply;
use std::alloc::Global;
use std::marker::Model;

/// A list of replies, and for how many it has room.
#[derive(Debug, Drop)]
pub struct Replies {
    items: Vec<Reply>,
    room: usize,
}

impl Model for Replies {
    ghost use Rattle.gc_cli.specs.Replies.{ReplyList, list_of, HasItsRoom};

    ghost Value = { ReplyList };

    ghost view = { list_of };

    ghost invariant = { HasItsRoom };
}

impl Replies {
    /// No reply yet, and room for so many. All memory is taken here.
    pub fn make(alloc: Global, room: usize) -> Result<Replies, NoMemory>
        ensures { IfOk result (λ replies. replies ≡ record { list = []; room = room }) }
    {
        let Ok(items) = Vec::with_capacity(alloc, room) else {
            return Err(NoMemory);
        };
        Ok(Replies { items, room })
    }

    /// A reply, counted from 0. None exactly where there are no more.
    pub fn get(&self, i: usize) -> Option<Reply>
        ensures reply { result ≡ slice_get self.now.list i }
        ensures none { IsNone result ↔ (length self.now.list ≤ i) }
    {
        self.items.get(i).copied()
    }

    /// The replies, in their order.
    pub(crate) fn as_slice(&self) -> &[Reply]
        ensures { result.now ≡ self.now.list }
    {
        self.items.as_slice()
    }

    /// Puts a reply behind the others. There is room for it.
    pub(crate) fn push(&mut self, reply: Reply)
        requires { length self.old.list < self.old.room }
        ensures { self.new ≡ record self.old { list = self.old.list ++ reply ∷ [] } }
    {
        self.items.push_reserved(reply);
    }
}
