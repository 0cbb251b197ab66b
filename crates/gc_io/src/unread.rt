//! What a source in memory has left.

ghost use Rattle.std.specs.Prelude.{◌≡◌, ◌≤◌, ◌++◌, length, min, take, drop};

use std::marker::Model;

/// Bytes in memory that are read from the front. It is seen as the bytes that are left.
#[derive(Debug, Drop)]
pub(crate) struct Unread {
    bytes: Vec<u8>,
    start: usize,
}

impl Model for Unread {
    ghost use Rattle.std.specs.Prelude.{◌≤◌, ℕ, List, drop, length};

    ghost Value = { List ℕ };

    ghost view = { λ u. drop u.start u.bytes.items };

    ghost invariant = { λ u. u.start ≤ length u.bytes.items };
}

impl Unread {
    /// All of these bytes.
    pub(crate) fn make(bytes: Vec<u8>) -> Unread
        ensures { result ≡ bytes.items }
    {
        Unread { bytes, start: 0 }
    }

    /// The bytes that are left.
    pub(crate) fn left(&self) -> &[u8]
        ensures { result.now ≡ self.now }
    {
        &self.bytes[self.start..]
    }

    /// Reads up to `most` bytes into the front of the room, and says how many.
    pub(crate) fn read(&mut self, most: usize, room: &mut [u8]) -> usize
        ensures count { result ≡ min most (min (length room.old) (length self.old)) }
        ensures bytes { self.old ≡ take result room.new ++ self.new }
        ensures rest { self.new ≡ drop result self.old }
        ensures behind { drop result room.new ≡ drop result room.old }
    {
        let left = self.left();
        let count = most.min(room.len()).min(left.len());
        copy_front(left, count, room);
        self.start += count;
        count
    }
}

/// Copies the first `count` of these bytes to the front of the room, and leaves the rest of it.
fn copy_front(bytes: &[u8], count: usize, room: &mut [u8])
    requires there { count ≤ length bytes.now }
    requires fits { count ≤ length room.old }
    ensures copied { take count room.new ≡ take count bytes.now }
    ensures behind { drop count room.new ≡ drop count room.old }
{
    room[..count].copy_from_slice(&bytes[..count]);
}
