//! How bytes come and go, and where that fails.

ghost use Rattle.std.specs.Prelude.{◌≡◌, false, IfOk};
ghost use Rattle.test_doubles.specs.Doubles.{bytes_has_failed, room_has_failed};

use std::alloc::{AllocError, Global};
use test_doubles::{Bytes, Room};

/// In what pieces bytes come and go, after how many reading fails, and for how many there is room.
#[derive(Clone, Copy)]
pub(crate) struct Ends {
    pub(crate) piece: usize,
    pub(crate) read: usize,
    pub(crate) room: usize,
    /// A full sink takes nothing in place of failing.
    pub(crate) takes_nothing: bool,
}

/// Large pieces and much room, and nothing fails.
pub(crate) const WHOLE: Ends = Ends {
    piece: 4096,
    read: usize::MAX,
    room: 65536,
    takes_nothing: false,
};

impl Ends {
    /// Where these bytes come from.
    pub(crate) fn source<'a>(&self, bytes: &'a [u8]) -> Bytes<'a>
        ensures working { bytes_has_failed result ≡ false }
    {
        Bytes::failing(bytes, self.piece, self.read)
    }

    /// Where bytes go.
    pub(crate) fn sink(&self, alloc: Global) -> Result<Room, AllocError>
        ensures working { IfOk result (λ sink. room_has_failed sink ≡ false) }
    {
        let room = self.room.min(1048576);
        if self.takes_nothing {
            Room::taking_nothing(alloc, room, self.piece)
        } else {
            Room::new(alloc, room, self.piece)
        }
    }
}
