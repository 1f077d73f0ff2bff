//! A sink of bytes in memory, which fails when it is full.

ghost use Rattle.std.specs.Prelude.{◌≡◌, ◌-◌, ◌||◌, ◌↔◌, true, false, Some, [], length, min, max, IsErr, IfOk};
ghost use Rattle.std.specs.Prelude.{MatchResult};
ghost use Rattle.std.specs.Io.{WritesAtMost};
ghost use Rattle.std.specs.Io.KnownBytes.{WriteAppends};
ghost use Rattle.cm_bits.specs.Ends.{is_refused};
ghost use Rattle.test_doubles.specs.Doubles.{room_taken, room_left, room_step, room_takes_nothing, room_has_failed};
ghost use Rattle.test_doubles.specs.Doubles.{IsOverflow};

use cm_bits::{Failed, Sink};
use std::alloc::{AllocError, Global};

/// A sink in memory with room for so many bytes in all. It takes at most `step` bytes a call, where 0 counts as 1.
#[derive(Drop)]
pub struct Room {
    space: Vec<u8>,
    used: usize,
    step: usize,
    takes_nothing: bool,
    failed: bool,
}

impl Room {
    /// A sink that fails at the first byte past its room.
    pub fn new(alloc: Global, room: usize, step: usize) -> Result<Room, AllocError>
        ensures taken { IfOk result (λ sink. room_taken sink ≡ []) }
        ensures left { IfOk result (λ sink. room_left sink ≡ room) }
        ensures step { IfOk result (λ sink. room_step sink ≡ max step 1) }
        ensures takes_nothing { IfOk result (λ sink. room_takes_nothing sink ≡ false) }
        ensures failed { IfOk result (λ sink. room_has_failed sink ≡ false) }
    {
        Ok(Room {
            space: vec![in alloc; 0; room]?,
            used: 0,
            step,
            takes_nothing: false,
            failed: false,
        })
    }

    /// A sink that takes 0 bytes, with no failure, once its room is used up.
    pub fn taking_nothing(alloc: Global, room: usize, step: usize) -> Result<Room, AllocError>
        ensures taken { IfOk result (λ sink. room_taken sink ≡ []) }
        ensures left { IfOk result (λ sink. room_left sink ≡ room) }
        ensures step { IfOk result (λ sink. room_step sink ≡ max step 1) }
        ensures takes_nothing { IfOk result (λ sink. room_takes_nothing sink ≡ true) }
        ensures failed { IfOk result (λ sink. room_has_failed sink ≡ false) }
    {
        Ok(Room {
            space: vec![in alloc; 0; room]?,
            used: 0,
            step,
            takes_nothing: true,
            failed: false,
        })
    }

    /// The bytes that it has taken.
    pub fn taken(&self) -> &[u8]
        ensures { result.now ≡ room_taken self.entry.now }
    {
        &self.space[..self.used.min(self.space.len())]
    }
}

impl Sink for Room {
    ghost contents = { λ s. Some (room_taken s) };

    ghost has_failed = { room_has_failed };

    fn write(&mut self, buf: &[u8]) -> Result<usize, Failed>
        ensures bound { WritesAtMost result buf.now }
        ensures bytes { WriteAppends (Some (room_taken self.old)) (Some (room_taken self.new))
            result buf.now }
        ensures failed { MatchResult result
            (λ count. room_has_failed self.new
            ≡ (room_has_failed self.old || is_refused count buf.now))
            (λ _. room_has_failed self.new ≡ true) }
        ensures fails { IsErr result ↔ IsOverflow self.old buf.now }
        ensures count { IfOk result (λ count. count ≡ min (room_step self.old)
            (min (length buf.now) (room_left self.old))) }
        ensures left { IfOk result (λ count. room_left self.new ≡ room_left self.old - count) }
        ensures step { room_step self.new ≡ room_step self.old }
        ensures takes_nothing { room_takes_nothing self.new ≡ room_takes_nothing self.old }
    {
        if buf.is_empty() {
            return Ok(0);
        }
        let room = self.space.len().saturating_sub(self.used);
        if room == 0 {
            self.failed = true;
            return if self.takes_nothing {
                Ok(0)
            } else {
                Err(Failed)
            };
        }
        let count = buf.len().min(room).min(self.step.max(1));
        let start = self.used;
        self.space[start..start + count].copy_from_slice(&buf[..count]);
        self.used += count;
        Ok(count)
    }
}
