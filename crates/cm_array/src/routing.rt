//! The parts of a petit cycle at a part of a machine.

ghost use Rattle.std.specs.Prelude.{◌≡◌, ◌+◌, ◌%◌, ◌^◌, ◌<◌};
ghost use Rattle.cm_model.specs.Steps.{Inject, Cross, Deliver};
ghost use Rattle.cm_blocks.specs.Parcels.{Blank};
ghost use Rattle.cm_blocks.specs.Steps.{part_after};
ghost use Rattle.cm_router.specs.Logs.{HaveLogRoom, LoseAtMost};

use crate::part::Part;
use cm_petit::{deliver, inject};

impl Part {
    /// Every router takes in messages of its chip's processors.
    pub fn inject(&mut self)
        requires log_room { HaveLogRoom 4 self.old.log_rooms }
        ensures value { self.new ≡ record self.old {
          part = part_after self.old.dims self.old.room Inject Blank self.old.part;
          log_rooms = self.new.log_rooms;
          gathered = self.new.gathered;
        } }
        ensures log_room { LoseAtMost 4 self.old.log_rooms self.new.log_rooms }
    {
        inject(
            self.state.shape,
            self.first,
            &mut self.state.run,
            &mut self.state.crossing,
            &mut self.state.logs,
            self.state.clock,
        );
    }

    /// Messages cross a dimension that its 2^`span` chips span. It begins at a multiple of their number.
    pub fn cross(&mut self, span: u8, dim: u8)
        requires band { self.old.part.count ≡ 2 ^ span }
        requires begins { self.old.part.first % 2 ^ span ≡ 0 }
        requires dim { dim < span }
        ensures value { self.new ≡ record self.old {
          part = part_after self.old.dims self.old.room (Cross dim) Blank self.old.part;
          gathered = self.new.gathered;
        } }
    {
        self.state.crossing.cross(self.state.shape, span, &self.state.routing, self.first, dim);
    }

    /// Messages that have arrived go to their processors, and the counter is one more.
    pub fn deliver(&mut self)
        requires log_room { HaveLogRoom self.old.room self.old.log_rooms }
        requires clock { self.old.part.clock + 1 < 2 ^ 63 }
        ensures value { self.new ≡ record self.old {
          part = part_after self.old.dims self.old.room Deliver Blank self.old.part;
          log_rooms = self.new.log_rooms;
          gathered = self.new.gathered;
        } }
        ensures log_room { LoseAtMost self.old.room self.old.log_rooms self.new.log_rooms }
    {
        deliver(
            self.state.shape,
            self.first,
            &mut self.state.run,
            &mut self.state.crossing,
            &mut self.state.logs,
        );
        self.state.clock += 1;
    }
}
