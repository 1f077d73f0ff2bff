//! Parts that are put together: they become a machine in their order.

ghost use Rattle.std.specs.Prelude.{◌≡◌, ℕ, ◌+◌, ◌<◌, ◌≤◌, ◌^◌, [], length};
ghost use Rattle.std.specs.List.{All};
ghost use Rattle.cm_model.specs.Wiring.{IsWireOf};
ghost use Rattle.cm_model.specs.Array.{nth_or_nil};
ghost use Rattle.cm_router.specs.Routes.{routing_of};
ghost use Rattle.cm_petit.specs.Routers.{events_of};
ghost use Rattle.cm_array.specs.Cuts.{IsLaid};

use crate::chip_state::ChipState;
use crate::part::{Part, lay_buffers};
use cm_message::Event;
use cm_router::Routing;
use std::mem;

/// What holds a part of a machine.
pub trait IntoPart {
    ghost use Rattle.cm_array.specs.Cuts.{PartView};

    /// The part that it holds.
    ghost held: { Self → PartView };

    /// Gives the part that it holds.
    fn into_part(self) -> Part
        ensures value { result ≡ held self };
}

impl IntoPart for Part {
    ghost held = { λ part. part };

    fn into_part(self) -> Part {
        self
    }
}

impl ChipState {
    /// Puts a part into the place of the chips from `at` on, at which no messages stand, and tells where it ends. The
    /// part has the logs that were there then.
    pub(crate) fn put(&mut self, at: usize, piece: &mut Part) -> usize
        requires chips { at + length piece.old.part.chips ≤ length self.old.run }
        requires buffers { length self.old.crossing.buffers ≡ length self.old.run }
        requires logs { length self.old.logs.items ≡ length self.old.run }
        requires few { length self.old.run ≤ 4096 }
        requires empty { (c : ℕ) → at ≤ c → nth_or_nil self.old.crossing.buffers c ≡ [] }
        requires wires { All (IsWireOf self.old.routing.cuts.dims) piece.old.part.routing.cuts }
        ensures end { result ≡ at + length piece.old.part.chips }
        ensures buffer_count { length piece.old.part.buffers ≡ length piece.old.part.chips }
        ensures log_count { length piece.old.part.logs ≡ length piece.old.part.chips }
        ensures chips { IsLaid at piece.old.part.chips self.old.run self.new.run }
        ensures buffers { IsLaid at piece.old.part.buffers self.old.crossing.buffers self.new.crossing.buffers }
        ensures logs { IsLaid at piece.old.part.logs (events_of self.old.logs.items) (events_of self.new.logs.items) }
        ensures clock { self.new.clock ≡ piece.old.part.clock }
        ensures within { self.new.clock < 2 ^ 63 }
        ensures routing { routing_of self.new.routing ≡ piece.old.part.routing }
        ensures shape { self.new.shape ≡ self.old.shape }
        ensures cube { self.new.routing.cuts.dims ≡ self.old.routing.cuts.dims }
        ensures sent { length self.new.sent.items ≡ length self.old.sent.items }
        ensures incoming { length self.new.incoming.items ≡ length self.old.incoming.items }
        ensures row { self.new.row ≡ self.old.row }
    {
        let from = &mut piece.state;
        let count = from.run.chips();
        self.run.lay(at as u16, &from.run, 0, count as u16);
        from.crossing.gather();
        lay_buffers(&mut self.crossing, at, &from.crossing, 0, count);
        move_logs(&mut self.logs, at, &mut from.logs);
        self.clock = from.clock;
        route_as(&mut self.routing, &from.routing);
        at + count
    }
}

/// Keeps a part of which nothing but its room is needed any more, if there is a place for it.
pub(crate) fn keep(used: &mut Vec<Part>, part: Part) {
    if used.len() < used.capacity() {
        used.push_reserved(part);
    }
}

/// Routes as another does, all of whose cut wires are of this cube.
pub(crate) fn route_as(routing: &mut Routing, other: &Routing)
    requires within { All (IsWireOf routing.old.cuts.dims) other.now.cuts.wires }
    ensures value { routing_of routing.new ≡ routing_of other.now }
    ensures cube { routing.new.cuts.dims ≡ routing.old.cuts.dims }
{
    routing.cuts.copy_from(&other.cuts);
    routing.rule = other.rule;
}

/// Moves logs into the places from `at` on.
fn move_logs(to: &mut [Vec<Event>], at: usize, from: &mut [Vec<Event>])
    requires here { at + length from.old ≤ length to.old }
    ensures value { IsLaid at (events_of from.old) (events_of to.old) (events_of to.new) }
{
    for i in 0..from.len() {
        mem::swap(&mut to[at + i], &mut from[i]);
    }
}
