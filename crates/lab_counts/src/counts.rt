//! What is counted of petit cycles, if it is asked for.

ghost use Rattle.std.specs.Prelude.{◌≡◌, ◌+◌, ◌^◌, ◌<◌};
ghost use Rattle.cm_model.specs.declared.act.Act.TheVariants as act;
ghost use Rattle.cm_model.specs.Buffers.{after_act};
ghost use Rattle.cm_router.specs.Routes.{routing_of};
ghost use Rattle.cm_router.specs.Logs.{log_rooms_of, HaveLogRoom};
ghost use Rattle.cm_petit.specs.Routers.{machine_from_logs, AreRouters};
ghost use Rattle.lab_counts.specs.Counts.{nothing_counted, with_crossed, chips_crossed};

use crate::crossings::{Crossings, cross_and_count};
use cm_element::Run;
use cm_message::Event;
use cm_petit::{cross_all, deliver, inject};
use cm_router::Routing;
use cm_router_engine::{RouterEngine, Shape};

/// What is counted.
#[derive(Clone, Copy, Debug, PartialEq, Eq)]
pub struct Counts {
    /// Whether anything is.
    pub is_on: bool,
    /// By dimension.
    pub dims: [Crossings; 12],
    /// Petit cycles behind which nothing was left: who runs them tells of which that is so.
    pub quiet: u32,
}

impl Counts {
    /// Nothing was counted so far.
    pub fn none(is_on: bool) -> Counts
        ensures value { result ≡ nothing_counted is_on }
    {
        Counts {
            is_on,
            dims: [Crossings::NONE; 12],
            quiet: 0,
        }
    }
}

/// One petit cycle, of which the crossings are counted if they are asked for: by dimension, and at each of these chips.
pub fn watched_cycle(
    sizes: Shape,
    routing: &Routing,
    run: &mut Run,
    crossing: &mut RouterEngine,
    logs: &mut [Vec<Event>],
    clock: &mut u64,
    counts: &mut Counts,
    chips: &mut [Crossings],
)
    requires cube { routing.now.cuts.dims ≡ sizes.dims }
    requires routers { AreRouters (2 ^ sizes.dims) sizes.room run.old crossing.old.buffers logs.old }
    requires log_room { HaveLogRoom (4 + sizes.room) (log_rooms_of logs.old) }
    requires counter { clock.old < 2 ^ 63 }
    ensures value { machine_from_logs (routing_of routing.now) run.new crossing.new.buffers logs.new clock.new
        ≡ after_act sizes.dims sizes.room
        (machine_from_logs (routing_of routing.now) run.old crossing.old.buffers logs.old clock.old) act.Cycle }
    ensures counter { clock.new ≡ clock.old + 1 }
    ensures routers { AreRouters (2 ^ sizes.dims) sizes.room run.new crossing.new.buffers logs.new }
    ensures counts { counts.new ≡ with_crossed sizes.dims sizes.room
        (machine_from_logs (routing_of routing.now) run.old crossing.old.buffers logs.old clock.old) counts.old }
    ensures chips { chips.new ≡ chips_crossed counts.old.is_on sizes.dims sizes.room
        (machine_from_logs (routing_of routing.now) run.old crossing.old.buffers logs.old clock.old) chips.old }
{
    inject(sizes, 0, run, crossing, logs, *clock);
    *clock += 1;
    if counts.is_on {
        cross_and_count(sizes, routing, crossing, &mut counts.dims, chips);
    } else {
        cross_all(sizes, routing, crossing);
    }
    deliver(sizes, 0, run, crossing, logs);
}
