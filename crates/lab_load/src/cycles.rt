//! A machine under a load, petit cycle after petit cycle.

ghost use Rattle.std.specs.Prelude.{◌≡◌, ◌+◌, ◌-◌, ◌*◌, ◌<◌, ◌≤◌, ◌^◌, [], OnOk, length};
ghost use Rattle.cm_router.specs.Routes.{routing_of};
ghost use Rattle.cm_petit.specs.Routers.{AreRouters};
ghost use Rattle.lab_load.specs.Offers.{places};
ghost use Rattle.lab_load.specs.Loaded.{after_one, after_cycles};
ghost use Rattle.lab_load.specs.Kept.{loaded_of};
ghost use Rattle.lab_counts.specs.Counts.{nothing_counted};
ghost use Rattle.lab_load.specs.Counted.{counts_after, counts_after_cycles, chips_after_one, chips_after_cycles};

use crate::asking::ask_all;
use crate::logs::{empty_logs, fetch_all};
use crate::offers::Load;
use crate::quiet::count_quiet;
use crate::sources::Source;
use crate::telling::{push_latencies, taken_in};
use cm_bits::NoMemory;
use cm_element::Run;
use cm_message::Event;
use cm_router::Routing;
use cm_router_engine::{RouterEngine, Shape};
use lab_counts::{Counts, Crossings, watched_cycle};

/// What was told so far.
#[derive(Drop)]
pub(crate) struct Told {
    /// The most offers that waited at one processor, behind the one that it asked for.
    pub(crate) deepest: u32,
    /// Messages that were taken in.
    pub(crate) taken: u128,
    /// Of each message that was delivered, how many petit cycles it took.
    pub(crate) latencies: Vec<u32>,
    pub(crate) counts: Counts,
    /// Crossings by chip, of each chip that stands here.
    pub(crate) chips: Vec<Crossings>,
}

impl Told {
    /// Nothing was told so far, and from now on is counted, or is not; by chip beside these.
    pub(crate) fn forget(&mut self, counting: bool, chips: Vec<Crossings>)
        ensures deepest { self.new.deepest ≡ 0 }
        ensures taken { self.new.taken ≡ 0 }
        ensures latencies { self.new.latencies.items ≡ [] }
        ensures counts { self.new.counts ≡ nothing_counted counting }
        ensures chips { self.new.chips.items ≡ chips.items }
    {
        self.deepest = 0;
        self.taken = 0;
        self.latencies.clear();
        self.counts = Counts::none(counting);
        self.chips = chips;
    }
}

/// A machine goes on under a load, from this count of petit cycles to that one.
pub(crate) fn go_through(
    sizes: Shape,
    routing: &Routing,
    load: &Load,
    from: u32,
    to: u32,
    run: &mut Run,
    crossing: &mut RouterEngine,
    logs: &mut [Vec<Event>],
    sources: &mut [Source],
    told: &mut Told,
) -> Result<(), NoMemory>
    requires load { load.now.dims ≡ sizes.dims }
    requires cube { routing.now.cuts.dims ≡ sizes.dims }
    requires routers { AreRouters (2 ^ sizes.dims) sizes.room run.old crossing.old.buffers logs.old }
    requires sources { length sources.old ≡ places load.now.dims }
    requires order { from ≤ to }
    requires few { to ≤ 1000000 }
    requires taken { told.old.taken ≡ 0 }
    ensures ok { OnOk result (loaded_of (routing_of routing.now) run.new crossing.new.buffers logs.new to sources.new
        told.new
        ≡ after_cycles sizes.room load.now (loaded_of (routing_of routing.now) run.old crossing.old.buffers logs.old
        from sources.old told.old) (to - from)) }
    ensures counts { OnOk result (told.new.counts
        ≡ counts_after_cycles sizes.room load.now (loaded_of (routing_of routing.now) run.old crossing.old.buffers
        logs.old from sources.old told.old) told.old.counts (to - from)) }
    ensures chips { OnOk result (told.new.chips.items
        ≡ chips_after_cycles told.old.counts.is_on sizes.room load.now (loaded_of (routing_of routing.now) run.old
        crossing.old.buffers logs.old from sources.old told.old) told.old.chips.items (to - from)) }
    ensures routers { OnOk result (AreRouters (2 ^ sizes.dims) sizes.room run.new crossing.new.buffers logs.new) }
    ensures sources { length sources.new ≡ length sources.old }
{
    for t in from..to {
        go_on(sizes, routing, load, t, run, crossing, logs, sources, told)?;
    }
    Ok(())
}

/// Petit cycle t.
fn go_on(
    sizes: Shape,
    routing: &Routing,
    load: &Load,
    t: u32,
    run: &mut Run,
    crossing: &mut RouterEngine,
    logs: &mut [Vec<Event>],
    sources: &mut [Source],
    told: &mut Told,
) -> Result<(), NoMemory>
    requires load { load.now.dims ≡ sizes.dims }
    requires cube { routing.now.cuts.dims ≡ sizes.dims }
    requires routers { AreRouters (2 ^ sizes.dims) sizes.room run.old crossing.old.buffers logs.old }
    requires sources { length sources.old ≡ places load.now.dims }
    requires early { t < 1000000 }
    requires taken { told.old.taken ≤ t * 2 ^ 76 }
    ensures ok { OnOk result (loaded_of (routing_of routing.now) run.new crossing.new.buffers logs.new (t + 1)
        sources.new told.new
        ≡ after_one sizes.room load.now (loaded_of (routing_of routing.now) run.old crossing.old.buffers logs.old t
        sources.old told.old)) }
    ensures counts { OnOk result (told.new.counts
        ≡ counts_after sizes.room load.now (loaded_of (routing_of routing.now) run.old crossing.old.buffers logs.old t
        sources.old told.old) told.old.counts) }
    ensures chips { OnOk result (told.new.chips.items
        ≡ chips_after_one told.old.counts.is_on sizes.room load.now (loaded_of (routing_of routing.now) run.old
        crossing.old.buffers logs.old t sources.old told.old) told.old.chips.items) }
    ensures routers { OnOk result (AreRouters (2 ^ sizes.dims) sizes.room run.new crossing.new.buffers logs.new) }
    ensures taken { OnOk result (told.new.taken ≤ (t + 1) * 2 ^ 76) }
{
    empty_logs(logs, 4 + usize::from(sizes.room))?;
    ask_all(load, t, run, sources, &mut told.deepest);
    let mut clock = u64::from(t);
    watched_cycle(
        sizes,
        routing,
        run,
        crossing,
        logs,
        &mut clock,
        &mut told.counts,
        &mut told.chips,
    );
    told.taken += taken_in(logs);
    push_latencies(&mut told.latencies, t, logs)?;
    fetch_all(run, 1 << sizes.dims);
    count_quiet(run, crossing, sources, &mut told.counts);
    Ok(())
}
