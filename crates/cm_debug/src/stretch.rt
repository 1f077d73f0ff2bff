//! How many acts are run at once.

ghost use Rattle.std.specs.Prelude.{◌≡◌, ◌+◌, ◌&&◌, ◌^◌, ◌<◌, ◌≤◌, false, true, length, take};
ghost use Rattle.std.specs.Prelude.{cond, slice_index_or, IsFalse, IsTrue, ◌⊎◌};
ghost use Rattle.cm_model.specs.declared.act.Act.TheVariants as act;
ghost use Rattle.cm_array.specs.Acts.{cycles_in, is_cycle, is_long};
ghost use Rattle.cm_session.specs.Session.{lacks_room};
ghost use Rattle.cm_session.specs.Stretches.{is_look, looks_at, IsStretch};
ghost use Rattle.cm_debug.specs.State.{stops_at};
ghost use Rattle.cm_debug.specs.Longest.{IsLongest};

use crate::debugger::{Debugger, Stops};
use cm_array::{LAST_CLOCK, LONGEST, MOST_CYCLES};
use cm_model::Act;

/// Whether the act is a petit cycle for which the counter has no room.
pub fn lacks_room(clock: u64, act: &Act) -> bool
    ensures value { result ≡ lacks_room clock act.now }
{
    match act {
        Act::Cycle => clock == LAST_CLOCK,
        Act::Sense | Act::Nano(_) => false,
    }
}

/// Whether the act is a look at the wire.
pub fn is_look(act: &Act) -> bool
    ensures value { result ≡ is_look act.now }
{
    matches!(act, Act::Sense)
}

/// How many of the first acts, of which there is one, a runner takes at once so that nothing is told or stops within.
#[tactic(auto, using(crate::proofs::Growing::begins, crate::proofs::Growing::one_more))]
pub fn stretch_len(acts: &[Act], debugger: &Debugger<'_>, stops: Stops, clock: u64) -> usize
    requires some { 0 < length acts.now }
    requires room { lacks_room clock (slice_index_or acts.now 0 act.Cycle) ≡ false }
    requires clock { clock < 2 ^ 63 }
    requires place { debugger.now.position + length acts.now < 2 ^ 64 }
    ensures some { 0 < result }
    ensures within { result ≤ length acts.now }
    ensures stretch { IsStretch (stops_at stops debugger.now.breakpoints.items) debugger.now.trace
        debugger.now.position clock (take result acts.now) }
    ensures short { IsFalse (is_long (take result acts.now)) }
    ensures longest { IsLongest (stops_at stops debugger.now.breakpoints.items) debugger.now.trace
        debugger.now.position clock acts.now result }
{
    let mut cycles = cycle_count(&acts[0]);
    let mut count = 1;
    while count < acts.len() && count < LONGEST {
        let act = &acts[count];
        if ends_at(
            act,
            debugger,
            stops,
            debugger.position + count,
            clock,
            cycles,
        ) {
            break;
        }
        cycles += cycle_count(act);
        count += 1;
    }
    count
}

/// Whether this act is left for the next stretch, after so many petit cycles of this one.
fn ends_at(
    act: &Act,
    debugger: &Debugger<'_>,
    stops: Stops,
    index: usize,
    clock: u64,
    cycles: u64,
) -> bool
    requires cycles { cycles ≤ 64 }
    requires clock { clock < 2 ^ 63 }
    ensures silent { IsFalse result → (debugger.now.trace && is_look act.now) ≡ false }
    ensures goes { IsFalse result → stops_at stops debugger.now.breakpoints.items index ≡ false }
    ensures few { IsFalse result → cycles + cond (is_cycle act.now) 1 0 ≤ 64 }
    ensures room { IsFalse result → clock + (cycles + cond (is_cycle act.now) 1 0) < 2 ^ 63 }
    ensures ends { IsTrue result → ((debugger.now.trace && is_look act.now) ≡ true)
        ⊎ (stops_at stops debugger.now.breakpoints.items index ≡ true)
        ⊎ (64 < cycles + cond (is_cycle act.now) 1 0)
        ⊎ (2 ^ 63 ≤ clock + (cycles + cond (is_cycle act.now) 1 0)) }
{
    if debugger.trace && is_look(act) || debugger.stops(stops, index) {
        return true;
    }
    let cycles = cycles + cycle_count(act);
    cycles > MOST_CYCLES as u64 || clock + cycles > LAST_CLOCK
}

fn cycle_count(act: &Act) -> u64
    ensures value { result ≡ cond (is_cycle act.now) 1 0 }
{
    match act {
        Act::Cycle => 1,
        Act::Sense | Act::Nano(_) => 0,
    }
}
