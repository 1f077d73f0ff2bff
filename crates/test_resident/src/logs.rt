//! Long lists that workers share out where nobody looks: the events of earlier lists are set aside meanwhile.

ghost use Rattle.std.specs.Thread.{IsSync};

use cm_array::{Fixed, Machine, RunFault, Runner};
use cm_bits::{Dir, FlagNo};
use cm_model::{Act, Nano};
use cm_resident::Resident;
use cm_workers::Passage;
use std::alloc::{AllocError, Global};
use std::sync::Wait;
use std::test::Fail;
use std::thread::Threads;
use test_generators::{address, run_beside_plain};

/// In every processor a flag becomes 0 or 1.
fn everywhere(write: FlagNo, is_set: bool) -> Act {
    Act::Nano(Nano {
        a: address(0),
        b: address(0),
        read: FlagNo::ZERO,
        write,
        cond: FlagNo::ZERO,
        sense: false,
        mem_table: 0xf0,
        flag_table: if is_set { 0xff } else { 0x00 },
        dir: Dir::North,
    })
}

/// 64 petit cycles, before each of which all processors ask to send and can receive.
fn busy_list(alloc: Global) -> Result<Vec<Act>, AllocError> {
    let mut acts = Vec::new(alloc);
    for _cycle in 0..64 {
        acts.push(everywhere(FlagNo::SEND, true))?;
        acts.push(everywhere(FlagNo::RECV, false))?;
        acts.push(Act::Cycle)?;
    }
    Ok(acts)
}

/// How a list is gone through each of three times, and whether the machine is then as one thread leaves it.
type Thrice = [(Option<RunFault>, bool); 3];

/// How a runner goes through the acts three times.
fn thrice<X: Runner<Fixed<10, 7>>>(
    runner: &mut X,
    alloc: Global,
    machine: &mut Machine<10, 7>,
    acts: &[Act],
) -> Option<Thrice>
    requires runner { X.ready }
{
    Some([
        run_beside_plain(runner, alloc, machine, acts, 1024)?,
        run_beside_plain(runner, alloc, machine, acts, 1024)?,
        run_beside_plain(runner, alloc, machine, acts, 1024)?,
    ])
}

/// The same from a blank machine on.
fn thrice_from_blank<X: Runner<Fixed<10, 7>>>(
    runner: &mut X,
    alloc: Global,
    acts: &[Act],
) -> Option<Thrice>
    requires runner { X.ready }
{
    let mut machine = Machine::<10, 7>::blank(alloc).ok()?;
    thrice(runner, alloc, &mut machine, acts)
}

/// The same by four workers.
fn thrice_by_four<R: Threads + Wait + Sync>(rt: &R, alloc: Global, acts: &[Act]) -> Option<Thrice>
    requires threads { IsSync R.row }
{
    let mut resident = Resident::new::<10>(rt, alloc, 2, 4, Passage::Open).ok()?;
    thrice_from_blank(&mut resident, alloc, acts)
}

/// The same of a list of 64 petit cycles, which tells some 130,000 events.
fn lists_go<R: Threads + Wait + Sync>(rt: &R, alloc: Global) -> Option<Thrice>
    requires threads { IsSync R.row }
{
    let acts = busy_list(alloc).ok()?;
    thrice_by_four(rt, alloc, &acts)
}

#[test]
fn what_long_lists_tell_comes_to_stand_behind_the_events_of_earlier_ones(
    rt: HostRuntime,
) -> Result<(), Fail> {
    assert_eq!(rt; lists_go(&rt, rt.alloc()), Some([(None, true); 3]));
    Ok(())
}
