//! Machines that ran, written and read back: without their events they are the same, and go on in the same way.

ghost use Rattle.std.specs.Prelude.{◌≡◌, ◌<◌, ◌^◌, IfOk, IsOkUnless};
ghost use Rattle.cm_image_format.specs.Laws.{without_logs};

use crate::drawn::asking;
use cm_array::{Machine, Plain, Runner};
use cm_bits::{Addr, Dir, FlagNo};
use cm_image_dump::dump;
use cm_image_load::{ImageFault, load};
use cm_model::{Act, Nano};
use std::alloc::Global;
use test_generators::{Draws, have_same_bits, have_same_messages, have_same_routing};

/// The machine that is read from a machine's image: the same, but without its events.
fn read_back<const N: usize, const CAP: usize>(
    alloc: Global,
    machine: &Machine<N, CAP>,
) -> Result<Machine<N, CAP>, ImageFault>
    ensures value { IfOk result (λ kept. kept.machine ≡ without_logs N machine.now.machine) }
    ensures otherwise { IsOkUnless result ImageFault.Memory }
{
    let Ok(text) = dump(alloc, machine) else {
        return Err(ImageFault::Memory);
    };
    load(alloc, text.as_slice())
}

/// The planes of one address, half of them turned, go to another and over the grid.
fn over_the_grid() -> Option<Nano> {
    Some(Nano {
        a: Addr::new(3970)?,
        b: Addr::new(77)?,
        read: FlagNo::new(10)?,
        write: FlagNo::new(10)?,
        cond: FlagNo::new(3)?,
        sense: false,
        mem_table: 0x96,
        flag_table: 0xe8,
        dir: Dir::East,
    })
}

/// Petit cycles, and an instruction between two of them.
fn acts(alloc: Global) -> Option<Vec<Act>> {
    let acts = [
        Act::Cycle,
        Act::Cycle,
        Act::Nano(over_the_grid()?),
        Act::Sense,
        Act::Cycle,
    ];
    Vec::from_slice(alloc, acts.as_slice()).ok()
}

/// Whether so many chips have messages, and whether they have events.
fn messages_and_events<const N: usize, const CAP: usize>(
    machine: &Machine<N, CAP>,
    chips: u16,
) -> (bool, bool)
    requires cube { chips ≡ 2 ^ N }
{
    let mut found = (false, false);
    for c in 0..chips {
        found.0 |= !machine.buffer(c).is_empty();
        found.1 |= !machine.log(c).is_empty();
    }
    found
}

/// Whether a machine that ran and the one that was read from its image both have messages, and the first alone events.
fn have_messages<const N: usize, const CAP: usize>(
    machine: &Machine<N, CAP>,
    again: &Machine<N, CAP>,
    chips: u16,
) -> bool
    requires cube { chips ≡ 2 ^ N }
{
    messages_and_events(machine, chips) == (true, true)
        && messages_and_events(again, chips) == (true, false)
}

/// Whether they are the same, but for their events.
fn are_alike<const N: usize, const CAP: usize>(
    machine: &Machine<N, CAP>,
    again: &Machine<N, CAP>,
    chips: u16,
) -> bool
    requires cube { chips ≡ 2 ^ N }
{
    have_same_bits(machine, again, chips)
        && have_same_messages(machine, again, chips)
        && have_same_routing(machine, again)
}

fn have_same_bytes<const N: usize, const CAP: usize>(
    alloc: Global,
    machine: &Machine<N, CAP>,
    again: &Machine<N, CAP>,
) -> bool {
    match (dump(alloc, machine), dump(alloc, again)) {
        (Ok(one), Ok(other)) => one == other,
        _ => false,
    }
}

/// Whether a machine goes through the acts. No contract tells more.
fn goes<const N: usize, const CAP: usize>(machine: &mut Machine<N, CAP>, acts: &[Act]) -> bool {
    Plain.go(machine, acts).is_ok()
}

/// Whether the machine that ran has messages and events, comes back without the events, has its bytes again, and
/// whether both go on in the same way.
fn are_as_they_have_to_be<const N: usize, const CAP: usize>(
    alloc: Global,
    machine: &mut Machine<N, CAP>,
    again: &mut Machine<N, CAP>,
    chips: u16,
    acts: &[Act],
) -> [bool; 4]
    requires cube { chips ≡ 2 ^ N }
{
    [
        have_messages(machine, again, chips),
        are_alike(machine, again, chips),
        have_same_bytes(alloc, machine, again),
        goes(machine, acts) && goes(again, acts) && are_alike(machine, again, chips),
    ]
}

/// The same of a machine, and of the one that is read from its image.
fn comes_back<const N: usize, const CAP: usize>(
    alloc: Global,
    machine: &mut Machine<N, CAP>,
    chips: u16,
    acts: &[Act],
) -> Option<[bool; 4]>
    requires cube { chips ≡ 2 ^ N }
{
    let mut again = read_back(alloc, machine).ok()?;
    Some(are_as_they_have_to_be(alloc, machine, &mut again, chips, acts))
}

/// The same of a machine of so many chips that goes through these acts.
fn comes_back_after<const N: usize, const CAP: usize>(
    alloc: Global,
    chips: u16,
    acts: &[Act],
) -> Option<[bool; 4]>
    requires cube { chips ≡ 2 ^ N }
{
    let mut machine = asking::<N, CAP>(alloc, &mut Draws::new(u32::from(chips)), chips)?;
    if !goes(&mut machine, acts) {
        return None;
    }
    comes_back(alloc, &mut machine, chips, acts)
}

fn come_back<const N: usize, const CAP: usize>(alloc: Global, chips: u16) -> Option<[bool; 4]>
    requires cube { chips ≡ 2 ^ N }
{
    let acts = acts(alloc)?;
    comes_back_after::<N, CAP>(alloc, chips, &acts)
}

#[test]
fn machines_that_ran_come_back_without_their_events(rt: HostRuntime) {
    let alloc = rt.alloc();
    let sizes = [
        come_back::<0, 15>(alloc, 1),
        come_back::<1, 2>(alloc, 2),
        come_back::<3, 7>(alloc, 8),
        come_back::<4, 1>(alloc, 16),
        come_back::<7, 15>(alloc, 128),
        come_back::<12, 7>(alloc, 4096),
    ];
    assert_eq!(rt; sizes, [Some([true; 4]); 6]);
}
