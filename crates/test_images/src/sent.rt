//! Images that go into a sink piece by piece, where it has room for all of their bytes, or for some.

ghost use Rattle.std.specs.Prelude.{◌≡◌, false};
ghost use Rattle.test_doubles.specs.Doubles.{room_has_failed};

use crate::growths::TWO_CHIPS;
use cm_array::Machine;
use cm_image_dump::{DumpFault, DumpRoom, dump_into};
use cm_image_load::load;
use std::alloc::Global;
use test_doubles::Room;

/// How a machine's image goes into a sink.
fn sent<const N: usize, const CAP: usize>(
    alloc: Global,
    machine: &Machine<N, CAP>,
    sink: &mut Room,
) -> Option<Result<(), DumpFault>>
    requires working { room_has_failed sink.old ≡ false }
{
    let Ok(room) = DumpRoom::of(alloc, machine) else {
        return None;
    };
    Some(dump_into(machine, room, sink))
}

/// Whether a sink with room for so many bytes has taken as many of these, and all were asked of it, or else a failed
/// write was told.
fn is_sent<const N: usize, const CAP: usize>(
    alloc: Global,
    machine: &Machine<N, CAP>,
    bytes: &[u8],
    room: usize,
) -> Option<bool> {
    let mut sink = match room % 2 {
        0 => Room::new(alloc, room, 7).ok()?,
        _ => Room::taking_nothing(alloc, room, 7).ok()?,
    };
    let wanted = if room < bytes.len() {
        Err(DumpFault::Write)
    } else {
        Ok(())
    };
    Some(sent(alloc, machine, &mut sink)? == wanted && sink.taken() == bytes.get(..room)?)
}

/// For how many rooms, from none up to all bytes, it is so.
fn rooms_sent(alloc: Global) -> Option<usize> {
    let machine = load::<1, 1>(alloc, &TWO_CHIPS).ok()?;
    rooms_sent_of(alloc, &machine)
}

fn rooms_sent_of(alloc: Global, machine: &Machine<1, 1>) -> Option<usize> {
    let mut count = 0;
    for room in 0..TWO_CHIPS.len() + 1 {
        let is_so = is_sent(alloc, machine, &TWO_CHIPS, room)?;
        count = usize::saturating_add(count, usize::from(is_so));
    }
    Some(count)
}

#[test]
fn as_much_of_an_image_goes_out_as_there_is_room_for(rt: HostRuntime) {
    assert_eq!(rt; rooms_sent(rt.alloc()), Some(109));
}
