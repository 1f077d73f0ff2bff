//! Room in the logs of a machine.

ghost use Rattle.std.specs.Prelude.{◌≡◌, ◌+◌, ◌≤◌, OnOk, vec_len, vec_capacity};
ghost use Rattle.cm_router.specs.Logs.{log_rooms_of, HaveLogRoom};
ghost use Rattle.cm_petit.specs.Routers.{events_of};

use cm_bits::NoMemory;
use cm_message::Event;

/// Makes room in each log for so many events more.
pub(crate) fn make_room(logs: &mut [Vec<Event>], more: usize) -> Result<(), NoMemory>
    ensures events { events_of logs.new ≡ events_of logs.old }
    ensures log_room { OnOk result (HaveLogRoom more (log_rooms_of logs.new)) }
{
    for c in 0..logs.len() {
        make_room_in(&mut logs[c], more)?;
    }
    Ok(())
}

fn make_room_in(log: &mut Vec<Event>, more: usize) -> Result<(), NoMemory>
    ensures items { log.new.items ≡ log.old.items }
    ensures ok { OnOk result (vec_len log.new + more ≤ vec_capacity log.new) }
{
    log.reserve(more)?;
    Ok(())
}
