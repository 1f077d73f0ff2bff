//! Logs of one petit cycle, and processors that have fetched what they received.

ghost use Rattle.std.specs.Prelude.{◌≡◌, ◌+◌, ◌<◌, ◌≤◌, [], OnOk, length, vec_len, vec_capacity};
ghost use Rattle.cm_bits.specs.Bit.{bit};
ghost use Rattle.cm_model.specs.Each.{tabulate};
ghost use Rattle.cm_model.specs.Processor.{RECV};
ghost use Rattle.cm_model.specs.Array.{chip_at};
ghost use Rattle.cm_element.specs.Wide.{with_flag_plane};
ghost use Rattle.cm_router.specs.Logs.{log_rooms_of, HaveLogRoom};
ghost use Rattle.cm_petit.specs.Routers.{events_of};

use cm_bits::{FlagNo, NoMemory};
use cm_element::Run;
use cm_message::Event;

/// Empties each log, and makes room in it for so many events.
pub(crate) fn empty_logs(logs: &mut [Vec<Event>], room: usize) -> Result<(), NoMemory>
    ensures empty { OnOk result (events_of logs.new ≡ tabulate 0 (length logs.old) (λ c. [])) }
    ensures log_room { OnOk result (HaveLogRoom room (log_rooms_of logs.new)) }
{
    for c in 0..logs.len() {
        empty_log(&mut logs[c], room)?;
    }
    Ok(())
}

fn empty_log(log: &mut Vec<Event>, room: usize) -> Result<(), NoMemory>
    ensures items { log.new.items ≡ [] }
    ensures ok { OnOk result (vec_len log.new + room ≤ vec_capacity log.new) }
{
    log.clear();
    log.reserve(room)?;
    Ok(())
}

/// Every processor has fetched what it received: RECV falls.
pub(crate) fn fetch_all(run: &mut Run, chips: u16)
    requires count { length run.old ≡ chips }
    ensures value { run.new
        ≡ tabulate 0 chips (λ c. with_flag_plane (chip_at run.old c) RECV (bit 0)) }
{
    for chip in 0..chips {
        run.poke_flag_plane(chip, FlagNo::RECV, 0);
    }
}
