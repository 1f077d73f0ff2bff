//! Logs that are set aside while a machine goes on.

ghost use Rattle.std.specs.Prelude.{◌≡◌, ◌≤◌, ◌++◌, length};
ghost use Rattle.cm_model.specs.Each.{tabulate};
ghost use Rattle.cm_model.specs.Array.{nth_or_nil};
ghost use Rattle.cm_router.specs.Logs.{log_room, log_rooms_of};
ghost use Rattle.cm_petit.specs.Routers.{events_of};
ghost use Rattle.cm_array.specs.SavedLogs.{TakeIn};

use cm_message::Event;
use std::marker::Model;

/// The logs of a machine that goes on without them: what it tells meanwhile comes to stand behind their events.
///
/// Contracts see the logs by chip, and how many events more each takes before it has to grow.
#[derive(Drop)]
pub struct SavedLogs {
    pub(crate) logs: Vec<Vec<Event>>,
}

impl Model for SavedLogs {
    ghost use Rattle.cm_router.specs.Logs.{log_rooms_of};
    ghost use Rattle.cm_petit.specs.Routers.{events_of};
    ghost use Rattle.cm_array.specs.SavedLogs.{Aside};

    ghost Value = { Aside };

    ghost view = { λ earlier. record {
      logs = events_of earlier.logs.items;
      log_rooms = log_rooms_of earlier.logs.items;
    } };
}

/// Who puts events behind those of logs.
pub trait LogAppender {
    ghost use Rattle.std.specs.Prelude.{◌≡◌, ◌++◌, length};
    ghost use Rattle.cm_model.specs.Each.{tabulate};
    ghost use Rattle.cm_model.specs.Array.{nth_or_nil};
    ghost use Rattle.cm_router.specs.Logs.{log_rooms_of};
    ghost use Rattle.cm_petit.specs.Routers.{events_of};
    ghost use Rattle.cm_array.specs.SavedLogs.{TakeIn};

    /// What a caller of an unknown one has to know of its type; of `InTurn` it is no condition.
    ghost ready: { Type 0 };

    /// Puts events behind those of logs, chip by chip. No memory is taken.
    fn append_logs(&self, logs: &mut [Vec<Event>], more: &[Vec<Event>])
        requires one { ready }
        requires count { length more.now ≡ length logs.old }
        requires room { TakeIn (log_rooms_of logs.old) (events_of more.now) }
        ensures value { events_of logs.new ≡ tabulate 0 (length logs.old)
            (λ c. nth_or_nil (events_of logs.old) c ++ nth_or_nil (events_of more.now) c) };
}

/// Who takes one log after another.
#[derive(Clone, Copy)]
pub struct InTurn;

impl LogAppender for InTurn {
    ghost ready = { Unit {0} };

    fn append_logs(&self, logs: &mut [Vec<Event>], more: &[Vec<Event>])
        requires count { length more.now ≡ length logs.old }
        requires room { TakeIn (log_rooms_of logs.old) (events_of more.now) }
        ensures value { events_of logs.new ≡ tabulate 0 (length logs.old)
            (λ c. nth_or_nil (events_of logs.old) c ++ nth_or_nil (events_of more.now) c) }
    {
        append_logs(logs, more);
    }
}

fn append_logs(logs: &mut [Vec<Event>], more: &[Vec<Event>])
    requires count { length more.now ≡ length logs.old }
    requires room { TakeIn (log_rooms_of logs.old) (events_of more.now) }
    ensures value { events_of logs.new ≡ tabulate 0 (length logs.old)
        (λ c. nth_or_nil (events_of logs.old) c ++ nth_or_nil (events_of more.now) c) }
{
    for c in 0..logs.len() {
        append(&mut logs[c], &more[c]);
    }
}

/// Puts events behind those of a log. No memory is taken.
pub fn append(log: &mut Vec<Event>, more: &[Event])
    requires room { length more.now ≤ log_room log.old }
    ensures items { log.new.items ≡ log.old.items ++ more.now }
{
    log.extend_from_slice(more).unwrap();
}
