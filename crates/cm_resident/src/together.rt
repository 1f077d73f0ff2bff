//! Logs of many chips, on which several threads work at once.

ghost use Rattle.std.specs.Prelude.{◌≡◌, ℕ, ◌<◌, ◌≤◌, ◌++◌, length, slice_index_or};
ghost use Rattle.std.specs.Thread.{IsSync};
ghost use Rattle.cm_model.specs.Each.{tabulate};
ghost use Rattle.cm_model.specs.Array.{nth_or_nil};
ghost use Rattle.cm_router.specs.Logs.{log_room, log_rooms_of};
ghost use Rattle.cm_petit.specs.Routers.{events_of};
ghost use Rattle.cm_array.specs.SavedLogs.{TakeIn};

use cm_array::{InTurn, LogAppender, append};
use cm_message::Event;
use std::thread;
use std::thread::Threads;

/// Fewer events are put behind others before threads are started for it.
const MANY: usize = 1 << 16;

/// Who takes the logs of many chips in so many threads, where there is enough to do for them.
#[derive(Drop)]
pub(crate) struct Together<'a, R> {
    pub(crate) rt: &'a R,
    pub(crate) threads: usize,
    ghost some: { 0 < threads },
    ghost few: { threads ≤ 64 },
}

impl<'a, R: Threads + Sync> LogAppender for Together<'a, R> {
    ghost ready = { IsSync R.row };

    fn append_logs(&self, logs: &mut [Vec<Event>], more: &[Vec<Event>])
        requires one { IsSync R.row }
        requires count { length more.now ≡ length logs.old }
        requires room { TakeIn (log_rooms_of logs.old) (events_of more.now) }
        ensures value { events_of logs.new ≡ tabulate 0 (length logs.old)
            (λ c. nth_or_nil (events_of logs.old) c ++ nth_or_nil (events_of more.now) c) }
    {
        if are_many(more) {
            append_logs(self.rt, self.threads, logs, more);
        } else {
            InTurn.append_logs(logs, more);
        }
    }
}

/// Whether there are so many events that it pays to start threads for them.
fn are_many(logs: &[Vec<Event>]) -> bool {
    let mut count = 0usize;
    for log in logs {
        count = count.saturating_add(log.len());
    }
    count >= MANY
}

/// Puts events behind those of logs, chip by chip, in so many threads.
fn append_logs<R: Threads + Sync>(
    rt: &R,
    threads: usize,
    logs: &mut [Vec<Event>],
    more: &[Vec<Event>],
)
    requires threads { 0 < threads }
    requires few { threads ≤ 64 }
    requires count { length more.now ≡ length logs.old }
    requires room { TakeIn (log_rooms_of logs.old) (events_of more.now) }
    ensures value { events_of logs.new ≡ tabulate 0 (length logs.old)
        (λ c. nth_or_nil (events_of logs.old) c ++ nth_or_nil (events_of more.now) c) }
{
    each_behind(rt, threads, logs, more);
}

/// The same, chip by chip.
fn each_behind<R: Threads + Sync>(
    rt: &R,
    threads: usize,
    logs: &mut [Vec<Event>],
    more: &[Vec<Event>],
)
    requires threads { 0 < threads }
    requires few { threads ≤ 64 }
    requires count { length more.now ≡ length logs.old }
    requires room { (c : ℕ) (d e : _) → c < length logs.old
        → length (slice_index_or more.now c d).items ≤ log_room (slice_index_or logs.old c e) }
    ensures count { length logs.new ≡ length logs.old }
    ensures value { (c : ℕ) (d e : _) → c < length logs.old → (slice_index_or logs.new c e).items
        ≡ (slice_index_or logs.old c e).items ++ (slice_index_or more.now c d).items }
{
    thread::for_each_mut(rt, logs, threads, &|c, log| append(log, &more[c]));
}
