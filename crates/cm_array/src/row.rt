//! The row into which all chips tell their events, one behind the other, in the order in which they are told.

ghost use Rattle.std.specs.Prelude.{◌≡◌, ℕ, ◌<◌, ◌≤◌, ◌++◌, ◌==◌, [], ◌∷◌, OnErr, OnOk, drop, false, length, take};
ghost use Rattle.std.specs.Prelude.{vec_len};
ghost use Rattle.std.specs.List.{list_any};
ghost use Rattle.cm_model.specs.Array.{nth_or_nil};
ghost use Rattle.cm_router.specs.Rows.{logging_chip, events_of_chip, with_row};
ghost use Rattle.cm_petit.specs.Routers.{events_of};
ghost use Rattle.cm_array.specs.Rows.{dealt};

use crate::chip_state::lay_logs;
use cm_bits::NoMemory;
use cm_message::Event;

/// Deals the events of a row out to the logs of all chips: each comes to stand last in the log of the chip that told
/// it. Where memory is refused, the row keeps those that are left.
pub(crate) fn deal_out(logs: &mut [Vec<Event>], row: &mut Vec<Event>) -> Result<(), NoMemory>
    ensures value { with_row (events_of logs.new) row.new.items ≡ with_row (events_of logs.old) row.old.items }
    ensures ok { OnOk result (row.new.items ≡ []) }
{
    let told = deal(logs, 0, row);
    remove_front(row, told);
    if row.is_empty() {
        Ok(())
    } else {
        Err(NoMemory)
    }
}

/// Makes logs the same as others, the first of which is that of chip `first`, with what a row tells of their chips
/// behind.
pub(crate) fn lay_told(
    logs: &mut [Vec<Event>],
    first: u16,
    others: &[Vec<Event>],
    row: &[Event],
) -> Result<(), NoMemory>
    requires count { length others.now ≡ length logs.old }
    ensures value { OnOk result (events_of logs.new ≡ dealt first (events_of others.now) row.now) }
{
    lay_logs(logs, others)?;
    if deal(logs, first, row) < row.len() {
        return Err(NoMemory);
    }
    Ok(())
}

/// Puts events of a row behind those of logs, the first of which is that of chip `first`, each behind those of the
/// chip that told it; what a chip told whose log is not among them is left out. It ends where memory is refused,
/// and tells how many events it has gone over.
fn deal(logs: &mut [Vec<Event>], first: u16, row: &[Event]) -> usize
    ensures within { result ≤ length row.now }
    ensures value { events_of logs.new ≡ dealt first (events_of logs.old) (take result row.now) }
{
    for i in 0..row.len() {
        let Ok(()) = tell(logs, first, &row[i]) else {
            return i;
        };
    }
    row.len()
}

/// Puts one event behind those of the chip that told it, if its log is among these.
fn tell(logs: &mut [Vec<Event>], first: u16, event: &Event) -> Result<(), NoMemory>
    ensures ok { OnOk result (events_of logs.new ≡ dealt first (events_of logs.old) (event.now ∷ [])) }
    ensures err { OnErr result (events_of logs.new ≡ events_of logs.old) }
{
    let chip = usize::from(teller(event));
    let from = usize::from(first);
    if chip < from || logs.len() <= chip - from {
        return Ok(());
    }
    let Ok(()) = logs[chip - from].push(*event) else {
        return Err(NoMemory);
    };
    Ok(())
}

/// Whether some log has an event.
pub(crate) fn has_events(logs: &[Vec<Event>]) -> bool
    ensures none { result ≡ false → (c : ℕ) → c < length logs.now → nth_or_nil (events_of logs.now) c ≡ [] }
{
    for c in 0..logs.len() {
        if !logs[c].is_empty() {
            return true;
        }
    }
    false
}

/// The number of the chip whose router tells an event.
pub(crate) fn teller(event: &Event) -> u16
    ensures value { result ≡ logging_chip event.now }
{
    match event {
        Event::Injected(message) => message.tag.chip,
        Event::Delivered { chip, .. } => *chip,
    }
}

/// Whether a row tells an event of a chip.
pub(crate) fn tells_of(row: &[Event], chip: u16) -> bool
    ensures value { result ≡ list_any (λ event. logging_chip event == chip) row.now }
{
    row.iter().any(|event| teller(event) == chip)
}

/// Puts what a row tells of a chip behind events, which stay where memory is refused.
pub(crate) fn push_told(to: &mut Vec<Event>, chip: u16, row: &[Event]) -> Result<(), NoMemory>
    ensures ok { OnOk result (to.new.items ≡ to.old.items ++ events_of_chip chip row.now) }
    ensures err { OnErr result (take (length to.old.items) to.new.items ≡ to.old.items) }
{
    for event in row {
        if teller(event) == chip {
            let Ok(()) = to.push(*event) else {
                return Err(NoMemory);
            };
        }
    }
    Ok(())
}

/// Takes so many events out of the front of a row.
fn remove_front(row: &mut Vec<Event>, count: usize)
    requires within { count ≤ vec_len row.old }
    ensures items { row.new.items ≡ drop count row.old.items }
{
    let len = row.len();
    row.copy_within(count..len, 0);
    row.truncate(len - count);
}
