//! The order of age: where the messages of the row stand in it, each older than all behind it, the lower of two numbers
//! is that of the older message, and tags need not be read to tell who goes first.

ghost use Rattle.std.specs.Prelude.{◌≡◌, ◌⊎◌, ℕ, ◌-◌, ◌<◌, ◌≤◌, IsTrue, length, map, true, vec_len, vec_capacity};
ghost use Rattle.std.specs.List.{All};
ghost use Rattle.cm_model.specs.Array.{nth_or_nil};
ghost use Rattle.cm_model.specs.Router.{is_older};
ghost use Rattle.cm_router_engine.specs.Standing.{HaveMessages, IsWritten, tag_at, AreByAge};
ghost use Rattle.cm_router_engine.specs.Ranking.{moved_ticket, HaveMoved};

use cm_message::Message;
use cm_router::is_older;
use cm_slots::{Ticket, TicketQueues};

/// Where a message has not gone yet.
const NOWHERE: u16 = 65535;

/// How many of the first messages of the row stand in the order of age, of which so many are known to.
pub(crate) fn risen_to(row: &[Message], from: usize) -> usize
    requires rising { AreByAge row.now from }
    ensures rising { AreByAge row.now result }
{
    let mut risen = from;
    while risen < row.len() && rises_at(row, risen) {
        risen += 1;
    }
    risen
}

/// Whether the message before that at a place, if there is one, is older.
fn rises_at(row: &[Message], place: usize) -> bool
    requires place { place < length row.now }
    ensures older { IsTrue result
        → (place ≡ 0) ⊎ (is_older (tag_at row.now (place - 1)) (tag_at row.now place) ≡ true) }
{
    place == 0 || is_older(&row[place - 1].tag, &row[place].tag)
}

/// The numbers of all messages of the row, from the oldest on, each below what it is ordered by; none where there is no
/// room for them.
pub(crate) fn sort_numbers(row: &[Message], keys: &mut Vec<u128>)
    ensures capacity { vec_capacity keys.new ≡ vec_capacity keys.old }
{
    keys.clear();
    if keys.capacity() < row.len() {
        return;
    }
    for number in 0..row.len() {
        keys.push_reserved(key(&row[number], number));
    }
    keys.sort_unstable();
}

/// The birth of a message, below it its origin, and below that its number.
fn key(message: &Message, number: usize) -> u128 {
    let tag = message.tag;
    let origin = u128::from(tag.chip) << 16 | u128::from(tag.proc.get());
    u128::from(tag.birth) << 48 | origin << 16 | number as u128 % 65536
}

/// Writes the messages of the row into the second one, in the order in which their numbers stand in these keys, and at
/// each number where the message has gone; or tells that this is not all of them.
pub(crate) fn rearrange(
    row: &[Message],
    keys: &[u128],
    spare: &mut Vec<Message>,
    moved: &mut Vec<u16>,
) -> bool
    requires few { length row.now ≤ 65535 }
    requires capacity { length row.now ≤ vec_capacity spare.old }
    ensures value { IsTrue result → HaveMoved row.now spare.new.items moved.new.items }
    ensures len { vec_len spare.new ≤ length row.now }
    ensures capacity { vec_capacity spare.old ≤ vec_capacity spare.new }
{
    spare.clear();
    if keys.len() < row.len() || !has_blank(moved, row.len()) {
        return false;
    }
    for place in 0..row.len() {
        let number = (keys[place] % 65536) as usize;
        if number >= row.len() {
            return false;
        }
        moved[number] = place as u16;
        spare.push_reserved(row[number]);
    }
    are_below(moved, row.len())
}

/// Writes down of so many messages that they have not gone anywhere yet, and tells whether there is room for that.
fn has_blank(moved: &mut Vec<u16>, count: usize) -> bool
    ensures value { IsTrue result → All (λ place. place ≡ 65535) moved.new.items }
    ensures len { IsTrue result → vec_len moved.new ≡ count }
{
    moved.clear();
    if moved.capacity() < count {
        return false;
    }
    for _number in 0..count {
        moved.push_reserved(NOWHERE);
    }
    true
}

fn are_below(moved: &[u16], bound: usize) -> bool
    ensures value { IsTrue result → All (λ place. place < bound) moved.now }
{
    for place in moved {
        if usize::from(*place) >= bound {
            return false;
        }
    }
    true
}

/// Each ticket tells where its message has gone.
pub(crate) fn renumber(slots: &mut TicketQueues, moved: &[u16])
    requires kept { All (HaveMessages (length moved.now)) slots.old }
    requires few { All (λ place. place < 65535) moved.now }
    ensures value { slots.new ≡ map (map (moved_ticket moved.now)) slots.old }
{
    for c in 0..slots.chips() {
        renumber_at(slots, moved, c);
    }
}

fn renumber_at(slots: &mut TicketQueues, moved: &[u16], here: usize)
    requires here { here < length slots.old }
    requires kept { HaveMessages (length moved.now) (nth_or_nil slots.old here) }
    requires few { All (λ place. place < 65535) moved.now }
    ensures value { nth_or_nil slots.new here ≡ map (moved_ticket moved.now) (nth_or_nil slots.old here) }
    ensures others { IsWritten here slots.old slots.new }
{
    let mut place = 0;
    while let Some(ticket) = slots.ticket(here, place) {
        let number = moved[usize::from(ticket.number)];
        slots.replace(here, place, Ticket { number, ..ticket });
        place += 1;
    }
}
