//! Tiles of chips.

ghost use Rattle.std.specs.Prelude.{◌≡◌, ◌↔◌, ◌≢◌, ℕ, ◌<◌, ◌≤◌, ◌++◌, [], ◌∷◌, IsFalse, IsTrue, true, length, remove};
ghost use Rattle.std.specs.Prelude.{slice_index, slice_set, None, false, IfSome, unwrap_or};
ghost use Rattle.std.specs.Prelude.{map};
ghost use Rattle.std.specs.List.{list_any, slice_get};
ghost use Rattle.cm_bits.specs.Bit.{bit};
ghost use Rattle.cm_slots.specs.Tickets.{ticket_of};
ghost use Rattle.cm_slots.specs.declared.order.Order.TheVariants.{Arrival, Number};
ghost use Rattle.cm_slots.specs.Slots.{is_taken, is_arrival, leaver_at, slot_across, IsBlank, AreTaken};
ghost use Rattle.cm_slots.specs.Tiles.{slots_of, numbers_standing_at, IsShaped, IsQuiet, IsTile, HasLeft, HasTakenIn};
ghost use Rattle.cm_slots.specs.Tiles.{IsPut};
ghost use Rattle.cm_slots.specs.Tiles.{HasChanged};
ghost use Rattle.cm_slots.specs.Runs.{place_across, HasCrossed, HasDeparted};
ghost use Rattle.cm_slots.specs.Moves.{AreFirst, HasMoved, slot_over};

use crate::across::{has_arrival_over, put_across, put_leavers, put_over, trade};
use crate::choice::{leave_from, places};
use crate::order::Order;
use crate::rows::{ROOM, Row, WIDTH, arrivals, is_blank, leave, take_in};
use crate::shape::Shape;
use crate::ticket::{Ticket, ticket_in};

/// 64 chips that stand side by side, and their tickets slot by slot: the one that came first in slot 0.
#[derive(Drop)]
pub(crate) struct Tile {
    /// Slot 0 of each chip.
    first: Row,
    /// The other slots.
    rest: [Row; 14],
    /// Whether a ticket may stand there.
    awake: bool,
}

impl Tile {
    /// No ticket stands there.
    pub fn new() -> Tile
        ensures shape { IsShaped result }
        ensures blank { (i j : ℕ) → slots_of result i j ≡ 0 }
    {
        Tile {
            first: [0; WIDTH],
            rest: [[0; WIDTH]; 14],
            awake: false,
        }
    }

    /// A second one, with the tickets of this one.
    pub fn copy(&self) -> Tile
        ensures value { result ≡ self.now }
    {
        Tile {
            first: self.first,
            rest: self.rest,
            awake: self.awake,
        }
    }

    /// The tickets of its chips, where there is room for so many at each, cross a dimension: the chips across stand in
    /// this tile.
    pub fn cross_alone(&mut self, sizes: Shape, dim: u8, order: Order)
        requires dimension { dim < 12 }
        requires whole { IsTile self.old }
        requires within { (i : ℕ) → i < 64 → length (numbers_standing_at self.old i) ≤ sizes.room }
        ensures value { HasCrossed order sizes.room dim self.old self.old self.new }
    {
        if let Some(rows) = self.leave(sizes, dim, order) {
            let going = self.first;
            put_across(&mut self.first, &going, dim);
            self.take_in(rows);
        }
    }

    /// The same, where the chips across stand in another tile, whose tickets cross too.
    pub fn cross_with(&mut self, other: &mut Tile, sizes: Shape, dim: u8, order: Order)
        requires dimension { dim < 12 }
        requires far { 6 ≤ dim }
        requires whole { IsTile self.old }
        requires within { (i : ℕ) → i < 64 → length (numbers_standing_at self.old i) ≤ sizes.room }
        requires other_whole { IsTile other.old }
        requires other_within { (i : ℕ) → i < 64 → length (numbers_standing_at other.old i) ≤ sizes.room }
        ensures value { HasCrossed order sizes.room dim self.old other.old self.new }
        ensures other { HasCrossed order sizes.room dim other.old self.old other.new }
    {
        let here = self.leave(sizes, dim, order);
        let there = other.leave(sizes, dim, order);
        if here.is_none() && there.is_none() {
            return;
        }
        trade(&mut self.first, &mut other.first, dim);
        self.take_in(here.unwrap_or(0));
        other.take_in(there.unwrap_or(0));
    }

    /// Takes out of each chip, where there is room for so many tickets, who leaves in a dimension, and puts them down
    /// as they arrive across; of a tile at which nobody stands, none. Those who stay close up.
    pub fn depart(&mut self, leavers: &mut Option<Row>, sizes: Shape, dim: u8)
        requires dimension { dim < 12 }
        requires whole { IsTile self.old }
        requires within { (i : ℕ) → i < 64 → length (numbers_standing_at self.old i) ≤ sizes.room }
        ensures value { HasDeparted sizes.room dim self.old self.new leavers.new }
    {
        match self.leave(sizes, dim, Order::Arrival) {
            Some(rows) => {
                put_leavers(leavers, &self.first, dim);
                self.close_up(rows);
            }
            None => forget(leavers),
        }
    }

    /// Takes out of each chip, where there is room for so many tickets, who leaves in a dimension: the first slots hold
    /// them, and the slots behind those who stay. The result is how many rows behind the first those who stay may need,
    /// or nothing, where nobody stood.
    fn leave(&mut self, sizes: Shape, dim: u8, order: Order) -> Option<usize>
        requires dimension { dim < 12 }
        requires whole { IsTile self.old }
        requires within { (i : ℕ) → i < 64 → length (numbers_standing_at self.old i) ≤ sizes.room }
        ensures value { HasLeft order sizes.room dim (unwrap_or result 0) self.old self.new }
        ensures most { unwrap_or result 0 < sizes.room }
        ensures quiet { result ≡ None → IsQuiet self.new }
    {
        if self.is_quiet() {
            self.awake = false;
            return None;
        }
        let rows = match order {
            Order::Arrival => self.let_leave(sizes, dim),
            Order::Number => self.let_leave_by_number(sizes, dim),
        };
        Some(rows)
    }

    /// The same where somebody stands, in the order of arrival. It stands apart so that a tile at which nobody does
    /// costs no more than a look.
    #[inline(never)]
    fn let_leave(&mut self, sizes: Shape, dim: u8) -> usize
        requires dimension { dim < 12 }
        requires whole { IsTile self.old }
        requires within { (i : ℕ) → i < 64 → length (numbers_standing_at self.old i) ≤ sizes.room }
        ensures value { HasLeft Arrival sizes.room dim result self.old self.new }
        ensures most { result < sizes.room }
    {
        let rows = self.reach(sizes) - 1;
        leave(&mut self.first, &mut self.rest[..], rows, dim);
        rows
    }

    /// The same by number.
    #[inline(never)]
    fn let_leave_by_number(&mut self, sizes: Shape, dim: u8) -> usize
        requires dimension { dim < 12 }
        requires whole { IsTile self.old }
        requires within { (i : ℕ) → i < 64 → length (numbers_standing_at self.old i) ≤ sizes.room }
        ensures value { HasLeft Number sizes.room dim result self.old self.new }
        ensures most { result < sizes.room }
    {
        let rows = self.reach(sizes) - 1;
        let places = places(&self.first, &self.rest[..], rows, dim);
        leave_from(&mut self.first, &mut self.rest[..], rows, &places);
        rows
    }

    /// How much room is enough to find who leaves: where no chip is full, that for one more than stand at any, since
    /// then nobody is the last of a full chip.
    fn reach(&self, sizes: Shape) -> usize
        requires whole { IsTile self.now }
        ensures some { 0 < result }
        ensures most { result ≤ sizes.room }
        ensures few { (i : ℕ) → i < 64 → length (numbers_standing_at self.now i) ≤ sizes.room
            → (length (numbers_standing_at self.now i) ≤ result)
            × (length (numbers_standing_at self.now i) ≡ result → result ≡ sizes.room) }
    {
        let room = usize::from(sizes.room);
        if !self.is_within(room - 1) {
            return room;
        }
        for most in 1..room - 1 {
            if self.is_within(most) {
                return most + 1;
            }
        }
        room
    }

    /// Lets those who stay at each chip close up: nobody comes.
    fn close_up(&mut self, rows: usize)
        requires rows { rows ≤ 14 }
        requires shape { IsShaped self.old }
        ensures value { HasTakenIn rows (λ i. 0) self.old self.new }
    {
        self.first = [0; WIDTH];
        self.take_in(rows);
    }

    /// Takes in at each chip who has been put down in the first slot, behind those who stay: no more at a chip than
    /// there are of these rows.
    fn take_in(&mut self, rows: usize)
        requires rows { rows ≤ 14 }
        requires shape { IsShaped self.old }
        requires taken { AreTaken self.old.first }
        ensures value { HasTakenIn rows (λ i. slice_index self.old.first i) self.old self.new }
    {
        self.awake = true;
        take_in(&mut self.first, &mut self.rest[..], rows);
    }

    /// Writes down who stands in the first slots, if anybody stands there.
    pub fn lift(&self, first: &mut Option<Row>)
        requires whole { IsTile self.now }
        ensures value { AreFirst self.now first.new }
    {
        if self.is_quiet() {
            forget(first);
        } else {
            *first = Some(self.first);
        }
    }

    /// Puts down at each chip who stood in the first slot across these dimensions, and nobody else.
    pub fn put_down(&mut self, first: &Option<Row>, dims: u16)
        requires whole { IsTile self.old }
        requires few { (i : ℕ) → i < 64 → length (numbers_standing_at self.old i) ≤ 1 }
        requires long { IfSome first.now (λ row. length row ≡ 64) }
        requires taken { (i : ℕ) → i < 64 → leaver_at first.now i ≢ 0 → is_taken (leaver_at first.now i) ≡ true }
        ensures value { HasMoved dims first.now self.new }
    {
        match first {
            Some(row) => {
                put_over(&mut self.first, row, dims);
                self.awake = true;
            }
            None => {
                self.first = [0; WIDTH];
                self.awake = false;
            }
        }
    }

    /// Whether no ticket stands there: the slots are filled from the first on.
    fn is_quiet(&self) -> bool
        requires whole { IsTile self.now }
        ensures none { IsTrue result ↔ IsBlank self.now.first }
    {
        !self.awake || is_blank(&self.first)
    }

    /// At which chips, where there is room for so many tickets, one stands whose message has arrived: bit i is 1 for
    /// the chip at place i.
    pub fn arrivals(&self, sizes: Shape) -> u64
        requires whole { IsTile self.now }
        requires within { (i : ℕ) → i < 64 → length (numbers_standing_at self.now i) ≤ sizes.room }
        ensures value { (i : ℕ) → i < 64
            → bit result i ≡ list_any is_arrival (numbers_standing_at self.now i) }
    {
        if self.is_quiet() {
            return 0;
        }
        let mut lanes = arrivals(&self.first);
        for k in 1..usize::from(sizes.room) {
            lanes |= arrivals(&self.rest[k - 1]);
        }
        lanes
    }

    /// Whether at some chip the first ticket is one whose message arrives across these dimensions.
    pub fn has_arrival_over(&self, dims: u16) -> bool
        requires whole { IsTile self.now }
        ensures none { IsFalse result
            → (i : ℕ) → i < 64 → is_arrival (slot_over dims (slots_of self.now i 0)) ≡ false }
    {
        has_arrival_over(&self.first, dims)
    }

    /// Whether no chip has more tickets than this.
    pub fn is_within(&self, room: usize) -> bool
        requires whole { IsTile self.now }
        ensures within { IsTrue result ↔ ((i : ℕ) → i < 64 → length (numbers_standing_at self.now i) ≤ room) }
    {
        if room == 0 {
            self.is_quiet()
        } else if room < ROOM {
            is_blank(&self.rest[room - 1])
        } else {
            true
        }
    }

    /// How many tickets stand at a chip.
    pub fn len(&self, place: usize) -> usize
        requires place { place < 64 }
        requires whole { IsTile self.now }
        ensures value { result ≡ length (numbers_standing_at self.now place) }
        ensures most { result ≤ 15 }
    {
        let mut len = 0;
        while len < ROOM && self.slot(place, len) != 0 {
            len += 1;
        }
        len
    }

    /// The ticket in a slot of a chip, if one stands there.
    pub fn ticket(&self, place: usize, slot: usize) -> Option<Ticket>
        requires place { place < 64 }
        requires whole { IsTile self.now }
        ensures value { result ≡ slice_get (map ticket_of (numbers_standing_at self.now place)) slot }
        ensures most { IfSome result (λ t. slot < 15) }
    {
        if slot >= ROOM {
            return None;
        }
        ticket_in(self.slot(place, slot))
    }

    /// Whether a ticket stands in a slot of a chip.
    pub fn is_taken(&self, place: usize, slot: usize) -> bool
        requires place { place < 64 }
        requires slot { slot < 15 }
        requires whole { IsTile self.now }
        ensures taken { IsTrue result ↔ slot < length (numbers_standing_at self.now place) }
    {
        self.slot(place, slot) != 0
    }

    /// What is in a slot of a chip.
    pub fn slot(&self, place: usize, slot: usize) -> u32
        requires place { place < 64 }
        requires slot { slot < 15 }
        requires shape { IsShaped self.now }
        ensures value { result ≡ slots_of self.now place slot }
    {
        if slot == 0 {
            self.first[place]
        } else {
            self.rest[slot - 1][place]
        }
    }

    /// Puts a ticket's number behind those of a chip.
    pub fn arrive(&mut self, place: usize, number: u32)
        requires place { place < 64 }
        requires whole { IsTile self.old }
        requires space { length (numbers_standing_at self.old place) < 15 }
        requires taken { is_taken number ≡ true }
        ensures value { HasChanged place (numbers_standing_at self.old place ++ number ∷ []) self.old self.new }
    {
        let len = self.len(place);
        self.put(place, len, number);
    }

    /// Puts a ticket's number in the place of one of a chip.
    pub fn replace(&mut self, place: usize, slot: usize, number: u32)
        requires place { place < 64 }
        requires whole { IsTile self.old }
        requires there { slot < length (numbers_standing_at self.old place) }
        requires taken { is_taken number ≡ true }
        ensures value { HasChanged place
            (slice_set (numbers_standing_at self.old place) slot number) self.old self.new }
    {
        self.put(place, slot, number);
    }

    /// Takes one out of a chip's slots; the later ones close up.
    pub fn remove(&mut self, place: usize, slot: usize)
        requires place { place < 64 }
        requires whole { IsTile self.old }
        requires there { slot < length (numbers_standing_at self.old place) }
        ensures value { HasChanged place (remove (numbers_standing_at self.old place) slot) self.old self.new }
    {
        for later in slot + 1..ROOM {
            let next = self.slot(place, later);
            self.put(place, later - 1, next);
            if next == 0 {
                return;
            }
        }
        self.put(place, ROOM - 1, 0);
    }

    fn put(&mut self, place: usize, slot: usize, number: u32)
        requires place { place < 64 }
        requires slot { slot < 15 }
        requires shape { IsShaped self.old }
        ensures value { IsPut place slot number self.old self.new }
    {
        if slot == 0 {
            self.first[place] = number;
        } else {
            self.rest[slot - 1][place] = number;
        }
        self.awake = true;
    }
}

/// Nobody leaves. A row that stands there is written over only if there is one: it is 256 bytes long.
fn forget(leavers: &mut Option<Row>)
    ensures value { leavers.new ≡ None }
{
    if leavers.is_some() {
        *leavers = None;
    }
}
