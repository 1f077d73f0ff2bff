//! The queues of a run of chips.

ghost use Rattle.std.specs.Prelude.{◌≡◌, ◌↔◌, ℕ, ◌^◌, ◌<◌, ◌≤◌, ◌++◌, [], ◌∷◌, IfOk, IfSome};
ghost use Rattle.std.specs.Prelude.{IsTrue, bit_xor, length, true, false};
ghost use Rattle.std.specs.Prelude.{map, remove, slice_set};
ghost use Rattle.std.specs.List.{All, list_any, slice_get};
ghost use Rattle.cm_model.specs.Each.{tabulate};
ghost use Rattle.cm_model.specs.Array.{each_chip, nth_or_nil};
ghost use Rattle.cm_slots.specs.Queues.{stayers_of};
ghost use Rattle.cm_slots.specs.Tickets.{has_to_go, has_come, ticket_going, queue_exchanged};
ghost use Rattle.cm_slots.specs.Choice.{exchanged_by, exchanged_by_number};
ghost use Rattle.cm_slots.specs.Moves.{ticket_over, queues_over};
ghost use Rattle.cm_slots.specs.Arrivals.{AreArrivals};

use crate::arrivals::Arrivals;
use crate::departing::{take_out, write_down};
use crate::moving::{have_arrival_over, settle};
use crate::order::Order;
use crate::passes::cross;
use crate::rows::{Row, WIDTH};
use crate::shape::Shape;
use crate::ticket::{Ticket, slot_with};
use crate::tile::Tile;
use crate::tiles::{copied_tiles, empty_all, make_tiles, next_arrived, no_leavers, tiles_for};
use cm_bits::NoMemory;
use std::alloc::Global;
use std::marker::Model;

/// The tickets of a run of chips, slot by slot: 64 chips that stand side by side make a tile, in which a
/// step does the same at each of them. Behind the last chip the last tile may have places that are never
/// read as chips. The tiles are made when the first ticket arrives, in memory that is reserved from the first on.
///
/// Where there is room for one at each chip, whoever stands there leaves it in every dimension: such dimensions
/// are noted, and the tickets move over all of them at once when one is to be changed.
#[derive(Drop)]
pub struct TicketQueues {
    /// How many chips there are.
    chips: usize,
    /// Chip c stands at place c % 64 of tile c / 64. There are none as long as nobody has stood anywhere. Each ticket
    /// stands where it stood before it crossed what is noted.
    tiles: Vec<Tile>,
    /// While tickets are taken out of all tiles, who leaves each tile that is made; else anything.
    leaving: Vec<Option<Row>>,
    /// Bit d is set where all have crossed dimension d and have not been moved.
    noted: u16,
}

impl Model for TicketQueues {
    ghost use Rattle.std.specs.Prelude.{List};
    ghost use Rattle.cm_slots.specs.declared.ticket.Ticket.{Ticket};
    ghost use Rattle.cm_slots.specs.Runs.{queues_in};
    ghost use Rattle.cm_slots.specs.Moves.{queues_over, AreQueues};

    ghost Value = { List (List Ticket) };

    ghost view = { λ slots. queues_over slots.noted (queues_in slots.chips slots.tiles.items) };

    ghost invariant = { λ slots. AreQueues slots.noted slots.chips slots.tiles slots.leaving };
}

#[tactic(auto, using(crate::proofs::Queues::seen))]
impl TicketQueues {
    /// Slots for so many chips, at which no ticket stands.
    pub fn new(alloc: Global, chips: usize) -> Result<TicketQueues, NoMemory>
        requires few { chips ≤ 4096 }
        ensures value { IfOk result (λ slots. slots ≡ tabulate 0 chips (λ c. [])) }
    {
        let count = tiles_for(chips);
        let tiles = Vec::with_capacity(alloc, count)?;
        let leaving = Vec::with_capacity(alloc, count)?;
        Ok(TicketQueues {
            chips,
            tiles,
            leaving,
            noted: 0,
        })
    }

    /// A second one, with the tickets of this one.
    pub fn copy(&self, alloc: Global) -> Result<TicketQueues, NoMemory>
        ensures value { IfOk result (λ slots. slots ≡ self.now) }
    {
        let count = tiles_for(self.chips);
        let tiles = copied_tiles(alloc, &self.tiles, count)?;
        let leaving = no_leavers(alloc, self.tiles.len(), count)?;
        Ok(TicketQueues {
            chips: self.chips,
            tiles,
            leaving,
            noted: self.noted,
        })
    }

    /// How many chips there are.
    pub fn chips(&self) -> usize
        ensures value { result ≡ length self.now }
        ensures few { result ≤ 4096 }
    {
        self.chips
    }

    /// How many tickets stand at a chip.
    pub fn len(&self, chip: usize) -> usize
        requires chip { chip < length self.now }
        ensures value { result ≡ length (nth_or_nil self.now chip) }
        ensures most { result ≤ 15 }
    {
        if self.tiles.is_empty() {
            return 0;
        }
        let stood_at = chip ^ usize::from(self.noted);
        self.tiles[stood_at / WIDTH].len(stood_at % WIDTH)
    }

    /// The ticket at a place of a chip, if one stands there; at place 0 the first that came.
    pub fn ticket(&self, chip: usize, place: usize) -> Option<Ticket>
        requires chip { chip < length self.now }
        ensures value { result ≡ slice_get (nth_or_nil self.now chip) place }
        ensures most { IfSome result (λ t. place < 15) }
    {
        if self.tiles.is_empty() {
            return None;
        }
        let stood_at = chip ^ usize::from(self.noted);
        match self.tiles[stood_at / WIDTH].ticket(stood_at % WIDTH, place) {
            Some(ticket) => Some(over(ticket, self.noted)),
            None => None,
        }
    }

    /// Whether a ticket stands at a place of a chip.
    pub fn is_taken(&self, chip: usize, place: usize) -> bool
        requires chip { chip < length self.now }
        requires place { place < 15 }
        ensures taken { IsTrue result ↔ place < length (nth_or_nil self.now chip) }
    {
        if self.tiles.is_empty() {
            return false;
        }
        let stood_at = chip ^ usize::from(self.noted);
        self.tiles[stood_at / WIDTH].is_taken(stood_at % WIDTH, place)
    }

    /// Takes in a ticket at a chip, where it stands last.
    pub fn arrive(&mut self, chip: usize, ticket: Ticket)
        requires chip { chip < length self.old }
        requires number { ticket.number < 65535 }
        requires room { length (nth_or_nil self.old chip) < 15 }
        ensures value { self.new ≡ slice_set self.old chip (nth_or_nil self.old chip ++ ticket ∷ []) }
    {
        settle(&mut self.tiles, &mut self.leaving, &mut self.noted);
        make_tiles(&mut self.tiles, &mut self.leaving, self.chips);
        self.tiles[chip / WIDTH].arrive(chip % WIDTH, slot_with(ticket));
    }

    /// Puts a ticket in the place of one of a chip.
    pub fn replace(&mut self, chip: usize, place: usize, ticket: Ticket)
        requires chip { chip < length self.old }
        requires number { ticket.number < 65535 }
        requires place { place < length (nth_or_nil self.old chip) }
        ensures value { self.new ≡ slice_set self.old chip (slice_set (nth_or_nil self.old chip) place ticket) }
    {
        settle(&mut self.tiles, &mut self.leaving, &mut self.noted);
        self.tiles[chip / WIDTH].replace(chip % WIDTH, place, slot_with(ticket));
    }

    /// Takes out the ticket at a place of a chip; the later ones stand one place nearer the front.
    pub fn remove(&mut self, chip: usize, place: usize)
        requires chip { chip < length self.old }
        requires place { place < length (nth_or_nil self.old chip) }
        ensures value { self.new ≡ slice_set self.old chip (remove (nth_or_nil self.old chip) place) }
    {
        settle(&mut self.tiles, &mut self.leaving, &mut self.noted);
        self.tiles[chip / WIDTH].remove(chip % WIDTH, place);
    }

    /// The first chip from this one on at which a ticket stands whose message has arrived; as many as there are, if
    /// there is none. Nowhere stand more tickets than there is room for. What is known of a tile stays true until
    /// a chip changes from this one on.
    pub fn next_arrived(&self, known: &mut Arrivals, from: usize, sizes: Shape) -> usize
        requires from { from ≤ length self.now }
        requires within { All (λ ts. length ts ≤ sizes.room) self.now }
        requires known { AreArrivals known.old from (length self.now)
            (λ c. list_any has_come (nth_or_nil self.now c)) }
        ensures known { AreArrivals known.new from (length self.now)
            (λ c. list_any has_come (nth_or_nil self.now c)) }
        ensures none { (c : ℕ) → from ≤ c → c < result → list_any has_come (nth_or_nil self.now c) ≡ false }
        ensures from { from ≤ result }
        ensures most { result ≤ length self.now }
        ensures arrived { result < length self.now → list_any has_come (nth_or_nil self.now result) ≡ true }
    {
        if self.noted != 0 {
            self.next_that_moved(from)
        } else if self.tiles.is_empty() {
            self.chips
        } else {
            self.chips
                .min(next_arrived(&self.tiles, self.chips, known, from, sizes))
        }
    }

    /// The same chip by chip, where one ticket at most stands at each.
    fn next_that_moved(&self, from: usize) -> usize
        requires from { from ≤ length self.now }
        requires few { All (λ ts. length ts ≤ 1) self.now }
        ensures none { (c : ℕ) → from ≤ c → c < result → list_any has_come (nth_or_nil self.now c) ≡ false }
        ensures from { from ≤ result }
        ensures most { result ≤ length self.now }
        ensures arrived { result < length self.now → list_any has_come (nth_or_nil self.now result) ≡ true }
    {
        if !have_arrival_over(&self.tiles, self.noted) {
            return self.chips;
        }
        for chip in from..self.chips {
            if self.has_arrival(chip) {
                return chip;
            }
        }
        self.chips
    }

    /// Whether the ticket of a chip, of which it has one at most, is that of a message that has arrived.
    fn has_arrival(&self, chip: usize) -> bool
        requires chip { chip < length self.now }
        requires few { length (nth_or_nil self.now chip) ≤ 1 }
        ensures value { result ≡ list_any has_come (nth_or_nil self.now chip) }
    {
        match self.ticket(chip, 0) {
            Some(ticket) => ticket.rel == 0,
            None => false,
        }
    }

    /// Takes out all tickets.
    pub fn clear(&mut self)
        ensures value { self.new ≡ tabulate 0 (length self.old) (λ c. []) }
    {
        empty_all(&mut self.tiles);
        self.noted = 0;
    }

    /// Whether no chip has more tickets than this; with 0, whether none stands anywhere.
    pub fn is_within(&self, room: usize) -> bool
        ensures within { IsTrue result ↔ All (λ ts. length ts ≤ room) self.now }
    {
        for tile in &self.tiles {
            if !tile.is_within(room) {
                return false;
            }
        }
        true
    }

    /// The tickets of chips that span so many dimensions, with room for so many at each, cross one of them: all
    /// leave before any comes.
    pub fn cross(&mut self, span: u8, sizes: Shape, dim: u8)
        requires dimension { span ≤ 12 }
        requires dim { dim < span }
        requires count { length self.old ≡ 2 ^ span }
        requires within { All (λ ts. length ts ≤ sizes.room) self.old }
        ensures value { self.new ≡ each_chip span
            (λ c. queue_exchanged sizes.room dim (nth_or_nil self.old c) (nth_or_nil self.old (bit_xor c (2 ^ dim)))) }
        ensures within { All (λ ts. length ts ≤ sizes.room) self.new }
    {
        self.cross_in(span, sizes, dim, Order::Arrival);
    }

    /// The same, where of those that have to cross the lowest number goes first: at each chip it leaves, or where none
    /// has to and no room is left, the highest.
    pub fn cross_by_number(&mut self, span: u8, sizes: Shape, dim: u8)
        requires dimension { span ≤ 12 }
        requires dim { dim < span }
        requires count { length self.old ≡ 2 ^ span }
        requires within { All (λ ts. length ts ≤ sizes.room) self.old }
        ensures value { self.new ≡ each_chip span (λ c. exchanged_by_number sizes.room dim
            (nth_or_nil self.old c) (nth_or_nil self.old (bit_xor c (2 ^ dim)))) }
        ensures within { All (λ ts. length ts ≤ sizes.room) self.new }
    {
        self.cross_in(span, sizes, dim, Order::Number);
    }

    /// The same in the order of arrival or by number.
    #[inline(always)]
    fn cross_in(&mut self, span: u8, sizes: Shape, dim: u8, order: Order)
        requires dimension { span ≤ 12 }
        requires dim { dim < span }
        requires count { length self.old ≡ 2 ^ span }
        requires within { All (λ ts. length ts ≤ sizes.room) self.old }
        ensures value { self.new ≡ each_chip span (λ c. exchanged_by order sizes.room dim
            (nth_or_nil self.old c) (nth_or_nil self.old (bit_xor c (2 ^ dim)))) }
        ensures within { All (λ ts. length ts ≤ sizes.room) self.new }
    {
        if sizes.room == 1 {
            self.note(span, dim);
        } else {
            settle(&mut self.tiles, &mut self.leaving, &mut self.noted);
            cross(&mut self.tiles, sizes, dim, order);
        }
    }

    /// All tickets, of which one at most stands at each chip, cross a dimension, which is noted.
    fn note(&mut self, span: u8, dim: u8)
        requires dimension { span ≤ 12 }
        requires dim { dim < span }
        requires count { length self.old ≡ 2 ^ span }
        requires few { All (λ ts. length ts ≤ 1) self.old }
        ensures value { self.new ≡ queues_over (2 ^ dim) self.old }
    {
        self.noted ^= 1 << dim;
    }

    /// The first half of a dimension by itself: who leaves each chip is taken out, and written down as it
    /// arrives across.
    pub fn leave(&mut self, sizes: Shape, dim: u8, leavers: &mut [Option<Ticket>])
        requires dim { dim < 12 }
        requires count { length leavers.old ≡ length self.old }
        requires within { All (λ ts. length ts ≤ sizes.room) self.old }
        ensures value { self.new ≡ map (λ ts. stayers_of (has_to_go dim) sizes.room ts) self.old }
        ensures going { leavers.new ≡ map (λ ts. ticket_going sizes.room dim ts) self.old }
        ensures space { All (λ ts. length ts < sizes.room) self.new }
    {
        settle(&mut self.tiles, &mut self.leaving, &mut self.noted);
        take_out(&mut self.tiles, &mut self.leaving, sizes, dim);
        write_down(&self.leaving, leavers);
    }
}

/// A ticket that crosses the dimensions d of which bit d is set.
fn over(ticket: Ticket, dims: u16) -> Ticket
    ensures value { result ≡ ticket_over dims ticket }
{
    Ticket {
        rel: ticket.rel ^ dims,
        ..ticket
    }
}
