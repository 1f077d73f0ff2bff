//! A dimension as the machine routes: where no wire over it is cut all chips at once, by the rule that who came first
//! goes first, and by the other where the row stands in the order of age; else chip by chip.

ghost use Rattle.std.specs.Prelude.{◌≡◌, ℕ, ◌+◌, ◌%◌, ◌^◌, ◌<◌, ◌≤◌, ◌++◌, ◌⊎◌, None, length, bit_xor, false, IsTrue};
ghost use Rattle.std.specs.Prelude.{slice_index_or};
ghost use Rattle.std.specs.List.{All};
ghost use Rattle.std.specs.Option.{option_to_list};
ghost use Rattle.cm_model.specs.declared.rule.Rule.TheVariants.{Oldest};
ghost use Rattle.cm_model.specs.Each.{tabulate};
ghost use Rattle.cm_model.specs.Array.{each_chip, nth_or_nil};
ghost use Rattle.cm_model.specs.Wiring.{way_of};
ghost use Rattle.cm_router.specs.Routes.{routing_of};
ghost use Rattle.cm_router_engine.specs.Standing.{HaveMessages, HasMessage, IsWritten, AreByAge};
ghost use Rattle.cm_router_engine.specs.Routed.{ticket_leaving, tickets_staying, tickets_crossed};

use crate::choosing::place_of_chosen;
use cm_message::{Message, Rule};
use cm_router::Routing;
use cm_slots::{Shape, Ticket, TicketQueues};

/// The tickets of a run of chips cross a dimension that these span: all leave before any comes. The run begins at
/// chip `first` of the machine. It may be known that the row stands in the order of age.
pub(crate) fn cross(
    row: &[Message],
    in_order: bool,
    slots: &mut TicketQueues,
    sizes: Shape,
    span: u8,
    routing: &Routing,
    first: u16,
    dim: u8,
    leavers: &mut [Option<Ticket>],
)
    requires cube { routing.now.cuts.dims ≡ sizes.dims }
    requires span { span ≤ sizes.dims }
    requires dim { dim < span }
    requires count { length slots.old ≡ 2 ^ span }
    requires rows { length leavers.old ≡ length slots.old }
    requires begins { first % 2 ^ span ≡ 0 }
    requires band { first + 2 ^ span ≤ 2 ^ sizes.dims }
    requires few { length row.now ≤ 65535 }
    requires in_order { IsTrue in_order → AreByAge row.now (length row.now) }
    requires kept { All (HaveMessages (length row.now)) slots.old }
    requires within { All (λ ts. length ts ≤ sizes.room) slots.old }
    ensures value { slots.new ≡ each_chip span (λ c. tickets_crossed row.now
        (way_of (routing_of routing.now) (first + c) dim) sizes.room dim
        (nth_or_nil slots.old c) (nth_or_nil slots.old (bit_xor c (2 ^ dim)))) }
{
    if routing.is_plain_over(dim) {
        slots.cross(span, sizes, dim);
    } else if in_order && goes_by_age(routing, dim) {
        slots.cross_by_number(span, sizes, dim);
    } else {
        cross_by_chip(row, slots, sizes, span, routing, first, dim, leavers);
    }
}

/// Whether no wire over a dimension is cut, and the oldest goes first.
fn goes_by_age(routing: &Routing, dim: u8) -> bool
    requires dimension { dim < routing.now.cuts.dims }
    ensures oldest { IsTrue result → (c : ℕ)
        → way_of (routing_of routing.now) c dim ≡ record { cut = false; rule = Oldest } }
{
    routing.rule == Rule::Oldest && routing.is_whole_over(dim)
}

/// The first half by itself: who leaves each chip is taken out, and written down as it arrives across.
pub(crate) fn leave(
    row: &[Message],
    slots: &mut TicketQueues,
    sizes: Shape,
    routing: &Routing,
    first: u16,
    dim: u8,
    leavers: &mut [Option<Ticket>],
)
    requires cube { routing.now.cuts.dims ≡ sizes.dims }
    requires dim { dim < sizes.dims }
    requires rows { length leavers.old ≡ length slots.old }
    requires band { first + length slots.old ≤ 2 ^ sizes.dims }
    requires kept { All (HaveMessages (length row.now)) slots.old }
    requires within { All (λ ts. length ts ≤ sizes.room) slots.old }
    ensures value { slots.new ≡ tabulate 0 (length slots.old) (λ c. tickets_staying row.now
        (way_of (routing_of routing.now) (first + c) dim) sizes.room dim (nth_or_nil slots.old c)) }
    ensures going { leavers.new ≡ tabulate 0 (length slots.old) (λ c. ticket_leaving row.now
        (way_of (routing_of routing.now) (first + c) dim) sizes.room dim (nth_or_nil slots.old c)) }
{
    if routing.is_plain_over(dim) {
        slots.leave(sizes, dim, leavers);
    } else {
        leave_by_chip(row, slots, sizes, routing, first, dim, leavers);
    }
}

fn cross_by_chip(
    row: &[Message],
    slots: &mut TicketQueues,
    sizes: Shape,
    span: u8,
    routing: &Routing,
    first: u16,
    dim: u8,
    leavers: &mut [Option<Ticket>],
)
    requires cube { routing.now.cuts.dims ≡ sizes.dims }
    requires span { span ≤ sizes.dims }
    requires dim { dim < span }
    requires count { length slots.old ≡ 2 ^ span }
    requires rows { length leavers.old ≡ length slots.old }
    requires begins { first % 2 ^ span ≡ 0 }
    requires band { first + 2 ^ span ≤ 2 ^ sizes.dims }
    requires few { length row.now ≤ 65535 }
    requires kept { All (HaveMessages (length row.now)) slots.old }
    requires within { All (λ ts. length ts ≤ sizes.room) slots.old }
    ensures value { slots.new ≡ each_chip span (λ c. tickets_crossed row.now
        (way_of (routing_of routing.now) (first + c) dim) sizes.room dim
        (nth_or_nil slots.old c) (nth_or_nil slots.old (bit_xor c (2 ^ dim)))) }
{
    leave_by_chip(row, slots, sizes, routing, first, dim, leavers);
    take_in_by_chip(slots, leavers, dim);
}

fn leave_by_chip(
    row: &[Message],
    slots: &mut TicketQueues,
    sizes: Shape,
    routing: &Routing,
    first: u16,
    dim: u8,
    leavers: &mut [Option<Ticket>],
)
    requires cube { routing.now.cuts.dims ≡ sizes.dims }
    requires dim { dim < sizes.dims }
    requires rows { length leavers.old ≡ length slots.old }
    requires band { first + length slots.old ≤ 2 ^ sizes.dims }
    requires kept { All (HaveMessages (length row.now)) slots.old }
    ensures value { slots.new ≡ tabulate 0 (length slots.old) (λ c. tickets_staying row.now
        (way_of (routing_of routing.now) (first + c) dim) sizes.room dim (nth_or_nil slots.old c)) }
    ensures going { leavers.new ≡ tabulate 0 (length slots.old) (λ c. ticket_leaving row.now
        (way_of (routing_of routing.now) (first + c) dim) sizes.room dim (nth_or_nil slots.old c)) }
{
    for chip in 0..slots.chips() {
        let cut = routing.cuts.has(first + chip as u16, dim);
        leavers[chip] = let_leave(row, slots, chip, sizes, dim, cut, routing.rule);
    }
}

/// Each chip takes in who was written down at the chip across, behind all that stand there.
fn take_in_by_chip(slots: &mut TicketQueues, leavers: &[Option<Ticket>], dim: u8)
    requires dim { dim < 12 }
    requires rows { length leavers.now ≡ length slots.old }
    requires across { (c : ℕ) → c < length slots.old → bit_xor c (2 ^ dim) < length slots.old }
    requires numbers { All (HasMessage 65535) leavers.now }
    requires space { (c : ℕ) → c < length slots.old
        → (slice_index_or leavers.now (bit_xor c (2 ^ dim)) None ≡ None) ⊎ (length (nth_or_nil slots.old c) < 15) }
    ensures value { slots.new ≡ tabulate 0 (length slots.old) (λ c. nth_or_nil slots.old c
        ++ option_to_list (slice_index_or leavers.now (bit_xor c (2 ^ dim)) None)) }
{
    for chip in 0..leavers.len() {
        if let Some(ticket) = leavers[chip ^ 1 << dim] {
            slots.arrive(chip, ticket);
        }
    }
}

/// Takes out who leaves a chip, if anyone does, as it arrives across.
#[tactic(auto, unfolding(cm_model::specs::Buffers::leaving_place))]
fn let_leave(
    row: &[Message],
    slots: &mut TicketQueues,
    chip: usize,
    sizes: Shape,
    dim: u8,
    cut: bool,
    rule: Rule,
) -> Option<Ticket>
    requires chip { chip < length slots.old }
    requires dim { dim < 12 }
    requires kept { HaveMessages (length row.now) (nth_or_nil slots.old chip) }
    ensures value { nth_or_nil slots.new chip
        ≡ tickets_staying row.now (record { cut = cut; rule = rule }) sizes.room dim (nth_or_nil slots.old chip) }
    ensures going { result
        ≡ ticket_leaving row.now (record { cut = cut; rule = rule }) sizes.room dim (nth_or_nil slots.old chip) }
    ensures others { IsWritten chip slots.old slots.new }
{
    if cut {
        return None;
    }
    let place = place_of_chosen(row, slots, chip, sizes, dim, rule)?;
    let ticket = slots.ticket(chip, place).unwrap();
    slots.remove(chip, place);
    Some(Ticket {
        rel: ticket.rel ^ 1 << dim,
        ..ticket
    })
}
