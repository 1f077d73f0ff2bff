//! What crosses in the place of a message, and the number that stands for it in a slot.

ghost use Rattle.std.specs.Prelude.{◌≡◌, ◌≢◌, ◌<◌, true};
ghost use Rattle.cm_slots.specs.Slots.{is_taken};
ghost use Rattle.cm_slots.specs.Tickets.{ticket_of, ticket_in, slot_of};

/// Crosses in the place of a message: which dimensions that has still to cross, and where it is kept.
#[derive(Clone, Copy, PartialEq, Eq)]
pub struct Ticket {
    /// The message's relative address by now.
    pub rel: u16,
    /// The number under which the message is kept.
    pub number: u16,
}

/// The ticket that stands at a slot, if one does.
pub(crate) fn ticket_in(slot: u32) -> Option<Ticket>
    requires taken { slot ≢ 0 → is_taken slot ≡ true }
    ensures value { result ≡ ticket_in slot }
{
    if slot == 0 {
        return None;
    }
    Some(Ticket {
        rel: (slot / 65536) as u16,
        number: (slot % 65536 - 1) as u16,
    })
}

/// The slot at which a ticket stands.
pub(crate) fn slot_with(ticket: Ticket) -> u32
    requires number { ticket.number < 65535 }
    ensures value { result ≡ slot_of ticket }
    ensures taken { is_taken result ≡ true }
    ensures back { ticket_of result ≡ ticket }
{
    u32::from(ticket.rel) * 65536 + (u32::from(ticket.number) + 1)
}
