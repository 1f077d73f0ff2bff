//! What a chip has told, to be read.

ghost use Rattle.std.specs.Prelude.{◌≡◌, ◌≤◌, ◌++◌, ◌==◌, IfSome, OnErr, OnOk, length, take};
ghost use Rattle.cm_router.specs.Rows.{events_of_chip};

use crate::row::{push_told, teller, tells_of};
use cm_bits::NoMemory;
use cm_message::Event;
use std::marker::Model;

/// The log of a chip: what was dealt out to it, and behind that what a row tells of the chip, which has not been
/// dealt out yet.
///
/// Contracts see its events, the oldest first.
#[derive(Drop)]
pub struct Log<'a> {
    chip: u16,
    dealt: &'a [Event],
    row: &'a [Event],
}

impl<'a> Model for Log<'a> {
    ghost use Rattle.std.specs.Prelude.{List, ◌++◌};
    ghost use Rattle.cm_model.specs.declared.message.Event.{Event as Told};
    ghost use Rattle.cm_router.specs.Rows.{events_of_chip};

    ghost Value = { List Told };

    ghost view = { λ log. log.dealt.now ++ events_of_chip log.chip log.row.now };
}

impl<'a> Log<'a> {
    /// The log of this chip.
    pub(crate) fn of(chip: u16, dealt: &'a [Event], row: &'a [Event]) -> Log<'a>
        ensures value { result ≡ dealt.now ++ events_of_chip chip row.now }
    {
        Log { chip, dealt, row }
    }

    /// How many events it has.
    pub fn len(&self) -> usize
        ensures value { result ≡ length self.now }
    {
        self.dealt.len() + count_told(self.row, self.chip)
    }

    /// Whether it has none.
    pub fn is_empty(&self) -> bool
        ensures value { result ≡ (length self.now == 0) }
    {
        self.dealt.is_empty() && !tells_of(self.row, self.chip)
    }

    /// Its events in one piece, where they lie so: where the row tells nothing of the chip.
    pub fn whole(&self) -> Option<&'a [Event]>
        ensures value { IfSome result (λ events. events.now ≡ self.now) }
    {
        if tells_of(self.row, self.chip) {
            None
        } else {
            Some(self.dealt)
        }
    }

    /// Puts its events behind others, which stay where memory is refused, perhaps with some of its own behind them.
    pub fn push_onto(&self, to: &mut Vec<Event>) -> Result<(), NoMemory>
        ensures ok { OnOk result (to.new.items ≡ to.old.items ++ self.now) }
        ensures err { OnErr result (take (length to.old.items) to.new.items ≡ to.old.items) }
    {
        to.extend_from_slice(self.dealt)?;
        push_told(to, self.chip, self.row)
    }
}

/// How many events a row tells of a chip.
fn count_told(row: &[Event], chip: u16) -> usize
    ensures value { result ≡ length (events_of_chip chip row.now) }
    ensures within { result ≤ length row.now }
{
    row.iter().filter(|event| teller(event) == chip).count()
}
