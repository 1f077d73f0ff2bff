//! Whose messages a chip takes in.

ghost use Rattle.std.specs.Prelude.{◌≡◌, ℕ, ◌-◌, ◌<◌, ◌≤◌, ◌==◌, ◌||◌, List, [], ◌∷◌, None, IfSome, length};
ghost use Rattle.cm_bits.specs.Bit.{bit};
ghost use Rattle.cm_model.specs.Processor.{Processor, SEND, flag};
ghost use Rattle.cm_model.specs.Chip.{IsPlane, processor_at};
ghost use Rattle.cm_model.specs.Letters.{senders_taken};

use cm_bits::{Plane, Proc};
use std::marker::Model;

/// Most messages that a chip takes in during one petit cycle (Hillis 1985).
pub const MOST_INJECTED: usize = 4;

/// The processors of a chip whose messages are still to be taken in.
///
/// Contracts see the list of them, by number.
#[derive(Drop)]
pub struct Senders {
    /// Who asks to send and was not gone through.
    asking: Plane,
    /// How many messages may still be taken in.
    left: usize,
}

impl Model for Senders {
    ghost use Rattle.std.specs.Prelude.{ℕ, List, take};
    ghost use Rattle.std.specs.List.{filter, range_with_len};
    ghost use Rattle.cm_bits.specs.Bit.{bit};

    ghost Value = { List ℕ };

    ghost view = { λ senders. take senders.left (filter (bit senders.asking) (range_with_len 0 16)) };
}

impl Senders {
    /// The first of those that ask to send: at most four, and at most as many as there is room for.
    #[tactic(auto, using(crate::proofs::Taking::first_asking))]
    pub fn first(asking: Plane, room: usize) -> Senders
        ensures value { (chip : List Processor) → IsPlane asking (λ p. flag (processor_at chip p) SEND)
            → (cap standing : ℕ) → cap - standing ≡ room → result ≡ senders_taken cap standing chip }
        ensures few { length result ≤ 4 }
        ensures within { length result ≤ room }
    {
        Senders {
            asking,
            left: MOST_INJECTED.min(room),
        }
    }

    /// The next of them, who is gone through then.
    pub fn next(&mut self) -> Option<Proc>
        ensures none { result ≡ None → self.old ≡ [] }
        ensures some { IfSome result (λ proc. self.old ≡ proc ∷ self.new) }
    {
        if self.asking == 0 || self.left == 0 {
            return None;
        }
        let number = self.asking.trailing_zeros() as u8;
        self.asking &= !(1 << number);
        self.left -= 1;
        Proc::new(number)
    }
}

/// The plane with a 1 for one processor more.
#[tactic(auto, using(crate::proofs::Taking::one_more))]
pub fn with_one(plane: Plane, proc: Proc) -> Plane
    ensures value { (p : ℕ) → p < 16 → bit result p ≡ (bit plane p || (proc == p)) }
{
    plane | 1 << proc.get()
}
