//! What is known of the way of one message.

ghost use Rattle.std.specs.Prelude.{◌≡◌, ◌≤◌, count_ones};
ghost use Rattle.lab_study.specs.Traces.{set_out, referrals, trace_after};

use cm_model::{Message, Tag};

/// What is known of the way of a message up to a petit cycle.
#[derive(Clone, Copy, Debug, PartialEq, Eq)]
pub struct Trace {
    pub tag: Tag,
    /// Its relative address then.
    pub rel: u16,
    /// How many dimensions it had crossed.
    pub crossed: u64,
    /// How often it had been referred.
    pub referred: u64,
}

impl Trace {
    /// Of a message that stands at a chip and was not seen before.
    pub(crate) fn set_out(chip: u16, message: &Message) -> Trace
        ensures value { result ≡ set_out chip message.now }
    {
        Trace {
            tag: message.tag,
            rel: message.tag.chip ^ chip ^ message.rel,
            crossed: 0,
            referred: 0,
        }
    }

    /// One petit cycle on, where the message is this now.
    pub(crate) fn followed(self, message: &Message) -> Trace
        ensures value { result ≡ trace_after self message.now }
    {
        let (before, now) = (self.rel, message.rel);
        let crossed = self.crossed;
        let referred = self.referred;
        Trace {
            tag: message.tag,
            rel: now,
            crossed: crossed.saturating_add(ones(before ^ now)),
            referred: referred.saturating_add(ones((before ^ now) & now)),
        }
    }

    /// How often it was referred since.
    pub(crate) fn referrals(self, message: &Message) -> u64
        ensures value { result ≡ referrals self message.now }
        ensures within { result ≤ 16 }
    {
        let (before, now) = (self.rel, message.rel);
        ones((before ^ now) & now)
    }
}

/// How many bits of a relative address are 1.
fn ones(rel: u16) -> u64
    ensures value { result ≡ count_ones rel }
    ensures within { result ≤ 16 }
{
    u64::from(rel.count_ones())
}
