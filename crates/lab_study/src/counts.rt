//! What a petit cycle does to the messages of a machine, in numbers.

ghost use Rattle.std.specs.Prelude.{◌≡◌, ◌+◌, ◌≤◌, ◌^◌};
ghost use Rattle.lab_study.specs.Adding.{no_counts, added, AreCountsWithin};

/// What a petit cycle did, and what it left: numbers of all chips, or of one.
#[derive(Clone, Copy, Debug, PartialEq, Eq)]
pub struct Counts {
    /// Messages that were taken in.
    pub taken: u128,
    /// Messages that were delivered.
    pub delivered: u128,
    /// How often messages that stand in routers then were referred.
    pub referred: u128,
    /// Messages that stand in routers then.
    pub standing: u128,
    /// Routers that have no room for another then.
    pub full: u128,
    /// Processors that ask to send then.
    pub asking: u128,
}

impl Counts {
    pub(crate) const NONE: Counts = Counts {
        taken: 0,
        delivered: 0,
        referred: 0,
        standing: 0,
        full: 0,
        asking: 0,
    };

    /// These and others.
    pub(crate) fn plus(self, more: Counts) -> Counts
        requires within { AreCountsWithin (2 ^ 126) self }
        requires more { AreCountsWithin (2 ^ 126) more }
        ensures value { result ≡ added self more }
    {
        Counts {
            taken: self.taken + more.taken,
            delivered: self.delivered + more.delivered,
            referred: self.referred + more.referred,
            standing: self.standing + more.standing,
            full: self.full + more.full,
            asking: self.asking + more.asking,
        }
    }
}
