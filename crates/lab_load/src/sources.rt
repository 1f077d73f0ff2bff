//! What one processor has offered, and what of it waits.

ghost use Rattle.std.specs.Prelude.{◌≡◌, ◌+◌, ◌<◌, ◌≤◌, ◌^◌, IfSome};
ghost use Rattle.lab_load.specs.Asking.{with_offer, first_offer, next_offer, source_asked};

use crate::offers::Load;

/// The offers of one processor. It need not keep them, since they can be drawn again.
#[derive(Clone, Copy, Debug, PartialEq, Eq)]
pub struct Source {
    /// From this petit cycle on its offers wait.
    pub next: u32,
    /// How many wait.
    pub waiting: u32,
}

impl Source {
    /// Nothing was offered.
    pub(crate) const NONE: Source = Source {
        next: 0,
        waiting: 0,
    };

    /// One offer more waits, if there is one.
    pub(crate) fn with_offer(self, offered: bool) -> Source
        ensures value { result ≡ with_offer offered self }
    {
        let more = if offered { 1 } else { 0 };
        Source {
            next: self.next,
            waiting: self.waiting.saturating_add(more),
        }
    }

    /// The petit cycle of the earliest offer of a place that waits in petit cycle t, if any does.
    #[tactic(auto, unfolding(crate::specs::Asking::next_offer))]
    pub(crate) fn next_offer(self, load: &Load, t: u32, place: u32) -> Option<u32>
        requires place { place < 65536 }
        requires early { t < 2 ^ 31 }
        ensures value { result ≡ next_offer load.now t place self }
        ensures early { IfSome result (λ s. s < 2 ^ 31) }
    {
        if self.waiting == 0 {
            return None;
        }
        self.first_offer(load, t, place)
    }

    /// The first petit cycle up to petit cycle t in which a place makes an offer that may wait.
    fn first_offer(self, load: &Load, t: u32, place: u32) -> Option<u32>
        requires place { place < 65536 }
        requires early { t < 2 ^ 31 }
        ensures value { result ≡ first_offer load.now t place self.next }
        ensures early { IfSome result (λ s. s < 2 ^ 31) }
    {
        for s in self.next..t + 1 {
            if load.offers(s, place) {
                return Some(s);
            }
        }
        None
    }

    /// After the processor has asked for its offer of a petit cycle.
    pub(crate) fn asked(self, offer: Option<u32>) -> Source
        requires early { IfSome offer (λ s. s < 2 ^ 31) }
        ensures value { result ≡ source_asked offer self }
    {
        match offer {
            None => self,
            Some(s) => Source {
                next: s + 1,
                waiting: self.waiting.saturating_sub(1),
            },
        }
    }
}
