//! What is offered: who offers a message in which petit cycle, and to whom.

ghost use Rattle.std.specs.Prelude.{◌≡◌, ◌+◌, ◌-◌, ◌*◌, ◌/◌, ◌%◌, ◌<◌, ◌≤◌, ◌^◌};
ghost use Rattle.std.specs.Int.{w32, reverse_bits};
ghost use Rattle.lab_fresh.specs.Draws.{draw_of};
ghost use Rattle.lab_load.specs.Offers.{places, draw_number, offers, background_number, pattern_for, aimed, target_of};

use lab_fresh::draw;

/// Of so many draws a processor that offers most offers at each.
const ALL: u64 = 1600;

/// To whom messages go.
#[derive(Clone, Copy, Debug, PartialEq, Eq)]
pub enum Pattern {
    /// To any processor: it is drawn.
    Uniform,
    /// The upper half of the bits of a place's number and the lower one change places.
    Transpose,
    /// Its bits come in reverse.
    Reversal,
    /// To the processor of the same number on chip 0.
    HotSpot,
    /// By the load's own targets.
    Own,
}

/// What is offered to a machine.
#[derive(Drop)]
pub struct Load {
    /// Of how many dimensions its cube is.
    pub dims: u8,
    pub pattern: Pattern,
    /// Of a hundred messages so many go to a place that is drawn, whatever the pattern.
    pub background: u16,
    /// Hundredths of a message that the processors of a chip offer in a petit cycle: at 1600 each offers one.
    pub rate: u16,
    /// In so many first petit cycles something is offered, and in none behind them.
    pub until: u32,
    pub seed: u64,
    /// By place, the place to which its messages go, where the pattern is these; place 0 behind the last of them.
    pub targets: Vec<u64>,
}

impl Load {
    /// How many processors there are.
    pub fn places(&self) -> u32
        requires dimension { self.now.dims ≤ 12 }
        ensures value { result ≡ places self.now.dims }
        ensures within { result ≤ 65536 }
    {
        16 << self.dims
    }

    /// Whether the processor of a place offers a message in petit cycle t.
    #[tactic(auto, unfolding(crate::specs::Offers::offers))]
    pub fn offers(&self, t: u32, place: u32) -> bool
        requires place { place < 65536 }
        ensures value { result ≡ offers self.now t place }
    {
        t < self.until && draw(self.seed, draw_number(t, place)) % ALL < u64::from(self.rate)
    }

    /// The place to which a message goes that this place offers in petit cycle t.
    #[tactic(auto, unfolding(crate::specs::Offers::target_of))]
    pub fn target(&self, t: u32, place: u32) -> u32
        requires dimension { self.now.dims ≤ 12 }
        requires place { place < 65536 }
        ensures value { result ≡ target_of self.now t place }
        ensures few { result < 65536 }
    {
        (self.aimed(t, place) % u64::from(self.places())) as u32
    }

    fn aimed(&self, t: u32, place: u32) -> u64
        requires dimension { self.now.dims ≤ 12 }
        requires place { place < 65536 }
        ensures value { result ≡ aimed (pattern_for self.now t place) self.now.targets.items self.now.dims
            (draw_of self.now.seed (draw_number t place + 1)) place }
    {
        match self.pattern_for(t, place) {
            Pattern::Uniform => draw(self.seed, draw_number(t, place) + 1),
            Pattern::Transpose => u64::from(transposed(self.dims, place)),
            Pattern::Reversal => u64::from(reversed(self.dims, place)),
            Pattern::HotSpot => u64::from(place % 16),
            Pattern::Own => self.targets.get(place as usize).copied().unwrap_or(0),
        }
    }

    /// The pattern by which a message goes that this place offers in petit cycle t.
    fn pattern_for(&self, t: u32, place: u32) -> Pattern
        requires place { place < 65536 }
        ensures value { result ≡ pattern_for self.now t place }
    {
        if draw(self.seed, background_number(t, place)) % 100 < u64::from(self.background) {
            Pattern::Uniform
        } else {
            self.pattern
        }
    }
}

/// The number of the draw by which a place offers in petit cycle t.
fn draw_number(t: u32, place: u32) -> u64
    requires place { place < 65536 }
    ensures value { result ≡ draw_number t place }
    ensures early { result < 2 ^ 62 }
{
    2 * (u64::from(t) * 65536 + u64::from(place))
}

/// The number of the draw by which an offer of petit cycle t goes by the pattern or to a place that is drawn.
fn background_number(t: u32, place: u32) -> u64
    requires place { place < 65536 }
    ensures value { result ≡ background_number t place }
    ensures early { result < 2 ^ 62 }
{
    (1 << 61) + (u64::from(t) * 65536 + u64::from(place))
}

/// The two halves of a place's number change places.
fn transposed(n: u8, place: u32) -> u32
    requires dimension { n ≤ 12 }
    requires place { place < 65536 }
    ensures value { result ≡ place / 2 ^ ((n + 4) / 2) + place * 2 ^ (n + 4 - (n + 4) / 2) }
{
    let low = (n + 4) / 2;
    let high = n + 4 - low;
    (place >> low) + (place << high)
}

/// The bits of a place's number in reverse.
fn reversed(n: u8, place: u32) -> u32
    requires dimension { n ≤ 12 }
    ensures value { result ≡ reverse_bits w32 place / 2 ^ (28 - n) }
{
    place.reverse_bits() >> (28 - n)
}
