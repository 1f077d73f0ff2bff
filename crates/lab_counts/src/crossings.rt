//! What a petit cycle does in each dimension.

ghost use Rattle.std.specs.Prelude.{◌≡◌, ℕ, ◌^◌, ◌<◌, ◌≤◌, List, length, map};
ghost use Rattle.std.specs.List.{All, count_by, range_with_len};
ghost use Rattle.cm_model.specs.declared.message.Event.{Event as Told};
ghost use Rattle.cm_model.specs.Array.{Chips};
ghost use Rattle.cm_model.specs.Router.{has_to_cross};
ghost use Rattle.cm_model.specs.Steps.{Cross};
ghost use Rattle.cm_model.specs.Machine.{Machine};
ghost use Rattle.cm_model.specs.Buffers.{machine_after_injection, after_steps};
ghost use Rattle.cm_router.specs.Routes.{routing_of};
ghost use Rattle.cm_petit.specs.Routers.{machine_from};
ghost use Rattle.lab_counts.specs.Crossings.{crossings_added, in_all, was_referred, crossings_at, crossings_to};
ghost use Rattle.lab_counts.specs.Crossings.{crossings_through, with_crossings};
ghost use Rattle.lab_counts.specs.Chips.{chips_to, chips_through};

use cm_message::{Message, Rule};
use cm_router::{Node, Routing};
use cm_router_engine::{RouterEngine, Shape};

/// What messages did in a dimension.
#[derive(Clone, Copy, Debug, PartialEq, Eq)]
pub struct Crossings {
    /// How often one crossed it.
    pub crossed: u64,
    /// How often one did that had not to.
    pub referred: u64,
    /// How often one had to cross it, and stayed.
    pub refused: u64,
}

impl Crossings {
    /// None.
    pub(crate) const NONE: Crossings = Crossings {
        crossed: 0,
        referred: 0,
        refused: 0,
    };

    /// Those of both.
    fn added(self, more: Crossings) -> Crossings
        ensures value { result ≡ crossings_added self more }
    {
        Crossings {
            crossed: self.crossed.saturating_add(more.crossed),
            referred: self.referred.saturating_add(more.referred),
            refused: self.refused.saturating_add(more.refused),
        }
    }
}

/// Those of all dimensions, or of all chips.
pub fn in_all(known: &[Crossings]) -> Crossings
    ensures value { result ≡ in_all known.now }
{
    let mut all = Crossings::NONE;
    for more in known {
        all = all.added(*more);
    }
    all
}

/// Messages of a whole machine cross each dimension, from the lowest on. The crossings are counted by dimension, and at
/// each of the first chips that `by_chip` has.
pub(crate) fn cross_and_count(
    sizes: Shape,
    routing: &Routing,
    crossing: &mut RouterEngine,
    dims: &mut [Crossings; 12],
    by_chip: &mut [Crossings],
)
    requires cube { routing.now.cuts.dims ≡ sizes.dims }
    requires count { length crossing.old.buffers ≡ 2 ^ sizes.dims }
    requires within { All (λ ms. length ms ≤ sizes.room) crossing.old.buffers }
    ensures value { (chips : Chips) (logs : List (List Told)) (clock : ℕ)
        → machine_from (routing_of routing.now) chips crossing.new.buffers logs clock
        ≡ after_steps sizes.dims sizes.room
        (machine_from (routing_of routing.now) chips crossing.old.buffers logs clock)
        (map Cross (range_with_len 0 sizes.dims)) }
    ensures count { length crossing.new.buffers ≡ 2 ^ sizes.dims }
    ensures within { All (λ ms. length ms ≤ sizes.room) crossing.new.buffers }
    ensures crossings { (m : Machine) → routing_of routing.now ≡ m.routing
        → crossing.old.buffers ≡ (machine_after_injection sizes.dims sizes.room m).buffers
        → dims.new ≡ crossings_through sizes.dims sizes.room m dims.old sizes.dims }
    ensures chips { (m : Machine) → routing_of routing.now ≡ m.routing
        → crossing.old.buffers ≡ (machine_after_injection sizes.dims sizes.room m).buffers
        → by_chip.new ≡ chips_through sizes.dims sizes.room m by_chip.old sizes.dims }
{
    for dim in 0..sizes.dims {
        let more = crossings_over(sizes, routing, crossing, dim, by_chip);
        let d = usize::from(dim);
        dims[d] = dims[d].added(more);
        crossing.cross(sizes, sizes.dims, routing, 0, dim);
    }
}

/// Those of all chips in a dimension, before it is crossed, together and by chip.
fn crossings_over(
    sizes: Shape,
    routing: &Routing,
    crossing: &mut RouterEngine,
    dim: u8,
    by_chip: &mut [Crossings],
) -> Crossings
    requires cube { routing.now.cuts.dims ≡ sizes.dims }
    requires dim { dim < sizes.dims }
    requires count { length crossing.old.buffers ≡ 2 ^ sizes.dims }
    requires within { All (λ here. length here ≤ sizes.room) crossing.old.buffers }
    ensures value { result
        ≡ crossings_to (routing_of routing.now) sizes.room dim crossing.old.buffers (2 ^ sizes.dims) }
    ensures chips { by_chip.new
        ≡ chips_to (routing_of routing.now) sizes.room dim crossing.old.buffers by_chip.old (2 ^ sizes.dims) }
    ensures same { crossing.new.buffers ≡ crossing.old.buffers }
{
    crossing.gather();
    let chips = crossing.chips() as u16;
    let mut all = Crossings::NONE;
    for chip in 0..chips {
        let at = usize::from(chip);
        let cut = routing.cuts.has(chip, dim);
        let here = crossing.buffer(at);
        let more = crossings_at(sizes.room, cut, routing.rule, here, dim);
        all = all.added(more);
        add_at(by_chip, at, more);
    }
    all
}

/// More of a chip, if it is one that is counted.
#[tactic(auto, using(std::proofs::lemmas::List::set_past))]
fn add_at(by_chip: &mut [Crossings], chip: usize, more: Crossings)
    ensures value { by_chip.new ≡ with_crossings by_chip.old chip more }
{
    if chip < by_chip.len() {
        by_chip[chip] = by_chip[chip].added(more);
    }
}

/// What happens at one chip in a dimension: its messages are put into a node of their own, which lets one leave by the
/// rule. The machine is not changed.
fn crossings_at(room: u8, cut: bool, rule: Rule, here: &[Message], dim: u8) -> Crossings
    requires some { 0 < room }
    requires most { room ≤ 15 }
    requires dim { dim < 12 }
    requires within { length here.now ≤ room }
    ensures value { result ≡ crossings_at (record { cut = cut; rule = rule }) room dim here.now }
{
    let mut node = Node::new(room);
    for message in here {
        node.arrive(*message);
    }
    let leaver = node.leave(dim, cut, rule);
    Crossings {
        crossed: u64::from(leaver.is_some()),
        referred: u64::from(is_referral(dim, leaver)),
        refused: wanting(dim, node.messages()),
    }
}

/// Whether a message that crossed a dimension had not to.
fn is_referral(dim: u8, leaver: Option<Message>) -> bool
    requires dim { dim < 12 }
    ensures value { result ≡ was_referred dim leaver }
{
    match leaver {
        Some(message) => has_to_cross(dim, &message),
        None => false,
    }
}

/// How many messages have to cross a dimension.
fn wanting(dim: u8, here: &[Message]) -> u64
    requires dim { dim < 12 }
    ensures value { result ≡ count_by (has_to_cross dim) here.now }
{
    here.iter()
        .filter(|message| has_to_cross(dim, message))
        .count() as u64
}

/// Whether a message has to cross a dimension.
fn has_to_cross(dim: u8, message: &Message) -> bool
    requires dim { dim < 12 }
    ensures value { result ≡ has_to_cross dim message.now }
{
    message.rel >> dim & 1 == 1
}
