//! Blank machines of any room, with wires cut and by either rule: from numbers to an image.

ghost use Rattle.std.specs.Prelude.{◌≡◌, ◌≢◌, ◌≤◌, ◌<◌, true, None, Ok, Err, IfOk, IfErr};
ghost use Rattle.std.specs.List.{All, find};
ghost use Rattle.cm_model.specs.Keeping.{AreSizes};
ghost use Rattle.cm_model.specs.Wiring.{wire_of};
ghost use Rattle.cm_router.specs.Routes.{routing_of};
ghost use Rattle.cm_image_format.specs.Cuts.{rule_of};
ghost use Rattle.cm_image_format.specs.Whole.{text_of};
ghost use Rattle.lab_fresh.specs.Fresh.{is_end, is_stray, wires_with, fresh_routing, fresh_machine, fresh_of};

use cm_bits::{Edge, NoMemory};
use cm_image_dump::blank_image;
use cm_message::Rule;
use cm_router::{Cuts, Routing};
use std::alloc::Global;
use thiserror::Error;

/// A wire of a cube, named by the chip at either of its ends and by its dimension.
#[derive(Clone, Copy, Debug, PartialEq, Eq)]
pub struct WireEnd {
    pub chip: u16,
    pub dim: u16,
}

/// Why there is no such machine.
#[derive(Clone, Copy, Debug, PartialEq, Eq, Error)]
pub enum FreshFault {
    #[error("a cube has 0 to 12 dimensions, not {0}")]
    Dimension(u16),
    #[error("a router has room for 1 to 15 messages, not {0}")]
    Room(u16),
    /// A wire that the cube has not.
    #[error("chip {chip} and dimension {dim} name no wire: chips have numbers below 2^{n}, dimensions below {n}")]
    Wire { n: u16, chip: u16, dim: u16 },
    #[error("the rules are 0 and 1, not {0}")]
    Rule(u16),
    /// More wires are to be drawn than the cube has.
    #[error("of the wires of the cube at most {most} can be drawn, not {count}")]
    Drawn { most: u32, count: u16 },
    #[error("out of memory")]
    Memory,
}

/// The image of a blank machine of 2^n chips with room for so many messages in each router, of which these wires are
/// cut, and which routes by the rule of this number.
#[tactic(auto, unfolding(crate::specs::Fresh::fresh_of))]
pub fn fresh(
    alloc: Global,
    n: u16,
    room: u16,
    cuts: &[WireEnd],
    rule: u16,
) -> Result<Vec<u8>, FreshFault>
    ensures value { IfOk result (λ text. fresh_of n room cuts.now rule ≡ Ok text.items) }
    ensures refused { IfErr result (λ fault. fault ≢ FreshFault.Memory → fresh_of n room cuts.now rule ≡ Err fault) }
{
    if n > 12 {
        return Err(FreshFault::Dimension(n));
    }
    if room == 0 || room > 15 {
        return Err(FreshFault::Room(room));
    }
    match stray(n, cuts) {
        Some(end) => {
            return Err(FreshFault::Wire {
                n,
                chip: end.chip,
                dim: end.dim,
            });
        }
        None => {}
    }
    if rule > 1 {
        return Err(FreshFault::Rule(rule));
    }
    match image_of(alloc, n as u8, room as u8, cuts, rule_of(rule)) {
        Ok(text) => Ok(text),
        Err(_) => Err(FreshFault::Memory),
    }
}

/// The first that is no end of a wire of a cube of so many dimensions.
pub fn stray(n: u16, ends: &[WireEnd]) -> Option<WireEnd>
    requires dimension { n ≤ 12 }
    ensures value { result ≡ find (is_stray n) ends.now }
{
    ends.iter().copied().find(|end| !is_end(n, *end))
}

/// Whether it is an end of a wire of a cube of so many dimensions.
fn is_end(n: u16, end: WireEnd) -> bool
    requires dimension { n ≤ 12 }
    ensures value { result ≡ is_end n end }
{
    end.chip < 1 << n && end.dim < n
}

/// The rule of a number.
pub fn rule_of(number: u16) -> Rule
    ensures value { result ≡ rule_of number }
{
    if number == 0 {
        Rule::First
    } else {
        Rule::Oldest
    }
}

/// The same, where all of it is in its range.
fn image_of(
    alloc: Global,
    n: u8,
    room: u8,
    ends: &[WireEnd],
    rule: Rule,
) -> Result<Vec<u8>, NoMemory>
    requires sizes { AreSizes n room }
    requires ends { find (is_stray n) ends.now ≡ None }
    ensures value { IfOk result (λ text. text.items ≡ text_of n room (fresh_machine n ends.now rule)) }
{
    let routing = routing_with(alloc, n, ends, rule)?;
    blank_image(alloc, n, room, &routing)
}

/// The wires with these ends are cut, and routers choose by this rule.
pub fn routing_with(alloc: Global, n: u8, ends: &[WireEnd], rule: Rule) -> Result<Routing, NoMemory>
    requires dimension { n ≤ 12 }
    requires ends { find (is_stray n) ends.now ≡ None }
    ensures value { IfOk result (λ routing. routing_of routing ≡ fresh_routing ends.now rule) }
    ensures dims { IfOk result (λ routing. routing.cuts.dims ≡ n) }
{
    let mut routing = Routing::plain(alloc, n)?;
    routing.rule = rule;
    cut(&mut routing.cuts, ends);
    Ok(routing)
}

/// Cuts the wires with these ends.
fn cut(cuts: &mut Cuts, ends: &[WireEnd])
    requires dimension { cuts.old.dims ≤ 12 }
    requires ends { All (λ end. is_end cuts.old.dims end ≡ true) ends.now }
    ensures value { cuts.new ≡ record cuts.old { wires = wires_with cuts.old.wires ends.now } }
{
    for end in ends {
        cuts.add(edge_of(*end));
    }
}

/// The wire of an end.
fn edge_of(end: WireEnd) -> Edge
    requires chip { end.chip < 4096 }
    requires dimension { end.dim < 12 }
    ensures value { result ≡ wire_of end.chip end.dim }
    ensures within { result.chip ≤ end.chip }
    ensures dimension { result.dim ≡ end.dim }
{
    let across = end.chip ^ 1 << end.dim;
    let edge = Edge::new(end.chip.min(across), end.dim as u8);
    edge.unwrap()
}
