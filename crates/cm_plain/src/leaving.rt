//! Who leaves a buffer in a dimension: whether its wire is cut, and by which rule the router chooses.

ghost use Rattle.std.specs.Prelude.{◌≡◌, ℕ, ◌<◌, length, IfSome};
ghost use Rattle.std.specs.List.{list_any, position};
ghost use Rattle.cm_model.specs.Wiring.{wire_of, same_wire};
ghost use Rattle.cm_model.specs.Router.{is_older, has_to_cross};
ghost use Rattle.cm_model.specs.Buffers.{element_at, one_behind, is_older_one, oldest_place};
ghost use Rattle.cm_model.specs.Buffers.{is_older_or_none, youngest_place};
ghost use Rattle.cm_model.specs.Buffers.{first_place, last_place, leaving_place};

use cm_bits::Edge;
use cm_model::{Message, Rule, Tag};

/// What one chip sees of the routing in one dimension.
#[derive(Clone, Copy, Debug)]
pub(crate) struct Way {
    /// Its wire is cut.
    pub(crate) cut: bool,
    pub(crate) rule: Rule,
}

/// Whether the wire of a chip over a dimension is one of these.
pub(crate) fn is_cut(cuts: &[Edge], chip: u16, dim: usize) -> bool
    requires dim { dim < 12 }
    ensures value { result ≡ list_any (same_wire (wire_of chip dim)) cuts.now }
{
    cuts.iter().any(|edge| is_wire_of(edge, chip, dim))
}

/// Whether the edge is the wire of a chip over a dimension, seen from either end.
fn is_wire_of(edge: &Edge, chip: u16, dim: usize) -> bool
    requires dim { dim < 12 }
    ensures value { result ≡ same_wire (wire_of chip dim) edge.now }
{
    let lower = chip.min(chip ^ (1 << dim));
    lower == edge.chip() && dim == usize::from(edge.dim())
}

/// The place of who leaves a buffer in a dimension: over a wire that is cut nobody; else of those that have to cross
/// it who goes first, or else, if there is no room left, who goes last.
#[tactic(auto, unfolding(cm_model::specs::Buffers::leaving_place))]
pub(crate) fn leaving_place(here: &[Message], way: Way, room: usize, dim: usize) -> Option<usize>
    requires dim { dim < 16 }
    ensures value { result ≡ leaving_place (record { cut = way.cut; rule = way.rule }) room dim here.now }
{
    if way.cut {
        return None;
    }
    match first_place(here, way.rule, dim) {
        Some(place) => Some(place),
        None if here.len() == room => last_place(here, way.rule),
        None => None,
    }
}

/// The place of who goes first of those that have to cross a dimension.
fn first_place(here: &[Message], rule: Rule, dim: usize) -> Option<usize>
    requires dim { dim < 16 }
    ensures value { result ≡ first_place rule dim here.now }
{
    match rule {
        Rule::First => crossing_place(here, dim),
        Rule::Oldest => oldest_place(here, dim),
    }
}

/// The place of who goes last.
fn last_place(here: &[Message], rule: Rule) -> Option<usize>
    ensures value { result ≡ last_place rule here.now }
{
    match rule {
        Rule::First => Some(here.len().saturating_sub(1)),
        Rule::Oldest => youngest_place(here),
    }
}

/// The place of the first that has to cross a dimension.
fn crossing_place(here: &[Message], dim: usize) -> Option<usize>
    requires dim { dim < 16 }
    ensures value { result ≡ position (has_to_cross dim) here.now }
{
    here.iter().position(|message| has_to_cross(message, dim))
}

/// The place of the oldest that has to cross a dimension; of two of one tag, of the first.
fn oldest_place(here: &[Message], dim: usize) -> Option<usize>
    requires dim { dim < 16 }
    ensures value { result ≡ oldest_place dim here.now }
    ensures within { IfSome result (λ place. place < length here.now) }
{
    let (message, rest) = here.split_first()?;
    let behind = oldest_place(rest, dim);
    if has_to_cross(message, dim) && !is_older_one(rest, behind, message) {
        return Some(0);
    }
    one_behind(rest, behind)
}

/// The place of the youngest; of two of one tag, of the last.
fn youngest_place(here: &[Message]) -> Option<usize>
    ensures value { result ≡ youngest_place here.now }
    ensures within { IfSome result (λ place. place < length here.now) }
{
    let (message, rest) = here.split_first()?;
    let behind = youngest_place(rest);
    if is_older_or_none(rest, behind, message) {
        return Some(0);
    }
    one_behind(rest, behind)
}

/// A place among these, counted from the one before them.
fn one_behind(rest: &[Message], place: Option<usize>) -> Option<usize>
    requires within { IfSome place (λ i. i < length rest.now) }
    ensures value { result ≡ one_behind place }
{
    let place = place?;
    Some(place + 1)
}

/// Whether there is a message at the place, and it is older than this one.
fn is_older_one(rest: &[Message], place: Option<usize>, message: &Message) -> bool
    requires within { IfSome place (λ i. i < length rest.now) }
    ensures value { result ≡ is_older_one (element_at rest.now place) message.now }
{
    match place {
        Some(i) => is_older(&rest[i].tag, &message.tag),
        None => false,
    }
}

/// Whether there is none at the place, or it is older than this one.
fn is_older_or_none(rest: &[Message], place: Option<usize>, message: &Message) -> bool
    requires within { IfSome place (λ i. i < length rest.now) }
    ensures value { result ≡ is_older_or_none (element_at rest.now place) message.now }
{
    match place {
        Some(i) => is_older(&rest[i].tag, &message.tag),
        None => true,
    }
}

/// Whether a tag is older than another: by birth, of one birth by chip, of one chip by processor.
fn is_older(tag: &Tag, other: &Tag) -> bool
    ensures value { result ≡ is_older tag.now other.now }
{
    tag.birth < other.birth
        || tag.birth == other.birth
            && (tag.chip < other.chip
                || tag.chip == other.chip && tag.proc.get() < other.proc.get())
}

pub(crate) fn has_to_cross(message: &Message, dim: usize) -> bool
    requires dim { dim < 16 }
    ensures value { result ≡ has_to_cross dim message.now }
{
    message.rel >> dim & 1 == 1
}
