//! A petit cycle on nodes, one for each chip, each with a buffer of its own.

ghost use Rattle.std.specs.Prelude.{◌≡◌, ◌≢◌, ℕ, ◌+◌, ◌^◌, ◌<◌, ◌≤◌, ◌++◌, ◌↔◌, IsTrue, length, bit_xor};
ghost use Rattle.std.specs.Option.{option_to_list};
ghost use Rattle.std.specs.List.{All};
ghost use Rattle.cm_model.specs.declared.act.Act.TheVariants as act;
ghost use Rattle.cm_model.specs.Array.{each_chip, nth_or_nil};
ghost use Rattle.cm_model.specs.Steps.{Inject, Deliver};
ghost use Rattle.cm_model.specs.Wiring.{Routing as Routes, way_of};
ghost use Rattle.cm_model.specs.Buffers.{outgoing, buffer_after_dimension, buffers_after_dimension, after_act};
ghost use Rattle.cm_blocks.specs.Parcels.{Blank};
ghost use Rattle.cm_blocks.specs.Steps.{part_after};
ghost use Rattle.cm_router.specs.Routes.{routing_of};
ghost use Rattle.cm_router.specs.Buffer.{buffers_of, holding};
ghost use Rattle.cm_router.specs.Logs.{log_rooms_of, HaveLogRoom, LoseAtMost};
ghost use Rattle.cm_petit.specs.Routers.{machine_from_logs, part_from_logs};
ghost use Rattle.cm_nodes.specs.Nodes.{AreNodes, node_at, exchanged};

use cm_element::Run;
use cm_message::{Event, Message, Rule};
use cm_router::{Node, Routing};
use cm_router_engine::Shape;

/// One petit cycle where each chip's messages stand in a node of its own. The counter stands at `clock`; that it is one
/// more then is for the caller to keep.
pub fn cycle_of_nodes(
    sizes: Shape,
    routing: &Routing,
    run: &mut Run,
    nodes: &mut [Node],
    logs: &mut [Vec<Event>],
    clock: u64,
)
    requires cube { routing.now.cuts.dims ≡ sizes.dims }
    requires nodes { AreNodes sizes.dims sizes.room run.old nodes.old logs.old }
    requires log_room { HaveLogRoom (4 + sizes.room) (log_rooms_of logs.old) }
    ensures value { machine_from_logs (routing_of routing.now) run.new (buffers_of nodes.new) logs.new (clock + 1)
        ≡ after_act sizes.dims sizes.room
        (machine_from_logs (routing_of routing.now) run.old (buffers_of nodes.old) logs.old clock) act.Cycle }
    ensures nodes { AreNodes sizes.dims sizes.room run.new nodes.new logs.new }
    ensures log_room { LoseAtMost (4 + sizes.room) (log_rooms_of logs.old) (log_rooms_of logs.new) }
{
    inject_into_nodes(sizes, run, nodes, logs, clock);
    for dim in 0..sizes.dims {
        cross_nodes(sizes, routing, nodes, dim);
    }
    deliver_from_nodes(sizes, run, nodes, logs);
}

/// Every node takes in messages of its chip's processors.
fn inject_into_nodes(
    sizes: Shape,
    run: &mut Run,
    nodes: &mut [Node],
    logs: &mut [Vec<Event>],
    clock: u64,
)
    requires nodes { AreNodes sizes.dims sizes.room run.old nodes.old logs.old }
    requires log_room { HaveLogRoom 4 (log_rooms_of logs.old) }
    ensures value { (routing : Routes)
        → part_from_logs routing 0 (2 ^ sizes.dims) run.new (buffers_of nodes.new) logs.new clock
        ≡ part_after sizes.dims sizes.room Inject Blank
        (part_from_logs routing 0 (2 ^ sizes.dims) run.old (buffers_of nodes.old) logs.old clock) }
    ensures nodes { AreNodes sizes.dims sizes.room run.new nodes.new logs.new }
    ensures log_room { LoseAtMost 4 (log_rooms_of logs.old) (log_rooms_of logs.new) }
{
    for c in 0..nodes.len() {
        let chip = c as u16;
        nodes[c].inject(run, chip, chip, sizes.dims, clock, &mut logs[c]);
    }
}

/// Messages cross a dimension: of each pair of chips both send who leaves before either takes in who comes.
#[tactic(auto, using(crate::proofs::Dimensions::across_differs, crate::proofs::Dimensions::one_way, cm_model::proofs::Flips::xor_twice))]
fn cross_nodes(sizes: Shape, routing: &Routing, nodes: &mut [Node], dim: u8)
    requires cube { routing.now.cuts.dims ≡ sizes.dims }
    requires dim { dim < sizes.dims }
    requires count { length nodes.old ≡ 2 ^ sizes.dims }
    requires rooms { All (λ node. node.room ≡ sizes.room) nodes.old }
    ensures value { buffers_of nodes.new
        ≡ buffers_after_dimension (routing_of routing.now) sizes.dims sizes.room dim (buffers_of nodes.old) }
    ensures count { length nodes.new ≡ 2 ^ sizes.dims }
    ensures rooms { All (λ node. node.room ≡ sizes.room) nodes.new }
{
    for c in 0..nodes.len() {
        let other = across(c, dim);
        if c < other {
            let cut = routing.cuts.has(c as u16, dim);
            exchange(nodes, c, other, dim, cut, routing.rule);
        }
    }
}

/// The other chip of a dimension.
fn across(chip: usize, dim: u8) -> usize
    requires dimension { dim < 12 }
    ensures value { result ≡ bit_xor chip (2 ^ dim) }
{
    chip ^ 1 << dim
}

/// Two nodes of a dimension, whose wire may be cut, send each other who leaves.
#[tactic(auto, unfolding(cm_model::specs::Buffers::buffer_after_dimension))]
fn exchange(nodes: &mut [Node], here: usize, there: usize, dim: u8, cut: bool, rule: Rule)
    requires dimension { dim < 12 }
    requires here { here < length nodes.old }
    requires there { there < length nodes.old }
    requires apart { here ≢ there }
    ensures count { length nodes.new ≡ length nodes.old }
    ensures here { node_at nodes.new here ≡ exchanged (record { cut = cut; rule = rule }) dim
        (node_at nodes.old here) (node_at nodes.old there) }
    ensures there { node_at nodes.new there ≡ exchanged (record { cut = cut; rule = rule }) dim
        (node_at nodes.old there) (node_at nodes.old here) }
    ensures others { (c : ℕ) → c ≢ here → c ≢ there → node_at nodes.new c ≡ node_at nodes.old c }
{
    if cut {
        return;
    }
    let going = nodes[here].leave(dim, cut, rule);
    let coming = nodes[there].leave(dim, cut, rule);
    welcome(&mut nodes[here], coming);
    welcome(&mut nodes[there], going);
}

/// Who comes, if anyone does, stands last.
fn welcome(node: &mut Node, coming: Option<Message>)
    requires room { length node.old.messages < node.old.room }
    ensures value { node.new ≡ holding node.old (node.old.messages ++ option_to_list coming) }
{
    if let Some(message) = coming {
        node.arrive(message);
    }
}

/// Messages that have arrived go to their processors.
fn deliver_from_nodes(sizes: Shape, run: &mut Run, nodes: &mut [Node], logs: &mut [Vec<Event>])
    requires nodes { AreNodes sizes.dims sizes.room run.old nodes.old logs.old }
    requires log_room { HaveLogRoom sizes.room (log_rooms_of logs.old) }
    ensures value { (routing : Routes) (clock : ℕ)
        → part_from_logs routing 0 (2 ^ sizes.dims) run.new (buffers_of nodes.new) logs.new (clock + 1)
        ≡ part_after sizes.dims sizes.room Deliver Blank
        (part_from_logs routing 0 (2 ^ sizes.dims) run.old (buffers_of nodes.old) logs.old clock) }
    ensures nodes { AreNodes sizes.dims sizes.room run.new nodes.new logs.new }
    ensures log_room { LoseAtMost sizes.room (log_rooms_of logs.old) (log_rooms_of logs.new) }
{
    for c in 0..nodes.len() {
        let chip = c as u16;
        nodes[c].deliver(run, chip, chip, &mut logs[c]);
    }
}

/// Whether there are as many chips, nodes and logs as the sizes tell, and each node has that room.
pub fn are_nodes(sizes: Shape, run: &Run, nodes: &[Node], logs: &[Vec<Event>]) -> bool
    ensures nodes { IsTrue result ↔ AreNodes sizes.dims sizes.room run.now nodes.now logs.now }
{
    let chips = 1 << sizes.dims;
    run.chips() == chips
        && nodes.len() == chips
        && logs.len() == chips
        && nodes.iter().all(|node| node.room() == sizes.room)
}
