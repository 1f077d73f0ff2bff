//! Petit cycles on nodes, one for each chip, beside petit cycles on a machine's messages.

use crate::bands::{Band, ask, blank_logs, has_same_planes, next, sizes};
use crate::routes::{Routes, is_of_cube, routed};
use cm_element::Run;
use cm_message::Event;
use cm_nodes::{are_nodes, cycle_of_nodes};
use cm_petit::has_log_room;
use cm_router::{Node, Routing, Rule};
use cm_router_engine::Shape;
use std::alloc::Global;
use std::test::Fail;

// Dimensions, room of a router, how messages go, and where the drawing starts.
static CASES: [(u8, u8, Routes, u64); 9] = [
    (0, 7, Routes::PLAIN, 41),
    (1, 1, Routes::PLAIN, 42),
    (3, 2, Routes::PLAIN, 43),
    (4, 1, Routes::PLAIN, 44),
    (4, 15, Routes::PLAIN, 45),
    (
        1,
        1,
        Routes {
            rule: Rule::First,
            share: 1,
        },
        46,
    ),
    (
        3,
        2,
        Routes {
            rule: Rule::First,
            share: 3,
        },
        47,
    ),
    (
        4,
        1,
        Routes {
            rule: Rule::Oldest,
            share: 0,
        },
        48,
    ),
    (
        4,
        2,
        Routes {
            rule: Rule::Oldest,
            share: 3,
        },
        49,
    ),
];

const CYCLES: u64 = 6;

// Chips with a node and a log each, of which no contract tells anything.
#[derive(Drop)]
struct Noded {
    sizes: Shape,
    routing: Routing,
    run: Run,
    nodes: Vec<Node>,
    logs: Vec<Vec<Event>>,
    clock: u64,
}

fn blank_nodes(alloc: Global, sizes: Shape, chips: u16) -> Result<Vec<Node>, Fail> {
    let mut nodes = Vec::new(alloc);
    for _chip in 0..chips {
        nodes.push(Node::new(sizes.room))?;
    }
    Ok(nodes)
}

impl Noded {
    fn blank(alloc: Global, sizes: Shape, routes: Routes) -> Result<Noded, Fail> {
        let chips: u16 = 1 << (sizes.dims & 7);
        Ok(Noded {
            sizes,
            nodes: blank_nodes(alloc, sizes, chips)?,
            logs: blank_logs(alloc, chips)?,
            routing: routed(alloc, sizes.dims, routes)?,
            run: Run::blank(alloc, chips)?,
            clock: 0,
        })
    }

    fn cycle(&mut self) -> bool {
        let sizes = self.sizes;
        if !is_of_cube(&self.routing, sizes)
            || !are_nodes(sizes, &self.run, &self.nodes, &self.logs)
            || !has_log_room(&self.logs, 4 + usize::from(sizes.room))
        {
            return false;
        }
        cycle_of_nodes(
            sizes,
            &self.routing,
            &mut self.run,
            &mut self.nodes,
            &mut self.logs,
            self.clock,
        );
        self.clock = self.clock.wrapping_add(1);
        true
    }

    // Whether at a chip all stands as in a machine.
    fn is_as(&self, whole: &mut Band, chip: u16) -> bool {
        let at = usize::from(chip);
        let (Some(node), Some(log)) = (self.nodes.get(at), self.logs.get(at)) else {
            return false;
        };
        whole.has_messages(at, node.messages())
            && whole.logs.get(at) == Some(log)
            && has_same_planes(&self.run, chip, &whole.run, chip)
    }
}

// The same asks on both sides, and a petit cycle after each.
fn stay_alike(whole: &mut Band, noded: &mut Noded, seed: u64) -> bool {
    let chips: u16 = 1 << (noded.sizes.dims & 7);
    let mut seed = seed;
    for _cycle in 0..CYCLES {
        for chip in 0..chips {
            seed = next(seed);
            ask(&mut whole.run, chip, seed, 15);
            ask(&mut noded.run, chip, seed, 15);
        }
        if !whole.cycle() || !noded.cycle() {
            return false;
        }
        for chip in 0..chips {
            if !noded.is_as(whole, chip) {
                return false;
            }
        }
    }
    true
}

fn noded_goes_with(
    alloc: Global,
    whole: &mut Band,
    sizes: Shape,
    routes: Routes,
    seed: u64,
) -> Result<bool, Fail> {
    let mut noded = Noded::blank(alloc, sizes, routes)?;
    Ok(stay_alike(whole, &mut noded, seed))
}

fn go_alike(alloc: Global, case: (u8, u8, Routes, u64)) -> Result<bool, Fail> {
    let (dims, room, routes, seed) = case;
    let sizes = sizes(dims, room);
    let mut whole = Band::blank(alloc, sizes, dims, 0, routes)?;
    noded_goes_with(alloc, &mut whole, sizes, routes, seed)
}

#[test]
fn nodes_go_as_a_machines_messages_do(rt: HostRuntime) -> Result<(), Fail> {
    for case in &CASES {
        assert!(&rt; go_alike(rt.alloc(), *case)?, "{case:?}");
    }
    Ok(())
}
