//! How drawn machines route.

ghost use Rattle.std.specs.Prelude.{◌≡◌, IsTrue};

use cm_bits::Edge;
use cm_router::{Cuts, Routing, Rule};
use cm_router_engine::Shape;
use std::alloc::Global;
use std::test::Fail;

// By which rule routers choose, and of how many wires one is cut: of 0 none is.
#[derive(Clone, Copy, Debug)]
pub(crate) struct Routes {
    pub(crate) rule: Rule,
    pub(crate) share: u16,
}

impl Routes {
    pub(crate) const PLAIN: Routes = Routes {
        rule: Rule::First,
        share: 0,
    };
}

// Whether routing is that of the cube.
pub(crate) fn is_of_cube(routing: &Routing, sizes: Shape) -> bool
    ensures cube { IsTrue result → routing.now.cuts.dims ≡ sizes.dims }
{
    routing.cuts.dims() == sizes.dims
}

// Such routing of a cube of so many dimensions.
pub(crate) fn routed(alloc: Global, dims: u8, routes: Routes) -> Result<Routing, Fail> {
    let mut routing = Routing::plain(alloc, dims.min(12))?;
    routing.rule = routes.rule;
    for chip in 0u16..16 {
        for dim in 0u8..4 {
            if is_drawn(chip, dim, routes.share) {
                cut(&mut routing.cuts, chip, dim);
            }
        }
    }
    Ok(routing)
}

// Whether a wire is one of those that are cut.
fn is_drawn(chip: u16, dim: u8, share: u16) -> bool {
    share > 0 && chip.wrapping_mul(7).wrapping_add(u16::from(dim) * 5) % share == 0
}

// Cuts a wire that is named by its lower end, if it is one of the cube.
fn cut(cuts: &mut Cuts, chip: u16, dim: u8) {
    if let Some(edge) = Edge::new(chip, dim)
        && dim < cuts.dims()
        && chip < 1 << cuts.dims()
    {
        cuts.add(edge);
    }
}
