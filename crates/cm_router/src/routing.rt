//! How a machine routes.

ghost use Rattle.std.specs.Prelude.{◌≡◌, ℕ, ◌<◌, ◌≤◌, ◌==◌, ◌&&◌, not, false, IfOk, IsTrue};
ghost use Rattle.std.specs.List.{list_any};
ghost use Rattle.cm_model.specs.Wiring.{rule_number, plain_routing, plain_way, way_of};
ghost use Rattle.cm_router.specs.Routes.{routing_of};

use crate::cuts::Cuts;
use cm_bits::NoMemory;
use cm_message::Rule;
use std::alloc::Global;

/// How the routers of a machine route (ours): which wires of its cube are cut, and by which rule they choose.
#[derive(Drop)]
pub struct Routing {
    pub cuts: Cuts,
    pub rule: Rule,
}

impl Routing {
    /// No wire is cut, and who came first goes first.
    pub fn plain(alloc: Global, dims: u8) -> Result<Routing, NoMemory>
        requires dimensions { dims ≤ 12 }
        ensures value { IfOk result (λ routing. routing_of routing ≡ plain_routing) }
        ensures dims { IfOk result (λ routing. routing.cuts.dims ≡ dims) }
    {
        Ok(Routing {
            cuts: Cuts::blank(alloc, dims)?,
            rule: Rule::First,
        })
    }

    /// The same once more.
    pub fn copy(&self) -> Result<Routing, NoMemory>
        ensures value { IfOk result (λ routing. routing ≡ self.now) }
    {
        Ok(Routing {
            cuts: self.cuts.copy()?,
            rule: self.rule,
        })
    }

    /// Whether no wire over a dimension is cut, and who came first goes first.
    pub fn is_plain_over(&self, dim: u8) -> bool
        requires dimension { dim < self.now.cuts.dims }
        ensures value { result
            ≡ (rule_number self.now.rule == 0 && not (list_any (λ w. w.dim == dim) self.now.cuts.wires)) }
        ensures plain { IsTrue result → (c : ℕ) → way_of (routing_of self.now) c dim ≡ plain_way }
    {
        match self.rule {
            Rule::First => !self.cuts.has_any(dim),
            Rule::Oldest => false,
        }
    }

    /// Whether no wire over a dimension is cut.
    pub fn is_whole_over(&self, dim: u8) -> bool
        requires dimension { dim < self.now.cuts.dims }
        ensures value { result ≡ not (list_any (λ w. w.dim == dim) self.now.cuts.wires) }
        ensures whole { IsTrue result → (c : ℕ)
            → way_of (routing_of self.now) c dim ≡ record { cut = false; rule = self.now.rule } }
    {
        !self.cuts.has_any(dim)
    }
}
