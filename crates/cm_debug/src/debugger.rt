//! A debugger of programs: its position in one, and where and what it stops at and tells.

ghost use Rattle.std.specs.Prelude.{◌≡◌, ◌≤◌, length, false, replicate, IfOk};

use cm_model::Act;
use std::alloc::{AllocError, Global};

/// A program, the index of its next act, the breakpoints, and whether looks at the wire are told.
#[derive(Drop)]
pub struct Debugger<'a> {
    pub acts: &'a [Act],
    pub position: usize,
    /// By act, whether it has a breakpoint.
    pub breakpoints: Vec<bool>,
    pub trace: bool,
    ghost within: { position ≤ length acts.now },
    ghost each: { length breakpoints.items ≡ length acts.now },
}

/// Where acts stop that are run.
#[derive(Clone, Copy)]
pub enum Stops {
    Everywhere,
    AtBreaks,
}

impl<'a> Debugger<'a> {
    ghost use Rattle.cm_debug.specs.State.{stops_at};

    /// Before the first line.
    pub fn new(alloc: Global, acts: &'a [Act]) -> Result<Debugger<'a>, AllocError>
        ensures acts { IfOk result (λ debugger. debugger.acts.now ≡ acts.now) }
        ensures position { IfOk result (λ debugger. debugger.position ≡ 0) }
        ensures breaks { IfOk result (λ debugger. debugger.breakpoints.items ≡ replicate (length acts.now) false) }
        ensures trace { IfOk result (λ debugger. debugger.trace ≡ false) }
    {
        let breakpoints = vec![in alloc; false; acts.len()]?;
        Ok(Debugger {
            acts,
            position: 0,
            breakpoints,
            trace: false,
        })
    }

    /// Whether acts that stop so stop at this index.
    pub fn stops(&self, stops: Stops, index: usize) -> bool
        ensures value { result ≡ stops_at stops self.now.breakpoints.items index }
    {
        match stops {
            Stops::Everywhere => true,
            Stops::AtBreaks => index < self.breakpoints.len() && self.breakpoints[index],
        }
    }
}
