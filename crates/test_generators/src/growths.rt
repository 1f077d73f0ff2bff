//! Calls of which a growth of memory is refused.

use std::alloc::Global;

/// A call that takes memory.
pub trait Call {
    /// Whether it does what it is to do; or else tells want of memory, leaves what it was lent as it was, and does it
    /// when it is made again. None where memory is wanting beside it.
    fn is_so(&self, alloc: Global) -> Option<bool>;
}

/// The first of these calls that is not so. One growth in all is refused, so that the second time none is.
pub fn first_not_so<C: Call + Copy>(alloc: Global, calls: &[C]) -> Option<C> {
    for call in calls {
        let told = match call.is_so(alloc) {
            None => call.is_so(alloc),
            told => told,
        };
        if told != Some(true) {
            return Some(*call);
        }
    }
    None
}
