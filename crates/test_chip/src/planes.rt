//! Truth tables over planes, and the chain.

use crate::cases::{Case, first_not_so};
use cm_bits::Plane;
use cm_daisy::previous;
use cm_truth::{apply, apply_alone};
use std::alloc::Global;
use std::test::Fail;

// The three bits of a full adder in eight processors, and once more.
const A: Plane = 0xff00;

const B: Plane = 0xf0f0;

const F: Plane = 0xaaaa;

/// A truth table, and its outputs on these three planes.
struct Applied(&'static str, u8, Plane);

impl Case for Applied {
    fn name(&self) -> &'static str {
        self.0
    }

    fn is_so(&self, _alloc: Global) -> Result<bool, Fail> {
        let Applied(_, table, outputs) = *self;
        Ok(apply(table, A, B, F) == outputs && apply_alone(table, A, B, F) == outputs)
    }
}

static APPLIED: [Applied; 6] = [
    Applied("the sum", 0x96, A ^ B ^ F),
    Applied("the carry", 0xe8, A & B | A & F | B & F),
    Applied("A", 0xf0, A),
    Applied("B", 0xcc, B),
    Applied("F", 0xaa, F),
    Applied("none of them", 0x01, !(A | B | F)),
];

/// What the processors of a chip send over its chain, and what comes in.
struct Chained(&'static str, Plane, Plane);

impl Case for Chained {
    fn name(&self) -> &'static str {
        self.0
    }

    fn is_so(&self, _alloc: Global) -> Result<bool, Fail> {
        let Chained(_, sent, incoming) = *self;
        Ok(previous(sent) == incoming)
    }
}

static CHAINED: [Chained; 3] = [
    Chained("the last bit is lost", 0x8001, 0x0002),
    Chained("a bit goes to the next processor", 0x0002, 0x0004),
    Chained("the first processor gets 0", 0xffff, 0xfffe),
];

#[test]
fn tables_of_a_full_adder(rt: HostRuntime) -> Result<(), Fail> {
    assert_eq!(rt; first_not_so(rt.alloc(), &APPLIED)?, None);
    Ok(())
}

#[test]
fn bits_go_to_the_next_processor_and_the_last_one_is_lost(rt: HostRuntime) -> Result<(), Fail> {
    assert_eq!(rt; first_not_so(rt.alloc(), &CHAINED)?, None);
    Ok(())
}
