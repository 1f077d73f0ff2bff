//! Memory fields: which there are, and how two meet.

use crate::cases::{Case, first_not_so};
use cm_bits::{Field, FieldFault, Meets};
use std::alloc::Global;
use std::test::Fail;

/// An address and a length, and why they are no field.
struct Judged(&'static str, u16, u16, Option<FieldFault>);

impl Case for Judged {
    fn name(&self) -> &'static str {
        self.0
    }

    fn is_so(&self, _alloc: Global) -> Result<bool, Fail> {
        let Judged(_, at, len, wanted) = *self;
        Ok(match Field::new(at, len) {
            Ok(field) => wanted.is_none() && field.at() == at && field.len() == len,
            Err(fault) => wanted == Some(fault),
        })
    }
}

static JUDGED: [Judged; 8] = [
    Judged("no bit", 0, 0, Some(FieldFault::Width)),
    Judged("65 bits", 0, 65, Some(FieldFault::Width)),
    Judged(
        "the length before the end",
        65535,
        65535,
        Some(FieldFault::Width),
    ),
    Judged("8 bits, 6 in memory", 4090, 8, Some(FieldFault::Range)),
    Judged(
        "the last number for an address",
        65535,
        1,
        Some(FieldFault::Range),
    ),
    Judged(
        "the first bit past the memory",
        4096,
        1,
        Some(FieldFault::Range),
    ),
    Judged("the last bit", 4095, 1, None),
    Judged("the last 64 bits", 4032, 64, None),
];

/// Two fields by addresses and lengths, and how the first meets the second.
struct Met(&'static str, (u16, u16), (u16, u16), Meets);

impl Case for Met {
    fn name(&self) -> &'static str {
        self.0
    }

    fn is_so(&self, _alloc: Global) -> Result<bool, Fail> {
        let Met(_, first, second, how) = *self;
        let first = Field::new(first.0, first.1)?;
        let second = Field::new(second.0, second.1)?;
        Ok(first.meets(&second) == how)
    }
}

static MET: [Met; 5] = [
    Met("a field and itself", (0, 8), (0, 8), Meets::Same),
    Met("the next field", (0, 8), (8, 8), Meets::Apart),
    Met("the field before", (8, 8), (0, 8), Meets::Apart),
    Met(
        "a shorter one from the same address",
        (0, 8),
        (0, 4),
        Meets::Partly,
    ),
    Met("one from the last bit on", (0, 8), (7, 8), Meets::Partly),
];

#[test]
fn fields_are_judged_by_length_then_end_and_meet_by_their_bits(
    rt: HostRuntime,
) -> Result<(), Fail> {
    let alloc = rt.alloc();
    let not_so = [first_not_so(alloc, &JUDGED)?, first_not_so(alloc, &MET)?];
    assert_eq!(rt; not_so, [None; 2]);
    Ok(())
}
