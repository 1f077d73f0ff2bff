//! The global wire of two chips.

use crate::cases::{Case, first_not_so};
use crate::numbers::{flag, processor};
use cm_bits::{FlagNo, Proc};
use cm_element::Run;
use cm_wire::{chip_or, wire};
use std::alloc::Global;
use std::test::Fail;

/// One flag of one processor of two chips, and what each of them gives to the wire.
struct Driven(&'static str, u16, u8, u8, [bool; 2]);

impl Case for Driven {
    fn name(&self) -> &'static str {
        self.0
    }

    fn is_so(&self, alloc: Global) -> Result<bool, Fail> {
        let Driven(_, _, proc, number, _) = *self;
        let (proc, number) = (processor(proc)?, flag(number)?);
        let mut run = Run::blank(alloc, 2)?;
        Ok(self.drives(&mut run, proc, number))
    }
}

impl Driven {
    fn drives(&self, run: &mut Run, proc: Proc, number: FlagNo) -> bool {
        let Driven(_, at, _, _, ors) = *self;
        if run.chips() != 2
            || at >= 2
            || wire(run)
            || run.poke_flag(at, proc, number, true).is_err()
        {
            return false;
        }
        run.chips() == 2
            && chip_or(&run.view(0)) == ors[0]
            && chip_or(&run.view(1)) == ors[1]
            && wire(run) == (ors[0] || ors[1])
    }
}

static DRIVEN: [Driven; 4] = [
    Driven(
        "one processor of the second chip drives it",
        1,
        15,
        9,
        [false, true],
    ),
    Driven(
        "one processor of the first chip drives it",
        0,
        0,
        9,
        [true, false],
    ),
    Driven("flag 7 does not", 1, 15, 7, [false, false]),
    Driven("flag 10 does not", 0, 3, 10, [false, false]),
];

#[test]
fn one_processor_drives_the_wire(rt: HostRuntime) -> Result<(), Fail> {
    assert_eq!(rt; first_not_so(rt.alloc(), &DRIVEN)?, None);
    Ok(())
}

#[test]
fn no_chip_leaves_the_wire_at_0(rt: HostRuntime) -> Result<(), Fail> {
    assert!(rt; !wire(&Run::blank(rt.alloc(), 0)?));
    Ok(())
}
