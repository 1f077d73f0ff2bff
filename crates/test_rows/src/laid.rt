//! Chips of one run laid into another.

use cm_bits::{Field, FlagNo, Proc};
use cm_element::Run;
use std::alloc::Global;
use std::test::Fail;

// How many chips one run has, the place in it, how many the other has, the first of them, how many are laid.
static LAYS: [(u16, u16, u16, u16, u16); 7] = [
    (1, 0, 1, 0, 1),
    (5, 3, 4, 1, 2),
    (5, 0, 4, 0, 4),
    (2, 1, 2, 1, 0),
    (130, 127, 3, 0, 3),
    (3, 1, 130, 129, 1),
    (200, 40, 130, 0, 130),
];

const HERE: u64 = 1000;

const THERE: u64 = 7000;

// The processor that has a number, and the field that it stands in.
#[derive(Clone, Copy)]
struct Numbered {
    proc: Proc,
    field: Field,
}

impl Numbered {
    fn new() -> Result<Numbered, Fail> {
        Ok(Numbered {
            proc: Proc::new(3).ok_or("no processor")?,
            field: Field::new(4080, 16)?,
        })
    }

    fn number_of(&self, run: &Run, chip: u16) -> u64 {
        if usize::from(chip) >= run.chips() {
            return 0;
        }
        let view = run.view(chip);
        if view.flag(self.proc, FlagNo::RECV) {
            view.field(self.proc, self.field)
        } else {
            0
        }
    }

    // Each chip gets a number of its own, and RECV is 1 there.
    fn number(&self, run: &mut Run, count: u16, base: u64) {
        for chip in 0..count {
            if usize::from(chip) < run.chips() {
                let number = base.wrapping_add(u64::from(chip));
                run.poke_field(chip, self.proc, self.field, number);
                run.poke_flag_plane(chip, FlagNo::RECV, 8);
            }
        }
    }

    // Whether each of so many chips has the number that it should have then.
    fn are_right(&self, run: &Run, lay: (u16, u16, u16, u16, u16)) -> bool {
        let (here, at, _, first, count) = lay;
        for chip in 0..here {
            let wanted = if chip >= at && chip - at < count {
                THERE + u64::from(first) + u64::from(chip - at)
            } else {
                HERE + u64::from(chip)
            };
            if self.number_of(run, chip) != wanted {
                return false;
            }
        }
        true
    }
}

fn lays(run: &mut Run, from: &Run, lay: (u16, u16, u16, u16, u16)) -> bool {
    let (_, at, _, first, count) = lay;
    if usize::from(at) + usize::from(count) > run.chips()
        || usize::from(first) + usize::from(count) > from.chips()
    {
        return false;
    }
    run.lay(at, from, first, count);
    true
}

fn is_laid_into(
    alloc: Global,
    run: &mut Run,
    lay: (u16, u16, u16, u16, u16),
    numbered: &Numbered,
) -> Result<bool, Fail> {
    let mut from = Run::blank(alloc, lay.2)?;
    numbered.number(&mut from, lay.2, THERE);
    Ok(lays(run, &from, lay) && numbered.are_right(run, lay))
}

fn is_laid(alloc: Global, lay: (u16, u16, u16, u16, u16)) -> Result<bool, Fail> {
    let numbered = Numbered::new()?;
    let mut run = Run::blank(alloc, lay.0)?;
    numbered.number(&mut run, lay.0, HERE);
    is_laid_into(alloc, &mut run, lay, &numbered)
}

#[test]
fn chips_are_laid_and_the_others_stay(rt: HostRuntime) -> Result<(), Fail> {
    for lay in &LAYS {
        assert!(&rt; is_laid(rt.alloc(), *lay)?, "{lay:?}");
    }
    Ok(())
}
