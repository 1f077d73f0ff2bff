//! The rows of a machine of each small size take the steps of a plain machine.

ghost use Rattle.std.specs.Prelude.{◌≡◌, ◌^◌, ◌≤◌};

use cm_array::step;
use cm_bits::{Addr, Dir, FlagNo, NoMemory, Plane, Proc};
use cm_element::Run;
use cm_model::Nano;
use cm_plain::PlainMachine;
use std::alloc::Global;

// Instructions use so few addresses that their rows often coincide.
const ADDRESSES: u16 = 4;

// The macros' pairs of tables, those that they use alone, and others.
static TABLES: [(u8, u8); 14] = [
    (0x96, 0xe8),
    (0x69, 0xb2),
    (0xf0, 0x8e),
    (0xf0, 0x82),
    (0xaa, 0xf0),
    (0xf0, 0xff),
    (0xf0, 0x00),
    (0xf0, 0xf0),
    (0xcc, 0x00),
    (0xd8, 0x00),
    (0xff, 0x00),
    (0x00, 0x00),
    (0x17, 0x2b),
    (0x3c, 0x99),
];

#[derive(Drop)]
struct Draws {
    state: u32,
}

impl Draws {
    fn number(&mut self) -> u32 {
        self.state = self
            .state
            .wrapping_mul(1_664_525)
            .wrapping_add(1_013_904_223);
        self.state >> 8
    }

    fn bit(&mut self) -> bool {
        self.number() & 1 == 1
    }

    // An instruction with these tables that writes this flag: at 0 under 'always', at 1 where some flag is as drawn.
    fn nano(&mut self, tables: (u8, u8), write: u8, kind: u8) -> Nano {
        let places = self.number();
        let cond = if kind == 0 { 8 } else { places >> 8 & 15 };
        Nano {
            a: Addr::new((places & 3) as u16).unwrap(),
            b: Addr::new((places >> 2 & 3) as u16).unwrap(),
            read: FlagNo::new((places >> 4 & 15) as u8).unwrap(),
            write: FlagNo::new(write & 15).unwrap(),
            cond: FlagNo::new(cond as u8).unwrap(),
            sense: kind != 0 && self.bit(),
            mem_table: tables.0,
            flag_table: tables.1,
            dir: Dir::North,
        }
    }
}

/// The rows and the plain machine beside them, of which no contract tells anything.
#[derive(Drop)]
struct Beside<const N: usize> {
    sent: Vec<Plane>,
    incoming: Vec<Plane>,
    run: Run,
    plain: PlainMachine<N>,
    draws: Draws,
}

fn row(alloc: Global, chips: u16) -> Result<Vec<Plane>, NoMemory> {
    let Ok(planes) = vec![in alloc; 0; usize::from(chips)] else {
        return Err(NoMemory);
    };
    Ok(planes)
}

impl<const N: usize> Beside<N> {
    fn blank(alloc: Global, chips: u16) -> Result<Self, NoMemory>
        requires dimension { N ≤ 12 }
    {
        Ok(Beside {
            sent: row(alloc, chips)?,
            incoming: row(alloc, chips)?,
            run: Run::blank(alloc, chips)?,
            plain: PlainMachine::blank(alloc, ADDRESSES)?,
            draws: Draws { state: 1985 },
        })
    }

    // Each bit and each flag but 8 as drawn, in both.
    fn fill(&mut self, chips: u16)
        requires chips { chips ≡ 2 ^ N }
    {
        for chip in 0..chips {
            for p in 0u8..16 {
                let proc = Proc::new(p).unwrap();
                for number in 0u8..16 {
                    let bit = self.draws.bit();
                    self.put_flag(chips, chip, proc, FlagNo::new(number).unwrap(), bit);
                }
                for at in 0..ADDRESSES {
                    let bit = self.draws.bit();
                    self.put_bit(chips, chip, proc, Addr::new(at).unwrap(), bit);
                }
            }
        }
    }

    fn put_flag(&mut self, chips: u16, chip: u16, proc: Proc, number: FlagNo, bit: bool)
        requires chips { chips ≡ 2 ^ N }
    {
        if self.run.chips() == usize::from(chips) && chip < chips {
            let _ = self.run.poke_flag(chip, proc, number, bit);
            self.plain.poke_flag(chip, proc, number, bit);
        }
    }

    fn put_bit(&mut self, chips: u16, chip: u16, proc: Proc, at: Addr, bit: bool)
        requires chips { chips ≡ 2 ^ N }
    {
        if self.run.chips() == usize::from(chips) && chip < chips {
            self.run.poke(chip, proc, at, bit);
            self.plain.poke(chip, proc, at, bit);
        }
    }

    // One instruction in both: whether it could be.
    fn step(&mut self, alloc: Global, chips: u16, nano: &Nano) -> Result<bool, NoMemory>
        requires chips { chips ≡ 2 ^ N }
        requires dimension { N ≤ 12 }
    {
        let count = usize::from(chips);
        self.plain.step(alloc, nano)?;
        if self.run.chips() != count || self.sent.len() != count || self.incoming.len() != count {
            return Ok(false);
        }
        step(
            N as u8,
            &mut self.run,
            nano,
            &mut self.sent,
            &mut self.incoming,
        );
        Ok(true)
    }

    // Whether a processor has the same bits and flags in both.
    fn is_same_at(&self, chips: u16, chip: u16, proc: Proc) -> bool
        requires chips { chips ≡ 2 ^ N }
    {
        if self.run.chips() != usize::from(chips) || chip >= chips {
            return false;
        }
        for number in 0u8..16 {
            let number = FlagNo::new(number).unwrap();
            if self.run.flag(chip, proc, number) != self.plain.flag(chip, proc, number) {
                return false;
            }
        }
        for at in 0..ADDRESSES {
            let at = Addr::new(at).unwrap();
            if self.run.read(chip, proc, at) != self.plain.read(chip, proc, at) {
                return false;
            }
        }
        true
    }

    fn are_same(&self, chips: u16) -> bool
        requires chips { chips ≡ 2 ^ N }
    {
        for chip in 0..chips {
            for p in 0u8..16 {
                if !self.is_same_at(chips, chip, Proc::new(p).unwrap()) {
                    return false;
                }
            }
        }
        true
    }

    // One instruction of some kind, and in which direction NEWS goes: whether both are the same after it.
    fn goes(
        &mut self,
        alloc: Global,
        chips: u16,
        tables: (u8, u8),
        kind: u8,
    ) -> Result<bool, NoMemory>
        requires chips { chips ≡ 2 ^ N }
        requires dimension { N ≤ 12 }
    {
        for write in 0u8..16 {
            for dir in [Dir::North, Dir::East, Dir::West, Dir::South] {
                if write != 10 && dir != Dir::North {
                    continue;
                }
                let mut nano = self.draws.nano(tables, write, kind);
                nano.dir = dir;
                if !self.step(alloc, chips, &nano)? {
                    return Ok(false);
                }
            }
        }
        Ok(self.are_same(chips))
    }

    // With each pair of tables, under 'always' and under a condition, an instruction that writes each flag, and
    // NEWS in each direction: how many pairs go the same way in both.
    fn pairs_that_go(&mut self, alloc: Global, chips: u16) -> Option<usize>
        requires chips { chips ≡ 2 ^ N }
        requires dimension { N ≤ 12 }
    {
        let mut done: usize = 0;
        for tables in &TABLES {
            if self.goes(alloc, chips, *tables, 0).ok()?
                && self.goes(alloc, chips, *tables, 1).ok()?
            {
                done = done.saturating_add(1);
            }
        }
        Some(done)
    }
}

// How many pairs of tables go the same way in both.
fn pairs_that_go<const N: usize>(alloc: Global, chips: u16) -> Option<usize>
    requires chips { chips ≡ 2 ^ N }
    requires dimension { N ≤ 12 }
{
    let mut both = Beside::<N>::blank(alloc, chips).ok()?;
    both.fill(chips);
    both.pairs_that_go(alloc, chips)
}

#[test]
fn rows_of_up_to_eight_chips_go_as_a_plain_machine_does(rt: HostRuntime) {
    let alloc = rt.alloc();
    let pairs = [
        pairs_that_go::<0>(alloc, 1),
        pairs_that_go::<1>(alloc, 2),
        pairs_that_go::<2>(alloc, 4),
        pairs_that_go::<3>(alloc, 8),
    ];
    assert_eq!(rt; pairs, [Some(TABLES.len()); 4]);
}

#[test]
fn rows_of_up_to_64_chips_go_as_a_plain_machine_does(rt: HostRuntime) {
    let alloc = rt.alloc();
    let pairs = [
        pairs_that_go::<4>(alloc, 16),
        pairs_that_go::<5>(alloc, 32),
        pairs_that_go::<6>(alloc, 64),
    ];
    assert_eq!(rt; pairs, [Some(TABLES.len()); 3]);
}

#[test]
fn rows_of_up_to_256_chips_go_as_a_plain_machine_does(rt: HostRuntime) {
    let alloc = rt.alloc();
    let pairs = [
        pairs_that_go::<7>(alloc, 128),
        pairs_that_go::<8>(alloc, 256),
    ];
    assert_eq!(rt; pairs, [Some(TABLES.len()); 2]);
}
