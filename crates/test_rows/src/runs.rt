//! A run of chips takes the steps of as many single chips.

use cm_bits::{Addr, Dir, Field, FlagNo, NoMemory, Plane, Proc};
use cm_daisy::previous;
use cm_element::{Chip, Run, WideOutputs};
use cm_model::Nano;
use cm_wire::wire;
use std::alloc::Global;
use std::test::Fail;

// Fewer than a block, whole blocks, and words after them; from 128 on rows lie further apart.
static COUNTS: [u16; 6] = [0, 1, 31, 33, 64, 130];

// The macros' pairs of tables, the tables that they use alone, and others.
static TABLES: [(u8, u8); 14] = [
    (0x96, 0xe8),
    (0x69, 0xb2),
    (0xf0, 0x8e),
    (0xf0, 0x82),
    (0xaa, 0xf0),
    (0xf0, 0xff),
    (0xf0, 0x00),
    (0xf0, 0xf0),
    (0xcc, 0x00),
    (0xd8, 0x00),
    (0xff, 0x00),
    (0x00, 0x00),
    (0x17, 0x2b),
    (0x3c, 0x99),
];

#[derive(Drop)]
struct Beside {
    count: u16,
    run: Run,
    chips: Vec<Chip>,
    row: Vec<Plane>,
    drawn: u32,
}

fn blank_chips(alloc: Global, count: u16) -> Result<Vec<Chip>, NoMemory> {
    let mut chips = Vec::new(alloc);
    for _ in 0..count {
        let Ok(()) = chips.push(Chip::blank(alloc)?) else {
            return Err(NoMemory);
        };
    }
    Ok(chips)
}

fn blank_row(alloc: Global, count: u16) -> Result<Vec<Plane>, NoMemory> {
    let Ok(row) = vec![in alloc; 0; usize::from(count)] else {
        return Err(NoMemory);
    };
    Ok(row)
}

impl Beside {
    fn new(alloc: Global, count: u16) -> Result<Beside, NoMemory> {
        Ok(Beside {
            count,
            chips: blank_chips(alloc, count)?,
            row: blank_row(alloc, count)?,
            run: Run::blank(alloc, count)?,
            drawn: 1985,
        })
    }

    fn draw(&mut self) -> u32 {
        self.drawn = self
            .drawn
            .wrapping_mul(1_664_525)
            .wrapping_add(1_013_904_223);
        self.drawn >> 8
    }

    // An instruction on few addresses, often under 'always', that writes ZERO, NEWS and DAISY often.
    fn nano(&mut self) -> Nano {
        let places = self.draw();
        let tables = self.draw() as usize % TABLES.len();
        let (mem_table, flag_table) = TABLES[tables];
        Nano {
            a: Addr::new((places & 3) as u16).unwrap(),
            b: Addr::new((places >> 2 & 3) as u16).unwrap(),
            read: FlagNo::new((places >> 4 & 15) as u8).unwrap(),
            write: FlagNo::new((places >> 8 & 15) as u8).unwrap(),
            cond: FlagNo::new(8 + (places >> 12 & 7) as u8).unwrap(),
            sense: places >> 16 & 1 == 1,
            mem_table,
            flag_table,
            dir: Dir::North,
        }
    }

    // One instruction on both; what comes in is what each chip sends, turned by a drawn plane.
    fn step(&mut self, nano: &Nano) -> bool {
        let turned = (self.draw() & 0xffff) as u16;
        if self.row.len() != self.run.chips() {
            return false;
        }
        if nano.write != FlagNo::NEWS {
            self.run.step(nano);
            step_along_chains(&mut self.chips, nano);
            return true;
        }
        self.run.send(nano, &mut self.row);
        for plane in self.row.iter_mut() {
            *plane ^= turned;
        }
        step_chips(&mut self.chips, nano, &self.row);
        self.run.take(nano, &mut self.row);
        true
    }

    // The same by outputs and a store.
    fn step_by_halves(&mut self, alloc: Global, nano: &Nano) -> Result<bool, NoMemory> {
        let turned = (self.draw() & 0xffff) as u16;
        let mut outputs = WideOutputs::blank(alloc, self.count)?;
        if self.run.chips() != usize::from(self.count) || self.row.len() != self.run.chips() {
            return Ok(false);
        }
        self.run.outputs(nano, &mut outputs);
        turn(&mut self.row, &outputs.flag, turned);
        step_chips(&mut self.chips, nano, &self.row);
        self.run.store(nano, &outputs, &self.row);
        Ok(true)
    }

    // A bit, a field, a flag or a plane of flags, put into one chip of both.
    fn poke(&mut self) -> bool {
        let places = self.draw();
        let value = self.draw();
        let count = self.chips.len();
        if count == 0 {
            return true;
        }
        let c = (places >> 8) as usize % count;
        if c >= self.run.chips() || c > 4096 {
            return false;
        }
        let proc = Proc::new((places & 15) as u8).unwrap();
        let number = FlagNo::new((places >> 4 & 15) as u8).unwrap();
        let at = Addr::new((value >> 2 & 3) as u16).unwrap();
        let bit = value >> 8 & 1 == 1;
        let chip = c as u16;
        match value & 3 {
            0 => {
                self.run.poke(chip, proc, at, bit);
                self.chips[c].poke(proc, at, bit);
            }
            1 => {
                let Ok(field) = Field::new((value >> 2 & 7) as u16, (value >> 5 & 63) as u16 + 1)
                else {
                    return false;
                };
                let number = u64::from(value).wrapping_mul(6_364_136_223_846_793_005);
                self.run.poke_field(chip, proc, field, number);
                self.chips[c].poke_field(proc, field, number);
                return self.run.field(chip, proc, field) == self.chips[c].field(proc, field);
            }
            2 => {
                let there = self.run.poke_flag(chip, proc, number, bit);
                return there == self.chips[c].poke_flag(proc, number, bit);
            }
            _ => {
                if number != FlagNo::ZERO {
                    self.run
                        .poke_flag_plane(chip, number, (value >> 4 & 0xffff) as u16);
                    self.chips[c].poke_flag_plane(number, (value >> 4 & 0xffff) as u16);
                }
            }
        }
        true
    }

    fn are_same(&self) -> bool {
        for c in 0..self.chips.len() {
            if c >= self.run.chips() || c > 4096 || !is_same(&self.run, c as u16, &self.chips[c]) {
                return false;
            }
        }
        self.chips.len() == self.run.chips() && wire(&self.run) == any_drives(&self.chips)
    }
}

fn turn(row: &mut [Plane], sent: &[Plane], turned: Plane) {
    for c in 0..row.len() {
        if c < sent.len() {
            row[c] = sent[c] ^ turned;
        }
    }
}

/// Whether flag GLOBAL is 1 in some processor.
fn any_drives(chips: &[Chip]) -> bool {
    chips.iter().any(|chip| chip.has_flag(FlagNo::GLOBAL))
}

fn step_chips(chips: &mut [Chip], nano: &Nano, incoming: &[Plane]) {
    for c in 0..chips.len() {
        if c < incoming.len() {
            let outputs = chips[c].outputs(nano);
            chips[c].store(nano, outputs, incoming[c]);
        }
    }
}

// Over DAISY each chip's processors get what those before them send.
fn step_along_chains(chips: &mut [Chip], nano: &Nano) {
    for chip in chips.iter_mut() {
        let outputs = chip.outputs(nano);
        chip.store(nano, outputs, previous(outputs.flag));
    }
}

fn is_same(run: &Run, number: u16, chip: &Chip) -> bool {
    if usize::from(number) >= run.chips() {
        return false;
    }
    let view = run.view(number);
    for flag in 0u8..16 {
        let flag = FlagNo::new(flag).unwrap();
        if view.flag_plane(flag) != chip.flag_plane(flag) {
            return false;
        }
    }
    for at in 0u16..72 {
        let at = Addr::new(at).unwrap();
        if view.plane(at) != chip.plane(at) {
            return false;
        }
    }
    true
}

// How many instructions, each with a poke after it, both go the same way.
fn same_steps(alloc: Global, count: u16, most: u32) -> Result<u32, Fail> {
    let mut both = Beside::new(alloc, count)?;
    for done in 0..most {
        let nano = both.nano();
        let has_gone = if done % 3 == 0 {
            both.step_by_halves(alloc, &nano)?
        } else {
            both.step(&nano)
        };
        if !has_gone || !both.poke() || !both.are_same() {
            return Ok(done);
        }
    }
    Ok(most)
}

#[test]
fn a_run_takes_the_steps_and_pokes_of_its_chips(rt: HostRuntime) -> Result<(), Fail> {
    for count in &COUNTS {
        assert_eq!(rt; same_steps(rt.alloc(), *count, 400)?, 400, "{count}");
    }
    Ok(())
}
