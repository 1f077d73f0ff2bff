//! One number for each processor: how they come into a field of all, and out of it.

ghost use Rattle.std.specs.Prelude.{◌≡◌, ◌<◌, ◌≤◌, ◌^◌, length, slice_index, slice_set, IfOk};
ghost use Rattle.cm_bits.specs.Bit.{bit, bit_number};
ghost use Rattle.cm_model.specs.Array.{chip_at};
ghost use Rattle.cm_model.specs.Keeping.{IsMachine};
ghost use Rattle.cm_element.specs.Wide.{with_memory_field};
ghost use Rattle.lab_data.specs.Data.{processors, numbers_of, flags_of, chip_with_numbers, machine_with_numbers};

use crate::order::{Order, processors};
use cm_array::{MachineOf, Sizes, pokes_keep_machines};
use cm_bits::{Addr, Field, FlagNo, NoMemory, PROCESSORS, Place, Proc};
use std::alloc::Global;

/// The number that each processor has in a memory field, in this order.
pub fn get<S: Sizes>(
    alloc: Global,
    machine: &MachineOf<S>,
    order: Order,
    field: Field,
) -> Result<Vec<u64>, NoMemory>
    ensures value { IfOk result (λ numbers. numbers.items
        ≡ numbers_of S.n order field.at field.len machine.now.machine.chips) }
    ensures count { IfOk result (λ numbers. length numbers.items ≡ processors S.n) }
{
    let dims = machine.dims();
    let count = processors::<S>(dims);
    let mut numbers = Vec::with_capacity(alloc, count)?;
    for index in 0..count {
        let place = order.place_in::<S>(dims, index);
        let number = machine.chip(place.chip).field(place.proc, field);
        let Ok(()) = numbers.push(number) else {
            return Err(NoMemory);
        };
    }
    Ok(numbers)
}

/// The flag of this number that each processor has, as 0 or 1, in this order.
pub fn flags<S: Sizes>(
    alloc: Global,
    machine: &MachineOf<S>,
    order: Order,
    number: FlagNo,
) -> Result<Vec<u64>, NoMemory>
    ensures value { IfOk result (λ flags. flags.items ≡ flags_of S.n order number machine.now.machine.chips) }
    ensures count { IfOk result (λ flags. length flags.items ≡ processors S.n) }
{
    let dims = machine.dims();
    let count = processors::<S>(dims);
    let mut flags = Vec::with_capacity(alloc, count)?;
    for index in 0..count {
        let here = order.place_in::<S>(dims, index);
        let bit = machine.chip(here.chip).flag(here.proc, number);
        let Ok(()) = flags.push(bit_number(bit)) else {
            return Err(NoMemory);
        };
    }
    Ok(flags)
}

fn bit_number(bit: bool) -> u64
    ensures value { result ≡ bit_number bit }
{
    if bit { 1 } else { 0 }
}

/// Puts a number into a memory field of each processor: they come in this order, and of each the lowest bits go there.
pub fn put<S: Sizes>(machine: &mut MachineOf<S>, order: Order, field: Field, numbers: &[u64])
    requires count { length numbers.now ≡ processors S.n }
    ensures value { machine.new ≡ record machine.old {
      machine = machine_with_numbers S.n order field.at field.len numbers.now machine.old.machine;
    } }
{
    // For the prover alone: a call brings in what holds of every machine.
    let _clock = machine.clock();
    let chips = machine.chip_count();
    for chip in 0..chips {
        put_chip(machine, chip, order, field, numbers);
    }
}

/// Puts into a field of each processor of a chip its number.
fn put_chip<S: Sizes>(
    machine: &mut MachineOf<S>,
    chip: u16,
    order: Order,
    field: Field,
    numbers: &[u64],
)
    requires dimension { S.n ≤ 12 }
    requires chip { chip < 2 ^ S.n }
    requires count { length numbers.now ≡ processors S.n }
    requires whole { IsMachine S.n S.cap machine.old.machine }
    ensures value { machine.new ≡ record machine.old {
      machine = record machine.old.machine {
        chips = slice_set machine.old.machine.chips chip
            (chip_with_numbers S.n order field.at field.len numbers.now chip (chip_at machine.old.machine.chips chip));
      };
    } }
    ensures whole { IsMachine S.n S.cap machine.new.machine }
{
    let dims = machine.dims();
    for p in 0..PROCESSORS {
        let proc = Proc::new(p).unwrap();
        let number = numbers[order.index_in::<S>(dims, Place { chip, proc })];
        put_number(machine, chip, proc, field, number);
    }
}

/// Puts the lowest bits of a number into a field of one processor.
fn put_number<S: Sizes>(
    machine: &mut MachineOf<S>,
    chip: u16,
    proc: Proc,
    field: Field,
    number: u64,
)
    requires chip { chip < 2 ^ S.n }
    requires whole { IsMachine S.n S.cap machine.old.machine }
    ensures value { machine.new ≡ record machine.old {
      machine = record machine.old.machine {
        chips = slice_set machine.old.machine.chips chip
            (with_memory_field (chip_at machine.old.machine.chips chip) proc field.at field.len number);
      };
    } }
    ensures whole { IsMachine S.n S.cap machine.new.machine }
{
    pokes_keep_machines();
    let at = field.at();
    // For the prover alone: this brings in that the number is below 16.
    let _proc = proc.get();
    for i in 0..field.len() {
        machine.poke(chip, proc, Addr::new(at + i).unwrap(), bit_of(number, i));
    }
}

fn bit_of(number: u64, i: u16) -> bool
    requires { i < 64 }
    ensures value { result ≡ bit number i }
{
    number >> i & 1 == 1
}
