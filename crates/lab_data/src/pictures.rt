//! Pictures of machines: a dot for each processor of the grid, or for each chip.

ghost use Rattle.std.specs.Prelude.{◌≡◌, ◌≢◌, ◌*◌, ◌<◌, ◌≤◌, true, false, length, IfOk, IfErr, OnOk};
ghost use Rattle.cm_model.specs.Place.{chip_columns};
ghost use Rattle.lab_data.specs.Data.{processors};
ghost use Rattle.lab_data.specs.Pictures.{chip_rows, is_narrow, greatest_number, buffered, grid_picture};
ghost use Rattle.lab_data.specs.Pictures.{depth_of_greatest, machine_picture};

use crate::data::{flags, get};
use crate::order::{Order, chip_columns, chip_rows, columns, rows};
use cm_array::{MachineOf, Sizes};
use cm_bits::{Field, FlagNo, NoMemory};
use lab_figures::Picture;
use std::alloc::Global;
use thiserror::Error;

/// What a picture shows.
#[derive(Clone, Copy, Debug, PartialEq, Eq)]
pub enum Shown {
    /// A flag of each processor: 1 is black.
    Flag(FlagNo),
    /// The number that each processor has in a memory field: of one bit 1 is black, else 0 is.
    Number(Field),
    /// How many messages stand at each chip: where there is room for one it is black, else none is.
    Buffers,
}

/// Why there is no picture.
#[derive(Clone, Copy, Debug, PartialEq, Eq, Error)]
pub enum ShowFault {
    #[error("a picture has numbers of at most 16 bits")]
    Wide,
    #[error("out of memory")]
    Memory,
}

impl From<NoMemory> for ShowFault {
    ghost use Rattle.std.specs.Prelude.{◌≡◌};
    ghost use Rattle.lab_data.specs.declared.pictures.ShowFault.TheVariants.{Memory};

    ghost from_gives = { λ _ fault. fault ≡ Memory };

    fn from(_: NoMemory) -> ShowFault {
        ShowFault::Memory
    }
}

/// The picture of a machine.
pub fn show<S: Sizes>(
    alloc: Global,
    machine: &MachineOf<S>,
    shown: Shown,
) -> Result<Picture, ShowFault>
    ensures value { IfOk result (λ picture. picture ≡ machine_picture S.n S.cap shown machine.now.machine) }
    ensures narrow { OnOk result (is_narrow shown ≡ true) }
    ensures some { IfOk result (λ picture. 0 < picture.width) }
    ensures wide { IfErr result (λ fault. fault ≢ ShowFault.Memory
        → (fault ≡ ShowFault.Wide) × (is_narrow shown ≡ false)) }
{
    let dims = machine.dims();
    match shown {
        Shown::Flag(number) => {
            let dots = flags(alloc, machine, Order::Rows, number)?;
            Ok(of_grid::<S>(dims, 1, dots))
        }
        Shown::Number(field) => {
            if field.len() > 16 {
                return Err(ShowFault::Wide);
            }
            let dots = get(alloc, machine, Order::Rows, field)?;
            Ok(of_grid::<S>(dims, greatest_of(field.len()), dots))
        }
        Shown::Buffers => {
            let dots = buffered(alloc, machine)?;
            let width = chip_columns::<S>(dims) as u16;
            let height = chip_rows::<S>(dims) as u16;
            Ok(Picture::new(width, height, u16::from(machine.room()), dots))
        }
    }
}

/// A picture of the grid with these dots.
fn of_grid<S: Sizes>(n: u8, greatest: u16, dots: Vec<u64>) -> Picture
    requires n { n ≡ S.n }
    requires dimension { S.n ≤ 12 }
    requires dots { length dots.items ≡ processors S.n }
    ensures value { result ≡ grid_picture S.n greatest dots.items }
    ensures some { 0 < result.width }
{
    Picture::new(columns::<S>(n) as u16, rows::<S>(n) as u16, greatest, dots)
}

/// The greatest number of so many bits.
fn greatest_of(len: u16) -> u16
    requires narrow { len ≤ 16 }
    ensures value { result ≡ greatest_number len }
{
    ((1u32 << len) - 1) as u16
}

/// How many messages stand at each chip, by number.
fn buffered<S: Sizes>(alloc: Global, machine: &MachineOf<S>) -> Result<Vec<u64>, NoMemory>
    requires dimension { S.n ≤ 12 }
    ensures value { IfOk result (λ dots. dots.items ≡ buffered S.n machine.now.machine) }
    ensures count { IfOk result (λ dots. length dots.items ≡ chip_rows S.n * chip_columns S.n) }
{
    let chips = machine.chip_count();
    let mut dots = Vec::with_capacity(alloc, usize::from(chips))?;
    for chip in 0..chips {
        let Ok(()) = dots.push(machine.buffer(chip).len() as u64) else {
            return Err(NoMemory);
        };
    }
    Ok(dots)
}

/// How many bits the numbers of a picture have, of which this is the greatest.
pub(crate) fn bits_of(greatest: u16) -> Option<u16>
    ensures value { result ≡ depth_of_greatest greatest }
{
    for len in 1..17u16 {
        if u64::from(greatest) + 1 == 1 << len {
            return Some(len);
        }
    }
    None
}
