//! Bytes of images that were damaged: cut, changed at each place, or drawn.

ghost use Rattle.std.specs.Prelude.{◌≡◌, ◌≤◌, ◌^◌};

use crate::drawn::{few, routed};
use crate::reader::Reader;
use crate::texts::{ONE_CHIP, changed};
use cm_array::Machine;
use cm_image_dump::dump;
use cm_image_load::{ImageFault, load};
use std::alloc::Global;
use std::test::Fail;
use test_generators::Draws;

/// Two chips, room for seven messages, counter 1; a message with one tag at each.
static TWO_CHIPS: [u8; 122] = [
    0x43, 0x4d, 0x31, 0x49, 1, 1, 7, 0, 0, 0, 0, 0, 0, 0, 0, 1, 0, 0, 0, 0, 0, 0, 0, 0, 0, 0, 0, 0,
    0, 0, 0, 0, 0, 0, 0, 0, 0, 0, 0, 0, 0, 0, 0, 0, 0, 0, 0, 0, 0, 0, 1, 0, 0, 0, 0, 0, 0, 0, 0, 0,
    0, 0, 0, 0, 0, 0, 0, 0, 0, 0, 0, 0, 0, 0, 0, 0, 0, 0, 0, 0, 0, 0, 0, 0, 0, 0, 0, 0, 0, 0, 0, 0,
    0, 0, 0, 0, 0, 0, 0, 0, 0, 0, 0, 1, 0, 0, 0, 0, 0, 0, 0, 0, 0, 0, 0, 0, 0, 0, 0, 0, 0, 0,
];

/// Four chips, room for one message, counter 1; three wires are cut, the oldest goes first, and a message at chip 0.
pub(crate) static FOUR_CHIPS: [u8; 185] = [
    0x43, 0x4d, 0x31, 0x49, 2, 2, 1, 1, 0, 0, 0, 0, 0, 0, 0, 1, 0, 3, 0, 0, 0, 0, 1, 1, 0, 2, 0, 0,
    0, 0, 0, 0, 0, 0, 0, 0, 0, 0, 0, 0, 0, 0, 0, 0, 0, 0, 0, 0, 0, 0, 0, 0, 0, 0, 0, 0, 0, 0, 0, 0,
    0, 1, 0, 2, 5, 1, 2, 3, 4, 0, 3, 15, 0, 0, 0, 0, 0, 0, 0, 0, 0, 0, 0, 0, 0, 0, 0, 0, 0, 0, 0,
    0, 0, 0, 0, 0, 0, 0, 0, 0, 0, 0, 0, 0, 0, 0, 0, 0, 0, 0, 0, 0, 0, 0, 0, 0, 0, 0, 0, 0, 0, 0, 0,
    0, 0, 0, 0, 0, 0, 0, 0, 0, 0, 0, 0, 0, 0, 0, 0, 0, 0, 0, 0, 0, 0, 0, 0, 0, 0, 0, 0, 0, 0, 0, 0,
    0, 0, 0, 0, 0, 0, 0, 0, 0, 0, 0, 0, 0, 0, 0, 0, 0, 0, 0, 0, 0, 0, 0, 0, 0, 0, 0, 0, 0, 0,
];

/// One message, of bytes that are all 0.
static ONE_MESSAGE: [u8; 19] = [1, 0, 0, 0, 0, 0, 0, 0, 0, 0, 0, 0, 0, 0, 0, 0, 0, 0, 0];

/// Whether a machine has these bytes.
fn is_written<const N: usize, const CAP: usize>(
    alloc: Global,
    machine: &Machine<N, CAP>,
    bytes: &[u8],
) -> Result<bool, Fail> {
    Ok(dump(alloc, machine)?.as_slice() == bytes)
}

/// Whether bytes are refused with this fault, or, where it is none, are read and written back.
fn goes_so<const N: usize, const CAP: usize>(
    alloc: Global,
    bytes: &[u8],
    fault: Option<ImageFault>,
) -> Result<bool, Fail> {
    match load::<N, CAP>(alloc, bytes) {
        Ok(machine) => Ok(fault.is_none() && is_written(alloc, &machine, bytes)?),
        Err(found) => Ok(fault == Some(found)),
    }
}

/// How many bytes of an image are not refused as Short when they stand alone.
fn first_not_short<const N: usize, const CAP: usize>(
    alloc: Global,
    whole: &[u8],
) -> Result<usize, Fail> {
    for len in 0..whole.len() {
        let bytes = whole.get(..len).unwrap_or(&[]);
        if !goes_so::<N, CAP>(alloc, bytes, Some(ImageFault::Short))? {
            return Ok(len);
        }
    }
    Ok(whole.len())
}

/// What a plain reader refuses bytes with.
fn fault_of(alloc: Global, n: u8, cap: u8, bytes: &[u8]) -> Option<ImageFault> {
    let mut reader = Reader::new(alloc);
    reader.read(n, cap, bytes).err()
}

/// The first place of an image at which another byte is taken in another way than by a plain reader.
fn first_not_so<const N: usize, const CAP: usize>(
    alloc: Global,
    whole: &[u8],
) -> Result<Option<(usize, u8)>, Fail>
    requires dimension { N ≤ 12 }
    requires room { CAP ≤ 15 }
{
    for at in 0..whole.len() {
        for byte in 0..=255u8 {
            let bytes = changed(alloc, whole, at, 1, &[byte])?;
            let fault = fault_of(alloc, N as u8, CAP as u8, &bytes);
            if !goes_so::<N, CAP>(alloc, &bytes, fault)? {
                return Ok(Some((at, byte)));
            }
        }
    }
    Ok(None)
}

/// The bytes with one changed, cut off, doubled or put in at a drawn place.
fn damaged(alloc: Global, draws: &mut Draws, bytes: &[u8]) -> Result<Vec<u8>, Fail> {
    let at = usize::from(draws.below(65_535)) % (bytes.len() + 1);
    let here = bytes.get(at).copied().unwrap_or(0);
    let small = draws.below(6) as u8;
    Ok(match draws.below(5) {
        0 => changed(alloc, bytes, at, 1, &[draws.below(256) as u8])?,
        1 => changed(alloc, bytes, at, 1, &[small])?,
        2 => changed(alloc, bytes, at, bytes.len(), &[])?,
        3 => changed(alloc, bytes, at, 0, &[here])?,
        _ => changed(alloc, bytes, at, 0, &[small])?,
    })
}

/// So many chips with drawn planes, flags and messages, of which this version has an image.
fn drawn_machine<const N: usize, const CAP: usize>(
    alloc: Global,
    draws: &mut Draws,
    chips: u16,
    version: u8,
) -> Option<Machine<N, CAP>>
    requires cube { chips ≡ 2 ^ N }
{
    match version {
        1 => few(alloc, draws, chips),
        _ => routed(alloc, draws, chips),
    }
}

/// A machine's image, if it is in this version.
fn image_of<const N: usize, const CAP: usize>(
    alloc: Global,
    machine: &Machine<N, CAP>,
    version: u8,
) -> Option<Vec<u8>> {
    let bytes = dump(alloc, machine).ok()?;
    let is_so = bytes.get(4).copied() == Some(version);
    if is_so { Some(bytes) } else { None }
}

/// The image of so many chips with drawn planes, flags and messages, in this version.
fn drawn<const N: usize, const CAP: usize>(
    alloc: Global,
    draws: &mut Draws,
    chips: u16,
    version: u8,
) -> Option<Vec<u8>>
    requires cube { chips ≡ 2 ^ N }
{
    let machine = drawn_machine::<N, CAP>(alloc, draws, chips, version)?;
    image_of(alloc, &machine, version)
}

/// Whether an image and twenty damages of it go as by a plain reader.
fn go_so<const N: usize, const CAP: usize>(
    alloc: Global,
    draws: &mut Draws,
    whole: &[u8],
) -> Result<bool, Fail>
    requires dimension { N ≤ 12 }
    requires room { CAP ≤ 15 }
{
    let (n, cap) = (N as u8, CAP as u8);
    let mut so = fault_of(alloc, n, cap, whole).is_none() && goes_so::<N, CAP>(alloc, whole, None)?;
    for _ in 0..20 {
        let bytes = damaged(alloc, draws, whole)?;
        so = so && goes_so::<N, CAP>(alloc, &bytes, fault_of(alloc, n, cap, &bytes))?;
    }
    Ok(so)
}

/// How many of these drawn images of so many chips go as by a plain reader, and so do their damages.
fn all_go_so<const N: usize, const CAP: usize>(
    alloc: Global,
    chips: u16,
    version: u8,
    images: u32,
) -> Result<u32, Fail>
    requires cube { chips ≡ 2 ^ N }
    requires dimension { N ≤ 12 }
    requires room { CAP ≤ 15 }
{
    let mut draws = Draws::new(7);
    for i in 0..images {
        let whole = drawn::<N, CAP>(alloc, &mut draws, chips, version).ok_or("no image")?;
        if !go_so::<N, CAP>(alloc, &mut draws, &whole)? {
            return Ok(i);
        }
    }
    Ok(images)
}

#[test]
fn bytes_that_are_cut_are_short(rt: HostRuntime) -> Result<(), Fail> {
    let lengths = [
        first_not_short::<1, 7>(rt.alloc(), &TWO_CHIPS)?,
        first_not_short::<2, 1>(rt.alloc(), &FOUR_CHIPS)?,
    ];
    assert_eq!(rt; lengths, [122, 185]);
    let whole = [
        goes_so::<1, 7>(rt.alloc(), &TWO_CHIPS, Some(ImageFault::TagTwice))?,
        goes_so::<2, 1>(rt.alloc(), &FOUR_CHIPS, None)?,
    ];
    assert_eq!(rt; whole, [true; 2]);
    Ok(())
}

#[test]
fn each_other_byte_is_refused_or_another_machine(rt: HostRuntime) -> Result<(), Fail> {
    let alloc = rt.alloc();
    let one_chip = changed(alloc, &ONE_CHIP, 50, 1, &ONE_MESSAGE)?;
    assert_eq!(rt; first_not_so::<0, 7>(alloc, &one_chip)?, None);
    Ok(())
}

#[test]
fn each_other_byte_of_an_image_with_cut_wires_is_refused_or_another_machine(
    rt: HostRuntime,
) -> Result<(), Fail> {
    assert_eq!(rt; first_not_so::<2, 1>(rt.alloc(), &FOUR_CHIPS)?, None);
    Ok(())
}

#[test]
fn drawn_images_and_a_thousand_damages_go_as_by_a_plain_reader(
    rt: HostRuntime,
) -> Result<(), Fail> {
    let alloc = rt.alloc();
    let sizes = [
        all_go_so::<2, 3>(alloc, 4, 1, 50)?,
        all_go_so::<3, 7>(alloc, 8, 1, 20)?,
        all_go_so::<5, 1>(alloc, 32, 1, 20)?,
    ];
    assert_eq!(rt; sizes, [50, 20, 20]);
    Ok(())
}

#[test]
fn drawn_images_with_cut_wires_and_a_thousand_damages_go_as_by_a_plain_reader(
    rt: HostRuntime,
) -> Result<(), Fail> {
    let alloc = rt.alloc();
    let sizes = [
        all_go_so::<1, 2>(alloc, 2, 2, 20)?,
        all_go_so::<2, 3>(alloc, 4, 2, 30)?,
        all_go_so::<3, 7>(alloc, 8, 2, 20)?,
    ];
    assert_eq!(rt; sizes, [20, 30, 20]);
    Ok(())
}
