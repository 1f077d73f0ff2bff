//! The machine of an image, which is held or which a source has, in one of the sizes that the programs have.

ghost use Rattle.std.specs.Prelude.{◌≡◌, ◌↔◌, ◌≤◌, ◌++◌, true, false, Ok, Err, IfOk, IfErr, IsErrOf, length};
ghost use Rattle.cm_image_format.specs.Whole.{read_shape};
ghost use Rattle.cm_image_load.specs.Pieces.{GivesRest};
ghost use Rattle.cm_sizes.specs.Sizes.{is_own_room};
ghost use Rattle.cm_sizes.specs.Opening.{image_opened, IsUnopened};
ghost use Rattle.cm_sizes.specs.ImageSources.{IsRefusedAs, IsUnopenedSource, opened_of_source};

use cm_array::{AnyMachine, Sizes};
use cm_bits::Source;
use cm_image_load::{
    ImageFault, PIECE, SourceFault, load_of, load_source, shape, shapes_go_on, take_rest,
};
use std::alloc::Global;
use std::marker::Brand;
use thiserror::Error;

/// Most bytes of an image's file.
pub const IMAGE_LIMIT: u64 = 134217728;

/// Why an image has no machine of the programs' own.
#[derive(Clone, Copy, Debug, PartialEq, Eq, Error)]
pub enum OpenFault {
    #[error("{0}")]
    Image(ImageFault),
    #[error("routers with room for another number of messages than 1 or 7")]
    Room,
}

/// The same of an image that a source has.
#[derive(Clone, Copy, Debug, PartialEq, Eq, Error)]
pub enum OpenSourceFault {
    #[error("{0}")]
    Source(SourceFault),
    #[error("routers with room for another number of messages than 1 or 7")]
    Room,
}

impl From<OpenFault> for OpenSourceFault {
    ghost use Rattle.std.specs.Prelude.{◌≡◌};
    ghost use Rattle.cm_sizes.specs.ImageSources.{of_open};

    ghost from_gives = { λ fault whole. whole ≡ of_open fault };

    fn from(fault: OpenFault) -> OpenSourceFault {
        match fault {
            OpenFault::Image(own) => OpenSourceFault::Source(SourceFault::Image(own)),
            OpenFault::Room => OpenSourceFault::Room,
        }
    }
}

/// The machine of an image: its shape is looked at first, whether the programs have machines of its room, then all of
/// it.
#[tactic(auto, using(crate::proofs::Opened::unshaped, crate::proofs::Opened::foreign))]
pub fn open_image(alloc: Global, image: &[u8]) -> Result<AnyMachine, OpenFault>
    ensures value { IfOk result (λ machine. image_opened image.now ≡ Ok machine) }
    ensures refused { IfErr result (IsUnopened image.now) }
{
    let (n, cap) = match shape(image) {
        Ok(sizes) => sizes,
        Err(fault) => return Err(OpenFault::Image(fault)),
    };
    if !is_own_room(cap) {
        return Err(OpenFault::Room);
    }
    machine_of::<Brand>(alloc, n, cap, image)
}

/// Whether the programs have machines whose routers have room for so many messages.
fn is_own_room(cap: u8) -> bool
    ensures value { result ≡ is_own_room cap }
{
    cap == 1 || cap == 7
}

/// The same at these sizes.
fn machine_of<S: Sizes>(
    alloc: Global,
    n: u8,
    cap: u8,
    image: &[u8],
) -> Result<AnyMachine, OpenFault>
    requires n { n ≡ S.n }
    requires cap { cap ≡ S.cap }
    requires shape { read_shape image.now ≡ Ok (S.n, S.cap) }
    requires own { is_own_room S.cap ≡ true }
    ensures value { IfOk result (λ machine. image_opened image.now ≡ Ok machine) }
    ensures refused { IfErr result (IsUnopened image.now) }
{
    match load_of::<S>(alloc, usize::from(n), usize::from(cap), image) {
        Ok(machine) => Ok(AnyMachine::of(machine)),
        Err(fault) => Err(OpenFault::Image(fault)),
    }
}

/// The machine of an image that a source has, which is read to its end.
pub fn open_image_source<I: Source>(
    alloc: Global,
    source: &mut I,
) -> Result<AnyMachine, OpenSourceFault>
    requires working { I.has_failed source.old ≡ false }
    ensures value { IfOk result (λ machine. GivesRest IMAGE_LIMIT (I.left source.old) (I.left source.new)
        (λ image. image_opened image ≡ Ok machine)) }
    ensures refused { IfErr result (IsUnopenedSource IMAGE_LIMIT (I.left source.old) (I.left source.new)) }
    ensures read { (I.has_failed source.new ≡ true)
        ↔ IsErrOf result (OpenSourceFault.Source SourceFault.Read) }
{
    let mut piece = [0u8; PIECE];
    match source.read(&mut piece) {
        Ok(count) => open_behind(alloc, &piece[..count], source, IMAGE_LIMIT - count as u64),
        Err(_) => Err(OpenSourceFault::Source(SourceFault::Read)),
    }
}

/// The machine whose image these bytes are and all that a source has behind them. Those of ten dimensions and more are
/// read while their bytes come; others are few.
fn open_behind<I: Source>(
    alloc: Global,
    front: &[u8],
    source: &mut I,
    most: u64,
) -> Result<AnyMachine, OpenSourceFault>
    requires few { length front.now ≤ 65536 }
    requires working { I.has_failed source.old ≡ false }
    ensures value { IfOk result (λ machine. GivesRest most (I.left source.old) (I.left source.new)
        (λ more. image_opened (front.now ++ more) ≡ Ok machine)) }
    ensures refused { IfErr result (IsRefusedAs (λ own more. image_opened (front.now ++ more) ≡ Err own)
        most (I.left source.old) (I.left source.new)) }
    ensures read { (I.has_failed source.new ≡ true)
        ↔ IsErrOf result (OpenSourceFault.Source SourceFault.Read) }
{
    match shape(front) {
        Ok((n, cap)) if n >= 10 && is_own_room(cap) => {
            machine_behind::<Brand, I>(alloc, n, cap, front, source, most)
        }
        _ => open_held(alloc, front, source, most),
    }
}

/// The same, by all bytes together.
fn open_held<I: Source>(
    alloc: Global,
    front: &[u8],
    source: &mut I,
    most: u64,
) -> Result<AnyMachine, OpenSourceFault>
    requires working { I.has_failed source.old ≡ false }
    ensures value { IfOk result (λ machine. GivesRest most (I.left source.old) (I.left source.new)
        (λ more. image_opened (front.now ++ more) ≡ Ok machine)) }
    ensures refused { IfErr result (IsRefusedAs (λ own more. image_opened (front.now ++ more) ≡ Err own)
        most (I.left source.old) (I.left source.new)) }
    ensures read { (I.has_failed source.new ≡ true)
        ↔ IsErrOf result (OpenSourceFault.Source SourceFault.Read) }
{
    match take_rest(alloc, front, source, most) {
        Ok(image) => of_source(open_image(alloc, image.as_slice())),
        Err(fault) => Err(OpenSourceFault::Source(fault)),
    }
}

/// What comes of an image that is held, told as of a source.
fn of_source<M: Drop>(opened: Result<M, OpenFault>) -> Result<M, OpenSourceFault>
    ensures value { result ≡ opened_of_source opened }
{
    match opened {
        Ok(machine) => Ok(machine),
        Err(fault) => Err(OpenSourceFault::from(fault)),
    }
}

/// The same while its bytes come, at these sizes.
fn machine_behind<S: Sizes, I: Source>(
    alloc: Global,
    n: u8,
    cap: u8,
    front: &[u8],
    source: &mut I,
    most: u64,
) -> Result<AnyMachine, OpenSourceFault>
    requires few { length front.now ≤ 65536 }
    requires working { I.has_failed source.old ≡ false }
    requires n { n ≡ S.n }
    requires cap { cap ≡ S.cap }
    requires shape { read_shape front.now ≡ Ok (S.n, S.cap) }
    requires own { is_own_room S.cap ≡ true }
    ensures value { IfOk result (λ machine. GivesRest most (I.left source.old) (I.left source.new)
        (λ more. image_opened (front.now ++ more) ≡ Ok machine)) }
    ensures refused { IfErr result (IsRefusedAs (λ own more. image_opened (front.now ++ more) ≡ Err own)
        most (I.left source.old) (I.left source.new)) }
    ensures read { (I.has_failed source.new ≡ true)
        ↔ IsErrOf result (OpenSourceFault.Source SourceFault.Read) }
{
    shapes_go_on();
    match load_source::<S, I>(alloc, usize::from(n), usize::from(cap), front, source, most) {
        Ok(machine) => Ok(AnyMachine::of(machine)),
        Err(fault) => Err(OpenSourceFault::Source(fault)),
    }
}
