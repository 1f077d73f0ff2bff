//! The numbers of what is wrong with a program text and with an image.

ghost use Rattle.std.specs.Prelude.{◌≡◌};
ghost use Rattle.cm_refusals.specs.Refusals.{image_number, kind_number};

use cm_image_format::ImageFault;
use cm_language::AsmKind;

/// The number of what is wrong with a line of a program text.
pub fn kind_number(kind: AsmKind) -> u8
    ensures value { result ≡ kind_number kind }
{
    match kind {
        AsmKind::Width => 1,
        AsmKind::Range => 2,
        AsmKind::Overlap => 10,
        AsmKind::Lengths => 11,
        AsmKind::Scratch => 12,
        AsmKind::Context => 13,
        AsmKind::Memory => 14,
        AsmKind::Word => 15,
        AsmKind::Operands => 16,
        AsmKind::Number => 17,
        AsmKind::Name => 18,
        AsmKind::Twice => 19,
        AsmKind::TooLong => 20,
    }
}

/// The number of what is wrong with an image.
pub fn image_number(fault: ImageFault) -> u8
    ensures value { result ≡ image_number fault }
{
    match fault {
        ImageFault::Short => 21,
        ImageFault::Magic => 22,
        ImageFault::Version => 23,
        ImageFault::Shape => 24,
        ImageFault::Order => 25,
        ImageFault::Count => 26,
        ImageFault::Value => 27,
        ImageFault::TagTwice => 28,
        ImageFault::Extra => 29,
        ImageFault::Memory => 33,
    }
}
