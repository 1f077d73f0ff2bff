//! Laws over images, at every size of the machine.

ghost use Rattle.cm_image_dump.specs.Longest.{TextsAreShort};

use cm_model::cuts_are_few;

/// No image is longer than one with all wires cut, all planes listed and every router full.
pub fn texts_are_short()
    ensures { TextsAreShort }
{
    cuts_are_few();
}
