//! Laws of pictures: what each function is named for holds, of every machine.

ghost use Rattle.lab_data.specs.PictureLaws.{DotsArePlaces, PicturesReadBack};

/// A dot tells of the processor, or of the chip, that stands in its row and column.
pub fn dots_are_places()
    ensures { DotsArePlaces }
{}

/// A picture whose dots were put into a field of every processor is the picture of that field then.
pub fn pictures_read_back()
    ensures { PicturesReadBack }
{}
