//! Laws of data: what each function is named for holds, of every machine.

ghost use Rattle.lab_data.specs.DataLaws.{EachProcessorComesOnce, PutNumbersReadBack};

/// In either order each processor comes once.
pub fn each_processor_comes_once()
    ensures { EachProcessorComesOnce }
{}

/// Numbers that were put into a field of every processor are those that it has then.
pub fn numbers_read_back()
    ensures { PutNumbersReadBack }
{}
