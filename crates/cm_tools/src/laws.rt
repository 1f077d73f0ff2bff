//! Laws over the definitions: what each function is named for holds, for every text.

ghost use Rattle.cm_tools.specs.Laws.{ChipTextsArePrograms, ChipFaultsAreFaults};

/// A text that a session of one chip accepts is a program without fields, and its acts are the text's instructions.
pub fn chip_texts_are_programs()
    ensures { ChipTextsArePrograms }
{}

/// What such a session refuses for anything but a first word, the assembler refuses at that line with that fault.
pub fn chip_faults_are_faults()
    ensures { ChipFaultsAreFaults }
{}
