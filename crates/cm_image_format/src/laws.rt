//! Laws over images, at every size of the machine.

ghost use Rattle.cm_image_format.specs.Laws.{TextsAreRead, TextsLeaveOutLogs, OnlyTextsAreRead, TextsAreApart};
ghost use Rattle.cm_image_format.specs.Laws.{TextsHaveNoFault};

/// A machine's text is read as that machine.
pub fn texts_are_read()
    ensures { TextsAreRead }
{}

/// The text of a machine with logs, as a run leaves it, is read as that machine without them.
pub fn texts_leave_out_logs()
    ensures { TextsLeaveOutLogs }
{}

/// Bytes that are read as a machine are its text.
pub fn only_texts_are_read()
    ensures { OnlyTextsAreRead }
{}

/// Two machines with one text are one machine.
pub fn texts_are_apart()
    ensures { TextsAreApart }
{}

/// Bytes have no fault exactly where they are the text of some machine.
pub fn texts_have_no_fault()
    ensures { TextsHaveNoFault }
{}
