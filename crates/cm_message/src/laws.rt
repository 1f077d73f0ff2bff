//! Laws over the bytes of a message.

ghost use Rattle.cm_message.specs.Laws.{MessagesAreRead, OnlyTheirBytesAreRead};

/// A message is read from its bytes.
pub fn messages_are_read()
    ensures { MessagesAreRead }
{}

/// Eighteen bytes of which a message is read are the bytes of that message.
pub fn only_their_bytes_are_read()
    ensures { OnlyTheirBytesAreRead }
{}
