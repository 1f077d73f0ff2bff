//! Text on its way to a sink.

ghost use Rattle.std.specs.Prelude.{◌≡◌, ◌+◌, ◌<◌, ◌^◌, [], false, length, is_err, IfOk, IfErr, OnOk};
ghost use Rattle.cm_weave_text.specs.Ends.{is_weave_write};
ghost use Rattle.cm_weave_text.specs.Hearing.{HasSentFront, TextAborts};

use crate::fault::WeaveFault;
use cm_bits::{Sink, write_all};

/// Writes all of a text, behind so many bytes, and tells how many they are then.
pub fn send<O: Sink>(text: &mut Vec<u8>, sent: u128, out: &mut O) -> Result<u128, WeaveFault>
    requires writer { O.has_failed out.old ≡ false }
    requires room { sent + length text.old.items < 2 ^ 128 }
    ensures ok { IfOk result (HasSentFront text.old.items sent (O.contents out.old) (O.contents out.new) []) }
    ensures none { OnOk result (text.new.items ≡ []) }
    ensures err { IfErr result (TextAborts text.old.items sent (O.contents out.old) (O.contents out.new)) }
    ensures failed { O.has_failed out.new ≡ is_weave_write result }
{
    match write_all(out, text) {
        Ok(()) => {
            let count = text.len() as u128;
            text.clear();
            Ok(sent + count)
        }
        Err(fault) => Err(WeaveFault::Write(sent + fault.0 as u128)),
    }
}
