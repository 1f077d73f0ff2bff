//! The line that tells a fault, and the status that the program ends with.

ghost use Rattle.std.specs.Prelude.{◌≡◌, ◌≤◌, ◌++◌, ◌==◌, false, codes, decimal, IfOk, OnErr, OnOk, IfSome, is_err};
ghost use Rattle.std.specs.Io.KnownBytes.{Appends};
ghost use Rattle.cm_system.specs.Report.{HasFront, HasLine, fault_text, line_place, report_line, status_of};

use cm_bits::{Failed, Sink, write_all};
use cm_refusals::fault_name;
use itoa::Buffer;

const BAD_LINE: u8 = 38;

/// Writes the one line that tells the fault of a number, and answers the exit status.
///
/// A fault of a program text is told with its line, counted from 1. After an `Err` a front of the
/// line may have gone out.
pub fn report<O: Sink>(number: u8, line: Option<u64>, sink: &mut O) -> Result<u8, Failed>
    requires some { 1 ≤ number }
    requires known { number ≤ 38 }
    requires place { IfSome line (λ _. HasLine number) }
    requires working { O.has_failed sink.old ≡ false }

    ensures ok { OnOk result (Appends (O.contents sink.old) (O.contents sink.new) (report_line number line)) }
    ensures status { IfOk result (λ status. status ≡ status_of number) }
    ensures err { OnErr result (HasFront (O.contents sink.old) (O.contents sink.new) (report_line number line)) }
    ensures failed { O.has_failed sink.new ≡ is_err result }
{
    write_message(sink, number, line)?;
    Ok(exit_status(number))
}

fn exit_status(number: u8) -> u8
    ensures value { result ≡ status_of number }
{
    match number {
        BAD_LINE => 2,
        8 | 9 | 14 | 33 => 3,
        30 | 31 => 4,
        _ => 1,
    }
}

fn write_text<O: Sink>(sink: &mut O, text: &str) -> Result<(), Failed>
    requires working { O.has_failed sink.old ≡ false }
    ensures ok { OnOk result (Appends (O.contents sink.old) (O.contents sink.new) text.now) }
    ensures err { OnErr result (HasFront (O.contents sink.old) (O.contents sink.new) text.now) }
    ensures failed { O.has_failed sink.new ≡ is_err result }
{
    match write_all(sink, text.as_bytes()) {
        Ok(()) => Ok(()),
        Err(_) => Err(Failed),
    }
}

fn write_number<O: Sink>(sink: &mut O, number: u64) -> Result<(), Failed>
    requires working { O.has_failed sink.old ≡ false }
    ensures ok { OnOk result (Appends (O.contents sink.old) (O.contents sink.new) (decimal number)) }
    ensures err { OnErr result (HasFront (O.contents sink.old) (O.contents sink.new) (decimal number)) }
    ensures failed { O.has_failed sink.new ≡ is_err result }
{
    let mut digits = Buffer::new();
    write_text(sink, digits.format(number))
}

fn write_message<O: Sink>(sink: &mut O, number: u8, line: Option<u64>) -> Result<(), Failed>
    requires some { 1 ≤ number }
    requires known { number ≤ 38 }
    requires working { O.has_failed sink.old ≡ false }
    ensures ok { OnOk result (Appends (O.contents sink.old) (O.contents sink.new) (report_line number line)) }
    ensures err { OnErr result (HasFront (O.contents sink.old) (O.contents sink.new) (report_line number line)) }
    ensures failed { O.has_failed sink.new ≡ is_err result }
{
    if number == BAD_LINE {
        return write_text(sink, "cm1: bad command line\n");
    }
    write_text(sink, "cm1: ")?;
    write_place(sink, line)?;
    write_fault(sink, number)
}

fn write_place<O: Sink>(sink: &mut O, line: Option<u64>) -> Result<(), Failed>
    requires working { O.has_failed sink.old ≡ false }
    ensures ok { OnOk result (Appends (O.contents sink.old) (O.contents sink.new) (line_place line)) }
    ensures err { OnErr result (HasFront (O.contents sink.old) (O.contents sink.new) (line_place line)) }
    ensures failed { O.has_failed sink.new ≡ is_err result }
{
    let Some(line) = line else {
        return Ok(());
    };
    write_text(sink, "line ")?;
    write_number(sink, line)?;
    write_text(sink, ": ")
}

fn write_fault<O: Sink>(sink: &mut O, number: u8) -> Result<(), Failed>
    requires some { 1 ≤ number }
    requires known { number ≤ 38 }
    requires working { O.has_failed sink.old ≡ false }
    ensures ok { OnOk result (Appends (O.contents sink.old) (O.contents sink.new) (fault_text number)) }
    ensures err { OnErr result (HasFront (O.contents sink.old) (O.contents sink.new) (fault_text number)) }
    ensures failed { O.has_failed sink.new ≡ is_err result }
{
    write_number(sink, u64::from(number))?;
    write_text(sink, " ")?;
    write_text(sink, fault_name(number))?;
    write_text(sink, "\n")
}
