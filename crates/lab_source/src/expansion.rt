//! Sources to program texts.

ghost use Rattle.std.specs.Prelude.{◌≡◌, ◌≢◌, ◌+◌, ◌<◌, ◌^◌, Ok, Err, IfOk, IfErr, map};
ghost use Rattle.cm_bits.specs.Text.{lines_of};
ghost use Rattle.cm_language.specs.declared.fault.AsmKind.TheVariants as asm;
ghost use Rattle.lab_source.specs.declared.fault.SourceKind.TheVariants.{Asm};
ghost use Rattle.lab_source.specs.Layout.{layout_of};
ghost use Rattle.lab_source.specs.Expansion.{nothing_out, expansion_after_places, expansion_of};

use crate::constants::Constants;
use crate::expanding::Expanding;
use crate::fault::{SourceFault, SourceKind};
use crate::layout::Layout;
use cm_bits::Lines;
use cm_language::AsmKind;
use std::alloc::Global;

/// The program text of a source, or its first faulty line, counted from 1, blank ones too. Faults of `constant`,
/// `repeat` and `end` come before all others.
pub fn expand(alloc: Global, source: &[u8]) -> Result<Vec<u8>, SourceFault>
    ensures value { IfOk result (λ text. expansion_of source.now ≡ Ok text.items) }
    ensures refused { IfErr result (λ fault. fault.kind ≢ Asm asm.Memory → expansion_of source.now ≡ Err fault) }
{
    let (constants, order) = match lay_out(alloc, source) {
        Ok(laid) => laid.into_parts(),
        Err(fault) => return Err(fault),
    };
    let lines = match lines_of(alloc, source) {
        Ok(lines) => lines,
        Err(fault) => return Err(fault),
    };
    match carry_out(alloc, lines.as_slice(), &constants, order.as_slice()) {
        Ok(out) => Ok(out.into_text()),
        Err(fault) => Err(fault),
    }
}

/// What the lines of a source lay out.
fn lay_out(alloc: Global, source: &[u8]) -> Result<Layout, SourceFault>
    ensures value { IfOk result (λ laid. layout_of (lines_of source.now) ≡ Ok laid) }
    ensures refused { IfErr result (λ fault. fault.kind ≢ Asm asm.Memory
        → layout_of (lines_of source.now) ≡ Err fault) }
{
    let mut laid = Layout::new(alloc);
    let mut place = 0;
    for line in Lines::new(source) {
        match laid.read_line(alloc, place, line) {
            Ok(()) => {}
            Err(kind) => return Err(at(place, kind)),
        }
        place += 1;
    }
    laid.all_closed()
}

/// The lines of a source, to be found by their places.
fn lines_of(alloc: Global, source: &[u8]) -> Result<Vec<&[u8]>, SourceFault>
    ensures value { IfOk result (λ lines. map (λ line. line.now) lines.items ≡ lines_of source.now) }
    ensures memory { IfErr result (λ fault. fault.kind ≡ Asm asm.Memory) }
{
    let mut lines = Vec::new(alloc);
    for line in Lines::new(source) {
        if lines.push(line).is_err() {
            return Err(SourceFault {
                line: 1,
                kind: SourceKind::Asm(AsmKind::Memory),
            });
        }
    }
    Ok(lines)
}

/// What comes out of the lines at these places, one after another.
fn carry_out(
    alloc: Global,
    lines: &[&[u8]],
    constants: &Constants,
    order: &[usize],
) -> Result<Expanding, SourceFault>
    ensures value { IfOk result (λ out.
        expansion_after_places (map (λ line. line.now) lines.now) constants.now nothing_out order.now ≡ Ok out) }
    ensures refused { IfErr result (λ fault. fault.kind ≢ Asm asm.Memory
        → expansion_after_places (map (λ line. line.now) lines.now) constants.now nothing_out order.now ≡ Err fault) }
{
    let mut out = Expanding::new(alloc);
    for place in order {
        let Some(line) = lines.get(*place) else {
            continue;
        };
        match out.write(alloc, constants, *place, line) {
            Ok(()) => {}
            Err(kind) => return Err(at(*place, kind)),
        }
    }
    Ok(out)
}

/// A fault of the line at this place.
fn at(place: usize, kind: SourceKind) -> SourceFault
    requires within { place + 1 < 2 ^ 64 }
    ensures value { result ≡ record { line = place + 1; kind = kind } }
{
    SourceFault {
        line: place as u64 + 1,
        kind,
    }
}
