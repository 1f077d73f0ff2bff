//! A call of lab_source.

ghost use Rattle.std.specs.Prelude.{◌≡◌, ◌≢◌, Ok, Err, IfOk, IfErr};
ghost use Rattle.cm_language.specs.declared.fault.AsmKind.TheVariants as asm;
ghost use Rattle.lab_source.specs.declared.fault.SourceKind.TheVariants.{Asm};
ghost use Rattle.lab_source.specs.Expansion.{expansion_of};

use lab_source::SourceFault;
use std::alloc::Global;

/// What `lab_source::expand` promises, word for word.
pub fn expand(alloc: Global, source: &[u8]) -> Result<Vec<u8>, SourceFault>
    ensures value { IfOk result (λ text. expansion_of source.now ≡ Ok text.items) }
    ensures refused { IfErr result (λ fault. fault.kind ≢ Asm asm.Memory → expansion_of source.now ≡ Err fault) }
{
    match lab_source::expand(alloc, source) {
        Ok(text) => Ok(text),
        Err(fault) => Err(fault),
    }
}
