//! Who may begin, as a gate lets it.

ghost use Rattle.std.specs.Prelude.{◌≡◌, IfOk};

use cm_gates::{NoThread, Passage};

/// That a worker was admitted. Nobody makes one but who asked for that worker, so none works of whom nobody asked, and
/// no thread is started before: it takes this with it.
#[derive(Drop)]
pub(crate) struct Admission {
    /// The number of the worker.
    worker: u16,
}

impl Admission {
    /// Asks whether a worker may begin.
    pub(crate) fn ask(passage: &Passage, worker: u16) -> Result<Admission, NoThread>
        ensures worker { IfOk result (λ admission. admission.worker ≡ worker) }
        ensures admitted { IfOk result (λ _. (gate : _) → passage.now ≡ Passage.Gated gate
            → admits (gate.vtable, gate.value) worker) }
    {
        passage.admit(worker)?;
        Ok(Admission { worker })
    }
}
