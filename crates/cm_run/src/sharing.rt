//! How a session on a machine is shared out.

ghost use Rattle.std.specs.Prelude.{◌≡◌, ◌≤◌, Some, None, IfErr, IsErrOf, OnOk};
ghost use Rattle.cm_run.specs.Sharing.{sharing_fault};

use cm_system::ProgramFault;

/// Into how many blocks a machine is cut, and among how many workers they are dealt out.
#[derive(Clone, Copy)]
pub struct Sharing {
    /// There are 2^`split` blocks.
    pub split: u8,
    pub workers: u8,
}

impl Sharing {
    /// Looks whether a machine of 2^`n` chips can be shared out so.
    pub fn check(&self, n: u8) -> Result<(), ProgramFault>
        requires dimension { n ≤ 12 }
        ensures ok { OnOk result (sharing_fault n self.now ≡ None) }
        ensures err { IfErr result (λ fault. sharing_fault n self.now ≡ Some fault) }
        ensures unread { ¬ IsErrOf result ProgramFault.Read }
        ensures unwritten { ¬ IsErrOf result ProgramFault.Write }
        ensures threads { ¬ IsErrOf result ProgramFault.NoThread }
    {
        if self.split > n - n / 2 {
            return Err(ProgramFault::Split);
        }
        if self.workers == 0 || self.workers > 1 << self.split {
            return Err(ProgramFault::Workers);
        }
        Ok(())
    }
}
