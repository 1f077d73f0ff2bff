//! Why the program ends with a status other than 0.

ghost use Rattle.std.specs.Prelude.{◌≡◌, ◌≤◌, IfSome};
ghost use Rattle.cm_system.specs.Report.{HasLine};
ghost use Rattle.cm_system.specs.ProgramFault.{reported_number, fault_line};

use crate::fault::ChipFault;
use crate::read_all::TakeFault;
use crate::system::PutFault;
use cm_args::LineFault;
use cm_image_format::ImageFault;
use cm_image_load::SourceFault;
use cm_language::AsmFault;
use cm_refusals::{image_number, kind_number};
use cm_session::SessionFault;
use cm_sizes::OpenSourceFault;
use cm_weave::WorldFault;
use cm_weave_text::WeaveFault;

/// A fault of the whole program, by the numbers of the one list of refusals.
#[derive(Clone, Copy, Debug, PartialEq, Eq)]
pub enum ProgramFault {
    BadLine,
    Text(AsmFault),
    Image(ImageFault),
    /// A machine's routers have another room than the program's machines.
    Cap,
    Read,
    Write,
    TooMuch,
    Memory,
    NoThread,
    /// A machine cannot be cut into so many blocks.
    Split,
    /// There are no workers, or more than blocks.
    Workers,
    /// A program is longer than one stretch.
    Long,
    /// The counter of petit cycles would pass its end.
    Clock,
    /// A block has steps left.
    Unfinished,
}

impl ProgramFault {
    /// The number that `report` is told.
    pub fn number(&self) -> u8
        ensures value { result ≡ reported_number self.now }
        ensures some { 1 ≤ result }
        ensures known { result ≤ 38 }
    {
        match self {
            ProgramFault::BadLine => 38,
            ProgramFault::Text(fault) => kind_number(fault.kind),
            ProgramFault::Image(fault) => image_number(*fault),
            ProgramFault::Cap => 5,
            ProgramFault::Read => 30,
            ProgramFault::Write => 31,
            ProgramFault::TooMuch => 32,
            ProgramFault::Memory => 33,
            ProgramFault::NoThread => 9,
            ProgramFault::Split => 37,
            ProgramFault::Workers => 36,
            ProgramFault::Long => 6,
            ProgramFault::Clock => 7,
            ProgramFault::Unfinished => 35,
        }
    }

    /// The line of the program text in which it stands.
    pub fn line(&self) -> Option<u64>
        ensures value { result ≡ fault_line self.now }
        ensures place { IfSome result (λ _. HasLine (reported_number self.now)) }
    {
        match self {
            ProgramFault::Text(fault) => Some(fault.line),
            _ => None,
        }
    }
}

impl From<ImageFault> for ProgramFault {
    ghost use Rattle.std.specs.Prelude.{◌≡◌};
    ghost use Rattle.cm_system.specs.ProgramFault.{program_fault_of_image};

    ghost from_gives = { λ fault whole. whole ≡ program_fault_of_image fault };

    fn from(fault: ImageFault) -> ProgramFault {
        match fault {
            ImageFault::Memory => ProgramFault::Memory,
            _ => ProgramFault::Image(fault),
        }
    }
}

impl From<SessionFault> for ProgramFault {
    ghost use Rattle.std.specs.Prelude.{◌≡◌};
    ghost use Rattle.cm_system.specs.ProgramFault.{of_session};

    ghost from_gives = { λ fault whole. whole ≡ of_session fault };

    fn from(fault: SessionFault) -> ProgramFault {
        match fault {
            SessionFault::Read => ProgramFault::Read,
            SessionFault::Write(_) => ProgramFault::Write,
            SessionFault::TooMuch => ProgramFault::TooMuch,
            SessionFault::Memory => ProgramFault::Memory,
            SessionFault::NoThread => ProgramFault::NoThread,
        }
    }
}

impl From<ChipFault> for ProgramFault {
    ghost use Rattle.std.specs.Prelude.{◌≡◌};
    ghost use Rattle.cm_system.specs.ProgramFault.{of_chip};

    ghost from_gives = { λ fault whole. whole ≡ of_chip fault };

    fn from(fault: ChipFault) -> ProgramFault {
        match fault {
            ChipFault::Text(text) => ProgramFault::Text(text),
            ChipFault::Read => ProgramFault::Read,
            ChipFault::Write(_) => ProgramFault::Write,
            ChipFault::TooMuch => ProgramFault::TooMuch,
            ChipFault::Memory => ProgramFault::Memory,
        }
    }
}

impl From<OpenSourceFault> for ProgramFault {
    ghost use Rattle.std.specs.Prelude.{◌≡◌};
    ghost use Rattle.cm_system.specs.ProgramFault.{of_open};

    ghost from_gives = { λ fault whole. whole ≡ of_open fault };

    fn from(fault: OpenSourceFault) -> ProgramFault {
        match fault {
            OpenSourceFault::Source(SourceFault::Image(own)) => ProgramFault::from(own),
            OpenSourceFault::Source(SourceFault::Read) => ProgramFault::Read,
            OpenSourceFault::Source(SourceFault::TooMuch) => ProgramFault::TooMuch,
            OpenSourceFault::Room => ProgramFault::Cap,
        }
    }
}

impl From<TakeFault> for ProgramFault {
    ghost use Rattle.std.specs.Prelude.{◌≡◌};
    ghost use Rattle.cm_system.specs.ProgramFault.{of_take};

    ghost from_gives = { λ fault whole. whole ≡ of_take fault };

    fn from(fault: TakeFault) -> ProgramFault {
        match fault {
            TakeFault::Read => ProgramFault::Read,
            TakeFault::TooMuch => ProgramFault::TooMuch,
            TakeFault::Memory => ProgramFault::Memory,
        }
    }
}

impl From<PutFault> for ProgramFault {
    ghost use Rattle.std.specs.Prelude.{◌≡◌};
    ghost use Rattle.cm_system.specs.ProgramFault.{of_put};

    ghost from_gives = { λ fault whole. whole ≡ of_put fault };

    fn from(fault: PutFault) -> ProgramFault {
        match fault {
            PutFault::Write => ProgramFault::Write,
            PutFault::Memory => ProgramFault::Memory,
        }
    }
}

impl From<LineFault> for ProgramFault {
    ghost use Rattle.std.specs.Prelude.{◌≡◌};
    ghost use Rattle.cm_system.specs.ProgramFault.{of_line};

    ghost from_gives = { λ fault whole. whole ≡ of_line fault };

    fn from(fault: LineFault) -> ProgramFault {
        match fault {
            LineFault::BadLine => ProgramFault::BadLine,
            LineFault::Memory => ProgramFault::Memory,
        }
    }
}

impl From<WorldFault> for ProgramFault {
    ghost use Rattle.std.specs.Prelude.{◌≡◌};
    ghost use Rattle.cm_system.specs.ProgramFault.{of_world};

    ghost from_gives = { λ fault whole. whole ≡ of_world fault };

    fn from(fault: WorldFault) -> ProgramFault {
        match fault {
            WorldFault::Long => ProgramFault::Long,
            WorldFault::Clock => ProgramFault::Clock,
            WorldFault::Split => ProgramFault::Split,
            WorldFault::Memory => ProgramFault::Memory,
        }
    }
}

impl From<WeaveFault> for ProgramFault {
    ghost use Rattle.std.specs.Prelude.{◌≡◌};
    ghost use Rattle.cm_system.specs.ProgramFault.{of_weave};

    ghost from_gives = { λ fault whole. whole ≡ of_weave fault };

    fn from(fault: WeaveFault) -> ProgramFault {
        match fault {
            WeaveFault::Read => ProgramFault::Read,
            WeaveFault::Write(_) => ProgramFault::Write,
            WeaveFault::TooMuch => ProgramFault::TooMuch,
            WeaveFault::Memory => ProgramFault::Memory,
            WeaveFault::Unfinished => ProgramFault::Unfinished,
        }
    }
}
