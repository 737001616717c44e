//! Why there is no answer to print.
ghost use Rattle.std.specs.Prelude.{◌≡◌};
ghost use Rattle.table.specs.declared.fault.Fault.TheVariants.{Text};
ghost use Rattle.search.specs.declared.fault.Fault.TheVariants.{Table};
ghost use Rattle.report.specs.declared.stop.Stop.TheVariants.{Refused, NoMemory};

use search::fault::Fault;
use std::alloc::AllocError;
use table::fault::Fault as TableFault;
use text::fault::Fault as TextFault;

/// The input is refused, or there is no memory.
#[derive(Debug, Drop)]
pub enum Stop {
    Refused(Fault),
    NoMemory(AllocError),
}

impl From<Fault> for Stop {
    ghost from_gives = { λ f s. s ≡ Refused f };

    fn from(fault: Fault) -> Stop {
        Stop::Refused(fault)
    }
}

impl From<TableFault> for Stop {
    ghost from_gives = { λ f s. s ≡ Refused (Table f) };

    fn from(fault: TableFault) -> Stop {
        Stop::from(Fault::from(fault))
    }
}

impl From<TextFault> for Stop {
    ghost from_gives = { λ f s. s ≡ Refused (Table (Text f)) };

    fn from(fault: TextFault) -> Stop {
        Stop::from(TableFault::from(fault))
    }
}

impl From<AllocError> for Stop {
    ghost from_gives = { λ e s. s ≡ NoMemory e };

    fn from(error: AllocError) -> Stop {
        Stop::NoMemory(error)
    }
}
