// Why a line is not carried out, and what is answered to it.
use circuit::PairFault;
use linelog::LogFault;
use std::alloc::{AllocError, AllocFailed};
use std::fmt;
use std::num::ParseIntError;
use words::{Refusal, WordFault};

#[derive(Drop)]
pub enum ConsoleFault {
    /// The line is no command of the console, or there is nothing yet that it could tell of.
    NoCommand,
    /// The codec refuses the call.
    Refused(Refusal),
    /// There is no memory for the buffers that it asks for.
    Memory(AllocError),
}

impl fmt::Display for ConsoleFault {
    fn fmt<W: fmt::Write>(&self, f: &mut fmt::Formatter<W>) -> fmt::Result {
        match self {
            ConsoleFault::NoCommand => write!(f, "error"),
            ConsoleFault::Refused(refusal) => {
                let Refusal {
                    number,
                    place,
                    layer,
                } = refusal;
                write!(f, "refuse {number} {place} {layer}")
            }
            ConsoleFault::Memory(fault) => write!(f, "{fault}"),
        }
    }
}

impl From<ParseIntError> for ConsoleFault {
    fn from(_fault: ParseIntError) -> ConsoleFault {
        ConsoleFault::NoCommand
    }
}

impl From<WordFault> for ConsoleFault {
    fn from(fault: WordFault) -> ConsoleFault {
        ConsoleFault::Refused(fault.into())
    }
}

impl From<PairFault> for ConsoleFault {
    fn from(fault: PairFault) -> ConsoleFault {
        ConsoleFault::Refused(fault.into())
    }
}

impl From<LogFault> for ConsoleFault {
    fn from(fault: LogFault) -> ConsoleFault {
        ConsoleFault::Refused(fault.into())
    }
}

impl From<AllocError> for ConsoleFault {
    fn from(fault: AllocError) -> ConsoleFault {
        ConsoleFault::Memory(fault)
    }
}

impl<T: Drop> From<AllocFailed<T>> for ConsoleFault {
    fn from(fault: AllocFailed<T>) -> ConsoleFault {
        ConsoleFault::Memory(fault.into())
    }
}
