// Why there is no bundle.
ghost use Rattle.std.specs.Prelude.{◌≡◌, Some, alloc_error};
ghost use Rattle.proof_write.specs.Stops.{stop_text};
ghost use Rattle.proof_write.specs.declared.stop.Stop.TheVariants.{Memory};

use kind::fault::Refusal;
use std::alloc::{AllocError, AllocFailed};
use std::error::Error;
use std::fmt;
use writer::fault::WriterFault;

// Lines and groups have their numbers from 1.
#[derive(Debug, Drop)]
pub enum Stop {
    Missing(usize),
    NotUnderstood(usize),
    Refused(WriterFault, usize),
    Memory(AllocError),
}

impl fmt::Display for Stop {
    ghost output = { λ stop. Some (stop_text stop) };

    fn fmt<W: fmt::Write>(&self, f: &mut fmt::Formatter<W>) -> fmt::Result {
        match self {
            Stop::Missing(line) => write!(f, "line {line}: missing"),
            Stop::NotUnderstood(line) => write!(f, "line {line}: not understood"),
            Stop::Refused(fault, group) => {
                let Refusal { number, place, .. } = fault.refusal();
                write!(f, "fault {number} group {group} place {place}")
            }
            Stop::Memory(_) => f.write_str("out of memory"),
        }
    }
}

impl Error for Stop {}

impl From<AllocError> for Stop {
    ghost from_gives = { λ e stop. stop ≡ Memory e };

    fn from(e: AllocError) -> Stop {
        Stop::Memory(e)
    }
}

impl<T: Drop> From<AllocFailed<T>> for Stop {
    ghost from_gives = { λ _ stop. stop ≡ Memory alloc_error };

    fn from(e: AllocFailed<T>) -> Stop {
        Stop::Memory(AllocError::from(e))
    }
}
