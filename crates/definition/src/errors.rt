// The error that an operand without a cell ends an instruction in, and what an error ends a step with.

ghost use Rattle.std.specs.Prelude.{◌≡◌};
ghost use Rattle.definition.specs.Exception.{ending};
ghost use Rattle.definition.specs.Exec.{error_of};

use super::{Ending, Error, Missing, Reg, Stop};

impl From<Missing> for Error {
    ghost from_gives = { λ m e. e ≡ error_of m };

    // "An operand read at an address not below the count of cells raises code 5"; "any other operand [...] that cannot be taken is stop 4".
    fn from(m: Missing) -> Error {
        match m {
            Missing::OutsideCells => Error::InvalidMemoryAccess,
            Missing::NoAddress => Error::Extract,
        }
    }
}

impl From<Error> for Ending {
    ghost from_gives = { λ e x. x ≡ ending e };

    #[tactic(auto, unfolding(crate::specs::Exception::ending))]
    fn from(e: Error) -> Ending {
        match e {
            Error::DivByZero => Ending::Exception(1),
            Error::InvalidInstruction => Ending::Exception(2),
            Error::PrivilegedInstruction => Ending::Exception(3),
            Error::Trap => Ending::Exception(4),
            Error::InvalidMemoryAccess => Ending::Exception(5),
            Error::Reset => Ending::Stops(Stop::Reset),
            Error::CellError => Ending::Stops(Stop::CellError),
            Error::Extract => Ending::Stops(Stop::Extract),
            Error::InvalidPc => Ending::Stops(Stop::InvalidRegister(Reg::PC)),
            Error::InvalidSp => Ending::Stops(Stop::InvalidRegister(Reg::SP)),
            Error::InvalidSr => Ending::Stops(Stop::InvalidRegister(Reg::SR)),
        }
    }
}
