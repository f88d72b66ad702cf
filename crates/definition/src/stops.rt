// A stop as the calls answer it: its number and its detail, which may be a register's number.
ghost use Rattle.std.specs.Prelude.{◌≡◌};
ghost use Rattle.definition.specs.Registers.{reg_number};
ghost use Rattle.definition.specs.Exception.{stop_number, stop_detail};
ghost use Rattle.definition.specs.Answers.{raise_of};

use super::{Raised, Reg, Stop};

impl Reg {
    pub fn number(self) -> u64
        ensures { result ≡ reg_number self }
    {
        match self {
            Reg::A => 0,
            Reg::B => 1,
            Reg::PC => 2,
            Reg::SP => 3,
            Reg::SR => 4,
        }
    }
}

impl Stop {
    pub fn number(self) -> u64
        ensures { result ≡ stop_number self }
    {
        match self {
            Stop::Reset => 1,
            Stop::NoHandler(_) => 2,
            Stop::CellError => 3,
            Stop::Extract => 4,
            Stop::InvalidRegister(_) => 5,
            Stop::OutputFull => 6,
            Stop::CyclesFull => 7,
        }
    }

    pub fn detail(self) -> u64
        ensures { result ≡ stop_detail self }
    {
        match self {
            Stop::NoHandler(code) => code.into(),
            Stop::InvalidRegister(r) => r.number(),
            _ => 0,
        }
    }
}

// The answer of a raise that isn't refused.
impl From<Result<(), Stop>> for Raised {
    ghost from_gives = { λ r a. a ≡ raise_of r };

    fn from(r: Result<(), Stop>) -> Raised
        ensures { result ≡ raise_of r }
    {
        let (stop, detail) = match r {
            Ok(()) => (0, 0),
            Err(s) => (s.number(), s.detail()),
        };
        Raised {
            refusal: 0,
            place: 0,
            stop,
            detail,
        }
    }
}
