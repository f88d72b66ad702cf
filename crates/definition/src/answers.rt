// Why a call is turned back, and the answers that are made of it.
ghost use Rattle.std.specs.Prelude.{◌≡◌};
ghost use Rattle.definition.specs.Answers.{checked, number_of, place_of, done_of, ran_of, drained_of, counted_of, cell_read_of, raised_of};

use super::{Cell, CellRead, Counted, Done, Drained, Raised, Ran};

// The numbers 1 to 21 of "Turned back, in checking order", each with its place if it has one.
#[derive(Clone, Copy, Debug, PartialEq, Eq)]
pub enum Refusal {
    Cells,
    Queue,
    Output,
    // The number's place in the row, from 1, or 0 for the row's length: one number, as C reads it.
    Row(u64),
    // Its address.
    DamagedCell(u64),
    QueueRoom,
    DrainBuffer,
    Address,
    Image,
    Register,
    Code,
    // Of these and `NumericLine`, the line's number, from 1.
    ImageLine(u64),
    Form(u64),
    Label(u64),
    Value(u64),
    EmptyCell,
    TextRoom,
    NumericLine(u64),
    Seats,
    Journal,
    NothingKept,
}

impl Refusal {
    pub fn number(self) -> u64
        ensures { result ≡ number_of self }
    {
        match self {
            Refusal::Cells => 1,
            Refusal::Queue => 2,
            Refusal::Output => 3,
            Refusal::Row(_) => 4,
            Refusal::DamagedCell(_) => 5,
            Refusal::QueueRoom => 6,
            Refusal::DrainBuffer => 7,
            Refusal::Address => 8,
            Refusal::Image => 9,
            Refusal::Register => 10,
            Refusal::Code => 11,
            Refusal::ImageLine(_) => 12,
            Refusal::Form(_) => 13,
            Refusal::Label(_) => 14,
            Refusal::Value(_) => 15,
            Refusal::EmptyCell => 16,
            Refusal::TextRoom => 17,
            Refusal::NumericLine(_) => 18,
            Refusal::Seats => 19,
            Refusal::Journal => 20,
            Refusal::NothingKept => 21,
        }
    }

    pub fn place(self) -> u64
        ensures { result ≡ place_of self }
    {
        match self {
            Refusal::Row(place)
            | Refusal::DamagedCell(place)
            | Refusal::ImageLine(place)
            | Refusal::Form(place)
            | Refusal::Label(place)
            | Refusal::Value(place)
            | Refusal::NumericLine(place) => place,
            _ => 0,
        }
    }
}

// A test: `check(passed, error)?` goes on where it passed.
pub fn check<E: Copy>(passed: bool, error: E) -> Result<(), E>
    ensures { result ≡ checked passed error }
{
    if passed { Ok(()) } else { Err(error) }
}

impl From<Result<(), Refusal>> for Done {
    ghost from_gives = { λ r d. d ≡ done_of r };

    fn from(r: Result<(), Refusal>) -> Done
        ensures { result ≡ done_of r }
    {
        match r {
            Ok(()) => Done {
                refusal: 0,
                place: 0,
            },
            Err(e) => Done {
                refusal: e.number(),
                place: e.place(),
            },
        }
    }
}

impl From<Refusal> for Ran {
    ghost from_gives = { λ e a. a ≡ ran_of e };

    fn from(e: Refusal) -> Ran
        ensures { result ≡ ran_of e }
    {
        Ran {
            refusal: e.number(),
            place: e.place(),
            stop: 0,
            detail: 0,
            steps: 0,
            empty: 0,
        }
    }
}

// Counted's numbers, under C's other name.
impl From<Result<u64, Refusal>> for Drained {
    ghost from_gives = { λ r a. a ≡ drained_of r };

    fn from(r: Result<u64, Refusal>) -> Drained
        ensures { result ≡ drained_of r }
    {
        let Counted {
            refusal,
            place,
            count,
        } = r.into();
        Drained {
            refusal,
            place,
            count,
        }
    }
}

impl From<Result<u64, Refusal>> for Counted {
    ghost from_gives = { λ r a. a ≡ counted_of r };

    fn from(r: Result<u64, Refusal>) -> Counted
        ensures { result ≡ counted_of r }
    {
        match r {
            Ok(count) => Counted {
                refusal: 0,
                place: 0,
                count,
            },
            Err(e) => Counted {
                refusal: e.number(),
                place: e.place(),
                count: 0,
            },
        }
    }
}

impl From<Result<Cell, Refusal>> for CellRead {
    ghost from_gives = { λ r a. a ≡ cell_read_of r };

    fn from(r: Result<Cell, Refusal>) -> CellRead
        ensures { result ≡ cell_read_of r }
    {
        match r {
            Ok(v) => CellRead {
                refusal: 0,
                place: 0,
                tag: v.tag,
                first: v.first,
                second: v.second,
            },
            Err(e) => CellRead {
                refusal: e.number(),
                place: e.place(),
                tag: 0,
                first: 0,
                second: 0,
            },
        }
    }
}

impl From<Refusal> for Raised {
    ghost from_gives = { λ e a. a ≡ raised_of e };

    fn from(e: Refusal) -> Raised
        ensures { result ≡ raised_of e }
    {
        Raised {
            refusal: e.number(),
            place: e.place(),
            stop: 0,
            detail: 0,
        }
    }
}
