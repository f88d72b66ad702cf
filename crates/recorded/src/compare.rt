// What a call answered, against the list.
ghost use Rattle.std.specs.Prelude.{◌≡◌};
ghost use Rattle.recorded.specs.Compare.{Exactly, answer_fault, of_done, of_drained, of_raised, of_ran};

use definition::answers::check;
use definition::{Done, Drained, Raised, Ran};

// What is not as the list says.
#[derive(Clone, Copy, PartialEq, Eq)]
pub enum Fault {
    // The list breaks its form.
    Text,
    Order,
    Number,
    Cases,
    End,
    // The machine differs from the list.
    Refusal,
    Place,
    Stop,
    Detail,
    Count,
    Empty,
    Row,
    Cells,
    Queue,
    Output,
    Buffer,
}

// Numbers as the list holds them and the C interface answers them, so no enums. Those that a call does not give are 0; count is steps or drained
// bytes, empty the words that a run took from empty cells.
#[derive(Clone, Copy, Default, PartialEq, Eq)]
pub struct Answer {
    pub refusal: u64,
    pub place: u64,
    pub stop: u64,
    pub detail: u64,
    pub count: u64,
    pub empty: u64,
}

impl Answer {
    // What differs first from the answer that is due.
    #[tactic(auto, unfolding(crate::specs::Compare::answer_fault))]
    pub fn compare(self, due: Answer) -> Result<(), Fault>
        ensures exactly { Exactly (self ≡ due) result }
        ensures value { result ≡ answer_fault self due }
    {
        check(self.refusal == due.refusal, Fault::Refusal)?;
        check(self.place == due.place, Fault::Place)?;
        check(self.stop == due.stop, Fault::Stop)?;
        check(self.detail == due.detail, Fault::Detail)?;
        check(self.count == due.count, Fault::Count)?;
        check(self.empty == due.empty, Fault::Empty)
    }
}

// What each call answers. C has a struct for each, so each names the numbers that it has.
impl From<Done> for Answer {
    ghost from_gives = { λ d a. a ≡ of_done d };

    fn from(d: Done) -> Answer {
        Answer {
            refusal: d.refusal,
            place: d.place,
            ..Answer::default()
        }
    }
}

impl From<Drained> for Answer {
    ghost from_gives = { λ d a. a ≡ of_drained d };

    fn from(d: Drained) -> Answer {
        Answer {
            refusal: d.refusal,
            place: d.place,
            count: d.count,
            ..Answer::default()
        }
    }
}

impl From<Raised> for Answer {
    ghost from_gives = { λ r a. a ≡ of_raised r };

    fn from(r: Raised) -> Answer {
        Answer {
            refusal: r.refusal,
            place: r.place,
            stop: r.stop,
            detail: r.detail,
            ..Answer::default()
        }
    }
}

impl From<Ran> for Answer {
    ghost from_gives = { λ r a. a ≡ of_ran r };

    fn from(r: Ran) -> Answer {
        Answer {
            refusal: r.refusal,
            place: r.place,
            stop: r.stop,
            detail: r.detail,
            count: r.steps,
            empty: r.empty,
        }
    }
}
