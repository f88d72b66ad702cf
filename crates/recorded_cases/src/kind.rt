// The kinds of line: which may come, and what they have.
ghost use Rattle.std.specs.Prelude.{◌≡◌};
ghost use Rattle.recorded_cases.specs.Kind.{kind_of, is_due, used, others_are0, due_kind};

use crate::state::Phase;
use definition::answers::check;
use recorded::compare::Fault;
use recorded::machine::Part;
use recorded::reader::Line;

#[derive(Clone, Copy, PartialEq, Eq)]
pub enum Call {
    Run,
    Deliver,
    Drain,
    Raise,
    SetRegister,
}

#[derive(Clone, Copy, PartialEq, Eq)]
pub enum Kind {
    First,
    Case,
    // The machine before the calls, a part of it. The drain buffer is none of them.
    Before(Part),
    // A byte to deliver.
    Byte,
    // The words that the next run takes from empty cells.
    Empty,
    Call(Call),
    // What a call changed.
    After(Part),
    Close,
    Last,
}

// The kinds by their numbers.
impl TryFrom<i64> for Kind {
    type Error = Fault;

    ghost try_from_gives = { λ z r. r ≡ kind_of z };

    #[tactic(auto, unfolding(crate::specs::Kind::kind_of))]
    fn try_from(kind: i64) -> Result<Kind, Fault> {
        Ok(match kind {
            0 => Kind::First,
            1 => Kind::Case,
            2 => Kind::Before(Part::Cell),
            3 => Kind::Before(Part::Number),
            4 => Kind::Before(Part::Queue),
            5 => Kind::Before(Part::Output),
            6 => Kind::Byte,
            7 => Kind::Empty,
            10 => Kind::Call(Call::Run),
            11 => Kind::Call(Call::Deliver),
            12 => Kind::Call(Call::Drain),
            13 => Kind::Call(Call::Raise),
            14 => Kind::Call(Call::SetRegister),
            20 => Kind::After(Part::Cell),
            21 => Kind::After(Part::Number),
            22 => Kind::After(Part::Queue),
            23 => Kind::After(Part::Output),
            24 => Kind::After(Part::Buffer),
            29 => Kind::Close,
            99 => Kind::Last,
            _ => return Err(Fault::Order),
        })
    }
}

impl Kind {
    // Whether a line of this kind may come.
    #[tactic(auto, unfolding(crate::specs::Kind::is_due))]
    fn is_due(self, phase: Phase) -> bool
        ensures { result ≡ is_due phase self }
    {
        let is_call = phase == Phase::Before || phase == Phase::Call;
        match self {
            Kind::First => phase == Phase::First,
            Kind::Case | Kind::Last => phase == Phase::Case || phase == Phase::Call,
            Kind::Before(_) => phase == Phase::Before,
            Kind::Byte | Kind::Call(Call::Deliver) => is_call || phase == Phase::Delivery,
            Kind::Call(Call::Run) => is_call || phase == Phase::Run,
            Kind::Empty | Kind::Call(_) => is_call,
            Kind::After(_) | Kind::Close => phase == Phase::After,
        }
    }

    // How many numbers a line of this kind has besides the kind; the others are 0.
    #[tactic(auto, unfolding(crate::specs::Kind::used))]
    fn used(self) -> usize
        ensures { result ≡ used self }
    {
        match self {
            Kind::Close => 0,
            Kind::Empty | Kind::Last => 1,
            Kind::Call(Call::Drain | Call::SetRegister) => 3,
            Kind::Case
            | Kind::Before(Part::Cell)
            | Kind::After(Part::Cell)
            | Kind::Call(Call::Run | Call::Raise) => 4,
            Kind::First
            | Kind::Before(_)
            | Kind::Byte
            | Kind::Call(Call::Deliver)
            | Kind::After(_) => 2,
        }
    }

    // The line's kind, if such a line may come now.
    pub fn due(phase: Phase, l: Line) -> Result<Kind, Fault>
        ensures { result ≡ due_kind phase l }
    {
        let kind = Kind::try_from(l.kind)?;
        check(kind.is_due(phase), Fault::Order)?;
        check(others_are_0(l, kind.used()), Fault::Number)?;
        Ok(kind)
    }
}

// "numbers that a kind does not use are 0"
#[tactic(auto, unfolding(crate::specs::Kind::others_are0))]
fn others_are_0(l: Line, used: usize) -> bool
    ensures { result ≡ others_are0 l used }
{
    [l.a, l.b, l.c, l.d].iter().skip(used).all(|z| *z == 0)
}
