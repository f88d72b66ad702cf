// "One bench, sixteen seats." A bench list has one record for each seat: a lent slice of these, updated in place after a turn.
#![tactic(auto)]

ghost use Rattle.std.specs.Prelude.{◌≡◌};
ghost use Rattle.std.specs.List.{list_any};
ghost use Rattle.bench.specs.Seat.{can_go_on};
ghost use Rattle.bench.specs.Refused.{answered};

use definition::answers::Refusal;

pub mod buffers;

// "its step limit, steps used and last stop", as C holds it: a stop by its number.
#[repr(C)]
#[derive(Clone, Copy)]
pub struct Seat {
    pub limit: u64,
    pub used: u64,
    pub stop: u32,
}

impl Seat {
    ghost use Rattle.std.specs.Prelude.{◌+◌, ◌<◌, ◌^◌};
    ghost use Rattle.bench.specs.Seat.{turn_budget, after};

    // "passing over seats that stopped other than by 0 or reached their limit"
    #[tactic(auto, unfolding(crate::specs::Seat::can_go_on))]
    pub fn can_go_on(&self) -> bool
        ensures { result ≡ can_go_on self.now }
    {
        self.stop == 0 && self.used < self.limit
    }

    // "a run on the least of 100, its limit's rest and the total's"
    #[tactic(auto, unfolding(crate::specs::Seat::turn_budget, crate::specs::Seat::least))]
    pub fn turn_budget(self, total: u64) -> u64
        ensures is { result ≡ turn_budget self total }
        ensures fits { self.used + result < 2 ^ 64 }
    {
        self.limit.saturating_sub(self.used).min(total).min(100)
    }

    // After a turn: its steps are added, its stop is the last, the limit stays.
    pub fn update(&mut self, steps: u64, stop: u32)
        requires { self.old.used + steps < 2 ^ 64 }
        ensures { self.new ≡ after steps stop self.old }
    {
        self.used += steps;
        self.stop = stop;
    }
}

// Not "nobody can go on".
pub fn any_can_go_on(list: &[Seat]) -> bool
    ensures { result ≡ list_any can_go_on list.now }
{
    list.iter().any(|seat| seat.can_go_on())
}

// The call's answer, as C reads it. seat: the one that a refusal is about, from 1, or 0.
#[repr(C)]
#[derive(Clone, Copy)]
pub struct Benched {
    pub refusal: u64,
    pub place: u64,
    pub seat: u64,
    pub left: u64,
}

// Why a bench is refused.
#[derive(Clone, Copy, Debug, PartialEq, Eq)]
pub enum Refused {
    // "19 seats not 1 to 16, the list not one record a seat, or a buffer not divisible by seats"
    Seats,
    // What run refuses of the machine of this seat, from 1.
    Machine(u64, Refusal),
}

// "The answer is what is left of the total."
impl From<Result<u64, Refused>> for Benched {
    ghost from_gives = { λ r a. a ≡ answered r };

    fn from(r: Result<u64, Refused>) -> Benched
        ensures { result ≡ answered r }
    {
        match r {
            Ok(left) => Benched {
                refusal: 0,
                place: 0,
                seat: 0,
                left,
            },
            Err(Refused::Seats) => Benched {
                refusal: Refusal::Seats.number(),
                place: 0,
                seat: 0,
                left: 0,
            },
            Err(Refused::Machine(seat, e)) => Benched {
                refusal: e.number(),
                place: e.place(),
                seat,
                left: 0,
            },
        }
    }
}

// "A bench record stored in 32 bits is taken over with every number equal." Three numbers and no From: C hands them over so, and the old
// record has no type here.
pub fn take_over(limit: u32, used: u32, stop: u32) -> Seat
    ensures { result ≡ record { limit = limit; used = used; stop = stop } }
{
    Seat {
        limit: limit.into(),
        used: used.into(),
        stop,
    }
}
