// "Room that a replaying program needs": the lengths in use lie within the arrays.
ghost use Rattle.std.specs.Prelude.{◌≡◌, ◌≤◌};
ghost use Rattle.recorded.specs.Length.{length_within, length_of, is_length};

use crate::compare::Fault;
use std::marker::Model;

// How much of an array is in use: at most MOST. To a clause it is the number.
#[derive(Clone, Copy, Default, PartialEq, Eq)]
pub struct Length<const MOST: usize> {
    value: usize,
}

impl<const MOST: usize> Model for Length<MOST> {
    ghost use Rattle.std.specs.Prelude.{ℕ, ◌≤◌};

    ghost Value = { ℕ };

    ghost view = { λ l. l.value };

    ghost invariant = { λ l. l.value ≤ MOST };

    ghost inverse = { λ n. record { value = n } };
}

impl<const MOST: usize> Length<MOST> {
    // The number as a length, if it is within the room.
    pub fn of(value: usize) -> Option<Self>
        ensures { result ≡ length_within MOST value }
    {
        if value <= MOST {
            Some(Length { value })
        } else {
            None
        }
    }

    // Whether a line's number is this length.
    pub fn is(self, z: i64) -> bool
        ensures { result ≡ is_length z self.entry }
    {
        word::to_address(z).is_some_and(|n| n as usize == self.value)
    }

    pub fn get(self) -> usize
        ensures value { result ≡ self.entry }
        ensures within { result ≤ MOST }
    {
        self.value
    }
}

// A line's number as a length.
impl<const MOST: usize> TryFrom<i64> for Length<MOST> {
    type Error = Fault;

    ghost try_from_gives = { λ z r. r ≡ length_of MOST z };

    fn try_from(z: i64) -> Result<Self, Fault> {
        let n = word::to_address(z).ok_or(Fault::Number)?;
        Length::of(n as usize).ok_or(Fault::Number)
    }
}

// The case's queue and output record, the bytes to deliver and the drain buffer: how long each is. Apart from the arrays: both machines have the same.
#[derive(Clone, Copy, Default, PartialEq, Eq)]
pub struct Lengths {
    pub queue: Length<256>,
    pub output: Length<4096>,
    pub bytes: Length<8>,
    pub buffer: Length<128>,
}
