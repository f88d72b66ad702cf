// What each line of the list asks, apart from the calls.
ghost use Rattle.std.specs.Prelude.{◌≡◌};
ghost use Rattle.recorded_cases.specs.State.{kept};
ghost use Rattle.recorded_cases.specs.Case.{replay_kept, first_line, last_line, empty_line, case_of, opened, byte_line, before_line, after_line, close_line};

use crate::state::{Phase, State};
use definition::answers::check;
use recorded::compare::Fault;
use recorded::length::{Length, Lengths};
use recorded::machine::{Machine, Part};
use recorded::place::put_byte;
use recorded::reader::Line;

// How far the replay is, "two machines, the one under test and the one that is due", and the bytes for the next line 11. Some 500 KB: it is
// lent, and never moved.
#[derive(Drop)]
pub struct Replay {
    pub state: State,
    pub machine: Machine,
    pub due: Machine,
    pub bytes: [u8; 8],
}

// What a line does, and what is wrong with it: first, empty and a byte to deliver move the phase before their numbers are tested.
impl State {
    // "first line: version of the format, count of cells of every machine"
    pub fn first(&mut self, l: Line) -> Result<(), Fault>
        ensures { kept self.new result ≡ first_line self.old l }
    {
        self.phase = Phase::Case;
        check(l.a == 1 && l.b == 10000, Fault::Number)
    }

    // "last line": the count of cases.
    pub fn last(&mut self, l: Line) -> Result<(), Fault>
        ensures { kept self.new result ≡ last_line self.old l }
    {
        check(word::to_bits(l.a) == self.cases, Fault::Cases)?;
        self.phase = Phase::End;
        Ok(())
    }

    // "the words that the next call, a run, takes from empty cells; 0 without such a line"
    pub fn empty(&mut self, l: Line) -> Result<(), Fault>
        ensures { kept self.new result ≡ empty_line self.old l }
    {
        self.phase = Phase::Run;
        self.empty = word::to_bits(l.a);
        check(0 < l.a, Fault::Number)
    }

    // The case that the line opens: its number and lengths.
    fn case(&self, l: Line) -> Result<State, Fault>
        ensures { result ≡ case_of self.now l }
    {
        let cases = self.cases.wrapping_add(1);
        check(word::to_bits(l.a) == cases, Fault::Cases)?;
        // "1 for the runner", else 0
        Length::<1>::try_from(l.d)?;
        Ok(State {
            phase: Phase::Before,
            lengths: Lengths {
                queue: Length::try_from(l.b)?,
                output: Length::try_from(l.c)?,
                ..Lengths::default()
            },
            cases,
            calls: self.calls,
            lines: self.lines,
            ..State::default()
        })
    }

    // A case's number and lengths.
    pub fn open(&mut self, l: Line) -> Result<(), Fault>
        ensures { kept self.new result ≡ opened self.old l }
    {
        *self = self.case(l)?;
        Ok(())
    }
}

impl Replay {
    // "a byte for the next line 11, in order"
    pub fn byte_to_deliver(&mut self, l: Line) -> Result<(), Fault>
        ensures { replay_kept self.new result ≡ byte_line l self.old }
    {
        let n = self.state.lengths.bytes;
        self.state.lengths.bytes = Length::of(n.get() + 1).ok_or(Fault::Number)?;
        self.state.phase = Phase::Delivery;
        put_byte(&mut self.bytes, l.a, l.b)?;
        check(n.is(l.a), Fault::Number)
    }

    // The lines 2 to 5: "before". "Lines 2 to 5 set both."
    pub fn before(&mut self, part: Part, l: Line) -> Result<(), Fault>
        ensures { replay_kept self.new result ≡ before_line part l self.old }
    {
        let put = self.machine.put(part, l, self.state.lengths);
        let due_put = self.due.put(part, l, self.state.lengths);
        put.and(due_put)
    }

    // The lines 20 to 24: "after". "Lines 20 to 24 set the second."
    pub fn after(&mut self, part: Part, l: Line) -> Result<(), Fault>
        ensures { replay_kept self.new result ≡ after_line part l self.old }
    {
        self.due.put(part, l, self.state.lengths)
    }

    // "closes a call: everything not named since the call is as before the call"
    pub fn close(&mut self) -> Result<(), Fault>
        ensures { replay_kept self.new result ≡ close_line self.old }
    {
        self.state.phase = Phase::Call;
        self.state.fault = None;
        self.machine.compare(&self.due)
    }
}
