// How far the replay is, and the first thing that is not as the list says.
ghost use Rattle.std.specs.Prelude.{◌≡◌};
ghost use Rattle.recorded_cases.specs.State.{started, next_line, broken_line, text_end};

use recorded::compare::Fault;
use recorded::length::Lengths;
use recorded::reader::Reader;

// The lines that may come next.
#[derive(Clone, Copy, Default, PartialEq, Eq)]
pub enum Phase {
    #[default]
    First,
    // A case or the last line.
    Case,
    // The case's lines "before", or a call.
    Before,
    // The bytes to deliver.
    Delivery,
    // The lines "after".
    After,
    // A call, a case or the last line.
    Call,
    End,
    Run,
}

#[derive(Clone, Copy, Default, PartialEq, Eq)]
pub struct State {
    pub phase: Phase,
    pub lengths: Lengths,
    // The words that the next run takes from empty cells.
    pub empty: u64,
    pub cases: u64,
    pub calls: u64,
    pub lines: u64,
    pub fault: Option<Fault>,
}

impl State {
    pub fn new() -> Self
        ensures { result ≡ started }
    {
        Self::default()
    }

    // One line more.
    pub fn next_line(&mut self)
        ensures { self.new ≡ next_line self.old }
    {
        self.lines = self.lines.wrapping_add(1);
    }

    // A line that is not five numbers.
    pub fn broken_line(&mut self)
        ensures { self.new ≡ broken_line self.old }
    {
        self.next_line();
        self.fault = Some(Fault::Text);
    }

    // The text's end is due after the last line.
    pub fn text_end(&mut self, reader: &Reader)
        ensures { self.new ≡ text_end reader.now self.old }
    {
        if self.fault.is_none() && !(reader.is_at_start() && self.phase == Phase::End) {
            self.next_line();
            self.fault = Some(Fault::End);
        }
    }
}
