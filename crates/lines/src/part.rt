// A part of the text.
ghost use Rattle.std.specs.Prelude.{◌≡◌};
ghost use mathlib.Core.List.{foldl};
ghost use Rattle.lines.specs.Reader.{unread, step};

use super::{Reader, State, empty_cells};

impl State {
    // Before the first byte.
    pub fn new() -> State
        ensures { result ≡ unread }
    {
        State {
            reader: Reader::new(),
            cells: empty_cells(),
        }
    }

    #[tactic(auto, unfolding(crate::specs::Reader::step))]
    pub fn take_byte(&mut self, b: u8)
        ensures { self.new ≡ step self.old b }
    {
        if b == b'\n' {
            self.take_line_end();
        } else {
            self.reader.take_within(b);
        }
    }

    // The reader and the cells after a part of the text.
    pub fn take_part(&mut self, part: &[u8])
        ensures { self.new ≡ foldl step self.old part.now }
    {
        for b in part {
            self.take_byte(*b);
        }
    }
}
