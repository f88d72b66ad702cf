// The end of a line: the first gives pc, sp and sr, and each other one a cell.
ghost use Rattle.std.specs.Prelude.{◌≡◌};
ghost use Rattle.lines.specs.Reader.{following, next, start_line, line_cell, cell_line, line_end};

use super::{Field, Reader, Start, State};
use definition::Cell;

#[tactic(auto, unfolding(crate::specs::Reader::following))]
pub fn following_line(n: u64) -> u64
    ensures { result ≡ following n }
{
    n.saturating_add(1)
}

impl Reader {
    // At the start of the next line.
    #[tactic(auto, unfolding(crate::specs::Reader::next))]
    pub fn next_line(&mut self)
        ensures { self.new ≡ next self.old }
    {
        self.line = following_line(self.line);
        self.count = 0;
        self.field = Field::default();
    }

    // "pc and sp must be addresses"
    #[tactic(auto, unfolding(crate::specs::Reader::start_line))]
    pub fn take_start(&mut self)
        ensures { self.new ≡ start_line self.old }
    {
        let pc = self.last.y;
        let sp = self.last.z;
        if word::is_address(pc) && word::is_address(sp) {
            let sr = self.field.value();
            self.start = Start { pc, sp, sr };
            self.next_line();
        } else {
            self.break_line();
        }
    }

    pub fn line_cell(&self) -> Cell
        ensures { result ≡ line_cell self.now }
    {
        Cell {
            tag: self.last.y,
            first: self.last.z,
            second: self.field.value(),
        }
    }
}

impl State {
    // "addresses below 2,048", "each cell sound", "a later line over an earlier one"
    #[tactic(auto, unfolding(crate::specs::Reader::cell_line))]
    pub fn take_cell(&mut self)
        ensures { self.new ≡ cell_line self.old }
    {
        let at = self.reader.last.x;
        let v = self.reader.line_cell();
        if checks::is_below(at, 2048) && encoding::is_sound(v) {
            memory::put_cell(&mut self.cells, at as usize, v);
            self.reader.next_line();
        } else {
            self.reader.break_line();
        }
    }

    // "each with a line end"
    #[tactic(auto, unfolding(crate::specs::Reader::line_end))]
    pub fn take_line_end(&mut self)
        ensures { self.new ≡ line_end self.old }
    {
        if self.reader.broken {
            return;
        }
        if self.reader.field.magnitude.is_none() || self.reader.count != 3 {
            return self.reader.break_line();
        }
        if self.reader.line == 1 {
            self.reader.take_start();
        } else {
            self.take_cell();
        }
    }
}
