// All that the calls are lent: "Keep two machines, the one under test and the one that is due."
ghost use Rattle.std.specs.Prelude.{◌≡◌};
ghost use Rattle.recorded.specs.Compare.{Exactly, left_fault};
ghost use Rattle.recorded.specs.Machine.{no_machine, put_in, emptied};

use crate::compare::Fault;
use crate::length::Lengths;
use crate::place::{put_byte, put_cell, put_number};
use crate::reader::Line;
use definition::Cell;
use definition::answers::check;
use definition::places::ROW;

// The cells, the queue, the output record, the row and the drain buffer: some 250 KB, so it is lent, and only `new` answers one.
// Arrays, and no Vec: nothing is allocated, so a replay cannot fail.
#[derive(Drop)]
pub struct Machine {
    pub cells: [i64; 30000],
    pub queue: [u8; 256],
    pub output: [u8; 4096],
    pub row: [i64; ROW],
    pub buffer: [u8; 128],
}

// What a line puts: a cell, a number of the row, or a byte of the queue, the output record or the drain buffer.
#[derive(Clone, Copy, PartialEq, Eq)]
pub enum Part {
    Cell,
    Number,
    Queue,
    Output,
    Buffer,
}

impl Machine {
    pub fn new() -> Self
        ensures { result ≡ no_machine }
    {
        Machine {
            cells: [0; 30000],
            queue: [0; 256],
            output: [0; 4096],
            row: [0; ROW],
            buffer: [0; 128],
        }
    }

    // The line's numbers put into this part, if there is such a place.
    pub fn put(&mut self, part: Part, l: Line, lengths: Lengths) -> Result<(), Fault>
        ensures { (result, self.new) ≡ put_in part l lengths self.old }
    {
        match part {
            Part::Cell => {
                let cell = Cell {
                    tag: l.b,
                    first: l.c,
                    second: l.d,
                };
                put_cell(&mut self.cells, l.a, cell)
            }
            Part::Number => put_number(&mut self.row, l.a, l.b),
            Part::Queue => put_byte(&mut self.queue[..lengths.queue.get()], l.a, l.b),
            Part::Output => put_byte(&mut self.output[..lengths.output.get()], l.a, l.b),
            Part::Buffer => put_byte(&mut self.buffer[..lengths.buffer.get()], l.a, l.b),
        }
    }

    // "opens a case: all cells empty, all bytes 0, the row's 20 numbers 0"
    pub fn clear(&mut self)
        ensures { self.new ≡ emptied self.old }
    {
        self.cells.fill(0);
        self.queue.fill(0);
        self.output.fill(0);
        self.row.fill(0);
    }

    // The numbers and bytes that a call left, against what is due.
    #[tactic(auto, unfolding(crate::specs::Compare::left_fault))]
    pub fn compare(&self, due: &Machine) -> Result<(), Fault>
        ensures exactly { Exactly (self.now ≡ due.now) result }
        ensures value { result ≡ left_fault self.now due.now }
    {
        check(self.row == due.row, Fault::Row)?;
        check(self.cells == due.cells, Fault::Cells)?;
        check(self.queue == due.queue, Fault::Queue)?;
        check(self.output == due.output, Fault::Output)?;
        check(self.buffer == due.buffer, Fault::Buffer)
    }
}
