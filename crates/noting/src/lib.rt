// What a step is about to write, found before it is taken, its record in a journal, the row before and what those cells held, and runs that keep them.
#![tactic(auto)]

ghost use Rattle.std.specs.Prelude.{◌≡◌, [], ◌∷◌, ◌+◌, ◌<◌, ◌≤◌, pos, length, map, replicate};
ghost use Rattle.std.proofs.lemmas.List.Edits.{sets};
ghost use Rattle.journal.specs.Journal.{RECORD, record_of};
ghost use Rattle.noting.specs.Meaning.{held_of, helds_of, behind_row, row_of_state, RowFits};

use definition::{Cell, places};
use row::State;

pub mod find;
pub mod keep;
pub mod lent;
pub mod run;

// A cell about to be written: its address, and what it holds.
// Not memory's Write, though of its shape: that is what a step puts there, this what it finds.
#[derive(Clone, Copy)]
pub struct Was {
    pub address: u32,
    pub cell: Cell,
}

// The three cells of exception entry.
#[derive(Clone, Copy)]
pub struct Entry {
    pub pc: Was,
    pub sr: Was,
    pub code: Was,
}

// Is the step begun, and what it writes: the instruction's cell, if it writes one, and those of entry, if a handler is entered.
// begun is beside them, and no Option: what a step writes is defined of each step, begun or not (step_writes).
#[derive(Clone, Copy)]
pub struct Noted {
    pub begun: bool,
    pub own: Option<Was>,
    pub entry: Option<Entry>,
}

// "address, tag, first, second"
fn put_was(part: &mut [i64], i: usize, x: Was)
    requires { i + 3 < length part.old }
    ensures { part.new ≡ sets part.old i (pos x.address ∷ x.cell.tag ∷ x.cell.first ∷ x.cell.second ∷ []) }
{
    row::put(part, i, x.address as i64);
    memory::cell_into(part, i + 1, x.cell);
}

fn clear(part: &mut [i64])
    ensures { part.new ≡ replicate (length part.old) (pos 0) }
{
    part.fill(0);
}

// "the number of cells and four times address and cell in order of writing, unused ones 0"
fn put_cells(part: &mut [i64], cells: &[Was])
    requires { (length part.old ≡ 17) × (length cells.now ≤ 4) }
    ensures { part.new ≡ behind_row (map held_of cells.now) }
{
    clear(part);
    row::put(part, 0, cells.len() as i64);
    for (i, x) in cells.iter().enumerate() {
        put_was(part, 1 + 4 * i, *x);
    }
}

// A record behind its row.
fn write_cells(part: &mut [i64], w: &Noted)
    requires { length part.old ≡ 17 }
    ensures { part.new ≡ behind_row (helds_of w.now) }
{
    match (w.own, w.entry) {
        (Some(own), Some(e)) => put_cells(part, &[own, e.pc, e.sr, e.code]),
        (Some(own), None) => put_cells(part, &[own]),
        (None, Some(e)) => put_cells(part, &[e.pc, e.sr, e.code]),
        (None, None) => put_cells(part, &[]),
    }
}

// "A record is the row, the number of cells, and four times address, tag, first, second"
pub fn write_record(kept: &mut [i64], m: &State, w: &Noted)
    requires { (length kept.old ≡ RECORD) × RowFits m.now }
    ensures { kept.new ≡ record_of (row_of_state m.now) (helds_of w.now) }
{
    row::write_row(&mut kept[..places::ROW], m);
    write_cells(&mut kept[places::ROW..], w);
}
