// "A journal lent to a run", or to another call, and going back over it: "first the call's own" refusals, "then 20".
ghost use Rattle.std.specs.Prelude.{◌≡◌};
ghost use Rattle.definition.specs.Calls.{called, lent};
ghost use Rattle.journal.specs.Calls.{run_journal, fresh_journal, deliver_journal, drain_journal, load_journal, set_register_journal, raise_journal, backward, back};

use definition::answers::Refusal;
use definition::{Done, Drained, Raised, Ran};

pub fn z33_fresh_journal(cells: &mut [i64], row: &mut [i64], journal: &mut [i64]) -> Done
    ensures { called result ((cells.new, row.new), journal.new) ≡ fresh_journal cells.old row.old journal.old }
{
    journaled::fresh::fresh(cells, row, journal).into()
}

#[tactic(auto, using(definition::proofs::Checked::number_some), unfolding(definition::specs::Calls::run_call, definition::specs::Calls::run_refused, journal::specs::Calls::with_journal, journal::specs::Calls::run_journal))]
pub fn z33_run_journal(
    cells: &mut [i64],
    queue: &mut [u8],
    output: &mut [u8],
    row: &mut [i64],
    journal: &mut [i64],
    budget: u64,
) -> Ran
    ensures { called result (lent cells.new queue.new output.new row.new, journal.new) ≡ run_journal budget (lent cells.old queue.old output.old row.old) journal.old }
{
    match refusals::run_check(cells, queue, output, row) {
        Ok(()) if ring::is_journal(journal) => {
            noting::lent::run(cells, queue, output, row, journal, budget)
        }
        Ok(()) => Refusal::Journal.into(),
        Err(refusal) => refusal.into(),
    }
}

pub fn z33_deliver_journal(
    queue: &mut [u8],
    row: &mut [i64],
    journal: &mut [i64],
    bytes: &[u8],
) -> Done
    ensures { called result ((queue.new, row.new), journal.new) ≡ deliver_journal queue.old row.old bytes.now journal.old }
{
    journaled::serial::deliver(queue, row, journal, bytes).into()
}

pub fn z33_drain_journal(
    output: &[u8],
    row: &mut [i64],
    journal: &mut [i64],
    buffer: &mut [u8],
) -> Drained
    ensures { called result ((row.new, buffer.new), journal.new) ≡ drain_journal output.now row.old buffer.old journal.old }
{
    journaled::serial::drain(output, row, journal, buffer).into()
}

pub fn z33_load_journal(cells: &mut [i64], journal: &mut [i64], image: &[i64], start: u64) -> Done
    ensures { called result (cells.new, journal.new) ≡ load_journal cells.old image.now start journal.old }
{
    journaled::cells::load(cells, journal, image, start).into()
}

pub fn z33_set_register_journal(row: &mut [i64], journal: &mut [i64], r: u64, w: i64) -> Done
    ensures { called result (row.new, journal.new) ≡ set_register_journal row.old r w journal.old }
{
    journaled::register::set_register(row, journal, r, w).into()
}

// A raise that stops empties the journal too.
#[tactic(auto, using(definition::proofs::Checked::number_some, journal::proofs::Ring::journal_head), unfolding(definition::specs::Calls::raise, journal::specs::Calls::with_journal, journal::specs::Calls::raise_journal))]
pub fn z33_raise_journal(
    cells: &mut [i64],
    row: &mut [i64],
    journal: &mut [i64],
    code: u64,
) -> Raised
    ensures { called result ((cells.new, row.new), journal.new) ≡ raise_journal cells.old row.old code journal.old }
{
    match refusals::raise_check(cells, row, code) {
        Ok(()) if ring::is_journal(journal) => {
            ring::empty(journal);
            super::raise::raise_accepted(cells, row, code).into()
        }
        Ok(()) => Refusal::Journal.into(),
        Err(refusal) => refusal.into(),
    }
}

pub fn z33_back(cells: &mut [i64], row: &mut [i64], journal: &mut [i64]) -> Done
    ensures { called result (backward cells.new row.new journal.new) ≡ back (backward cells.old row.old journal.old) }
{
    back::back(cells, row, journal).into()
}
