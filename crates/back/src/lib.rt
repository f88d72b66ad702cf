// "Going back, one step a call, is lent cells, row and journal": its tests, and the newest record put back.
#![tactic(auto, using(checks::proofs::Verdict::row_then, definition::proofs::Checked::number_some), unfolding(definition::specs::Calls::verdict, definition::specs::Calls::cells_test, journal::specs::Journal::held_in, journal::specs::Calls::is_record, journal::specs::Calls::back_check, journal::specs::Calls::backed, journal::specs::Calls::back))]

ghost use Rattle.std.specs.Prelude.{◌≡◌, true, ◌&&◌, ◌||◌, suc, ◌+◌, ◌*◌, ◌<◌, ◌≤◌, pos, length, get_or, eqb};
ghost use Rattle.definition.specs.Constants.{ROW};
ghost use Rattle.definition.specs.Memory.{cell_count, put_cell};
ghost use Rattle.definition.specs.Encoding.{sound};
ghost use Rattle.definition.specs.Calls.{called, is_below};
ghost use Rattle.journal.specs.Journal.{WRITES-MOST, row_in, writes_in, held_in, put_back, count_of, newest, is_journal};
ghost use Rattle.definition.specs.Answers.{done_of};
ghost use Rattle.journal.specs.Calls.{backward, held_fit, is_record, back_check, back};

use definition::answers::{Refusal, check};
use definition::places;

// The numbers of a record.
const NUMBERS: usize = 37;

fn newest(journal: &[i64]) -> &[i64; NUMBERS]
    requires { (is_journal journal.now ≡ true) × (1 ≤ count_of journal.now) }
    ensures { result.now ≡ newest 0 journal.now }
{
    let n = ring::count(journal);
    let p = ring::kept_place(journal, n - 1);
    let from = 2 + NUMBERS * p;
    let to = from + NUMBERS;
    journal[from..to].try_into().unwrap()
}

fn row_in(kept: &[i64; NUMBERS]) -> &[i64]
    ensures { result.now ≡ row_in kept.now }
{
    &kept[..places::ROW]
}

// "a [...] cell that [...] 5 or 8 would refuse": the one written as number i, of n cells.
fn held_fits(kept: &[i64; NUMBERS], n: usize, i: usize) -> bool
    requires { i < WRITES-MOST }
    ensures { result ≡ (is_below n (get_or kept.now (suc ROW + 4 * i) (pos 0)) && sound (held_in kept.now i).cell) }
{
    checks::below_at(kept, 21 + 4 * i, n as u64) && checks::sound_at(kept, 22 + 4 * i)
}

// The first k of them. Unused places are not looked at.
fn held_fit(kept: &[i64; NUMBERS], n: usize, k: usize) -> bool
    requires { k ≤ WRITES-MOST }
    ensures { result ≡ held_fit n kept.now k }
{
    (0..k).all(|i| held_fits(kept, n, i))
}

// "or the record gone back to holds not 0 to 4 cells, or a row or cell that 4, 5 or 8 would refuse"
fn is_record(kept: &[i64; NUMBERS], n: usize) -> bool
    ensures { result ≡ is_record n kept.now }
{
    if !checks::below_at(kept, places::ROW, 5) {
        return false;
    }
    let k = row::number_at(kept, places::ROW) as usize;
    checks::row_check(row_in(kept), 4096, 65536, n).is_ok() && held_fit(kept, n, k)
}

// Where nothing is kept, there is no record to be tested.
fn journal_fits(journal: &[i64], n: usize) -> bool
    ensures { result ≡ (is_journal journal.now && (eqb (count_of journal.now) 0 || is_record n (newest 0 journal.now))) }
{
    ring::is_journal(journal) && (ring::count(journal) == 0 || is_record(newest(journal), n))
}

// "20 the journal is no whole number of records [...]; 21 nothing kept to go back to; last in the list"
pub fn back_check(cells: &[i64], row: &[i64], journal: &[i64]) -> Result<(), Refusal>
    ensures { done_of result ≡ back_check (backward cells.now row.now journal.now) }
{
    checks::cells_check(cells)?;
    let n = cells.len() / 3;
    checks::row_check(row, 4096, 65536, n)?;
    check(journal_fits(journal, n), Refusal::Journal)?;
    check(1 <= ring::count(journal), Refusal::NothingKept)
}

// What the cell written as number i held, put back.
fn put_held(cells: &mut [i64], kept: &[i64; NUMBERS], i: usize)
    requires { (i < WRITES-MOST) × ((held_in kept.now i).address < cell_count cells.old) }
    ensures { cells.new ≡ put_cell cells.old (held_in kept.now i).address (held_in kept.now i).cell }
{
    let address = row::number_at(kept, 21 + 4 * i) as usize;
    memory::put_cell(cells, address, memory::cell_from(kept, 22 + 4 * i));
}

// "last written cell first"
fn put_cells(cells: &mut [i64], kept: &[i64; NUMBERS], k: usize)
    requires { (k ≤ WRITES-MOST) × (held_fit (cell_count cells.old) kept.now k ≡ true) }
    ensures { cells.new ≡ put_back k kept.now cells.old }
{
    for i in (0..k).rev() {
        put_held(cells, kept, i);
    }
}

// "puts the newest record back"
fn put_back(cells: &mut [i64], row: &mut [i64], kept: &[i64; NUMBERS])
    requires { (length row.old ≡ ROW) × (is_record (cell_count cells.old) kept.now ≡ true) }
    ensures { (cells.new ≡ put_back (writes_in kept.now) kept.now cells.old) × (row.new ≡ row_in kept.now) }
{
    let k = row::number_at(kept, places::ROW) as usize;
    put_cells(cells, kept, k);
    word::copy::copy(row, row_in(kept));
}

// "and takes one off the count"
pub fn back(cells: &mut [i64], row: &mut [i64], journal: &mut [i64]) -> Result<(), Refusal>
    ensures { called (done_of result) (backward cells.new row.new journal.new) ≡ back (backward cells.old row.old journal.old) }
{
    back_check(cells, row, journal)?;
    put_back(cells, row, newest(journal));
    ring::retreat(journal);
    Ok(())
}
