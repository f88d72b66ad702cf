// "Turned back, in checking order": the tests that several calls make.
#![tactic(auto, unfolding(definition::specs::Calls::verdict, definition::specs::Calls::cells_test, definition::specs::Calls::queue_test, definition::specs::Calls::output_test, definition::specs::Calls::length_test, definition::specs::Calls::row_tests, definition::specs::Calls::damage_test, definition::specs::Calls::is_below, definition::specs::Calls::is_mark))]

ghost use Rattle.std.specs.Prelude.{◌≡◌, ℕ, suc, ◌+◌, ◌<◌, ◌≤◌, pos, nat_abs, length, get_or, [], ◌∷◌, drop};
ghost use Rattle.definition.specs.Constants.{ROW};
ghost use Rattle.definition.specs.Word.{address_of};
ghost use Rattle.definition.specs.Memory.{cell};
ghost use Rattle.definition.specs.Encoding.{sound, is_address};
ghost use Rattle.definition.specs.Calls.{verdict, is_below, is_mark, cells_test, queue_test, output_test, row_tests, damage_test};
ghost use Rattle.definition.specs.Answers.{checked, done_of};

use definition::answers::{Refusal, check};
use definition::places;

// "1. The cells are not 3 numbers each for 256 to 10,000 cells."
pub fn cells_check(cells: &[i64]) -> Result<(), Refusal>
    ensures { done_of result ≡ verdict (cells_test cells.now ∷ []) }
{
    let n = cells.len();
    check(n % 3 == 0 && 256 <= n / 3 && n / 3 <= 10000, Refusal::Cells)
}

// "2. The queue is not 1 to 4,096 bytes."
pub fn queue_check(queue: &[u8]) -> Result<(), Refusal>
    ensures { done_of result ≡ verdict (queue_test queue.now ∷ []) }
{
    check(1 <= queue.len() && queue.len() <= 4096, Refusal::Queue)
}

// "3. The output record is over 65,536 bytes."
pub fn output_check(output: &[u8]) -> Result<(), Refusal>
    ensures { done_of result ≡ verdict (output_test output.now ∷ []) }
{
    check(output.len() <= 65536, Refusal::Output)
}

// 0 to n - 1
pub fn is_below(z: i64, n: u64) -> bool
    ensures { result ≡ is_below n z }
{
    u64::try_from(z).is_ok_and(|k| k < n)
}

// 0 to n, and not is_below of n + 1, which may not fit
fn is_within(z: i64, n: u64) -> bool
    ensures { result ≡ is_below (suc n) z }
{
    u64::try_from(z).is_ok_and(|k| k <= n)
}

fn is_mark(z: i64) -> bool
    ensures { result ≡ is_mark z }
{
    matches!(z, 0 | 1)
}

pub fn below_at(row: &[i64], i: usize, n: u64) -> bool
    requires { i < length row.now }
    ensures { result ≡ is_below n (get_or row.now i (pos 0)) }
{
    is_below(row[i], n)
}

pub fn sound_at(row: &[i64], i: usize) -> bool
    requires { i + 2 < length row.now }
    ensures { result ≡ sound (cell (get_or row.now i (pos 0)) (get_or row.now (i + 1) (pos 0)) (get_or row.now (i + 2) (pos 0))) }
{
    encoding::is_sound(memory::cell_from(row, i))
}

// "4. [...] its number at this place (from 1, the lowest such) is out of range"
fn number_check(passed: bool, place: u64) -> Result<(), Refusal>
    ensures { result ≡ checked passed (Refusal.Row place) }
{
    check(passed, Refusal::Row(place))
}

// The timer's numbers.
fn timer_numbers(row: &[i64; places::ROW]) -> Result<(), Refusal>
    ensures { (q o n : ℕ) → done_of result ≡ verdict (drop 13 (row_tests q o n row.now)) }
{
    let interval = row[places::INTERVAL];
    number_check(is_below(interval, 1 << 63), places::ROW_INTERVAL)?;
    number_check(
        is_within(row[places::REMAINING], interval.unsigned_abs()),
        places::ROW_REMAINING,
    )?;
    number_check(is_mark(row[places::MARK]), places::ROW_MARK)
}

// From the queue's start on.
fn buffer_numbers(row: &[i64; places::ROW], q: usize, o: usize, n: usize) -> Result<(), Refusal>
    ensures { done_of result ≡ verdict (drop 9 (row_tests q o n row.now)) }
{
    number_check(is_below(row[places::START], q as u64), places::ROW_START)?;
    number_check(is_within(row[places::COUNT], q as u64), places::ROW_COUNT)?;
    number_check(
        is_within(row[places::WRITTEN], o as u64),
        places::ROW_WRITTEN,
    )?;
    number_check(is_within(row[places::FENCE], n as u64), places::ROW_FENCE)?;
    timer_numbers(row)
}

// From enable on.
fn console_numbers(row: &[i64; places::ROW], q: usize, o: usize, n: usize) -> Result<(), Refusal>
    ensures { done_of result ≡ verdict (drop 6 (row_tests q o n row.now)) }
{
    number_check(is_mark(row[places::ENABLE]), places::ROW_ENABLE)?;
    number_check(is_mark(row[places::FLAG]), places::ROW_FLAG)?;
    number_check(is_mark(row[places::PENDING]), places::ROW_PENDING)?;
    buffer_numbers(row, q, o, n)
}

// "a damaged a or b counts at place 1 or 4": the whole row, which is 20 long.
fn row_numbers(row: &[i64; places::ROW], q: usize, o: usize, n: usize) -> Result<(), Refusal>
    ensures { done_of result ≡ verdict (drop 1 (row_tests q o n row.now)) }
{
    number_check(sound_at(row, places::A), places::ROW_A)?;
    number_check(sound_at(row, places::B), places::ROW_B)?;
    number_check(word::is_address(row[places::PC]), places::ROW_PC)?;
    number_check(word::is_address(row[places::SP]), places::ROW_SP)?;
    number_check(is_below(row[places::CYCLES], 1 << 63), places::ROW_CYCLES)?;
    console_numbers(row, q, o, n)
}

// "4. The row is not 16 long, or its number at this place [...] is out of range", and with the timer "20 numbers". The queue has q places, the
// output record o, and there are n cells: three numbers and no struct, since each call is lent others of them, and puts the most for those it is not.
pub fn row_check(row: &[i64], q: usize, o: usize, n: usize) -> Result<(), Refusal>
    ensures { done_of result ≡ verdict (row_tests q o n row.now) }
{
    let row = row.try_into().map_err(|_| Refusal::Row(0))?;
    row_numbers(row, q, o, n)
}

// "5. The cell at this lowest address is damaged"
pub fn damage_check(cells: &[i64]) -> Result<(), Refusal>
    ensures { done_of result ≡ verdict (damage_test cells.now ∷ []) }
{
    match encoding::lowest_damaged(cells) {
        None => Ok(()),
        Some(n) => Err(Refusal::DamagedCell(n as u64)),
    }
}
