// "Turned back, in checking order": each check answers what the definition's check of the call says. What is lent stays apart, as C lends it: each
// call is lent other parts of it, and a row of any length.
#![tactic(auto, using(checks::proofs::Verdict::row_then, definition::proofs::Checked::number_some), unfolding(definition::specs::Calls::verdict, definition::specs::Calls::cells_test, definition::specs::Calls::queue_test, definition::specs::Calls::output_test, definition::specs::Calls::length_test, definition::specs::Calls::damage_test, definition::specs::Calls::fresh_check, definition::specs::Calls::run_check, definition::specs::Calls::deliver_check, definition::specs::Calls::drain_check, definition::specs::Calls::read_check, definition::specs::Calls::load_check, definition::specs::Calls::set_register_check, definition::specs::Calls::raise_check, definition::specs::Calls::is_settable))]

ghost use Rattle.std.specs.Prelude.{◌≡◌, ◌&&◌, ◌||◌, ◌%◌, length, leb, eqb};
ghost use Rattle.definition.specs.Memory.{cell_at, cell_count};
ghost use Rattle.definition.specs.Encoding.{sound};
ghost use Rattle.definition.specs.Calls.{lent, fresh_check, run_check, deliver_check, drain_check, read_check, load_check, set_register_check, raise_check, is_settable, lowest_damaged};
ghost use Rattle.definition.specs.Answers.{done_of};

use checks::{cells_check, damage_check, output_check, queue_check, row_check};
use definition::answers::{Refusal, check};
use definition::places;

// "Fresh tests lengths only, never the row's old numbers."
pub fn fresh_check(cells: &[i64], row: &[i64]) -> Result<(), Refusal>
    ensures { done_of result ≡ fresh_check cells.now row.now }
{
    cells_check(cells)?;
    check(row.len() == places::ROW, Refusal::Row(0))
}

pub fn run_check(cells: &[i64], queue: &[u8], output: &[u8], row: &[i64]) -> Result<(), Refusal>
    ensures { done_of result ≡ run_check (lent cells.now queue.now output.now row.now) }
{
    cells_check(cells)?;
    queue_check(queue)?;
    output_check(output)?;
    row_check(row, queue.len(), output.len(), cells.len() / 3)?;
    damage_check(cells)
}

// "6. Delivered bytes exceed the queue's free places."
pub fn deliver_check(queue: &[u8], row: &[i64], bytes: &[u8]) -> Result<(), Refusal>
    ensures { done_of result ≡ deliver_check queue.now row.now bytes.now }
{
    queue_check(queue)?;
    row_check(row, queue.len(), 65536, 10000)?;
    let count = row::number_at(row, places::COUNT) as usize;
    check(count + bytes.len() <= queue.len(), Refusal::QueueRoom)
}

// "7. The drain buffer is shorter than the output count."
pub fn drain_check(output: &[u8], row: &[i64], buffer: &[u8]) -> Result<(), Refusal>
    ensures { done_of result ≡ drain_check output.now row.now buffer.now }
{
    output_check(output)?;
    row_check(row, 4096, output.len(), 10000)?;
    let n = row::number_at(row, places::WRITTEN) as usize;
    check(n <= buffer.len(), Refusal::DrainBuffer)
}

// "a cell read [checks] only its own": a cell outside has none.
pub fn own_sound(cells: &[i64], n: u64) -> bool
    ensures { result ≡ (sound (cell_at cells.now n) || leb (cell_count cells.now) n) }
{
    cells.len() / 3 <= n as usize || encoding::is_sound(memory::get_cell(cells, n as usize))
}

// "8. The cell address or image start is outside the cells."
pub fn read_check(cells: &[i64], n: u64) -> Result<(), Refusal>
    ensures { done_of result ≡ read_check cells.now n }
{
    cells_check(cells)?;
    check(own_sound(cells, n), Refusal::DamagedCell(n))?;
    check((n as usize) < cells.len() / 3, Refusal::Address)
}

// A whole number of cells, at most this many, and none damaged.
pub fn image_fits(image: &[i64], room: usize) -> bool
    ensures { result ≡ (eqb (length image.now % 3) 0 && (leb (cell_count image.now) room && eqb (lowest_damaged 0 image.now) (cell_count image.now))) }
{
    image.len() % 3 == 0 && image.len() / 3 <= room && encoding::lowest_damaged(image).is_none()
}

// "9. The image is no whole number of cells, runs past the end, or holds a damaged cell."
pub fn load_check(cells: &[i64], image: &[i64], start: u64) -> Result<(), Refusal>
    ensures { done_of result ≡ load_check cells.now image.now start }
{
    cells_check(cells)?;
    let start = start as usize;
    let count = cells.len() / 3;
    check(start < count, Refusal::Address)?;
    check(image_fits(image, count - start), Refusal::Image)
}

// "10. The register is not a, b, pc or sp, or pc or sp would be no address." r is the number that C gives, so it may be any.
pub fn register_fits(r: u64, w: i64) -> bool
    ensures { result ≡ is_settable r w }
{
    r < 2 || r < 4 && word::is_address(w)
}

pub fn set_register_check(row: &[i64], r: u64, w: i64) -> Result<(), Refusal>
    ensures { done_of result ≡ set_register_check row.now r w }
{
    row_check(row, 4096, 65536, 10000)?;
    check(register_fits(r, w), Refusal::Register)
}

// "11. The raised code is not 0 to 5."
pub fn raise_check(cells: &[i64], row: &[i64], code: u64) -> Result<(), Refusal>
    ensures { done_of result ≡ raise_check cells.now row.now code }
{
    cells_check(cells)?;
    row_check(row, 4096, 65536, cells.len() / 3)?;
    damage_check(cells)?;
    check(code <= 5, Refusal::Code)
}
