// "read a cell and load an image (cells)"
ghost use Rattle.std.specs.Prelude.{◌≡◌, ◌+◌, ◌*◌, ◌≤◌, length};
ghost use Rattle.definition.specs.Calls.{called, read_cell, load, loaded};
ghost use Rattle.definition.specs.Answers.{cell_read_of, done_of};

use definition::Cell;
use definition::answers::Refusal;

pub fn read_cell(cells: &[i64], address: u64) -> Result<Cell, Refusal>
    ensures { cell_read_of result ≡ read_cell cells.now address }
{
    refusals::read_check(cells, address)?;
    Ok(memory::get_cell(cells, address as usize))
}

// "An image is copied into the cells from any start cell"
pub fn place_image(cells: &mut [i64], image: &[i64], start: usize)
    requires { 3 * start + length image.now ≤ length cells.old }
    ensures { cells.new ≡ loaded start image.now cells.old }
{
    let at = 3 * start;
    word::copy::copy(&mut cells[at..at + image.len()], image);
}

pub fn load(cells: &mut [i64], image: &[i64], start: u64) -> Result<(), Refusal>
    ensures { called (done_of result) cells.new ≡ load cells.old image.now start }
{
    refusals::load_check(cells, image, start)?;
    place_image(cells, image, start as usize);
    Ok(())
}
