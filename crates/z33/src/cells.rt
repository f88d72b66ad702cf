// "read a cell and load an image (cells)"
ghost use Rattle.std.specs.Prelude.{◌≡◌};
ghost use Rattle.definition.specs.Calls.{called, read_cell, load};

use definition::{CellRead, Done};

pub fn z33_load(cells: &mut [i64], image: &[i64], start: u64) -> Done
    ensures { called result cells.new ≡ load cells.old image.now start }
{
    calls::cells::load(cells, image, start).into()
}

pub fn z33_read_cell(cells: &[i64], address: u64) -> CellRead
    ensures { result ≡ read_cell cells.now address }
{
    calls::cells::read_cell(cells, address).into()
}
