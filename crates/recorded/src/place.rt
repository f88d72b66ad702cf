// A line's numbers put where it says. Where there is no such place or, for a byte, no such byte, nothing is put.
ghost use Rattle.std.specs.Prelude.{◌≡◌};
ghost use Rattle.definition.specs.Word.{address_of};
ghost use Rattle.recorded.specs.Place.{cell_put, number_put, byte_put};

use crate::compare::Fault;
use definition::Cell;
use definition::places::ROW;

// A cell, at an address.
pub fn put_cell(cells: &mut [i64; 30000], address: i64, cell: Cell) -> Result<(), Fault>
    ensures { (result, cells.new) ≡ cell_put (address_of address) cell cells.old }
{
    match word::to_address(address) {
        Some(n) if n < 10000 => {
            memory::put_cell(cells, n as usize, cell);
            Ok(())
        }
        _ => Err(Fault::Number),
    }
}

// A number of the row: place, 1 to 20.
pub fn put_number(row: &mut [i64; ROW], place: i64, z: i64) -> Result<(), Fault>
    ensures { (result, row.new) ≡ number_put (address_of place) z row.old }
{
    match word::to_address(place) {
        Some(n) if 1 <= n && n as usize <= ROW => {
            row[n as usize - 1] = z;
            Ok(())
        }
        _ => Err(Fault::Number),
    }
}

// A byte: index, from 0.
pub fn put_byte(bytes: &mut [u8], index: i64, byte: i64) -> Result<(), Fault>
    ensures { (result, bytes.new) ≡ byte_put (address_of index) (address_of byte) bytes.old }
{
    match (word::to_address(index), word::to_address(byte)) {
        (Some(i), Some(b)) if (i as usize) < bytes.len() && b < 256 => {
            bytes[i as usize] = b as u8;
            Ok(())
        }
        _ => Err(Fault::Number),
    }
}
