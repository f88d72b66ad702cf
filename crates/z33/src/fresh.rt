// "fresh (all empty, row 0; cells, row)"
ghost use Rattle.std.specs.Prelude.{◌≡◌};
ghost use Rattle.definition.specs.Calls.{called, fresh};

use definition::Done;

pub fn z33_fresh(cells: &mut [i64], row: &mut [i64]) -> Done
    ensures { called result (cells.new, row.new) ≡ fresh cells.old row.old }
{
    calls::fresh::fresh(cells, row).into()
}
