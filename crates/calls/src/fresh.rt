// "fresh (all empty, row 0; cells, row)"
ghost use Rattle.std.specs.Prelude.{◌≡◌};
ghost use Rattle.definition.specs.Calls.{called, fresh};
ghost use Rattle.definition.specs.Answers.{done_of};

use definition::answers::Refusal;

pub fn fresh(cells: &mut [i64], row: &mut [i64]) -> Result<(), Refusal>
    ensures { called (done_of result) (cells.new, row.new) ≡ fresh cells.old row.old }
{
    refusals::fresh_check(cells, row)?;
    cells.fill(0);
    row.fill(0);
    Ok(())
}
