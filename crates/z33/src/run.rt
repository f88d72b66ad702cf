// "run (cells, queue, output, row)"
ghost use Rattle.std.specs.Prelude.{◌≡◌};
ghost use Rattle.definition.specs.Calls.{called, lent, run_call};

use definition::Ran;

// The acceptance tests are made once a call; the run works under what they established.
pub fn z33_run(
    cells: &mut [i64],
    queue: &mut [u8],
    output: &mut [u8],
    row: &mut [i64],
    budget: u64,
) -> Ran
    ensures { called result (lent cells.new queue.new output.new row.new) ≡ run_call budget (lent cells.old queue.old output.old row.old) }
{
    match refusals::run_check(cells, queue, output, row) {
        Ok(()) => machine::run(cells, queue, output, row, budget),
        Err(refusal) => refusal.into(),
    }
}
