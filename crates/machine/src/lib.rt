// The machine that is lent as four buffers: read from an accepted row, run, and written back. Whoever runs it has made the acceptance tests.
#![tactic(auto)]

ghost use Rattle.std.specs.Prelude.{◌≡◌};
ghost use Rattle.definition.specs.Calls.{called, lent, run_call};
ghost use Rattle.definition.specs.UserMode.{Accepted};

use definition::Ran;
use row::State;

// "run (cells, queue, output, row)" of a machine that run doesn't refuse. Four slices, as C lends them.
pub fn run(
    cells: &mut [i64],
    queue: &mut [u8],
    output: &mut [u8],
    row: &mut [i64],
    budget: u64,
) -> Ran
    requires { Accepted (lent cells.old queue.old output.old row.old) }
    ensures { called result (lent cells.new queue.new output.new row.new) ≡ run_call budget (lent cells.old queue.old output.old row.old) }
{
    let mut m = State::from_row(row);
    let ended = computer::run(cells, queue, output, &mut m, budget);
    row::write_row(row, &m);
    ended.into()
}
