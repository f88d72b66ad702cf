// machine::run with a journal: the row is read, the machine run, and the row written back. Whoever runs it has made the tests, that of the journal too.
ghost use Rattle.std.specs.Prelude.{◌≡◌, true};
ghost use Rattle.definition.specs.Calls.{called, lent};
ghost use Rattle.definition.specs.UserMode.{Accepted};
ghost use Rattle.journal.specs.Journal.{is_journal};
ghost use Rattle.journal.specs.Calls.{run_journal};

use definition::Ran;
use row::State;

pub fn run(
    cells: &mut [i64],
    queue: &mut [u8],
    output: &mut [u8],
    row: &mut [i64],
    journal: &mut [i64],
    budget: u64,
) -> Ran
    requires accepted { Accepted (lent cells.old queue.old output.old row.old) }
    requires journal { is_journal journal.old ≡ true }
    ensures { called result (lent cells.new queue.new output.new row.new, journal.new) ≡ run_journal budget (lent cells.old queue.old output.old row.old) journal.old }
{
    let mut m = State::from_row(row);
    let ended = super::run::run(cells, queue, output, &mut m, journal, budget);
    row::write_row(row, &m);
    ended.into()
}
