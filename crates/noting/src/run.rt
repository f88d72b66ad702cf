// computer::run with a journal: each step is decided once, noted, and then written. A run without a journal stays as it is.
ghost use Rattle.std.specs.Prelude.{◌≡◌, true};
ghost use Rattle.definition.specs.Runtime.{step, run};
ghost use Rattle.definition.specs.Accepted.{AcceptedMachine};
ghost use Rattle.row.specs.Meaning.{machine_at};
ghost use Rattle.runtime.specs.Meaning.{outcome_of};
ghost use Rattle.computer.specs.Meaning.{run_of};
ghost use Rattle.journal.specs.Journal.{is_journal, noted, journal as Journal·journal};

use super::keep::note;
use computer::Ended;
use definition::Stop;
use row::State;

// A step, and before anything is written its record.
#[tactic(auto, unfolding(definition::specs::Runtime::step))]
fn step(
    cells: &mut [i64],
    queue: &[u8],
    output: &mut [u8],
    m: &mut State,
    journal: &mut [i64],
) -> Result<(), Stop>
    requires accepted { AcceptedMachine (machine_at cells.old queue.now output.old m.old) }
    requires journal { is_journal journal.old ≡ true }
    ensures step { outcome_of result (machine_at cells.new queue.now output.new m.new) ≡ step (machine_at cells.old queue.now output.old m.old) }
    ensures journal { journal.new ≡ noted (machine_at cells.old queue.now output.old m.old) journal.old }
{
    let turn = runtime::turn::take_turn(cells, queue, output, m);
    note(journal, cells, m, &turn);
    runtime::settle::settle(cells, output, m, turn)
}

// The run's machine and answer are those of the run without a journal.
pub fn run(
    cells: &mut [i64],
    queue: &[u8],
    output: &mut [u8],
    m: &mut State,
    journal: &mut [i64],
    budget: u64,
) -> Ended
    requires accepted { AcceptedMachine (machine_at cells.old queue.now output.old m.old) }
    requires journal { is_journal journal.old ≡ true }
    ensures run { run_of result (machine_at cells.new queue.now output.new m.new) ≡ run budget (machine_at cells.old queue.now output.old m.old) }
    ensures journal { journal.new ≡ Journal·journal budget (machine_at cells.old queue.now output.old m.old) journal.old }
{
    let mut empty: u64 = 0;
    for steps in 0..budget {
        let done = step(cells, queue, output, m, journal);
        let counted = m.s.empties;
        m.s.empties = 0;
        if let Err(stop) = done {
            return Ended {
                stop: Some(stop),
                steps,
                empty,
            };
        }
        empty = word::total(empty, counted);
    }
    Ended {
        stop: None,
        steps: budget,
        empty,
    }
}
