// Computer::step and Computer::run of mod.rs, over lent cells, queue and output record. They are parameters, here as in runtime and noting, and
// AcceptedMachine is asked of them together: a struct of loans would have to say at each call that they are still the caller's, as seats' AreSame does.
#![tactic(auto)]

ghost use Rattle.std.specs.Prelude.{◌≡◌};
ghost use Rattle.definition.specs.Runtime.{step, run};
ghost use Rattle.definition.specs.Accepted.{AcceptedMachine};
ghost use Rattle.row.specs.Meaning.{machine_at};
ghost use Rattle.runtime.specs.Meaning.{outcome_of};
ghost use Rattle.computer.specs.Meaning.{run_of, ran_of};

use definition::{Ran, Stop};
use row::State;

mod quiet;
mod serve;
mod usual;
mod writes;

// Where a run got: its stop, unless the budget is spent.
#[derive(Clone, Copy)]
pub struct Ended {
    pub stop: Option<Stop>,
    pub steps: u64,
    // The words taken from empty cells, over the completed steps.
    pub empty: u64,
}

// The answer of a run that isn't refused.
impl From<Ended> for Ran {
    ghost from_gives = { λ e a. a ≡ ran_of e };

    fn from(e: Ended) -> Ran
        ensures { result ≡ ran_of e }
    {
        let (stop, detail) = match e.stop {
            Some(s) => (s.number(), s.detail()),
            // "0 budget spent"
            None => (0, 0),
        };
        Ran {
            refusal: 0,
            place: 0,
            stop,
            detail,
            steps: e.steps,
            empty: e.empty,
        }
    }
}

// A step that is decided first, and then written. Out of line: a run seldom takes one.
#[tactic(auto, unfolding(definition::specs::Runtime::step))]
#[inline(never)]
fn decided_step(
    cells: &mut [i64],
    queue: &[u8],
    output: &mut [u8],
    m: &mut State,
) -> Result<(), Stop>
    requires { AcceptedMachine (machine_at cells.old queue.now output.old m.old) }
    ensures { outcome_of result (machine_at cells.new queue.now output.new m.new) ≡ step (machine_at cells.old queue.now output.old m.old) }
{
    let turn = runtime::turn::take_turn(cells, queue, output, m);
    runtime::settle::settle(cells, output, m, turn)
}

// Computer::step
#[inline(always)]
pub fn step(cells: &mut [i64], queue: &[u8], output: &mut [u8], m: &mut State) -> Result<(), Stop>
    requires { AcceptedMachine (machine_at cells.old queue.now output.old m.old) }
    ensures { outcome_of result (machine_at cells.new queue.now output.new m.new) ≡ step (machine_at cells.old queue.now output.old m.old) }
{
    if let Some(i) = usual::usual(cells, output.len(), m) {
        usual::take(cells, queue, output, m, &i)
    } else {
        decided_step(cells, queue, output, m)
    }
}

// Computer::run, on a budget. A step that stops counts nothing, and the count of empty reads starts again with every step.
pub fn run(cells: &mut [i64], queue: &[u8], output: &mut [u8], m: &mut State, budget: u64) -> Ended
    requires { AcceptedMachine (machine_at cells.old queue.now output.old m.old) }
    ensures { run_of result (machine_at cells.new queue.now output.new m.new) ≡ run budget (machine_at cells.old queue.now output.old m.old) }
{
    let mut empty: u64 = 0;
    for steps in 0..budget {
        let done = step(cells, queue, output, m);
        let counted = m.s.empties;
        m.s.empties = 0;
        if let Err(stop) = done {
            return Ended {
                stop: Some(stop),
                steps,
                empty,
            };
        }
        empty = word::total(empty, counted);
    }
    Ended {
        stop: None,
        steps: budget,
        empty,
    }
}
