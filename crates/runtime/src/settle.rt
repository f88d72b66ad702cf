// The end of a step, from where it arrived: decided, then written. And a raise, which has nothing to write before entry.

ghost use Rattle.std.specs.Prelude.{◌≡◌, ◌≤◌, ◌<◌, ◌+◌, ◌^◌, true, List, ℕ, length, MatchResult};
ghost use Rattle.definition.specs.declared.Stop.TheVariants.{CyclesFull};
ghost use Rattle.definition.specs.Constants.{CYCLES-END};
ghost use Rattle.definition.specs.Memory.{cell_count};
ghost use Rattle.definition.specs.Runtime.{settle, limit, recover, has_handler, entered, elapsed, completed};
ghost use Rattle.memory.specs.Overlay.{overlay};
ghost use Rattle.row.specs.Meaning.{machine_at};
ghost use Rattle.runtime.specs.Meaning.{effects_at, turn_of, outcome_of, Room};

use crate::commit::commit;
use crate::effects::Effects;
use crate::entry::{enter, has_handler};
use crate::turn::Turn;
use definition::{Ending, Stop};
use row::State;

// "7 the step would pass 2^63 - 1 cycles"
pub const CYCLES_END: u64 = 0x8000_0000_0000_0000;

fn within(cycles: u64) -> Result<(), Stop>
    ensures { MatchResult result (λ u. cycles < CYCLES-END) (λ e. (CYCLES-END ≤ cycles) × (e ≡ CyclesFull)) }
{
    if cycles < CYCLES_END {
        Ok(())
    } else {
        Err(Stop::CyclesFull)
    }
}

// What was decided is written, unless the step stops with 7: that leaves m, the machine before the step.
#[tactic(auto, using(crate::proofs::Laws::end_in, crate::proofs::Laws::end_out))]
fn finish(
    cells: &mut [i64],
    output: &mut [u8],
    m: &mut State,
    effects: Effects,
    end: Result<(), Stop>,
) -> Result<(), Stop>
    requires { Room (length output.old) m.old effects }
    ensures { (q : List ℕ) → outcome_of result (machine_at cells.new q output.new m.new) ≡ limit (machine_at cells.old q output.old m.old) (outcome_of end (effects_at cells.old q output.old m.old effects)) }
{
    within(effects.cycles)?;
    commit(cells, output, m, effects);
    end
}

// The same, and the handler entered.
#[tactic(auto, using(crate::proofs::Laws::elapsed_out))]
fn finish_entering(
    cells: &mut [i64],
    output: &mut [u8],
    m: &mut State,
    f: Effects,
    code: u32,
) -> Result<(), Stop>
    requires least { 256 ≤ cell_count cells.old }
    requires cycles { f.cycles + 1 < 2 ^ 64 }
    requires room { Room (length output.old) m.old f }
    ensures { (q : List ℕ) → outcome_of result (machine_at cells.new q output.new m.new) ≡ limit (machine_at cells.old q output.old m.old) (completed (elapsed code (entered code (effects_at cells.old q output.old m.old f)))) }
{
    within(f.cycles + 1)?;
    commit(cells, output, m, f);
    enter(cells, m, code);
    timer::tick_entry(&mut m.timer, code);
    Ok(())
}

#[tactic(auto, using(crate::proofs::Laws::recover_in, crate::proofs::Laws::recover_out), unfolding(definition::specs::Runtime::settle, definition::specs::Runtime::ends, definition::specs::Runtime::elapses))]
#[inline(always)]
pub fn settle(cells: &mut [i64], output: &mut [u8], m: &mut State, turn: Turn) -> Result<(), Stop>
    requires least { 256 ≤ cell_count cells.old }
    requires cycles { turn.effects.cycles + 1 < 2 ^ 64 }
    requires room { Room (length output.old) m.old turn.effects }
    ensures { (q : List ℕ) → outcome_of result (machine_at cells.new q output.new m.new) ≡ limit (machine_at cells.old q output.old m.old) (settle (turn_of turn.arrival (effects_at cells.old q output.old m.old turn.effects))) }
{
    let f = turn.effects;
    match turn.arrival {
        Ok(()) => finish(cells, output, m, f, Ok(())),
        Err(Ending::Stops(stop)) => finish(cells, output, m, f, Err(stop)),
        Err(Ending::Exception(code)) => {
            // "if cell 200 is no instruction, stop with that code"
            if has_handler(cells, f.plan.write) {
                finish_entering(cells, output, m, f, code)
            } else {
                finish(cells, output, m, f, Err(Stop::NoHandler(code)))
            }
        }
    }
}

// Computer::recover_from_exception by itself, with its cycle: "a handler entry [...] by raise takes off none".
#[tactic(auto, using(crate::proofs::Laws::entered_out, crate::proofs::Laws::stopped_in, crate::proofs::Laws::stopped_out, crate::proofs::Laws::recover_in, crate::proofs::Laws::recover_out), unfolding(memory::specs::Overlay::overlay))]
pub fn raise(cells: &mut [i64], m: &mut State, code: u32) -> Result<(), Stop>
    requires least { 256 ≤ cell_count cells.old }
    requires cycles { m.old.cycles + 1 < 2 ^ 64 }
    ensures { (q o : List ℕ) → outcome_of result (machine_at cells.new q o m.new) ≡ limit (machine_at cells.old q o m.old) (recover code (machine_at cells.old q o m.old)) }
{
    if !has_handler(cells, None) {
        within(m.cycles)?;
        return Err(Stop::NoHandler(code));
    }
    within(m.cycles + 1)?;
    enter(cells, m, code);
    Ok(())
}
