// What a step is about to write, found before it is taken: where it arrives is the step's own, of crate runtime.
ghost use Rattle.std.specs.Prelude.{◌≡◌, true, ℕ, ◌+◌, ◌<◌, ◌≤◌, ◌^◌, List, ℤ, MatchOption};
ghost use Rattle.definition.specs.Constants.{CELLS-MOST};
ghost use Rattle.definition.specs.Exception.{stop_number};
ghost use Rattle.definition.specs.Memory.{cell_count, cell_at};
ghost use Rattle.definition.specs.Encoding.{sound};
ghost use Rattle.definition.specs.Exec.{core};
ghost use Rattle.definition.specs.Runtime.{Machine, turn as Runtime·turn, step, settle, limit};
ghost use Rattle.definition.specs.Accepted.{AcceptedMachine};
ghost use Rattle.memory.specs.Overlay.{overlay};
ghost use Rattle.row.specs.Meaning.{machine_at};
ghost use Rattle.runtime.specs.Meaning.{guard_of, effects_at, turn_of};
ghost use Rattle.journal.specs.Writes.{held_at, instruction_writes, entry_writes, step_writes};
ghost use Rattle.journal.specs.Journal.{begins, begun};
ghost use Rattle.noting.specs.Meaning.{held_of, own_of, entry_of, helds_of};

use super::{Entry, Noted, Was};
use definition::{Ending, Stop};
use memory::Write;
use registers::Plan;
use row::State;
use runtime::settle::CYCLES_END;
use runtime::turn::Turn;

// What the cell at n holds once the write that waits is made, if there is such a cell.
#[tactic(auto, using(crate::proofs::Laws::over_some, crate::proofs::Laws::over_none))]
fn was_over(cells: &[i64], write: Option<Write>, n: u32) -> Option<Was>
    ensures { MatchOption result (cell_count cells.now ≤ n) (λ w. held_of w ≡ held_at (overlay write cells.now) n) }
{
    let cell = memory::read_over(cells, write, n)?;
    Some(Was { address: n, cell })
}

// The cell that the instruction at pc writes.
#[tactic(auto, using(crate::proofs::Laws::aimed_err, crate::proofs::Laws::aimed_ok), unfolding(memory::specs::Overlay::overlay))]
fn own_cell(cells: &[i64], m: &State) -> Option<Was>
    requires most { cell_count cells.now ≤ CELLS-MOST }
    requires sound { (n : ℕ) → n < cell_count cells.now → sound (cell_at cells.now n) ≡ true }
    ensures { own_of result ≡ instruction_writes (guard_of m.now) (core cells.now m.now.s) }
{
    let mut p = Plan {
        s: m.s,
        write: None,
    };
    let Ok(i) = runtime::fetch::fetch(cells, &mut p) else {
        return None;
    };
    let n = written::written_at(cells, runtime::guard(m), p, i)?;
    was_over(cells, None, n)
}

// "pc, sr and code go to cells 100, 101, 102", after the instruction's own write.
#[tactic(auto, using(crate::proofs::Laws::no_entry, crate::proofs::Laws::no_handler_cells, crate::proofs::Laws::handler_cells), unfolding(definition::specs::Runtime::ends))]
fn entry_cells(cells: &[i64], turn: &Turn) -> Option<Entry>
    requires { 256 ≤ cell_count cells.now }
    ensures { (q o : List ℕ) (m : State) → entry_of result ≡ entry_writes (turn_of turn.now.arrival (effects_at cells.now q o m turn.now.effects)) }
{
    let Err(Ending::Exception(_)) = turn.arrival else {
        return None;
    };
    let write = turn.effects.plan.write;
    if !runtime::entry::has_handler(cells, write) {
        return None;
    }
    Some(Entry {
        pc: was_over(cells, write, 100)?,
        sr: was_over(cells, write, 101)?,
        code: was_over(cells, write, 102)?,
    })
}

// "stops 6 and 7 begin no step"
#[tactic(auto, unfolding(journal::specs::Journal::begins))]
fn begins(stop: Stop) -> bool
    ensures { result ≡ begins (stop_number stop) }
{
    !matches!(stop, Stop::OutputFull | Stop::CyclesFull)
}

// Is the step begun: does it neither stop with 6 or 7, nor pass the last cycle.
#[tactic(auto, using(crate::proofs::Laws::begun_completed, crate::proofs::Laws::begun_entered, crate::proofs::Laws::begun_stopped), unfolding(definition::specs::Runtime::ends))]
fn is_begun(cells: &[i64], turn: &Turn) -> bool
    requires least { 256 ≤ cell_count cells.now }
    requires cycles { turn.now.effects.cycles + 1 < 2 ^ 64 }
    ensures { (q o : List ℕ) (m : State) (b : Machine) → result ≡ begun (limit b (settle (turn_of turn.now.arrival (effects_at cells.now q o m turn.now.effects)))) }
{
    let cycles = turn.effects.cycles;
    match turn.arrival {
        Ok(()) => cycles < CYCLES_END,
        Err(Ending::Exception(_)) => {
            let entry = u64::from(runtime::entry::has_handler(cells, turn.effects.plan.write));
            cycles + entry < CYCLES_END
        }
        Err(Ending::Stops(stop)) => begins(stop) && cycles < CYCLES_END,
    }
}

// What the step from m is about to write, and whether it begins: `turn` is where it arrives, which is decided once, by the step.
pub fn notes(cells: &[i64], m: &State, turn: &Turn) -> Noted
    requires accepted { (q : List ℕ) × ((o : List ℕ) × AcceptedMachine (machine_at cells.now q o m.now)) }
    requires soon { turn.now.effects.cycles ≤ m.now.cycles + 3 }
    ensures { (q o : List ℕ) → turn_of turn.now.arrival (effects_at cells.now q o m.now turn.now.effects) ≡ Runtime·turn (machine_at cells.now q o m.now) → (helds_of result ≡ step_writes (machine_at cells.now q o m.now)) × (result.begun ≡ begun (step (machine_at cells.now q o m.now))) }
{
    Noted {
        begun: is_begun(cells, turn),
        own: own_cell(cells, m),
        entry: entry_cells(cells, turn),
    }
}
