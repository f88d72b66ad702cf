// The usual step, in place: one in which nothing would have to be undone. It is far from the last cycle, so that stop 7 doesn't come, and no out
// that may find the output record full, so that stop 6 doesn't. Each other step is decided before it is written (docs/SPEED.md).

ghost use Rattle.std.specs.Prelude.{◌≡◌, ◌+◌, ◌<◌, ◌≤◌, ◌^◌, true, false, List, ℕ, length, IfSome, IfNone};
ghost use Rattle.definition.specs.declared.Op.TheVariants.{Out};
ghost use Rattle.definition.specs.Memory.{cell_count, cell_at};
ghost use Rattle.definition.specs.Encoding.{sound};
ghost use Rattle.definition.specs.Accepted.{AcceptedMachine};
ghost use Rattle.definition.specs.Runtime.{turn, settle, step};
ghost use Rattle.row.specs.Meaning.{machine_at};
ghost use Rattle.runtime.specs.Meaning.{turn_of, outcome_of};
ghost use Rattle.computer.specs.Meaning.{Usual, Unusual};

use definition::{Ending, Op, Stop};
use encoding::Code;
use row::State;

// Below so many cycles no stop 7 is near.
const NEAR: u64 = 0x4000_0000_0000_0000;

// The instruction at pc, if its step is a usual one; `size` is the output record's.
#[inline(always)]
pub fn usual(cells: &[i64], size: usize, m: &State) -> Option<Code>
    requires { (n : ℕ) → n < cell_count cells.now → sound (cell_at cells.now n) ≡ true }
    ensures usual { IfSome result (λ i. Usual cells.now size m.now i) }
    ensures unusual { IfNone result (Unusual cells.now size m.now) }
{
    if NEAR <= m.cycles {
        return None;
    }
    let Some(v) = memory::get(cells, m.s.pc) else {
        return None;
    };
    let Some(i) = runtime::fetch::code_in(v) else {
        return None;
    };
    if has_room(&i, size, m) { Some(i) } else { None }
}

// Does the step not depend on whether the output record, of this size, is full?
#[inline(always)]
fn has_room(i: &Code, size: usize, m: &State) -> bool
    ensures room { result ≡ true → i.now.op ≡ Out → m.now.k.written < size }
    ensures full { result ≡ false → (i.now.op ≡ Out) × (size ≤ m.now.k.written) }
{
    match i.op {
        Op::Out => m.k.written < size,
        _ => true,
    }
}

// The instruction with what it asks, up to where the step arrives.
#[inline(always)]
fn arrive(
    cells: &mut [i64],
    queue: &[u8],
    output: &mut [u8],
    m: &mut State,
    i: &Code,
) -> Result<(), Ending>
    requires accepted { AcceptedMachine (machine_at cells.old queue.now output.old m.old) }
    requires usual { Usual cells.old (length output.old) m.old i.now }
    ensures value { turn_of result (machine_at cells.new queue.now output.new m.new) ≡ turn (machine_at cells.old queue.now output.old m.old) }
    ensures soon { m.new.cycles ≤ m.old.cycles + 3 }
{
    let guard = runtime::guard(m);
    m.s.pc += 1;
    match i.op {
        Op::In => crate::serve::input(queue, m, i.x(), i.r2(), i.cycles),
        Op::Out => crate::serve::output(cells, output, m, i.x(), i.y(), i.cycles),
        _ => {
            crate::quiet::execute(cells, guard, &mut m.s, i)?;
            crate::serve::conclude(m, i.cycles)
        }
    }
}

// The end of a step, from where it arrived.
#[tactic(auto, using(runtime::proofs::Laws::recover_in, runtime::proofs::Laws::recover_out), unfolding(definition::specs::Runtime::settle, definition::specs::Runtime::ends, definition::specs::Runtime::elapses, memory::specs::Overlay::overlay))]
#[inline(always)]
fn end(cells: &mut [i64], m: &mut State, arrival: Result<(), Ending>) -> Result<(), Stop>
    requires least { 256 ≤ cell_count cells.old }
    requires cycles { m.old.cycles + 1 < 2 ^ 64 }
    ensures value { (q o : List ℕ) → outcome_of result (machine_at cells.new q o m.new) ≡ settle (turn_of arrival (machine_at cells.old q o m.old)) }
    ensures soon { m.new.cycles ≤ m.old.cycles + 1 }
{
    match arrival {
        Ok(()) => Ok(()),
        Err(Ending::Stops(stop)) => Err(stop),
        Err(Ending::Exception(code)) => {
            // "if cell 200 is no instruction, stop with that code"
            if !runtime::entry::has_handler(cells, None) {
                return Err(Stop::NoHandler(code));
            }
            runtime::entry::enter(cells, m, code);
            timer::tick_entry(&mut m.timer, code);
            Ok(())
        }
    }
}

#[inline(always)]
pub fn take(
    cells: &mut [i64],
    queue: &[u8],
    output: &mut [u8],
    m: &mut State,
    i: &Code,
) -> Result<(), Stop>
    requires accepted { AcceptedMachine (machine_at cells.old queue.now output.old m.old) }
    requires usual { Usual cells.old (length output.old) m.old i.now }
    ensures { outcome_of result (machine_at cells.new queue.now output.new m.new) ≡ step (machine_at cells.old queue.now output.old m.old) }
{
    let arrival = arrive(cells, queue, output, m, i);
    end(cells, m, arrival)
}
