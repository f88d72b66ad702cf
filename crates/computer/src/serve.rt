// The console and the timer behind an instruction, in place: what their namesakes of crate runtime decide is done at once.

ghost use Rattle.std.specs.Prelude.{◌≡◌, ◌+◌, ◌<◌, ◌≤◌, ◌^◌, List, ℕ, ℤ, length};
ghost use Rattle.definition.specs.declared.Request.TheVariants.{Reads, Writes};
ghost use Rattle.definition.specs.Timer.{tick};
ghost use Rattle.definition.specs.Accepted.{TimerIn};
ghost use Rattle.definition.specs.Exec.{Core, core};
ghost use Rattle.definition.specs.Instructions.{in_op, out_op};
ghost use Rattle.definition.specs.Runtime.{poll, serve, with_core, with_timer, with_cycles, after_attempt};
ghost use Rattle.row.specs.Meaning.{machine_at};
ghost use Rattle.runtime.specs.Meaning.{turn_of};
ghost use Rattle.computer.specs.Meaning.{asked};

use arguments::Seen;
use definition::{Ending, Error, Operand, Reg};
use row::State;

// Computer::poll_hardware_interrupt: "The poll takes the console's mark first and otherwise the timer's."
#[tactic(auto, unfolding(definition::specs::Runtime::poll, definition::specs::Runtime::ends))]
#[inline(always)]
fn poll(m: &mut State) -> Result<(), Ending>
    ensures value { (l : List ℤ) (q o : List ℕ) → turn_of result (machine_at l q o m.new) ≡ poll (machine_at l q o m.old) }
    ensures cycles { m.new.cycles ≡ m.old.cycles }
{
    if registers::interrupt_enable(&m.s) {
        if marks::poll(&mut m.k.marks) || timer::poll(&mut m.timer) {
            return Err(Ending::Exception(0));
        }
    }
    Ok(())
}

// "After a completed instruction its cost is added", and "before the poll, takes its cost off what remains".
#[inline(always)]
pub fn conclude(m: &mut State, cost: u64) -> Result<(), Ending>
    requires { m.old.cycles + cost < 2 ^ 64 }
    ensures value { (l : List ℤ) (q o : List ℕ) → turn_of result (machine_at l q o m.new) ≡ poll (with_timer (tick cost m.old.timer) (with_cycles (m.old.cycles + cost) (machine_at l q o m.old))) }
    ensures cycles { m.new.cycles ≡ m.old.cycles + cost }
{
    m.cycles += cost;
    timer::tick(&mut m.timer, cost);
    poll(m)
}

// A port's byte, or the timer's word, goes to a register. The core b, of before the instruction, is looked at by no case.
#[inline(always)]
fn serve_read(queue: &[u8], m: &mut State, port: u32, r: Reg, cost: u64) -> Result<(), Ending>
    requires start { m.old.k.start < length queue.now }
    requires timer { TimerIn m.old.timer }
    requires cycles { m.old.cycles + cost < 2 ^ 64 }
    ensures value { (l : List ℤ) (b : Core) (o : List ℕ) → turn_of result (machine_at l queue.now o m.new) ≡ serve (with_core b (machine_at l queue.now o m.old)) (Reads port r) cost (core l m.old.s) }
    ensures soon { m.new.cycles ≤ m.old.cycles + cost }
{
    let n = console::read_port(queue, &mut m.k, port);
    let w = timer::read_port(&m.timer, port, n);
    registers::put_reg(&mut m.s, r, memory::word_cell(w))?;
    conclude(m, cost)
}

// A word goes to a port. Where the output record has room, no port finds it full.
#[inline(always)]
fn serve_write(output: &mut [u8], m: &mut State, port: u32, w: i64, cost: u64) -> Result<(), Ending>
    requires room { m.old.k.written < length output.old }
    requires written { m.old.k.written ≤ 65536 }
    requires cycles { m.old.cycles + cost < 2 ^ 64 }
    ensures value { (l : List ℤ) (b : Core) (q : List ℕ) → turn_of result (machine_at l q output.new m.new) ≡ serve (with_core b (machine_at l q output.old m.old)) (Writes port w) cost (core l m.old.s) }
    ensures soon { m.new.cycles ≤ m.old.cycles + cost }
{
    // "A step that writes port 120 takes nothing off."
    if port == timer::INTERVAL_PORT {
        timer::set(&mut m.timer, w);
        m.cycles += cost;
        return poll(m);
    }
    let at = m.k.written;
    let byte = console::write_port(&mut m.k, port, w);
    runtime::commit::write(&mut [], output, at, None, None, byte);
    conclude(m, cost)
}

// in: "in, out and rti check S first"
#[tactic(auto, unfolding(definition::specs::Instructions::in_op, definition::specs::Exec::check_privileged, definition::specs::Exec::branch, definition::specs::Exec::and_then, definition::specs::Runtime::after_attempt, registers::specs::Meaning::res_of))]
pub fn input(queue: &[u8], m: &mut State, x: Operand, r: Reg, cost: u64) -> Result<(), Ending>
    requires start { m.old.k.start < length queue.now }
    requires timer { TimerIn m.old.timer }
    requires cycles { m.old.cycles + cost < 2 ^ 64 }
    ensures value { (l : List ℤ) (b : Core) (o : List ℕ) → turn_of result (machine_at l queue.now o m.new) ≡ after_attempt (with_core b (machine_at l queue.now o m.old)) (asked cost (in_op x r (core l m.old.s))) }
    ensures soon { m.new.cycles ≤ m.old.cycles + cost }
{
    if !registers::supervisor(&m.s) {
        return Err(Error::PrivilegedInstruction.into());
    }
    let port = arguments::place_of(&mut m.s, x)?;
    serve_read(queue, m, port, r, cost)
}

// out
#[tactic(auto, unfolding(definition::specs::Instructions::out_op, definition::specs::Exec::check_privileged, definition::specs::Exec::branch, definition::specs::Exec::and_then, definition::specs::Runtime::after_attempt, registers::specs::Meaning::res_of, memory::specs::Overlay::overlay))]
pub fn output(
    cells: &[i64],
    output: &mut [u8],
    m: &mut State,
    x: Operand,
    y: Operand,
    cost: u64,
) -> Result<(), Ending>
    requires room { m.old.k.written < length output.old }
    requires written { m.old.k.written ≤ 65536 }
    requires cycles { m.old.cycles + cost < 2 ^ 64 }
    ensures value { (b : Core) (q : List ℕ) → turn_of result (machine_at cells.now q output.new m.new) ≡ after_attempt (with_core b (machine_at cells.now q output.old m.old)) (asked cost (out_op x y (core cells.now m.old.s))) }
    ensures soon { m.new.cycles ≤ m.old.cycles + cost }
{
    if !registers::supervisor(&m.s) {
        return Err(Error::PrivilegedInstruction.into());
    }
    let w = arguments::word_of(&Seen(cells, None), &mut m.s, x)?;
    let port = arguments::place_of(&mut m.s, y)?;
    serve_write(output, m, port, w, cost)
}
