// A step up to where it completes, enters or stops: nothing is written.

ghost use Rattle.std.specs.Prelude.{◌≡◌, ◌≤◌, ◌<◌, ◌+◌, ◌^◌, ℕ, ℤ, List, length, None};
ghost use Rattle.definition.specs.declared.Request.TheVariants.{Reads, Writes};
ghost use Rattle.definition.specs.Timer.{tick};
ghost use Rattle.definition.specs.Runtime.{poll, serve, turn, with_timer, with_cycles};
ghost use Rattle.definition.specs.Accepted.{AcceptedMachine, TimerIn};
ghost use Rattle.registers.specs.Meaning.{core_of};
ghost use Rattle.row.specs.Meaning.{machine_at};
ghost use Rattle.runtime.specs.Meaning.{effects_at, plan_only, turn_of, Room};

use crate::effects::Effects;
use definition::{Ending, Executed, Reg, Request, Stop};
use row::State;

// Where the step arrives, at its end or at what ends it before, and what it does up to there.
#[derive(Clone, Copy)]
pub struct Turn {
    pub arrival: Result<(), Ending>,
    pub effects: Effects,
}

// Computer::poll_hardware_interrupt: "if I is set, the pending mark is taken". "The poll takes the console's mark first and otherwise the timer's."
#[tactic(auto, unfolding(definition::specs::Runtime::poll, definition::specs::Runtime::ends))]
fn poll(f: &mut Effects) -> Result<(), Ending>
    ensures value { (l : List ℤ) (q o : List ℕ) (m : State) → turn_of result (effects_at l q o m f.new) ≡ poll (effects_at l q o m f.old) }
    ensures byte { f.new.byte ≡ f.old.byte }
    ensures cycles { f.new.cycles ≡ f.old.cycles }
{
    if registers::interrupt_enable(&f.plan.s) {
        if marks::poll(&mut f.k.marks) || timer::poll(&mut f.timer) {
            return Err(Ending::Exception(0));
        }
    }
    Ok(())
}

// "After a completed instruction its cost is added", and "before the poll, takes its cost off what remains".
fn conclude(f: &mut Effects, cost: u64) -> Result<(), Ending>
    requires { f.old.cycles + cost < 2 ^ 64 }
    ensures value { (l : List ℤ) (q o : List ℕ) (m : State) → turn_of result (effects_at l q o m f.new) ≡ poll (with_timer (tick cost f.old.timer) (with_cycles (f.old.cycles + cost) (effects_at l q o m f.old))) }
    ensures byte { f.new.byte ≡ f.old.byte }
    ensures cycles { f.new.cycles ≡ f.old.cycles + cost }
{
    f.cycles += cost;
    timer::tick(&mut f.timer, cost);
    poll(f)
}

// A port's byte, or the timer's word, goes to a register.
fn serve_read(
    queue: &[u8],
    m: &State,
    f: &mut Effects,
    port: u32,
    r: Reg,
    cost: u64,
) -> Result<(), Ending>
    requires start { m.now.k.start < length queue.now }
    requires timer { TimerIn m.now.timer }
    requires cycles { m.now.cycles + cost < 2 ^ 64 }
    requires planned { f.old ≡ plan_only m.now f.old.plan }
    ensures value { (l : List ℤ) (o : List ℕ) → turn_of result (effects_at l queue.now o m.now f.new) ≡ serve (machine_at l queue.now o m.now) (Reads port r) cost (core_of l f.old.plan) }
    ensures byte { f.new.byte ≡ None }
    ensures soon { f.new.cycles ≤ m.now.cycles + cost }
{
    let n = console::read_port(queue, &mut f.k, port);
    let w = timer::read_port(&f.timer, port, n);
    registers::put_reg(&mut f.plan.s, r, memory::word_cell(w))?;
    conclude(f, cost)
}

// A word goes to a port.
fn serve_write(
    output: &[u8],
    m: &State,
    f: &mut Effects,
    port: u32,
    w: i64,
    cost: u64,
) -> Result<(), Ending>
    requires written { m.now.k.written ≤ 65536 }
    requires cycles { m.now.cycles + cost < 2 ^ 64 }
    requires planned { f.old ≡ plan_only m.now f.old.plan }
    ensures value { (l : List ℤ) (q : List ℕ) → turn_of result (effects_at l q output.now m.now f.new) ≡ serve (machine_at l q output.now m.now) (Writes port w) cost (core_of l f.old.plan) }
    ensures room { Room (length output.now) m.now f.new }
    ensures soon { f.new.cycles ≤ m.now.cycles + cost }
{
    if console::output_full(&m.k, port, output.len()) {
        // "Stops 6 and 7 leave the machine before that step"
        *f = Effects::none(m);
        return Err(Ending::Stops(Stop::OutputFull));
    }
    // "A step that writes port 120 takes nothing off."
    if port == timer::INTERVAL_PORT {
        timer::set(&mut f.timer, w);
        f.cycles += cost;
        return poll(f);
    }
    f.byte = console::write_port(&mut f.k, port, w);
    conclude(f, cost)
}

// The console or the timer serves what the instruction asks.
#[tactic(auto, unfolding(definition::specs::Runtime::serve, definition::specs::Runtime::conclude))]
fn serve(queue: &[u8], output: &[u8], m: &State, f: &mut Effects, x: Executed) -> Result<(), Ending>
    requires console { (m.now.k.start < length queue.now) × (m.now.k.written ≤ 65536) }
    requires timer { TimerIn m.now.timer }
    requires cycles { (m.now.cycles < 2 ^ 63) × (x.cost ≤ 3) }
    requires planned { f.old ≡ plan_only m.now f.old.plan }
    ensures value { (l : List ℤ) → turn_of result (effects_at l queue.now output.now m.now f.new) ≡ serve (machine_at l queue.now output.now m.now) x.request x.cost (core_of l f.old.plan) }
    ensures room { Room (length output.now) m.now f.new }
    ensures soon { f.new.cycles ≤ m.now.cycles + 3 }
{
    match x.request {
        Request::Nothing => conclude(f, x.cost),
        Request::Reads(port, r) => serve_read(queue, m, f, port, r, x.cost),
        Request::Writes(port, w) => serve_write(output, m, f, port, w, x.cost),
    }
}

// The instruction, then what it asks.
fn arrive(
    cells: &[i64],
    queue: &[u8],
    output: &[u8],
    m: &State,
    f: &mut Effects,
) -> Result<(), Ending>
    requires accepted { AcceptedMachine (machine_at cells.now queue.now output.now m.now) }
    requires none { f.old ≡ plan_only m.now (record { s = m.now.s; write = None }) }
    ensures value { turn_of result (effects_at cells.now queue.now output.now m.now f.new) ≡ turn (machine_at cells.now queue.now output.now m.now) }
    ensures room { Room (length output.now) m.now f.new }
    ensures soon { f.new.cycles ≤ m.now.cycles + 3 }
{
    let x = crate::fetch::attempt(cells, crate::guard(m), &mut f.plan)?;
    serve(queue, output, m, f, x)
}

// Inlined, as settle is, into computer's decided step and the step with a journal: of two callers neither would be else, and a step of either takes longer.
#[inline(always)]
pub fn take_turn(cells: &[i64], queue: &[u8], output: &[u8], m: &State) -> Turn
    requires { AcceptedMachine (machine_at cells.now queue.now output.now m.now) }
    ensures value { turn_of result.arrival (effects_at cells.now queue.now output.now m.now result.effects) ≡ turn (machine_at cells.now queue.now output.now m.now) }
    ensures room { Room (length output.now) m.now result.effects }
    ensures soon { result.effects.cycles ≤ m.now.cycles + 3 }
{
    let mut effects = Effects::none(m);
    let arrival = arrive(cells, queue, output, m, &mut effects);
    Turn { arrival, effects }
}
