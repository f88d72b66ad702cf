// The row of 20 numbers: its parts read into structs, and written back. Places count from 0 here. It stays a slice, whose length the contracts ask
// for, since C lends it so and a call's tests say how long it is.
#![tactic(auto)]

ghost use Rattle.std.specs.Prelude.{◌≡◌, [], ◌+◌, ◌<◌, ◌^◌, pos, nat_abs, length, get_or, set};
ghost use Rattle.definition.specs.Constants.{ROW, ROW-PC, ROW-SP, ROW-SR, ROW-CYCLES, ROW-ENABLE, ROW-FLAG, ROW-PENDING, ROW-START, ROW-COUNT, ROW-WRITTEN, ROW-FENCE, ROW-INTERVAL, ROW-REMAINING, ROW-MARK};
ghost use Rattle.definition.specs.Word.{eq_z};
ghost use Rattle.definition.specs.Calls.{at, put, mark, row_of, delivered_row};
ghost use Rattle.definition.specs.Accepted.{Below, TimerIn};
ghost use Rattle.row.specs.Meaning.{registers_of, marks_of, state_of, timer_of, row_state, machine_at};

use console::ConsoleState;
use definition::{Marks, Registers, Timer, places};

// Computer, without the lent cells, queue and output record. That its numbers fit a row is asked by contracts and no ghost field, as of Timer:
// the definition's machine has any numbers.
#[derive(Clone, Copy)]
pub struct State {
    pub s: Registers,
    pub cycles: u64,
    pub k: ConsoleState,
    pub fence: u32,
    pub timer: Timer,
}

impl State {
    // The machine in an accepted row.
    pub fn from_row(row: &[i64]) -> State
        requires { (length row.now ≡ ROW) × (Below (2 ^ 32) (at ROW-PC row.now) × (Below (2 ^ 32) (at ROW-SP row.now) × Below (2 ^ 32) (at ROW-FENCE row.now))) }
        ensures { result ≡ row_state row.now }
    {
        State {
            s: registers(row),
            cycles: number_at(row, places::CYCLES),
            k: console_state(row),
            fence: number_at(row, places::FENCE) as u32,
            timer: timer(row),
        }
    }
}

pub fn number_at(row: &[i64], i: usize) -> u64
    requires { i < length row.now }
    ensures { result ≡ nat_abs (get_or row.now i (pos 0)) }
{
    row[i].unsigned_abs()
}

pub fn mark_at(row: &[i64], i: usize) -> bool
    requires { i < length row.now }
    ensures { result ≡ eq_z (get_or row.now i (pos 0)) (pos 1) }
{
    row[i] == 1
}

pub fn registers(row: &[i64]) -> Registers
    requires { (length row.now ≡ ROW) × (Below (2 ^ 32) (at ROW-PC row.now) × Below (2 ^ 32) (at ROW-SP row.now)) }
    ensures { result ≡ registers_of row.now }
{
    Registers {
        a: memory::cell_from(row, places::A),
        b: memory::cell_from(row, places::B),
        pc: number_at(row, places::PC) as u32,
        sp: number_at(row, places::SP) as u32,
        sr: row[places::SR],
        empties: 0,
    }
}

pub fn marks(row: &[i64]) -> Marks
    requires { length row.now ≡ ROW }
    ensures { result ≡ marks_of row.now }
{
    Marks {
        enable: mark_at(row, places::ENABLE),
        flag: mark_at(row, places::FLAG),
        pending: mark_at(row, places::PENDING),
    }
}

pub fn console_state(row: &[i64]) -> ConsoleState
    requires { length row.now ≡ ROW }
    ensures { result ≡ state_of row.now }
{
    ConsoleState {
        marks: marks(row),
        start: number_at(row, places::START) as usize,
        count: number_at(row, places::COUNT) as usize,
        written: number_at(row, places::WRITTEN) as usize,
    }
}

pub fn timer(row: &[i64]) -> Timer
    requires { length row.now ≡ ROW }
    ensures { result ≡ timer_of row.now }
{
    Timer {
        interval: number_at(row, places::INTERVAL),
        remaining: number_at(row, places::REMAINING),
        mark: mark_at(row, places::MARK),
    }
}

pub fn put(row: &mut [i64], i: usize, z: i64)
    requires { i < length row.old }
    ensures { row.new ≡ set row.old i z }
{
    row[i] = z;
}

// pc, sp, sr and cycles.
pub fn put_numbers(row: &mut [i64], s: &Registers, cycles: u64)
    requires { (length row.old ≡ ROW) × (cycles < 2 ^ 63) }
    ensures { row.new ≡ put ROW-CYCLES (pos cycles) (put ROW-SR s.now.sr (put ROW-SP (pos s.now.sp) (put ROW-PC (pos s.now.pc) row.old))) }
{
    row[places::PC] = s.pc as i64;
    row[places::SP] = s.sp as i64;
    row[places::SR] = s.sr;
    row[places::CYCLES] = cycles as i64;
}

pub fn put_marks(row: &mut [i64], k: &Marks)
    requires { length row.old ≡ ROW }
    ensures { row.new ≡ put ROW-PENDING (mark k.now.pending) (put ROW-FLAG (mark k.now.flag) (put ROW-ENABLE (mark k.now.enable) row.old)) }
{
    row[places::ENABLE] = k.enable as i64;
    row[places::FLAG] = k.flag as i64;
    row[places::PENDING] = k.pending as i64;
}

pub fn put_console(row: &mut [i64], k: &ConsoleState)
    requires { (length row.old ≡ ROW) × ((k.now.start < 2 ^ 63) × ((k.now.count < 2 ^ 63) × (k.now.written < 2 ^ 63))) }
    ensures { row.new ≡ put ROW-WRITTEN (pos k.now.written) (put ROW-COUNT (pos k.now.count) (put ROW-START (pos k.now.start) row.old)) }
{
    row[places::START] = k.start as i64;
    row[places::COUNT] = k.count as i64;
    row[places::WRITTEN] = k.written as i64;
}

pub fn put_timer(row: &mut [i64], t: &Timer)
    requires { (length row.old ≡ ROW) × TimerIn t.now }
    ensures { row.new ≡ put ROW-MARK (mark t.now.mark) (put ROW-REMAINING (pos t.now.remaining) (put ROW-INTERVAL (pos t.now.interval) row.old)) }
{
    row[places::INTERVAL] = t.interval as i64;
    row[places::REMAINING] = t.remaining as i64;
    row[places::MARK] = t.mark as i64;
}

// The whole row anew.
pub fn write_row(row: &mut [i64], m: &State)
    requires { (length row.old ≡ ROW) × ((m.now.cycles < 2 ^ 63) × ((m.now.k.start < 2 ^ 63) × ((m.now.k.count < 2 ^ 63) × ((m.now.k.written < 2 ^ 63) × TimerIn m.now.timer)))) }
    ensures { row.new ≡ row_of (machine_at [] [] [] m.now) }
{
    memory::cell_into(row, places::A, m.s.a);
    memory::cell_into(row, places::B, m.s.b);
    put_numbers(row, &m.s, m.cycles);
    put_marks(row, &m.k.marks);
    put_console(row, &m.k);
    put(row, places::FENCE, m.fence as i64);
    put_timer(row, &m.timer);
}

// The row after n bytes were delivered.
#[tactic(auto, unfolding(definition::specs::Calls::delivered_row))]
pub fn put_delivered(row: &mut [i64], n: usize)
    requires { (length row.old ≡ ROW) × (nat_abs (at ROW-COUNT row.old) + n < 2 ^ 63) }
    ensures { row.new ≡ delivered_row n row.old }
{
    let mut k = marks(row);
    marks::input_pushed(&mut k, n);
    let count = number_at(row, places::COUNT) + n as u64;
    row[places::FLAG] = k.flag as i64;
    row[places::PENDING] = k.pending as i64;
    row[places::COUNT] = count as i64;
}
