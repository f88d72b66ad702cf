// The recorded list's calls: the line that opens a case, and the lines 10 to 14, whose answers are compared with the machine's.
#![tactic(auto)]

ghost use Rattle.std.specs.Prelude.{◌≡◌, take};
ghost use Rattle.definition.specs.Calls.{called as Calls·called, lent};
ghost use Rattle.recorded_cases.specs.State.{kept};
ghost use Rattle.recorded_cases.specs.Case.{replay_kept};
ghost use Rattle.recorded_calls.specs.Replay.{after_call, ran_in, delivered_in, drained_in, run_line, deliver_line, drain_line, raise_line, set_line, call_line, open_line};

use definition::answers::check;
use definition::places::ROW;
use definition::{Done, Drained, Ran};
use recorded::compare::{Answer, Fault};
use recorded::length::{Length, Lengths};
use recorded::reader::Line;
use recorded_cases::kind::Call;
use recorded_cases::lines::Replay;
use recorded_cases::state::{Phase, State};

pub mod act;

// After a call with a drain buffer of so many bytes.
fn called(s: &mut State, buffer: Length<128>, got: Answer, due: Answer) -> Result<(), Fault>
    ensures { kept s.new result ≡ after_call s.old buffer got due }
{
    s.phase = Phase::After;
    s.lengths.bytes = Length::default();
    s.lengths.buffer = buffer;
    s.empty = 0;
    s.calls = s.calls.wrapping_add(1);
    s.fault = None;
    got.compare(due)
}

// The calls on the parts in use of the buffers. The arrays are lent apart: where a part of an array of w.machine is lent at the call, no proof is found.
fn run_in(
    cells: &mut [i64; 30000],
    queue: &mut [u8; 256],
    output: &mut [u8; 4096],
    row: &mut [i64; ROW],
    n: Lengths,
    budget: u64,
) -> Ran
    ensures { Calls·called result (lent cells.new queue.new output.new row.new) ≡ ran_in budget n (lent cells.old queue.old output.old row.old) }
{
    let queue = &mut queue[..n.queue.get()];
    let output = &mut output[..n.output.get()];
    z33::run::z33_run(cells, queue, output, row, budget)
}

fn deliver_in(queue: &mut [u8; 256], row: &mut [i64; ROW], bytes: &[u8; 8], n: Lengths) -> Done
    ensures { Calls·called result (queue.new, row.new) ≡ delivered_in n.queue queue.old row.old (take n.bytes bytes.now) }
{
    z33::serial::z33_deliver(&mut queue[..n.queue.get()], row, &bytes[..n.bytes.get()])
}

fn drain_in(
    output: &[u8; 4096],
    row: &mut [i64; ROW],
    buffer: &mut [u8; 128],
    n: Lengths,
) -> Drained
    ensures { Calls·called result (row.new, buffer.new) ≡ drained_in n.buffer (take n.output output.now) row.old buffer.old }
{
    z33::serial::z33_drain(
        &output[..n.output.get()],
        row,
        &mut buffer[..n.buffer.get()],
    )
}

// "call run; it is not refused, and answers so"
#[tactic(auto, unfolding(crate::specs::Replay::run_line))]
fn run(w: &mut Replay, l: Line) -> Result<(), Fault>
    ensures { replay_kept w.new result ≡ run_line l w.old }
{
    let due = Answer {
        stop: word::to_bits(l.b),
        detail: word::to_bits(l.c),
        count: word::to_bits(l.d),
        empty: w.state.empty,
        ..Answer::default()
    };
    let m = &mut w.machine;
    let ran = run_in(
        &mut m.cells,
        &mut m.queue,
        &mut m.output,
        &mut m.row,
        w.state.lengths,
        word::to_bits(l.a),
    );
    called(&mut w.state, Length::default(), ran.into(), due)
}

// "call deliver with the bytes of the lines 6 before it"
#[tactic(auto, unfolding(crate::specs::Replay::deliver_line))]
fn deliver(w: &mut Replay, l: Line) -> Result<(), Fault>
    ensures { replay_kept w.new result ≡ deliver_line l w.old }
{
    check(w.state.lengths.bytes.is(l.a), Fault::Number)?;
    let due = Answer {
        refusal: word::to_bits(l.b),
        ..Answer::default()
    };
    let m = &mut w.machine;
    let done = deliver_in(&mut m.queue, &mut m.row, &w.bytes, w.state.lengths);
    called(&mut w.state, Length::default(), done.into(), due)
}

// "call drain; every byte of the buffer is 0 before"
#[tactic(auto, unfolding(crate::specs::Replay::drain_line))]
fn drain(w: &mut Replay, l: Line) -> Result<(), Fault>
    ensures { replay_kept w.new result ≡ drain_line l w.old }
{
    let n = Length::try_from(l.a)?;
    let due = Answer {
        refusal: word::to_bits(l.b),
        count: word::to_bits(l.c),
        ..Answer::default()
    };
    w.due.buffer.fill(0);
    let m = &mut w.machine;
    m.buffer.fill(0);
    let lengths = Lengths {
        buffer: n,
        ..w.state.lengths
    };
    let drained = drain_in(&m.output, &mut m.row, &mut m.buffer, lengths);
    called(&mut w.state, n, drained.into(), due)
}

// "After 13, stop 0 means that the exception was entered."
#[tactic(auto, unfolding(crate::specs::Replay::raise_line))]
fn raise(w: &mut Replay, l: Line) -> Result<(), Fault>
    ensures { replay_kept w.new result ≡ raise_line l w.old }
{
    check(0 <= l.a, Fault::Number)?;
    let due = Answer {
        refusal: word::to_bits(l.b),
        stop: word::to_bits(l.c),
        detail: word::to_bits(l.d),
        ..Answer::default()
    };
    let m = &mut w.machine;
    let raised = z33::raise::z33_raise(&mut m.cells, &mut m.row, word::to_bits(l.a));
    called(&mut w.state, Length::default(), raised.into(), due)
}

#[tactic(auto, unfolding(crate::specs::Replay::set_line))]
fn set_register(w: &mut Replay, l: Line) -> Result<(), Fault>
    ensures { replay_kept w.new result ≡ set_line l w.old }
{
    check(0 <= l.a, Fault::Number)?;
    let due = Answer {
        refusal: word::to_bits(l.c),
        ..Answer::default()
    };
    let done = z33::register::z33_set_register(&mut w.machine.row, word::to_bits(l.a), l.b);
    called(&mut w.state, Length::default(), done.into(), due)
}

// The lines 10 to 14.
fn call(w: &mut Replay, call: Call, l: Line) -> Result<(), Fault>
    ensures { replay_kept w.new result ≡ call_line call l w.old }
{
    match call {
        Call::Run => run(w, l),
        Call::Deliver => deliver(w, l),
        Call::Drain => drain(w, l),
        Call::Raise => raise(w, l),
        Call::SetRegister => set_register(w, l),
    }
}

// "opens a case: all cells empty, all bytes 0, the row's 20 numbers 0"
#[tactic(auto, using(crate::proofs::Laws::fresh_clears), unfolding(crate::specs::Replay::open_line))]
fn open(w: &mut Replay, l: Line) -> Result<(), Fault>
    ensures { replay_kept w.new result ≡ open_line l w.old }
{
    let m = &mut w.machine;
    z33::fresh::z33_fresh(&mut m.cells, &mut m.row);
    m.queue.fill(0);
    m.output.fill(0);
    w.due.clear();
    w.state.open(l)
}
