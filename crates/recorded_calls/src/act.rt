// The list, byte by byte, on the machine and on what is due of it.
ghost use Rattle.std.specs.Prelude.{◌≡◌};
ghost use Rattle.recorded_calls.specs.Replay.{done_if_due, line_done, byte_taken};
ghost use Rattle.recorded_cases.specs.Case.{replay_kept};
ghost use Rattle.recorded_cases.specs.Kind.{due_kind};

use recorded::compare::Fault;
use recorded::reader::{Broken, Line, Reader};
use recorded_cases::kind::Kind;
use recorded_cases::lines::Replay;

// What was read of a line, and the replay so far.
#[derive(Drop)]
pub struct Reading {
    pub reader: Reader,
    pub replay: Replay,
}

// What the line's kind asks, if such a line may come.
#[tactic(auto, unfolding(crate::specs::Replay::kind_done))]
fn act(w: &mut Replay, l: Line) -> Result<(), Fault>
    ensures { replay_kept w.new result ≡ done_if_due (due_kind w.old.state.phase l) l w.old }
{
    match Kind::due(w.state.phase, l)? {
        Kind::First => w.state.first(l),
        Kind::Case => crate::open(w, l),
        Kind::Before(part) => w.before(part, l),
        Kind::Byte => w.byte_to_deliver(l),
        Kind::Empty => w.state.empty(l),
        Kind::Call(call) => crate::call(w, call, l),
        Kind::After(part) => w.after(part, l),
        Kind::Close => w.close(),
        Kind::Last => w.state.last(l),
    }
}

// A whole line: it is counted, and does what its kind asks. Its fault is kept.
#[tactic(auto, unfolding(crate::specs::Replay::line_done))]
fn take_line(w: &mut Replay, l: Line)
    ensures { w.new ≡ line_done l w.old }
{
    w.state.next_line();
    if let Err(fault) = act(w, l) {
        w.state.fault = Some(fault);
    }
}

impl Reading {
    // A byte of the list. After the first fault nothing more is done.
    #[tactic(auto, unfolding(crate::specs::Replay::byte_taken))]
    pub fn take_byte(&mut self, byte: u8)
        ensures { self.new ≡ byte_taken self.old byte }
    {
        if self.replay.state.fault.is_some() {
            return;
        }
        match self.reader.feed(byte) {
            Ok(None) => {}
            Ok(Some(l)) => take_line(&mut self.replay, l),
            Err(Broken) => self.replay.state.broken_line(),
        }
    }
}
