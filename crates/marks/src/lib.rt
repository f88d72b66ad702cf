// io.rs: the console's three marks, one record changed in place. `Marks` is definition's; enable, flag and pending are io.rs's
// irq_on_ready, interrupt_flag and pending_irq. Each method of io.rs is two: the form of this place is "a struct lent by &mut, thin functions
// over by-value ones".
#![tactic(auto, unfolding(definition::specs::Io::status, definition::specs::Io::read_status, definition::specs::Io::write_control, definition::specs::Io::delivered))]

ghost use Rattle.std.specs.Prelude.{◌≡◌, false};
ghost use Rattle.definition.specs.Io.{status, read_status, write_control, raise_interrupt, delivered, with_pending};

use definition::Marks;

// "2, plus 1 if bytes are queued, plus 4 if the interrupt flag is set"
pub fn status(ready: bool, marks: &Marks) -> u8
    ensures { result ≡ status ready marks.now }
{
    2 + ready as u8 + 4 * marks.flag as u8
}

// "the read clears the flag, not the pending mark"
fn flag_cleared(marks: Marks) -> Marks
    ensures { result ≡ read_status marks }
{
    Marks {
        flag: false,
        ..marks
    }
}

// "sets flag and mark"
fn interrupt_raised(marks: Marks) -> Marks
    ensures { result ≡ raise_interrupt marks }
{
    Marks {
        flag: true,
        pending: true,
        ..marks
    }
}

// "the lowest bit sets or clears receive-interrupt enable; writing it as 1 with bytes queued, enabled before or not, sets flag and mark."
fn control_written(marks: Marks, ready: bool, w: i64) -> Marks
    ensures { result ≡ write_control ready w marks }
{
    let enable = word::test_bit(w, 0);
    let enabled = Marks { enable, ..marks };
    if enable && ready {
        interrupt_raised(enabled)
    } else {
        enabled
    }
}

// "Delivering one byte or more with enable set sets flag and mark; delivering none does nothing."
fn delivered(marks: Marks, n: usize) -> Marks
    ensures { result ≡ delivered n marks }
{
    if 0 < n && marks.enable {
        interrupt_raised(marks)
    } else {
        marks
    }
}

// "the pending mark is taken"
fn taken(marks: Marks) -> Marks
    ensures { result ≡ with_pending false marks }
{
    Marks {
        pending: false,
        ..marks
    }
}

pub fn read_status(marks: &mut Marks)
    ensures { marks.new ≡ read_status marks.old }
{
    *marks = flag_cleared(*marks);
}

// SerialConsole::read_status: what a read of port 110 gives, and what it does.
pub fn status_read(marks: &mut Marks, ready: bool) -> u8
    ensures { (result ≡ status ready marks.old) × (marks.new ≡ read_status marks.old) }
{
    let value = status(ready, marks);
    read_status(marks);
    value
}

// SerialConsole::raise_interrupt
pub fn raise_interrupt(marks: &mut Marks)
    ensures { marks.new ≡ raise_interrupt marks.old }
{
    *marks = interrupt_raised(*marks);
}

// SerialConsole::write_control
pub fn write_control(marks: &mut Marks, ready: bool, w: i64)
    ensures { marks.new ≡ write_control ready w marks.old }
{
    *marks = control_written(*marks, ready, w);
}

// SerialConsole::push_input
pub fn input_pushed(marks: &mut Marks, n: usize)
    ensures { marks.new ≡ delivered n marks.old }
{
    *marks = delivered(*marks, n);
}

// SerialConsole::poll_interrupt
pub fn poll(marks: &mut Marks) -> bool
    ensures { (result ≡ marks.old.pending) × (marks.new ≡ with_pending false marks.old) }
{
    let due = marks.pending;
    *marks = taken(*marks);
    due
}
