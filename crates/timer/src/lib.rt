// The timer on ports 120 and 121 (document 02, Card 14), changed in place.
#![tactic(auto, unfolding(definition::specs::Timer::interval_of, definition::specs::Timer::set_timer, definition::specs::Timer::tick, definition::specs::Timer::tick_entry, definition::specs::Timer::read_timer))]

ghost use Rattle.std.specs.Prelude.{◌≡◌, false, pos};
ghost use Rattle.definition.specs.Timer.{with_timer_mark, interval_of, set_timer, tick, tick_entry, read_timer};
ghost use Rattle.definition.specs.Accepted.{TimerIn};

use definition::Timer;

pub const INTERVAL_PORT: u32 = 120;

pub const REMAINING_PORT: u32 = 121;

// "where a number below 1 turns it off as 0"
fn interval_of(w: i64) -> u64
    ensures { result ≡ interval_of w }
{
    u64::try_from(w).unwrap_or(0)
}

// "Port 120 written sets interval and remaining cycles". "Turning the timer off keeps a mark already set."
pub fn set(t: &mut Timer, w: i64)
    ensures { t.new ≡ set_timer w t.old }
{
    t.interval = interval_of(w);
    t.remaining = t.interval;
}

// n cycles taken off what remains, "While the timer is on". "Where what is taken off leaves 0 or less, the timer's mark is set and the interval
// starts afresh."
pub fn tick(t: &mut Timer, n: u64)
    ensures { t.new ≡ tick n t.old }
{
    if t.interval == 0 {
        return;
    }
    if n < t.remaining {
        t.remaining -= n;
    } else {
        t.remaining = t.interval;
        t.mark = true;
    }
}

// Entry by a code, in a step: "each exception step its one cycle; a handler entry by code 0 [...] takes off none".
pub fn tick_entry(t: &mut Timer, code: u32)
    ensures { t.new ≡ tick_entry code t.old }
{
    if code != 0 {
        tick(t, 1);
    }
}

// "The poll takes [...] the timer's" mark.
pub fn poll(t: &mut Timer) -> bool
    ensures { (result ≡ t.old.mark) × (t.new ≡ with_timer_mark false t.old) }
{
    std::mem::take(&mut t.mark)
}

// The word that a port reads: port 120 "gives the interval. Port 121 reads what remains". Any other port reads n, the console's answer.
pub fn read_port(t: &Timer, port: u32, n: u8) -> i64
    requires { TimerIn t.now }
    ensures { result ≡ pos (read_timer port t.now n) }
{
    match port {
        INTERVAL_PORT => t.interval as i64,
        REMAINING_PORT => t.remaining as i64,
        _ => n as i64,
    }
}
