// What a step does to the machine, decided and not yet written. What contracts ask of it (Room, plan_only) is said of the machine and the
// output record beside it, so no ghost field can hold it.

ghost use Rattle.std.specs.Prelude.{◌≡◌, None};
ghost use Rattle.runtime.specs.Meaning.{plan_only};

use console::ConsoleState;
use definition::Timer;
use registers::Plan;
use row::State;

#[derive(Clone, Copy)]
pub struct Effects {
    pub plan: Plan,
    pub cycles: u64,
    pub k: ConsoleState,
    pub timer: Timer,
    // The byte that waits for the output record.
    pub byte: Option<u8>,
}

impl Effects {
    // Nothing is done yet.
    pub(crate) fn none(m: &State) -> Effects
        ensures { result ≡ plan_only m.now (record { s = m.now.s; write = None }) }
    {
        Effects {
            plan: Plan {
                s: m.s,
                write: None,
            },
            cycles: m.cycles,
            k: m.k,
            timer: m.timer,
            byte: None,
        }
    }
}
