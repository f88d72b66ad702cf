// mod.rs in parts: fetch, an instruction with the console's part, the poll, exception entry, and what a step writes. The step and the run are
// in crate computer.
#![tactic(auto)]

ghost use Rattle.std.specs.Prelude.{◌≡◌};
ghost use Rattle.runtime.specs.Meaning.{guard_of};

use row::State;

pub mod commit;
pub mod effects;
pub mod entry;
pub mod fetch;
pub mod settle;
pub mod turn;

// The first address that a step from m may write: the fence binds "a step begun with S clear".
pub fn guard(m: &State) -> u32
    ensures { result ≡ guard_of m.now }
{
    if registers::supervisor(&m.s) {
        0
    } else {
        m.fence
    }
}
