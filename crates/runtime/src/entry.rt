// Computer::recover_from_exception, in parts: the handler's test, and the machine entered.

ghost use Rattle.std.specs.Prelude.{◌≡◌, ◌≤◌, ◌<◌, ◌+◌, ◌^◌, ℤ, ℕ, List};
ghost use Rattle.definition.specs.Memory.{cell_count};
ghost use Rattle.definition.specs.Registers.{with_sr};
ghost use Rattle.definition.specs.Runtime.{has_handler, entered_sr, entered};
ghost use Rattle.memory.specs.Overlay.{overlay};
ghost use Rattle.row.specs.Meaning.{machine_at};

use crate::commit::{Saved, write};
use definition::Registers;
use memory::Write;
use registers::Flag;
use row::State;

// "if cell 200 is no instruction", once the write that waits is made
#[tactic(auto, using(crate::proofs::Laws::handler_read, crate::proofs::Laws::handler_there))]
pub fn has_handler(cells: &[i64], write: Option<Write>) -> bool
    requires { 256 ≤ cell_count cells.now }
    ensures { result ≡ has_handler (overlay write cells.now) }
{
    match memory::read_over(cells, write, 200) {
        Some(v) => memory::is_instruction(v),
        None => false,
    }
}

// "S is set", "Code 0 also clears I."
#[tactic(auto, using(word::proofs::Laws::back, crate::proofs::Laws::entered_zero, crate::proofs::Laws::entered_suc))]
fn put_flags(s: &mut Registers, code: u32)
    ensures { s.new ≡ with_sr (entered_sr code s.old.sr) s.old }
{
    registers::put_flag(s, Flag::Supervisor, true);
    if code == 0 {
        registers::put_flag(s, Flag::InterruptEnable, false);
    }
}

// "pc is 200", "and one cycle is added"
#[tactic(auto, using(word::proofs::Laws::back), unfolding(definition::specs::Runtime::entered, definition::specs::Runtime::entered_core, definition::specs::Runtime::entered_registers, memory::specs::Overlay::overlay))]
pub fn enter(cells: &mut [i64], m: &mut State, code: u32)
    requires least { 256 ≤ cell_count cells.old }
    requires cycles { m.old.cycles + 1 < 2 ^ 64 }
    ensures { (q o : List ℕ) → machine_at cells.new q o m.new ≡ entered code (machine_at cells.old q o m.old) }
{
    let entry = Saved {
        pc: m.s.pc,
        sr: m.s.sr,
        code,
    };
    write(cells, &mut [], 0, None, Some(entry), None);
    m.s.pc = 200;
    put_flags(&mut m.s, code);
    m.cycles += 1;
}
