// The cells and the byte that a step or a raise writes are written here and nowhere else.

ghost use Rattle.std.specs.Prelude.{◌≡◌, ◌≤◌, ◌<◌, List, ℕ, Some, IfSome, length};
ghost use Rattle.definition.specs.Memory.{cell_count};
ghost use Rattle.definition.specs.Runtime.{saved};
ghost use Rattle.memory.specs.Overlay.{overlay};
ghost use Rattle.console.specs.Meaning.{sent_to};
ghost use Rattle.row.specs.Meaning.{machine_at};
ghost use Rattle.runtime.specs.Meaning.{effects_at, saves, Room};

use crate::effects::Effects;
use memory::Write;
use row::State;

// What exception entry saves.
#[derive(Clone, Copy)]
pub struct Saved {
    pub pc: u32,
    pub sr: i64,
    pub code: u32,
}

// "pc, sr and code go to cells 100, 101, 102"
#[tactic(auto, using(word::proofs::Laws::back), unfolding(definition::specs::Runtime::saved))]
#[inline(always)]
fn save(cells: &mut [i64], pc: u32, sr: i64, code: u32)
    requires { 256 ≤ cell_count cells.old }
    ensures { cells.new ≡ saved pc sr code cells.old }
{
    memory::put_cell(cells, 100, memory::address_cell(pc));
    memory::put_cell(cells, 101, memory::word_cell(sr));
    memory::put_cell(cells, 102, memory::address_cell(code));
}

// The one writer: the cell that waits, then what exception entry saves (entry comes after the step's "earlier effects"), and the byte, behind
// those already written.
#[tactic(auto, using(word::proofs::Laws::back))]
#[inline(always)]
pub fn write(
    cells: &mut [i64],
    output: &mut [u8],
    at: usize,
    write: Option<Write>,
    entry: Option<Saved>,
    byte: Option<u8>,
)
    requires least { IfSome entry (λ e. 256 ≤ cell_count cells.old) }
    requires fits { (b : ℕ) → byte ≡ Some b → at < length output.old }
    ensures cells { cells.new ≡ saves entry (overlay write cells.old) }
    ensures output { output.new ≡ sent_to at byte output.old }
{
    memory::put_over(cells, write);
    if let Some(e) = entry {
        save(cells, e.pc, e.sr, e.code);
    }
    if let Some(byte) = byte {
        console::put_byte(output, at, byte);
    }
}

// The cell and the byte that wait, and the machine's own numbers.
pub fn commit(cells: &mut [i64], output: &mut [u8], m: &mut State, f: Effects)
    requires { Room (length output.old) m.old f }
    ensures value { (q : List ℕ) → machine_at cells.new q output.new m.new ≡ effects_at cells.old q output.old m.old f }
    ensures cycles { m.new.cycles ≡ f.cycles }
{
    write(cells, output, m.k.written, f.plan.write, None, f.byte);
    m.s = f.plan.s;
    m.cycles = f.cycles;
    m.k = f.k;
    m.timer = f.timer;
}
