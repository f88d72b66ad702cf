// Computer::decode_instruction, and the instruction executed.

ghost use Rattle.std.specs.Prelude.{◌≡◌, ◌≤◌, ◌<◌, ℕ, true, None, Some, IfOk, IfSome, MatchOption};
ghost use Rattle.definition.specs.Constants.{CELLS-MOST};
ghost use Rattle.definition.specs.Memory.{cell_count, cell_at};
ghost use Rattle.definition.specs.Encoding.{sound, extract_instruction};
ghost use Rattle.definition.specs.Exec.{Core};
ghost use Rattle.definition.specs.Runtime.{fetch, attempt, or_instruction};
ghost use Rattle.encoding.specs.Code.{instruction_of};
ghost use Rattle.registers.specs.Meaning.{res_of, core_of};

use arguments::Seen;
use definition::{Cell, Error, Executed, Instruction};
use encoding::Code;
use registers::Plan;

// "A fetched cell that is no instruction raises code 2 with pc moved on."
fn decoded(v: Cell) -> Result<Instruction, Error>
    requires { sound v ≡ true }
    ensures value { (c : Core) → res_of result c ≡ or_instruction (extract_instruction v) c }
    ensures cheap { IfOk result (λ i. i.cycles ≤ 3) }
{
    if v.tag < 2 {
        return Err(Error::InvalidInstruction);
    }
    Ok(encoding::decode((v.tag as u32) - 2, v.first, v.second))
}

// The same, with what its numbers say left until it is asked for; none where the cell is no instruction.
#[inline(always)]
pub fn code_in(v: Cell) -> Option<Code>
    requires { sound v ≡ true }
    ensures value { MatchOption result (extract_instruction v ≡ None) (λ i. extract_instruction v ≡ Some (instruction_of i)) }
    ensures cheap { IfSome result (λ i. i.cycles ≤ 3) }
{
    if v.tag < 2 {
        return None;
    }
    Some(encoding::code_of((v.tag as u32) - 2, v.first, v.second))
}

// "Fetch at pc outside the cells raises code 5 with pc unmoved."
#[tactic(auto, unfolding(registers::specs::Meaning::res_of, definition::specs::Exec::and_then, definition::specs::Runtime::fetch))]
pub fn fetch(cells: &[i64], p: &mut Plan) -> Result<Instruction, Error>
    requires most { cell_count cells.now ≤ CELLS-MOST }
    requires sound { (n : ℕ) → n < cell_count cells.now → sound (cell_at cells.now n) ≡ true }
    requires none { p.old.write ≡ None }
    ensures value { res_of result (core_of cells.now p.new) ≡ fetch (core_of cells.now p.old) }
    ensures write { p.new.write ≡ None }
    ensures cheap { IfOk result (λ i. i.cycles ≤ 3) }
{
    let v = arguments::read(&Seen(cells, p.write), p.s.pc)?;
    p.s.pc += 1;
    decoded(v)
}

#[tactic(auto, unfolding(registers::specs::Meaning::res_of, definition::specs::Exec::and_then, definition::specs::Runtime::attempt))]
pub fn attempt(cells: &[i64], guard: u32, p: &mut Plan) -> Result<Executed, Error>
    requires most { cell_count cells.now ≤ CELLS-MOST }
    requires sound { (n : ℕ) → n < cell_count cells.now → sound (cell_at cells.now n) ≡ true }
    requires none { p.old.write ≡ None }
    ensures value { res_of result (core_of cells.now p.new) ≡ attempt guard (core_of cells.now p.old) }
    ensures cheap { IfOk result (λ x. x.cost ≤ 3) }
{
    let i = fetch(cells, p)?;
    let request = instructions::execute(cells, guard, p, i)?;
    Ok(Executed {
        cost: i.cycles,
        request,
    })
}
