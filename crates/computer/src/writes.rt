// The instructions that write a cell, in place: what their namesakes of crate stores plan is written at once, by the one writer.

ghost use Rattle.std.specs.Prelude.{◌≡◌};
ghost use Rattle.definition.specs.declared.Registers as R;
ghost use Rattle.definition.specs.Exec.{write, push, core};
ghost use Rattle.definition.specs.Instructions.{call, push_op, st, fas, swap_back, swap};
ghost use Rattle.registers.specs.Meaning.{res_of};
ghost use Rattle.encoding.specs.Code.{instruction_of};

use arguments::Seen;
use definition::{Cell, Error, Operand, Reg, Registers};
use encoding::Code;
use memory::Write;
use runtime::commit;

// Computer::write: `guard` is the first address that the step may write, 0 or the fence.
#[tactic(auto, unfolding(registers::specs::Meaning::res_of, definition::specs::Exec::write, definition::specs::Exec::branch, definition::specs::Exec::permits, memory::specs::Overlay::overlay))]
#[inline(always)]
fn write_at(cells: &mut [i64], guard: u32, n: u32, v: Cell) -> Result<(), Error>
    ensures { (s : R.Registers) → res_of result (core cells.new s) ≡ write guard n v (core cells.old s) }
{
    if (n as usize) < cells.len() / 3 && guard <= n {
        let waits = Some(Write { at: n, v });
        commit::write(cells, &mut [], 0, waits, None, None);
        Ok(())
    } else {
        Err(Error::InvalidMemoryAccess)
    }
}

// Computer::push: "the push then raises code 5 and sp stays so"
#[tactic(auto, unfolding(registers::specs::Meaning::res_of, definition::specs::Exec::push, definition::specs::Exec::and_then))]
#[inline(always)]
fn push_cell(cells: &mut [i64], guard: u32, s: &mut Registers, v: Cell) -> Result<(), Error>
    ensures { res_of result (core cells.new s.new) ≡ push guard v (core cells.old s.old) }
{
    let sp = registers::below(s.sp);
    s.sp = sp;
    write_at(cells, guard, sp, v)
}

#[tactic(auto, unfolding(registers::specs::Meaning::res_of, definition::specs::Instructions::push_op, definition::specs::Exec::and_then, memory::specs::Overlay::overlay))]
pub fn push(cells: &mut [i64], guard: u32, s: &mut Registers, i: &Code) -> Result<(), Error>
    ensures { res_of result (core cells.new s.new) ≡ push_op guard (instruction_of i.now).x (core cells.old s.old) }
{
    let v = arguments::cell_of(&Seen(cells, None), s, i.x())?;
    push_cell(cells, guard, s, v)
}

// "st takes a word, so empty becomes word 0 and an instruction stops."
#[tactic(auto, unfolding(registers::specs::Meaning::res_of, definition::specs::Instructions::st, definition::specs::Exec::and_then))]
pub fn st(cells: &mut [i64], guard: u32, s: &mut Registers, i: &Code) -> Result<(), Error>
    ensures { res_of result (core cells.new s.new) ≡ st guard (instruction_of i.now).r1 (instruction_of i.now).y (core cells.old s.old) }
{
    let w = arguments::register_word(s, i.r1())?;
    let n = arguments::place_of(s, i.y())?;
    write_at(cells, guard, n, memory::word_cell(w))
}

// "call pushes pc before it reads its operand."
#[tactic(auto, unfolding(registers::specs::Meaning::res_of, definition::specs::Instructions::call, definition::specs::Exec::and_then, memory::specs::Overlay::overlay))]
pub fn call(cells: &mut [i64], guard: u32, s: &mut Registers, i: &Code) -> Result<(), Error>
    ensures { res_of result (core cells.new s.new) ≡ call guard (instruction_of i.now).x (core cells.old s.old) }
{
    let pc = memory::address_cell(s.pc);
    push_cell(cells, guard, s, pc)?;
    stores::jump(&Seen(cells, None), s, i.x())
}

// "fas writes word 1 before the register is set, so a refused register leaves the cell changed."
#[tactic(auto, using(registers::proofs::Laws::settled_is), unfolding(registers::specs::Meaning::res_of, definition::specs::Instructions::fas, definition::specs::Exec::and_then, memory::specs::Overlay::overlay))]
pub fn fas(cells: &mut [i64], guard: u32, s: &mut Registers, i: &Code) -> Result<(), Error>
    ensures { res_of result (core cells.new s.new) ≡ fas guard (instruction_of i.now).x (instruction_of i.now).r2 (core cells.old s.old) }
{
    let n = arguments::place_of(s, i.x())?;
    let v = arguments::read(&Seen(cells, None), n)?;
    write_at(cells, guard, n, memory::word_cell(1))?;
    registers::put_reg(s, i.r2(), v)
}

// The second half of swap: the register's old cell goes to the operand, found from the new registers.
#[tactic(auto, using(registers::proofs::Laws::settled_is, stores::proofs::Laws::swap_back_elsewhere), unfolding(registers::specs::Meaning::res_of, definition::specs::Instructions::swap_back, definition::specs::Exec::and_then))]
fn swap_back(
    cells: &mut [i64],
    guard: u32,
    s: &mut Registers,
    x: Operand,
    v: Cell,
) -> Result<(), Error>
    ensures { res_of result (core cells.new s.new) ≡ swap_back guard x v (core cells.old s.old) }
{
    if let Operand::Register(r) = x {
        return registers::put_reg(s, r, v);
    }
    let n = arguments::place_of(s, x)?;
    write_at(cells, guard, n, v)
}

// "swap writes its register first and resolves the memory address from the new registers."
#[tactic(auto, using(registers::proofs::Laws::settled_is), unfolding(registers::specs::Meaning::res_of, definition::specs::Instructions::swap, definition::specs::Exec::and_then, memory::specs::Overlay::overlay))]
pub fn swap(
    cells: &mut [i64],
    guard: u32,
    s: &mut Registers,
    x: Operand,
    r: Reg,
) -> Result<(), Error>
    ensures { res_of result (core cells.new s.new) ≡ swap guard x r (core cells.old s.old) }
{
    let v = arguments::cell_of(&Seen(cells, None), s, x)?;
    let old = registers::get_reg(s, r);
    registers::put_reg(s, r, v)?;
    swap_back(cells, guard, s, x, old)
}
