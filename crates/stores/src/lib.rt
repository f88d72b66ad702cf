// instructions.rs, the instructions that may write a cell. None writes: the write waits in the plan. That none waits yet is asked by each: call and
// fas may fail after theirs, which then stands, so that an answer could not carry it.
#![tactic(auto)]

ghost use Rattle.std.specs.Prelude.{◌≡◌, None};
ghost use Rattle.definition.specs.Exec.{write, push, core};
ghost use Rattle.definition.specs.Instructions.{call, push_op, st, fas, swap_back, swap, jump};
ghost use Rattle.registers.specs.Meaning.{res_of, core_of};
ghost use Rattle.arguments.specs.Seen.{cells_of};

use arguments::Seen;
use definition::{Cell, Error, Operand, Reg, Registers};
use memory::Write;
use registers::Plan;

// Computer::write: `guard` is the first address that the step may write, 0 or the fence. The one place where a write is decided.
#[tactic(auto, unfolding(registers::specs::Meaning::res_of, definition::specs::Exec::write, definition::specs::Exec::branch, definition::specs::Exec::permits, memory::specs::Overlay::overlay))]
pub fn write_at(cells: &[i64], guard: u32, p: &mut Plan, n: u32, v: Cell) -> Result<(), Error>
    requires { p.old.write ≡ None }
    ensures { res_of result (core_of cells.now p.new) ≡ write guard n v (core_of cells.now p.old) }
{
    if (n as usize) < cells.len() / 3 && guard <= n {
        p.write = Some(Write { at: n, v });
        Ok(())
    } else {
        Err(Error::InvalidMemoryAccess)
    }
}

// Computer::push: "the push then raises code 5 and sp stays so"
#[tactic(auto, unfolding(registers::specs::Meaning::res_of, definition::specs::Exec::push, definition::specs::Exec::and_then, memory::specs::Overlay::overlay))]
pub fn push_cell(cells: &[i64], guard: u32, p: &mut Plan, v: Cell) -> Result<(), Error>
    requires { p.old.write ≡ None }
    ensures { res_of result (core_of cells.now p.new) ≡ push guard v (core_of cells.now p.old) }
{
    let sp = registers::below(p.s.sp);
    p.s.sp = sp;
    write_at(cells, guard, p, sp, v)
}

#[tactic(auto, unfolding(registers::specs::Meaning::res_of, definition::specs::Instructions::push_op, definition::specs::Exec::and_then))]
pub fn push(cells: &[i64], guard: u32, p: &mut Plan, x: Operand) -> Result<(), Error>
    requires { p.old.write ≡ None }
    ensures { res_of result (core_of cells.now p.new) ≡ push_op guard x (core_of cells.now p.old) }
{
    let v = arguments::cell_of(&Seen(cells, p.write), &mut p.s, x)?;
    push_cell(cells, guard, p, v)
}

// "st takes a word, so empty becomes word 0 and an instruction stops."
#[tactic(auto, unfolding(registers::specs::Meaning::res_of, definition::specs::Instructions::st, definition::specs::Exec::and_then))]
pub fn st(cells: &[i64], guard: u32, p: &mut Plan, r: Reg, y: Operand) -> Result<(), Error>
    requires { p.old.write ≡ None }
    ensures { res_of result (core_of cells.now p.new) ≡ st guard r y (core_of cells.now p.old) }
{
    let w = arguments::register_word(&mut p.s, r)?;
    let n = arguments::place_of(&mut p.s, y)?;
    write_at(cells, guard, p, n, memory::word_cell(w))
}

#[tactic(auto, unfolding(registers::specs::Meaning::res_of, definition::specs::Instructions::jump, definition::specs::Exec::and_then))]
#[inline(always)]
pub fn jump(seen: &Seen<'_>, s: &mut Registers, x: Operand) -> Result<(), Error>
    ensures { res_of result (core (cells_of seen.now) s.new) ≡ jump x (core (cells_of seen.now) s.old) }
{
    s.pc = arguments::target_of(seen, s, x)?;
    Ok(())
}

// "call pushes pc before it reads its operand."
#[tactic(auto, unfolding(registers::specs::Meaning::res_of, definition::specs::Instructions::call, definition::specs::Exec::and_then))]
pub fn call(cells: &[i64], guard: u32, p: &mut Plan, x: Operand) -> Result<(), Error>
    requires { p.old.write ≡ None }
    ensures { res_of result (core_of cells.now p.new) ≡ call guard x (core_of cells.now p.old) }
{
    let pc = memory::address_cell(p.s.pc);
    push_cell(cells, guard, p, pc)?;
    jump(&Seen(cells, p.write), &mut p.s, x)
}

// "fas writes word 1 before the register is set, so a refused register leaves the cell changed."
#[tactic(auto, using(registers::proofs::Laws::settled_is), unfolding(registers::specs::Meaning::res_of, definition::specs::Instructions::fas, definition::specs::Exec::and_then))]
pub fn fas(cells: &[i64], guard: u32, p: &mut Plan, x: Operand, r: Reg) -> Result<(), Error>
    requires { p.old.write ≡ None }
    ensures { res_of result (core_of cells.now p.new) ≡ fas guard x r (core_of cells.now p.old) }
{
    let n = arguments::place_of(&mut p.s, x)?;
    let v = arguments::read(&Seen(cells, p.write), n)?;
    write_at(cells, guard, p, n, memory::word_cell(1))?;
    registers::put_reg(&mut p.s, r, v)
}

// The second half of swap: the register's old cell goes to the operand, found from the new registers.
#[tactic(auto, using(registers::proofs::Laws::settled_is, crate::proofs::Laws::swap_back_elsewhere), unfolding(registers::specs::Meaning::res_of, definition::specs::Instructions::swap_back, definition::specs::Exec::and_then))]
pub fn swap_back(cells: &[i64], guard: u32, p: &mut Plan, x: Operand, v: Cell) -> Result<(), Error>
    requires { p.old.write ≡ None }
    ensures { res_of result (core_of cells.now p.new) ≡ swap_back guard x v (core_of cells.now p.old) }
{
    if let Operand::Register(r) = x {
        return registers::put_reg(&mut p.s, r, v);
    }
    let n = arguments::place_of(&mut p.s, x)?;
    write_at(cells, guard, p, n, v)
}

// "swap writes its register first and resolves the memory address from the new registers."
#[tactic(auto, using(registers::proofs::Laws::settled_is), unfolding(registers::specs::Meaning::res_of, definition::specs::Instructions::swap, definition::specs::Exec::and_then))]
pub fn swap(cells: &[i64], guard: u32, p: &mut Plan, x: Operand, r: Reg) -> Result<(), Error>
    requires { p.old.write ≡ None }
    ensures { res_of result (core_of cells.now p.new) ≡ swap guard x r (core_of cells.now p.old) }
{
    let v = arguments::cell_of(&Seen(cells, p.write), &mut p.s, x)?;
    let old = registers::get_reg(&p.s, r);
    registers::put_reg(&mut p.s, r, v)?;
    swap_back(cells, guard, p, x, old)
}
