// The instructions that read cells into registers.

ghost use Rattle.std.specs.Prelude.{◌≡◌, ◌≤◌};
ghost use Rattle.definition.specs.Constants.{CELLS-MOST};
ghost use Rattle.definition.specs.Memory.{cell_count};
ghost use Rattle.definition.specs.Exec.{pop, core};
ghost use Rattle.definition.specs.Instructions.{ld, pop_op, rtn, rti};
ghost use Rattle.registers.specs.Meaning.{res_of};
ghost use Rattle.arguments.specs.Seen.{cells_of};

use arguments::{Seen, read, take_address, take_word};
use definition::{Cell, Error, Operand, Reg, Registers};

#[tactic(auto, using(registers::proofs::Laws::settled_is), unfolding(registers::specs::Meaning::res_of, definition::specs::Instructions::ld, definition::specs::Exec::and_then))]
pub fn ld(seen: &Seen<'_>, s: &mut Registers, x: Operand, r: Reg) -> Result<(), Error>
    ensures { res_of result (core (cells_of seen.now) s.new) ≡ ld x r (core (cells_of seen.now) s.old) }
{
    let v = arguments::cell_of(seen, s, x)?;
    registers::put_reg(s, r, v)
}

// Computer::pop: "pop and rtn read at sp (outside: code 5, sp unmoved), then move sp, and only then test the value or set the register."
#[tactic(auto, unfolding(registers::specs::Meaning::res_of, definition::specs::Exec::pop, definition::specs::Exec::and_then))]
fn pop_cell(seen: &Seen<'_>, s: &mut Registers) -> Result<Cell, Error>
    requires { cell_count seen.now.0.now ≤ CELLS-MOST }
    ensures { res_of result (core (cells_of seen.now) s.new) ≡ pop (core (cells_of seen.now) s.old) }
{
    let v = read(seen, s.sp)?;
    s.sp += 1;
    Ok(v)
}

#[tactic(auto, using(registers::proofs::Laws::settled_is), unfolding(registers::specs::Meaning::res_of, definition::specs::Instructions::pop_op, definition::specs::Exec::and_then))]
pub fn pop(seen: &Seen<'_>, s: &mut Registers, r: Reg) -> Result<(), Error>
    requires { cell_count seen.now.0.now ≤ CELLS-MOST }
    ensures { res_of result (core (cells_of seen.now) s.new) ≡ pop_op r (core (cells_of seen.now) s.old) }
{
    let top = pop_cell(seen, s)?;
    registers::put_reg(s, r, top)
}

#[tactic(auto, unfolding(registers::specs::Meaning::res_of, definition::specs::Instructions::rtn, definition::specs::Exec::and_then))]
pub fn rtn(seen: &Seen<'_>, s: &mut Registers) -> Result<(), Error>
    requires { cell_count seen.now.0.now ≤ CELLS-MOST }
    ensures { res_of result (core (cells_of seen.now) s.new) ≡ rtn (core (cells_of seen.now) s.old) }
{
    let v = pop_cell(seen, s)?;
    s.pc = take_address(s, v, Error::CellError)?;
    Ok(())
}

// "rti sets pc before it reads cell 101."
#[tactic(auto, unfolding(registers::specs::Meaning::res_of, definition::specs::Instructions::rti, definition::specs::Exec::and_then))]
pub fn rti(seen: &Seen<'_>, s: &mut Registers) -> Result<(), Error>
    ensures { res_of result (core (cells_of seen.now) s.new) ≡ rti (core (cells_of seen.now) s.old) }
{
    super::check_privileged(s)?;
    let pc = read(seen, 100)?;
    s.pc = take_address(s, pc, Error::CellError)?;
    let sr = read(seen, 101)?;
    s.sr = take_word(s, sr, Error::CellError)?;
    Ok(())
}
