// instructions.rs: Instruction::execute, with the two requests to the console.
#![tactic(auto)]

ghost use Rattle.std.specs.Prelude.{◌≡◌, ◌≤◌, None, List, ℤ};
ghost use Rattle.definition.specs.Constants.{CELLS-MOST};
ghost use Rattle.definition.specs.Memory.{cell_count};
ghost use Rattle.definition.specs.Exec.{core, check_privileged};
ghost use Rattle.definition.specs.Instructions.{in_op, out_op, execute};
ghost use Rattle.registers.specs.Meaning.{res_of, core_of};
ghost use Rattle.arguments.specs.Seen.{cells_of};

use arguments::Seen;
use definition::{Error, Instruction, Op, Operand, Reg, Registers, Request};
use operations::words;
use registers::{Flag, Plan};

pub mod jumps;
pub mod moves;

// "in, out and rti check S first"
#[tactic(auto, unfolding(registers::specs::Meaning::res_of, definition::specs::Exec::check_privileged, definition::specs::Exec::branch))]
fn check_privileged(s: &Registers) -> Result<(), Error>
    ensures { (l : List ℤ) → res_of result (core l s.now) ≡ check_privileged (core l s.now) }
{
    if registers::supervisor(s) {
        Ok(())
    } else {
        Err(Error::PrivilegedInstruction)
    }
}

// in: the port is known, what is read there is the console's.
#[tactic(auto, unfolding(registers::specs::Meaning::res_of, definition::specs::Instructions::in_op, definition::specs::Exec::and_then))]
pub fn in_request(s: &mut Registers, x: Operand, r: Reg) -> Result<Request, Error>
    ensures { (l : List ℤ) → res_of result (core l s.new) ≡ in_op x r (core l s.old) }
{
    check_privileged(s)?;
    let port = arguments::place_of(s, x)?;
    Ok(Request::Reads(port, r))
}

// out: the word, then the port.
#[tactic(auto, unfolding(registers::specs::Meaning::res_of, definition::specs::Instructions::out_op, definition::specs::Exec::and_then))]
pub fn out_request(
    seen: &Seen<'_>,
    s: &mut Registers,
    x: Operand,
    y: Operand,
) -> Result<Request, Error>
    ensures { res_of result (core (cells_of seen.now) s.new) ≡ out_op x y (core (cells_of seen.now) s.old) }
{
    check_privileged(s)?;
    let w = arguments::word_of(seen, s, x)?;
    let port = arguments::place_of(s, y)?;
    Ok(Request::Writes(port, w))
}

// Instruction::execute: `guard` is the first address that the step may write.
#[tactic(auto, unfolding(registers::specs::Meaning::res_of, definition::specs::Instructions::execute, definition::specs::Instructions::jump_if, definition::specs::Instructions::quiet, definition::specs::Exec::and_then))]
pub fn execute(cells: &[i64], guard: u32, p: &mut Plan, i: Instruction) -> Result<Request, Error>
    requires most { cell_count cells.now ≤ CELLS-MOST }
    requires none { p.old.write ≡ None }
    ensures { res_of result (core_of cells.now p.new) ≡ execute guard i.op i.x i.y i.r1 i.r2 (core_of cells.now p.old) }
{
    let seen = Seen(cells, p.write);
    let z = registers::get_flag(&p.s, Flag::Zero);
    let n = registers::get_flag(&p.s, Flag::Negative);
    match i.op {
        Op::Add => words::add(&seen, &mut p.s, i.x, i.r2)?,
        Op::And => words::and(&seen, &mut p.s, i.x, i.r2)?,
        Op::Call => stores::call(cells, guard, p, i.x)?,
        Op::Cmp => words::cmp(&seen, &mut p.s, i.x, i.r2)?,
        Op::Div => words::div(&seen, &mut p.s, i.x, i.r2)?,
        Op::Fas => stores::fas(cells, guard, p, i.x, i.r2)?,
        Op::In => return in_request(&mut p.s, i.x, i.r2),
        Op::Jmp => stores::jump(&seen, &mut p.s, i.x)?,
        Op::Jeq => jumps::jump_if(&seen, &mut p.s, z, i.x)?,
        Op::Jne => jumps::jump_if(&seen, &mut p.s, !z, i.x)?,
        Op::Jle => jumps::jump_if(&seen, &mut p.s, z | n, i.x)?,
        Op::Jlt => jumps::jump_if(&seen, &mut p.s, !z & n, i.x)?,
        Op::Jge => jumps::jump_if(&seen, &mut p.s, z | !n, i.x)?,
        Op::Jgt => jumps::jump_if(&seen, &mut p.s, !z & !n, i.x)?,
        Op::Ld => moves::ld(&seen, &mut p.s, i.x, i.r2)?,
        Op::Mul => words::mul(&seen, &mut p.s, i.x, i.r2)?,
        Op::Neg => words::neg(&mut p.s, i.r1)?,
        Op::Nop => {}
        Op::Not => words::not(&mut p.s, i.r1)?,
        Op::Or => words::or(&seen, &mut p.s, i.x, i.r2)?,
        Op::Out => return out_request(&seen, &mut p.s, i.x, i.y),
        Op::Pop => moves::pop(&seen, &mut p.s, i.r1)?,
        Op::Push => stores::push(cells, guard, p, i.x)?,
        Op::Reset => jumps::reset(&mut p.s)?,
        Op::Rti => moves::rti(&seen, &mut p.s)?,
        Op::Rtn => moves::rtn(&seen, &mut p.s)?,
        Op::Shl => words::shl(&seen, &mut p.s, i.x, i.r2)?,
        Op::Shr => words::shr(&seen, &mut p.s, i.x, i.r2)?,
        Op::St => stores::st(cells, guard, p, i.r1, i.y)?,
        Op::Sub => words::sub(&seen, &mut p.s, i.x, i.r2)?,
        Op::Swap => stores::swap(cells, guard, p, i.x, i.r2)?,
        Op::Trap => return Err(Error::Trap),
        Op::Xor => words::xor(&seen, &mut p.s, i.x, i.r2)?,
    }
    Ok(Request::Nothing)
}
