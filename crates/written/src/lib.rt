// Where an instruction writes its one cell, found before it is executed: a journal keeps what stood there. Each function is its namesake of
// stores up to the write, and answers only the place: stores needs the cell that goes there too, which the journal's definition of a place
// does not have.
#![tactic(auto)]

ghost use Rattle.std.specs.Prelude.{◌≡◌, ◌<◌, List, ℤ, IfSome};
ghost use Rattle.definition.specs.Memory.{cell_count};
ghost use Rattle.definition.specs.Exec.{core};
ghost use Rattle.journal.specs.Writes.{aim_push, aim_push_op, aim_st, aim_fas, aim_swap, aim, wrote_there};
ghost use Rattle.registers.specs.Meaning.{res_of, core_of};
ghost use Rattle.arguments.specs.Seen.{cells_of};
ghost use Rattle.written.specs.Meaning.{written_at};

use arguments::Seen;
use definition::{Error, Instruction, Op, Operand, Reg, Registers};
use registers::Plan;

// push and call: below sp
#[tactic(auto, unfolding(registers::specs::Meaning::res_of, journal::specs::Writes::aim_push))]
fn push_cell(s: &Registers) -> Result<u32, Error>
    ensures { (l : List ℤ) → res_of result (core l s.now) ≡ aim_push (core l s.now) }
{
    Ok(registers::below(s.sp))
}

#[tactic(auto, unfolding(registers::specs::Meaning::res_of, journal::specs::Writes::aim_push_op, definition::specs::Exec::and_then))]
fn push(seen: &Seen<'_>, s: &mut Registers, x: Operand) -> Result<u32, Error>
    ensures { res_of result (core (cells_of seen.now) s.new) ≡ aim_push_op x (core (cells_of seen.now) s.old) }
{
    arguments::cell_of(seen, s, x)?;
    push_cell(s)
}

#[tactic(auto, unfolding(registers::specs::Meaning::res_of, journal::specs::Writes::aim_st, definition::specs::Exec::and_then))]
fn st(s: &mut Registers, r: Reg, y: Operand) -> Result<u32, Error>
    ensures { (l : List ℤ) → res_of result (core l s.new) ≡ aim_st r y (core l s.old) }
{
    arguments::register_word(s, r)?;
    arguments::place_of(s, y)
}

#[tactic(auto, unfolding(registers::specs::Meaning::res_of, journal::specs::Writes::aim_fas, definition::specs::Exec::and_then))]
fn fas(seen: &Seen<'_>, s: &mut Registers, x: Operand) -> Result<u32, Error>
    ensures { res_of result (core (cells_of seen.now) s.new) ≡ aim_fas x (core (cells_of seen.now) s.old) }
{
    let n = arguments::place_of(s, x)?;
    arguments::read(seen, n)?;
    Ok(n)
}

// "swap writes its register first and resolves the memory address from the new registers."
#[tactic(auto, using(registers::proofs::Laws::settled_is), unfolding(registers::specs::Meaning::res_of, journal::specs::Writes::aim_swap, definition::specs::Exec::and_then))]
fn swap(seen: &Seen<'_>, s: &mut Registers, x: Operand, r: Reg) -> Result<u32, Error>
    ensures { res_of result (core (cells_of seen.now) s.new) ≡ aim_swap x r (core (cells_of seen.now) s.old) }
{
    let v = arguments::cell_of(seen, s, x)?;
    registers::put_reg(s, r, v)?;
    arguments::place_of(s, x)
}

// The five that write: call, fas, push, st and swap.
#[tactic(auto, using(crate::proofs::Laws::aim_nowhere), unfolding(registers::specs::Meaning::res_of, journal::specs::Writes::aim))]
pub fn place(seen: &Seen<'_>, s: &mut Registers, i: Instruction) -> Result<u32, Error>
    ensures { res_of result (core (cells_of seen.now) s.new) ≡ aim i.op i.x i.y i.r1 i.r2 (core (cells_of seen.now) s.old) }
{
    match i.op {
        Op::Call => push_cell(s),
        Op::Fas => fas(seen, s, i.x),
        Op::Push => push(seen, s, i.x),
        Op::St => st(s, i.r1, i.y),
        Op::Swap => swap(seen, s, i.x, i.r2),
        // Which error is not looked at: written_at asks only for an address.
        _ => Err(Error::InvalidInstruction),
    }
}

// The address that the instruction writes, if it writes one: `guard` is the first address that the step may write. The plan `p` is what the
// fetch has left.
#[tactic(auto, unfolding(registers::specs::Meaning::res_of, journal::specs::Writes::wrote_there, definition::specs::Exec::permits))]
pub fn written_at(cells: &[i64], guard: u32, mut p: Plan, i: Instruction) -> Option<u32>
    ensures value { written_at cells.now result ≡ wrote_there guard cells.now (aim i.op i.x i.y i.r1 i.r2 (core_of cells.now p)) }
    ensures inside { IfSome result (λ n. n < cell_count cells.now) }
{
    let n = place(&Seen(cells, p.write), &mut p.s, i).ok()?;
    // write_at's test: a write that is refused is none.
    if (n as usize) < cells.len() / 3 && guard <= n {
        Some(n)
    } else {
        None
    }
}
