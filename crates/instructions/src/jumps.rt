// The jumps, and reset, which leaves pc on itself.

ghost use Rattle.std.specs.Prelude.{◌≡◌, List, ℤ};
ghost use Rattle.definition.specs.Exec.{branch, return, core};
ghost use Rattle.definition.specs.Instructions.{jump, reset};
ghost use Rattle.registers.specs.Meaning.{res_of};
ghost use Rattle.arguments.specs.Seen.{cells_of};

use arguments::Seen;
use definition::{Error, Operand, Registers};

// A jump, where its test holds: "A conditional jump not taken never reads its operand."
#[tactic(auto, unfolding(registers::specs::Meaning::res_of, definition::specs::Exec::branch, definition::specs::Exec::and_then))]
#[inline(always)]
pub fn jump_if(seen: &Seen<'_>, s: &mut Registers, test: bool, x: Operand) -> Result<(), Error>
    ensures { res_of result (core (cells_of seen.now) s.new) ≡ branch test (jump x) (return tt) (core (cells_of seen.now) s.old) }
{
    if test {
        stores::jump(seen, s, x)?;
    }
    Ok(())
}

// "reset leaves pc on itself": one less; at 0 it stays, which after a fetch cannot be.
#[tactic(auto, unfolding(registers::specs::Meaning::res_of, definition::specs::Instructions::reset, definition::specs::Exec::and_then))]
pub fn reset(s: &mut Registers) -> Result<(), Error>
    ensures { (l : List ℤ) → res_of result (core l s.new) ≡ reset (core l s.old) }
{
    s.pc = s.pc.saturating_sub(1);
    Err(Error::Reset)
}
