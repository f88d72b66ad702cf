// instructions.rs, its arithmetic: what a result does to the registers, and (words.rt) the instructions that compute on words.
#![tactic(auto)]

ghost use Rattle.std.specs.Prelude.{◌≡◌, ◌<◌, cond, nat_abs, IfOk};
ghost use Rattle.definition.specs.declared.Error.TheVariants.{InvalidInstruction};
ghost use Rattle.definition.specs.Word.{is_shift, shl_w, shr_w};
ghost use Rattle.definition.specs.Instructions.{sign_flags, put_result, put_wrapped, put_compared, put_quotient, put_shifted};
ghost use Rattle.registers.specs.Meaning.{settled};

use definition::{Error, Reg, Registers, Wrapped};
use registers::Flag;

pub mod words;

// Z and N
#[tactic(auto, using(word::proofs::Laws::back))]
#[inline(always)]
pub fn sign_flags(s: &mut Registers, w: i64)
    ensures { s.new ≡ sign_flags w s.old }
{
    registers::put_flag(s, Flag::Zero, w == 0);
    registers::put_flag(s, Flag::Negative, w < 0);
}

// "and, or, xor, not, div, shl and shr set Z and N and leave V."
#[tactic(auto, using(word::proofs::Laws::back), unfolding(definition::specs::Instructions::put_result, definition::specs::Instructions::and_flags))]
#[inline(always)]
pub fn put_result(s: &mut Registers, r: Reg, w: i64) -> Result<(), Error>
    ensures { (result, s.new) ≡ settled s.old (put_result r w s.old) }
{
    registers::put_reg(s, r, memory::word_cell(w))?;
    sign_flags(s, w);
    Ok(())
}

// "add, sub, mul and neg wrap at 64 bits and set V, Z, N."
#[tactic(auto, using(word::proofs::Laws::back), unfolding(definition::specs::Instructions::put_wrapped, definition::specs::Instructions::and_flags))]
#[inline(always)]
pub fn put_wrapped(s: &mut Registers, r: Reg, x: Wrapped) -> Result<(), Error>
    ensures { (result, s.new) ≡ settled s.old (put_wrapped r x s.old) }
{
    registers::put_reg(s, r, memory::word_cell(x.value))?;
    registers::put_flag(s, Flag::Overflow, x.overflow);
    sign_flags(s, x.value);
    Ok(())
}

// "cmp sets Z if the words are equal and N if operand < register."
#[tactic(auto, using(word::proofs::Laws::back), unfolding(definition::specs::Instructions::put_compared))]
#[inline(always)]
pub fn put_compared(s: &mut Registers, v: i64, w: i64) -> Result<(), Error>
    ensures { (result, s.new) ≡ settled s.old (put_compared v w s.old) }
{
    registers::put_flag(s, Flag::Zero, v == w);
    registers::put_flag(s, Flag::Negative, v < w);
    Ok(())
}

// "Operand 0, or smallest word / -1, raises code 1."
#[tactic(auto, using(word::proofs::Laws::back), unfolding(definition::specs::Instructions::put_quotient))]
#[inline(always)]
pub fn put_quotient(s: &mut Registers, r: Reg, x: Option<i64>) -> Result<(), Error>
    ensures { (result, s.new) ≡ settled s.old (put_quotient r x s.old) }
{
    let w = x.ok_or(Error::DivByZero)?;
    put_result(s, r, w)
}

// The amount of a shift: "Shift amounts are 0 to 63; others raise code 2." The test is the definition's own, and the cast behind it fits.
#[tactic(auto, using(word::proofs::Laws::back), unfolding(definition::specs::Word::is_shift))]
#[inline(always)]
pub fn amount(v: i64) -> Result<u32, Error>
    ensures value { result ≡ cond (is_shift v) (Ok (nat_abs v)) (Err InvalidInstruction) }
    ensures below { IfOk result (λ n. n < 64) }
{
    if word::is_shift(v) {
        Ok(v as u32)
    } else {
        Err(Error::InvalidInstruction)
    }
}
