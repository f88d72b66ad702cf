// The instructions that compute on words: the operand's, then the register's.

ghost use Rattle.std.specs.Prelude.{◌≡◌, List, ℤ, ◌+ℤ◌, ◌-ℤ◌, ◌*ℤ◌};
ghost use Rattle.definition.specs.declared.Registers as R;
ghost use Rattle.definition.specs.Word.{wrapped, quotient, shl_w, shr_w, and_w, or_w, xor_w};
ghost use Rattle.definition.specs.Registers.{Put};
ghost use Rattle.definition.specs.Exec.{core};
ghost use Rattle.definition.specs.Instructions.{words, neg, not_op, put_result, put_wrapped, put_compared, put_quotient, put_shifted};
ghost use Rattle.registers.specs.Meaning.{res_of};
ghost use Rattle.arguments.specs.Seen.{cells_of};
ghost use Rattle.operations.specs.Puts.{Puts};

use crate::{amount, put_compared, put_quotient, put_result, put_wrapped};
use arguments::Seen;
use definition::{Error, Operand, Reg, Registers};

// An instruction of two words, and what k does to the registers with them.
#[tactic(auto, using(registers::proofs::Laws::settled_is), unfolding(registers::specs::Meaning::res_of, definition::specs::Exec::and_then, definition::specs::Instructions::words))]
#[inline(always)]
fn words<F: FnOnce(&mut Registers, i64, i64) -> Result<(), Error>>(
    seen: &Seen<'_>,
    s: &mut Registers,
    x: Operand,
    r: Reg,
    k: F,
) -> Result<(), Error>
    requires { F.IsAlwaysCallable k }
    ensures { (f : ℤ → ℤ → R.Registers → Put) → Puts F.FnOnce k f → res_of result (core (cells_of seen.now) s.new) ≡ words x r f (core (cells_of seen.now) s.old) }
{
    let v = arguments::word_of(seen, s, x)?;
    let w = arguments::register_word(s, r)?;
    k(s, v, w)
}

// The ten, each under its name: what differs is the closure.
pub fn add(seen: &Seen<'_>, s: &mut Registers, x: Operand, r: Reg) -> Result<(), Error>
    ensures { res_of result (core (cells_of seen.now) s.new) ≡ words x r (λ v w. put_wrapped r (wrapped (v +ℤ w))) (core (cells_of seen.now) s.old) }
{
    words(seen, s, x, r, |s, v, w| put_wrapped(s, r, word::add(v, w)))
}

pub fn sub(seen: &Seen<'_>, s: &mut Registers, x: Operand, r: Reg) -> Result<(), Error>
    ensures { res_of result (core (cells_of seen.now) s.new) ≡ words x r (λ v w. put_wrapped r (wrapped (w -ℤ v))) (core (cells_of seen.now) s.old) }
{
    words(seen, s, x, r, |s, v, w| put_wrapped(s, r, word::sub(w, v)))
}

pub fn mul(seen: &Seen<'_>, s: &mut Registers, x: Operand, r: Reg) -> Result<(), Error>
    ensures { res_of result (core (cells_of seen.now) s.new) ≡ words x r (λ v w. put_wrapped r (wrapped (v *ℤ w))) (core (cells_of seen.now) s.old) }
{
    words(seen, s, x, r, |s, v, w| put_wrapped(s, r, word::mul(v, w)))
}

pub fn and(seen: &Seen<'_>, s: &mut Registers, x: Operand, r: Reg) -> Result<(), Error>
    ensures { res_of result (core (cells_of seen.now) s.new) ≡ words x r (λ v w. put_result r (and_w v w)) (core (cells_of seen.now) s.old) }
{
    words(seen, s, x, r, |s, v, w| put_result(s, r, word::and(v, w)))
}

pub fn or(seen: &Seen<'_>, s: &mut Registers, x: Operand, r: Reg) -> Result<(), Error>
    ensures { res_of result (core (cells_of seen.now) s.new) ≡ words x r (λ v w. put_result r (or_w v w)) (core (cells_of seen.now) s.old) }
{
    words(seen, s, x, r, |s, v, w| put_result(s, r, word::or(v, w)))
}

pub fn xor(seen: &Seen<'_>, s: &mut Registers, x: Operand, r: Reg) -> Result<(), Error>
    ensures { res_of result (core (cells_of seen.now) s.new) ≡ words x r (λ v w. put_result r (xor_w v w)) (core (cells_of seen.now) s.old) }
{
    words(seen, s, x, r, |s, v, w| put_result(s, r, word::xor(v, w)))
}

pub fn div(seen: &Seen<'_>, s: &mut Registers, x: Operand, r: Reg) -> Result<(), Error>
    ensures { res_of result (core (cells_of seen.now) s.new) ≡ words x r (λ v w. put_quotient r (quotient w v)) (core (cells_of seen.now) s.old) }
{
    words(seen, s, x, r, |s, v, w| put_quotient(s, r, word::div(w, v)))
}

#[tactic(auto, using(word::proofs::Laws::back), unfolding(definition::specs::Instructions::put_shifted))]
pub fn shl(seen: &Seen<'_>, s: &mut Registers, x: Operand, r: Reg) -> Result<(), Error>
    ensures { res_of result (core (cells_of seen.now) s.new) ≡ words x r (put_shifted shl_w r) (core (cells_of seen.now) s.old) }
{
    words(
        seen,
        s,
        x,
        r,
        |s, v, w| put_result(s, r, word::shl(w, amount(v)?)),
    )
}

#[tactic(auto, using(word::proofs::Laws::back), unfolding(definition::specs::Instructions::put_shifted))]
pub fn shr(seen: &Seen<'_>, s: &mut Registers, x: Operand, r: Reg) -> Result<(), Error>
    ensures { res_of result (core (cells_of seen.now) s.new) ≡ words x r (put_shifted shr_w r) (core (cells_of seen.now) s.old) }
{
    words(
        seen,
        s,
        x,
        r,
        |s, v, w| put_result(s, r, word::shr(w, amount(v)?)),
    )
}

#[inline(always)]
pub fn cmp(seen: &Seen<'_>, s: &mut Registers, x: Operand, r: Reg) -> Result<(), Error>
    ensures { res_of result (core (cells_of seen.now) s.new) ≡ words x r put_compared (core (cells_of seen.now) s.old) }
{
    words(seen, s, x, r, |s, v, w| put_compared(s, v, w))
}

// neg and not, of one word: two, as in the definition, since one for both would be as long as they are.
#[tactic(auto, using(word::proofs::Laws::back, registers::proofs::Laws::settled_is), unfolding(registers::specs::Meaning::res_of, definition::specs::Exec::and_then, definition::specs::Instructions::neg))]
pub fn neg(s: &mut Registers, r: Reg) -> Result<(), Error>
    ensures { (l : List ℤ) → res_of result (core l s.new) ≡ neg r (core l s.old) }
{
    let w = arguments::register_word(s, r)?;
    put_wrapped(s, r, word::neg(w))
}

#[tactic(auto, using(word::proofs::Laws::back, registers::proofs::Laws::settled_is), unfolding(registers::specs::Meaning::res_of, definition::specs::Exec::and_then, definition::specs::Instructions::not_op))]
pub fn not(s: &mut Registers, r: Reg) -> Result<(), Error>
    ensures { (l : List ℤ) → res_of result (core l s.new) ≡ not_op r (core l s.old) }
{
    let w = arguments::register_word(s, r)?;
    put_result(s, r, word::not(w))
}
