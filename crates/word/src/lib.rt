// The operations on words that instructions.rs takes from i64. Each answers what the definition's Word.antt says.
#![tactic(auto)]

ghost use Rattle.std.specs.Prelude.{◌≡◌, ◌*◌, ◌%◌, ◌^◌, ◌<◌, ◌+ℤ◌, ◌-ℤ◌, ◌*ℤ◌, neg_ℤ, nat_lt, unsigned_abs};
ghost use Rattle.std.specs.Int.{w64};
ghost use Rattle.std.proofs.Common.{to_z};
ghost use Rattle.definition.specs.Word.{bits, wrapped, address_of, quotient, is_shift, shl_w, shr_w, and_w, or_w, xor_w, not_w, bit, put_bit, low_byte};
ghost use Rattle.definition.specs.Encoding.{is_address};
ghost use Rattle.definition.specs.Total.{total};

use definition::Wrapped;

pub mod copy;

// The word's bits: two's complement.
pub fn to_bits(x: i64) -> u64
    ensures { result ≡ bits x }
{
    x.cast_unsigned()
}

// The word that has these bits.
pub fn of_bits(n: u64) -> i64
    ensures { result ≡ to_z w64 n }
{
    n.cast_signed()
}

// "64-bit wrapping add and subtract as supplied, own helpers for multiply and negate, each giving the overflow flag": so mul and neg are not
// overflowing_mul and overflowing_neg.
pub fn add(a: i64, b: i64) -> Wrapped
    ensures { result ≡ wrapped (a +ℤ b) }
{
    let (value, overflow) = a.overflowing_add(b);
    Wrapped { value, overflow }
}

pub fn sub(a: i64, b: i64) -> Wrapped
    ensures { result ≡ wrapped (a -ℤ b) }
{
    let (value, overflow) = a.overflowing_sub(b);
    Wrapped { value, overflow }
}

// Only the smallest word's negation is no word.
#[tactic(auto, using(crate::proofs::Laws::back), unfolding(definition::specs::Word::wrapped, definition::specs::Word::wrap, definition::specs::Word::is_word))]
pub fn neg(x: i64) -> Wrapped
    ensures { result ≡ wrapped (neg_ℤ x) }
{
    if x == i64::MIN {
        Wrapped {
            value: x,
            overflow: true,
        }
    } else {
        Wrapped {
            value: -x,
            overflow: false,
        }
    }
}

// x * y modulo 2^64
pub fn wrapping_mul(x: u64, y: u64) -> u64
    ensures { result ≡ (x * y) % 2 ^ 64 }
{
    x.wrapping_mul(y)
}

// "stops at its largest number": the total of empty reads.
#[tactic(auto, unfolding(definition::specs::Total::total))]
pub fn total(t: u64, u: u64) -> u64
    ensures { result ≡ total t u }
{
    t.saturating_add(u)
}

// The number without its sign.
pub fn magnitude(x: i64) -> u64
    ensures { result ≡ unsigned_abs x }
{
    x.unsigned_abs()
}

// mul's helper: whether m * n is above limit, by division.
pub fn above(m: u64, n: u64, limit: u64) -> bool
    ensures { result ≡ nat_lt limit (m * n) }
{
    if m == 0 {
        return false;
    }
    limit / m < n
}

// A product of different signs may be -2^63, one of equal signs at most 2^63 - 1.
pub fn mul(a: i64, b: i64) -> Wrapped
    ensures { result ≡ wrapped (a *ℤ b) }
{
    let p = of_bits(wrapping_mul(to_bits(a), to_bits(b)));
    let limit = 0x7fff_ffff_ffff_ffff + ((a < 0) != (b < 0)) as u64;
    Wrapped {
        value: p,
        overflow: above(magnitude(a), magnitude(b), limit),
    }
}

// "div is register / operand, rounded toward zero. Operand 0, or smallest word / -1, raises code 1."
#[tactic(auto, using(crate::proofs::Laws::back), unfolding(definition::specs::Word::quotient))]
pub fn div(a: i64, b: i64) -> Option<i64>
    ensures { result ≡ quotient a b }
{
    a.checked_div(b)
}

// "Shift amounts are 0 to 63"
#[tactic(auto, using(crate::proofs::Laws::back), unfolding(definition::specs::Word::is_shift))]
pub fn is_shift(v: i64) -> bool
    ensures { result ≡ is_shift v }
{
    (0 <= v) & (v < 64)
}

// What leaves 64 bits is dropped.
pub fn shl(x: i64, n: u32) -> i64
    requires { n < 64 }
    ensures { result ≡ shl_w x n }
{
    x << n
}

// "shr keeps the sign."
#[tactic(auto, using(crate::proofs::Laws::back), unfolding(definition::specs::Word::shr_w))]
pub fn shr(x: i64, n: u32) -> i64
    requires { n < 64 }
    ensures { result ≡ shr_w x n }
{
    x >> n
}

// and, or, xor and not, bit by bit.
#[tactic(auto, using(crate::proofs::Laws::back), unfolding(definition::specs::Word::and_w))]
pub fn and(a: i64, b: i64) -> i64
    ensures { result ≡ and_w a b }
{
    a & b
}

#[tactic(auto, using(crate::proofs::Laws::back), unfolding(definition::specs::Word::or_w))]
pub fn or(a: i64, b: i64) -> i64
    ensures { result ≡ or_w a b }
{
    a | b
}

#[tactic(auto, using(crate::proofs::Laws::back), unfolding(definition::specs::Word::xor_w))]
pub fn xor(a: i64, b: i64) -> i64
    ensures { result ≡ xor_w a b }
{
    a ^ b
}

#[tactic(auto, using(crate::proofs::Laws::back), unfolding(definition::specs::Word::not_w))]
pub fn not(x: i64) -> i64
    ensures { result ≡ not_w x }
{
    !x
}

// "An address is a word 0 to 4,294,967,295."
#[tactic(auto, unfolding(definition::specs::Word::address_of, definition::specs::Encoding::is_address))]
pub fn is_address(w: i64) -> bool
    ensures { result ≡ is_address (address_of w) }
{
    u32::try_from(w).is_ok()
}

#[tactic(auto, unfolding(definition::specs::Word::address_of))]
pub fn to_address(w: i64) -> Option<u32>
    ensures { result ≡ address_of w }
{
    u32::try_from(w).ok()
}

// Bit k of w, from 0.
pub fn test_bit(w: i64, k: u64) -> bool
    requires { k < 64 }
    ensures { result ≡ bit k w }
{
    w & 1 << k != 0
}

// w with its bit k made `on`. No branch, so that several puts at constant places compile to one mask.
pub fn put_bit(w: i64, k: u64, on: bool) -> i64
    requires { k < 64 }
    ensures { result ≡ put_bit k on w }
{
    w & !(1 << k) | (on as i64) << k
}

// "out keeps the low 8 bits on port 111."
#[tactic(auto, using(crate::proofs::Laws::back), unfolding(definition::specs::Word::low_byte))]
pub fn low_byte(w: i64) -> u8
    ensures { result ≡ low_byte w }
{
    (w & 0xff) as u8
}
