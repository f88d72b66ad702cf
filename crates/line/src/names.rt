// Mnemonics and registers.
ghost use Rattle.std.specs.Prelude.{◌≡◌, ◌≤◌, List, ◌∷◌, ℕ, length, map};
ghost use Rattle.expression.specs.Code.{told};
ghost use Rattle.assembly.specs.Grammar.{mnemonics, registers};
ghost use Rattle.line.specs.Names.{Skipped, named_at};

use expression::Read;
use expression::text::split_name;

// The mnemonics, in the order of `Op`. Statics: a constant array would be built anew where it is indexed.
pub static MNEMONICS: [&[u8]; 33] = [
    b"add", b"and", b"call", b"cmp", b"div", b"fas", b"in", b"jmp", b"jeq", b"jne", b"jle", b"jlt",
    b"jge", b"jgt", b"ld", b"mul", b"neg", b"nop", b"not", b"or", b"out", b"pop", b"push",
    b"reset", b"rti", b"rtn", b"shl", b"shr", b"st", b"sub", b"swap", b"trap", b"xor",
];

pub static REGISTERS: [&[u8]; 5] = [b"a", b"b", b"pc", b"sp", b"sr"];

// The place among names of the name that a text begins with, which is none of those before `from`, and the rest.
fn named<'a>(names: &[&[u8]], from: usize, s: &'a [u8]) -> Read<'a, u32>
    requires { (length names.now ≤ 33) × (from ≤ length names.now) × Skipped (map (λ n. n.now) names.now) from s.now }
    ensures { told result ≡ named_at (map (λ n. n.now) names.now) s.now }
{
    let (name, rest) = split_name(s);
    let place = names[from..].iter().position(|n| *n == name)?;
    Some(((from + place) as u32, rest))
}

// A place before which no mnemonic begins with a letter.
fn place_from(letter: u8) -> usize
    ensures { (result ≤ 32) × ((s : List ℕ) → Skipped mnemonics result (letter ∷ s)) }
{
    match letter {
        b'c' => 2,
        b'd' => 4,
        b'f' => 5,
        b'i' => 6,
        b'j' => 7,
        b'l' => 14,
        b'm' => 15,
        b'n' => 16,
        b'o' => 19,
        b'p' => 21,
        b'r' => 23,
        b's' => 26,
        b't' => 31,
        b'x' => 32,
        _ => 0,
    }
}

// The number of the mnemonic that a text begins with, and the rest. Sought from its letter on, as most of a short line's time goes by here.
pub fn mnemonic(s: &[u8]) -> Read<'_, u32>
    ensures { told result ≡ named_at mnemonics s.now }
{
    let (letter, _) = s.split_first()?;
    named(&MNEMONICS, place_from(*letter), s)
}

// The number of the register whose name a text begins with, and the rest.
pub fn register_name(s: &[u8]) -> Read<'_, u32>
    ensures { told result ≡ named_at registers s.now }
{
    named(&REGISTERS, 0, s)
}
