// What is wrong with a line's values, and the cell that it makes.
#![tactic(auto, unfolding(assembly::specs::Assemble::arg_misses, assembly::specs::Assemble::misses, assembly::specs::Assemble::arg_exceeds, assembly::specs::Assemble::exceeds, assembly::specs::Assemble::arg_register, assembly::specs::Assemble::arg_number, assembly::specs::Assemble::body_cell))]

ghost use Rattle.std.specs.Prelude.{◌≡◌, ◌<◌};
ghost use Rattle.definition.specs.Encoding.{tag_of};
ghost use Rattle.assembly.specs.Assemble.{arg_misses, misses, arg_exceeds, exceeds, arg_register, arg_number, body_cell};
ghost use Rattle.line.specs.Code.{arg_told, body_told};

use definition::Cell;
use line::{Arg, Body};

// Of an operand, here and below, one match each, as the definition has them: with an Option of its value only two would be of one shape.
pub fn arg_misses(arg: Arg) -> bool
    ensures { result ≡ arg_misses (arg_told arg) }
{
    match arg {
        Arg::Imm(v) | Arg::Dir(v) | Arg::Idx(_, v) => v.missing,
        Arg::None | Arg::Reg(_) | Arg::Ind(_) => false,
    }
}

// "label missing"
pub fn misses(body: Body) -> bool
    ensures { result ≡ misses (body_told body) }
{
    match body {
        Body::Word(v) => v.missing,
        Body::Code(_, x, y) => arg_misses(x) | arg_misses(y),
    }
}

pub fn arg_exceeds(arg: Arg) -> bool
    ensures { result ≡ arg_exceeds (arg_told arg) }
{
    match arg {
        Arg::Imm(v) | Arg::Idx(_, v) => v.overflow,
        Arg::Dir(v) => v.overflow | !word::is_address(v.value),
        Arg::None | Arg::Reg(_) | Arg::Ind(_) => false,
    }
}

// "value out of range"
pub fn exceeds(body: Body) -> bool
    ensures { result ≡ exceeds (body_told body) }
{
    match body {
        Body::Word(v) => v.overflow,
        Body::Code(_, x, y) => arg_exceeds(x) | arg_exceeds(y),
    }
}

// "r is 0 where the mode has no register."
pub fn arg_register(arg: Arg) -> u32
    ensures { result ≡ arg_register (arg_told arg) }
{
    match arg {
        Arg::Reg(r) | Arg::Ind(r) | Arg::Idx(r, _) => r,
        Arg::None | Arg::Imm(_) | Arg::Dir(_) => 0,
    }
}

// "First and second hold the operands' numbers, 0 where the mode has none."
pub fn arg_number(arg: Arg) -> i64
    ensures { result ≡ arg_number (arg_told arg) }
{
    match arg {
        Arg::Imm(v) | Arg::Dir(v) | Arg::Idx(_, v) => v.value,
        Arg::None | Arg::Reg(_) | Arg::Ind(_) => 0,
    }
}

// "An instruction's tag is 2 + ((op × 36 + m1 × 6 + m2) × 25 + r1 × 5 + r2)."
pub fn tag(op: u32, m1: u64, m2: u64, r1: u64, r2: u64) -> u64
    requires { (m1 < 6) × (m2 < 6) × (r1 < 4294967296) × (r2 < 4294967296) }
    ensures { (result ≡ tag_of op m1 m2 r1 r2) × (result < 9223372036854775808) }
{
    2 + ((op as u64 * 36 + m1 * 6 + m2) * 25 + r1 * 5 + r2)
}

pub fn body_cell(body: Body) -> Cell
    ensures { result ≡ body_cell (body_told body) }
{
    match body {
        Body::Word(v) => memory::word_cell(v.value),
        Body::Code(op, x, y) => Cell {
            tag: tag(
                op,
                x.mode() as u64,
                y.mode() as u64,
                arg_register(x) as u64,
                arg_register(y) as u64,
            ) as i64,
            first: arg_number(x),
            second: arg_number(y),
        },
    }
}
