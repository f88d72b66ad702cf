// An operand: a register, a value, or in square brackets a value, a register or a register with an index.
ghost use Rattle.std.specs.Prelude.{◌≡◌};
ghost use Rattle.expression.specs.Values.{values};
ghost use Rattle.expression.specs.Labels.{lookup};
ghost use Rattle.expression.specs.Code.{told, read_as};
ghost use Rattle.assembly.specs.Reader.{register, operand};
ghost use Rattle.line.specs.Code.{arg_told, index_of, inside_square};

use super::Arg;
use super::names::register_name;
use expression::labels::Labels;
use expression::text::{skip_spaces, token};
use expression::{Read, number, sum};

// How deep round brackets may stand.
pub const DEPTH: usize = 32;

// A register after its `%`.
pub fn register(s: &[u8]) -> Read<'_, u32>
    ensures { told result ≡ register s.now }
{
    let (register, rest) = register_name(s)?;
    Some((register, skip_spaces(rest)))
}

// What stands in square brackets after a register.
pub fn index_after(register: u32, s: &[u8]) -> Read<'_, Arg>
    ensures { read_as arg_told result ≡ index_of register s.now }
{
    match s {
        [b'+', digits @ ..] => {
            let (index, rest) = number(digits, false)?;
            Some((Arg::Idx(register, index), rest))
        }
        [b'-', digits @ ..] => {
            let (index, rest) = number(digits, true)?;
            Some((Arg::Idx(register, index), rest))
        }
        _ => Some((Arg::Ind(register), s)),
    }
}

// After an opening square bracket and spaces, up to the closing one.
pub fn inside_square<'a>(s: &'a [u8], labels: &Labels) -> Read<'a, Arg>
    ensures { read_as arg_told result ≡ inside_square (lookup labels.now) s.now }
{
    if let [b'%', name @ ..] = s {
        let (register, rest) = register(name)?;
        return index_after(register, rest);
    }
    let (address, rest) = sum(s, labels, DEPTH)?;
    Some((Arg::Dir(address), rest))
}

pub fn operand<'a>(s: &'a [u8], labels: &Labels) -> Read<'a, Arg>
    ensures { read_as arg_told result ≡ operand (values (lookup labels.now)) 32 s.now }
{
    if let [b'%', name @ ..] = s {
        let (register, rest) = register(name)?;
        return Some((Arg::Reg(register), rest));
    }
    if let Some(inner) = token(s, b'[') {
        let (arg, rest) = inside_square(inner, labels)?;
        return Some((arg, token(rest, b']')?));
    }
    let (value, rest) = sum(s, labels, DEPTH)?;
    Some((Arg::Imm(value), rest))
}
