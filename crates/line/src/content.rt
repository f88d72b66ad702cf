// What stands in a cell, and the line around it.
ghost use Rattle.std.specs.Prelude.{◌≡◌, ◌<◌};
ghost use Rattle.expression.specs.Values.{values, no_labels};
ghost use Rattle.expression.specs.Labels.{lookup};
ghost use Rattle.expression.specs.Code.{read_as};
ghost use Rattle.assembly.specs.Reader.{coded, operands, word_after, content, ended, row};
ghost use Rattle.line.specs.Code.{arg_told, body_told, label_told, line_told};

use super::names::mnemonic;
use super::operands::{DEPTH, operand};
use super::{Arg, Body, Line};
use encoding::forms::is_legal;
use expression::labels::Labels;
use expression::text::{skip_spaces, split_label, split_name, token};
use expression::{Read, sum};

// Only one of the 124 forms.
pub fn coded(op: u32, x: Arg, y: Arg, rest: &[u8]) -> Read<'_, Body>
    requires { op < 33 }
    ensures { read_as body_told result ≡ coded (values no_labels) 32 op (arg_told x) (arg_told y) rest.now }
{
    if is_legal(op, x.mode(), y.mode()) {
        Some((Body::Code(op, x, y), rest))
    } else {
        None
    }
}

// The operands of an operation after its mnemonic: none, one, or two with a comma between. In line, as content is: a body that is read is large.
#[inline(always)]
pub fn operands<'a>(op: u32, s: &'a [u8], labels: &Labels) -> Read<'a, Body>
    requires { op < 33 }
    ensures { read_as body_told result ≡ operands (values (lookup labels.now)) 32 op s.now }
{
    if is_legal(op, 0, 0) {
        return Some((Body::Code(op, Arg::None, Arg::None), skip_spaces(s)));
    }
    let first = token(s, b' ')?;
    let (x, rest) = operand(first, labels)?;
    let Some(second) = token(rest, b',') else {
        return coded(op, x, Arg::None, rest);
    };
    let (y, rest) = operand(second, labels)?;
    coded(op, x, y, rest)
}

// The value after `.word`.
pub fn word_after<'a>(s: &'a [u8], labels: &Labels) -> Read<'a, Body>
    ensures { read_as body_told result ≡ word_after (values (lookup labels.now)) 32 s.now }
{
    let first = token(s, b' ')?;
    let (value, rest) = sum(first, labels, DEPTH)?;
    Some((Body::Word(value), rest))
}

#[inline(always)]
pub fn content<'a>(s: &'a [u8], labels: &Labels) -> Read<'a, Body>
    ensures { read_as body_told result ≡ content (values (lookup labels.now)) 32 s.now }
{
    if let [b'.', rest @ ..] = s {
        let (name, rest) = split_name(rest);
        if b"word".as_slice() == name {
            return word_after(rest, labels);
        }
        return None;
    }
    let (op, rest) = mnemonic(s)?;
    operands(op, rest, labels)
}

// The line's end after what stands in its cell, whichever body was read.
pub fn ended<'a>(label: Option<&'a [u8]>, body: Read<'a, Body>) -> Read<'a, Line<'a>>
    ensures { read_as line_told result ≡ ended (values no_labels) 32 (label_told label.entry) (read_as body_told body.entry) }
{
    let (body, rest) = body?;
    match rest {
        [b'\n', rest @ ..] => Some((Line { label, body }, rest)),
        _ => None,
    }
}

// A line, its end included.
pub fn row<'a>(s: &'a [u8], labels: &Labels) -> Read<'a, Line<'a>>
    ensures { read_as line_told result ≡ row (values (lookup labels.now)) 32 s.now }
{
    let s = skip_spaces(s);
    match split_label(s) {
        Some((name, _)) if name.len() > 16 => None,
        Some((name, rest)) => ended(Some(name), content(skip_spaces(rest), labels)),
        None => ended(None, content(s, labels)),
    }
}
