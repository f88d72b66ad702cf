// Constant expressions, read and worked out at once: links, operand and atom call each other. Text, labels and depth are passed on and not held,
// as depth changes on the way, and the text is what is left.
#![tactic(auto)]

pub mod labels;
pub mod text;

ghost use Rattle.std.specs.Prelude.{◌≡◌};
ghost use Rattle.expression.specs.Reader.{numbered, labelled, read_sum, read_atom, links};
ghost use Rattle.expression.specs.Values.{values, no_labels, place_value, joined};
ghost use Rattle.expression.specs.Labels.{lookup};
ghost use Rattle.expression.specs.Code.{told, sized_value, place_found, operator_of, operator_at, join_of, level_of, operand_of};

use definition::Wrapped;
use labels::Labels;
use text::{digits, skip_spaces, split_name, token};

// A value, whether a label that it needs is missing, and whether it or a part of it is outside 64 bits. No Result: the definition tells
// both faults of each value, and a text is judged by the first kind in all its lines before the second.
#[derive(Clone, Copy)]
pub struct Value {
    pub value: i64,
    pub missing: bool,
    pub overflow: bool,
}

// What was read and the text after it, or nothing.
pub type Read<'a, T> = Option<(T, &'a [u8])>;

#[derive(Clone, Copy)]
pub enum Operator {
    Times,
    Plus,
    Minus,
}

// What the operators of a links join: products, or atoms. A value and no closure: links and operand call each other, one level down each time.
#[derive(Clone, Copy)]
pub enum Level {
    Sum,
    Product,
}

impl Value {
    // The value of a sign and a magnitude.
    #[tactic(auto, unfolding(crate::specs::Code::sized_value))]
    pub fn sized(minus: bool, size: u64) -> Value
        ensures { result ≡ sized_value minus size }
    {
        if decimal::is_within(minus, size) {
            Value {
                value: decimal::value(minus, size),
                missing: false,
                overflow: false,
            }
        } else {
            Value {
                value: 0,
                missing: false,
                overflow: true,
            }
        }
    }

    // The value of a label, by the line that sets it.
    pub fn of_line(line: Option<usize>) -> Value
        ensures { result ≡ place_value (place_found line) }
    {
        match line {
            Some(line) => Value::sized(false, line as u64),
            None => Value {
                value: 0,
                missing: true,
                overflow: false,
            },
        }
    }

    // What an operation makes of two values, given its result.
    fn join(self, other: Value, result_of: Wrapped) -> Value
        ensures { result ≡ joined self other result_of }
    {
        Value {
            value: result_of.value,
            missing: self.missing | other.missing,
            overflow: self.overflow | (other.overflow | result_of.overflow),
        }
    }
}

impl Operator {
    pub fn apply(self, x: Value, y: Value) -> Value
        ensures { result ≡ join_of self x y }
    {
        let wrapped = match self {
            Operator::Times => word::mul(x.value, y.value),
            Operator::Plus => word::add(x.value, y.value),
            Operator::Minus => word::sub(x.value, y.value),
        };
        x.join(y, wrapped)
    }
}

impl Level {
    #[tactic(auto, unfolding(crate::specs::Code::operator_of))]
    fn operator(self, byte: u8) -> Option<Operator>
        ensures { result ≡ operator_of self byte }
    {
        match (self, byte) {
            (Level::Product, b'*') => Some(Operator::Times),
            (Level::Sum, b'+') => Some(Operator::Plus),
            (Level::Sum, b'-') => Some(Operator::Minus),
            _ => None,
        }
    }

    // The operator of this level that a text begins with, and the text after it and spaces.
    fn split_operator(self, s: &[u8]) -> Read<'_, Operator>
        ensures { told result ≡ operator_at self s.now }
    {
        let (first, rest) = s.split_first()?;
        Some((self.operator(*first)?, skip_spaces(rest)))
    }
}

pub fn number(s: &[u8], minus: bool) -> Read<'_, Value>
    ensures { told result ≡ numbered (values no_labels) minus s.now }
{
    let [b'0'..=b'9', ..] = s else {
        return None;
    };
    let (size, rest) = digits(s);
    Some((Value::sized(minus, size), skip_spaces(rest)))
}

pub fn label<'a>(s: &'a [u8], labels: &Labels) -> Read<'a, Value>
    ensures { told result ≡ labelled (values (lookup labels.now)) s.now }
{
    let (name, rest) = split_name(s);
    if name.len() <= 16 {
        return Some((Value::of_line(labels.find(name)), skip_spaces(rest)));
    }
    None
}

// A number or a label.
pub fn leaf<'a>(s: &'a [u8], labels: &Labels) -> Read<'a, Value>
    ensures { told result ≡ read_atom (values (lookup labels.now)) 0 s.now }
{
    match s {
        [b'0'..=b'9', ..] => number(s, false),
        [b'a'..=b'z', ..] => label(s, labels),
        [b'-', rest @ ..] => number(rest, true),
        _ => None,
    }
}

// A number, a label, or a sum in round brackets.
#[cycle(atom_product_sum)]
pub fn atom<'a>(s: &'a [u8], labels: &Labels, depth: usize) -> Read<'a, Value>
    ensures { told result ≡ read_atom (values (lookup labels.now)) depth s.now }
{
    if depth > 0
        && let Some(inner) = token(s, b'(')
    {
        let (value, rest) = links(inner, labels, depth - 1, Level::Sum)?;
        return Some((value, token(rest, b')')?));
    }
    leaf(s, labels)
}

// What the operators of a level join.
#[cycle(atom_product_sum)]
fn operand<'a>(s: &'a [u8], labels: &Labels, depth: usize, level: Level) -> Read<'a, Value>
    ensures { told result ≡ operand_of (values (lookup labels.now)) level depth s.now }
{
    match level {
        Level::Sum => links(s, labels, depth, Level::Product),
        Level::Product => atom(s, labels, depth),
    }
}

// Operands of a level, joined by its operators.
#[cycle(atom_product_sum)]
pub fn links<'a>(s: &'a [u8], labels: &Labels, depth: usize, level: Level) -> Read<'a, Value>
    ensures { told result ≡ links (level_of (values no_labels) level) (operand_of (values (lookup labels.now)) level depth) s.now }
{
    let (mut value, mut rest) = operand(s, labels, depth, level)?;
    while let Some((operator, after)) = level.split_operator(rest) {
        let (next, end) = operand(after, labels, depth, level)?;
        value = operator.apply(value, next);
        rest = end;
    }
    Some((value, rest))
}

// Products joined by plus and minus.
pub fn sum<'a>(s: &'a [u8], labels: &Labels, depth: usize) -> Read<'a, Value>
    ensures { told result ≡ read_sum (values (lookup labels.now)) depth s.now }
{
    links(s, labels, depth, Level::Sum)
}
