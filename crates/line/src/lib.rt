// A line of a program written as text: its operands, what stands in its cell, its label.
#![tactic(auto)]

ghost use Rattle.std.specs.Prelude.{◌≡◌, ◌<◌};

pub mod content;
pub mod names;
pub mod operands;

use expression::Value;

// An operand, by its mode. A register's number is the place of its name, and a digit of the tag. Not the definition's Operand made generic: a
// value here is not judged yet, and each function of the machine would name both types.
#[derive(Clone, Copy)]
pub enum Arg {
    None,
    Imm(Value),
    Reg(u32),
    Dir(Value),
    Ind(u32),
    Idx(u32, Value),
}

// What stands in a cell: a value, or an operation by its number, the place of its mnemonic and a part of the tag.
#[derive(Clone, Copy)]
pub enum Body {
    Word(Value),
    Code(u32, Arg, Arg),
}

// A line, and its label if it has one.
#[derive(Clone, Copy)]
pub struct Line<'a> {
    pub label: Option<&'a [u8]>,
    pub body: Body,
}

impl Arg {
    ghost use Rattle.assembly.specs.Grammar.{mode};
    ghost use Rattle.line.specs.Code.{arg_told};

    #[tactic(auto, unfolding(assembly::specs::Grammar::mode))]
    pub fn mode(self) -> u32
        ensures { (result ≡ mode (arg_told self)) × (result < 6) }
    {
        match self {
            Arg::None => 0,
            Arg::Imm(_) => 1,
            Arg::Reg(_) => 2,
            Arg::Dir(_) => 3,
            Arg::Ind(_) => 4,
            Arg::Idx(_, _) => 5,
        }
    }
}
