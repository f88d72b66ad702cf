// A cell's line. What makes it stands in line: of what a cell decodes to only what is written is worked out, and no line is copied.
ghost use Rattle.std.specs.Prelude.{◌≡◌, true, ◌++◌, ◌+◌, ◌≤◌, length};
ghost use Rattle.definition.specs.Encoding.{sound};
ghost use Rattle.encoding.specs.Code.{instruction_of};
ghost use Rattle.listing.specs.Listing.{word_text, line_text};
ghost use Rattle.listing.specs.Pieces.{instruction, cell_text};

use super::names::mnemonic;
use super::operand::{put_operands, put_operands_of};
use definition::{Cell, Instruction};
use encoding::Code;
use printing::Text;

/// Room for any line.
pub type Line = Text<80>;

// `.word` and a value
pub fn put_word<const N: usize>(text: &mut Text<N>, w: i64)
    requires { length text.old + length (word_text w) ≤ N }
    ensures { text.new ≡ text.old ++ word_text w }
{
    text.put(b".word ");
    text.put_number(w);
}

pub fn put_instruction<const N: usize>(text: &mut Text<N>, i: Instruction)
    requires { length text.old + length (instruction i) ≤ N }
    ensures { text.new ≡ text.old ++ instruction i }
{
    text.put(mnemonic(i.op));
    put_operands(text, i.x, i.y);
}

// The instruction of a cell taken apart.
#[inline(always)]
pub fn put_instruction_of<const N: usize>(text: &mut Text<N>, i: &Code)
    requires { length text.old + length (instruction (instruction_of i.now)) ≤ N }
    ensures { text.new ≡ text.old ++ instruction (instruction_of i.now) }
{
    text.put(mnemonic(i.op));
    put_operands_of(text, i);
}

// "an empty cell as `.word 0`": both its numbers are 0.
#[inline(always)]
pub fn put_content<const N: usize>(text: &mut Text<N>, v: Cell)
    requires sound { sound v ≡ true }
    requires room { length text.old + length (cell_text v) ≤ N }
    ensures { text.new ≡ text.old ++ cell_text v }
{
    if v.tag < 2 {
        put_word(text, v.first);
    } else {
        let t = (v.tag as u32) - 2;
        put_instruction_of(text, &encoding::code_of(t, v.first, v.second));
    }
}

#[tactic(auto, using(crate::proofs::Pieces::shorts), unfolding(crate::specs::Listing::line_text))]
#[inline(always)]
pub fn put_line(line: &mut Line, v: Cell)
    requires { sound v ≡ true }
    ensures { line.new ≡ line_text v }
{
    line.clear();
    put_content(line, v);
    line.push(b'\n');
}

#[cfg(test)]
mod tests {
    use super::*;
    use definition::{Op, Operand, Reg};
    use std::test::Fail;

    #[tactic(auto, using(printing::proofs::Laws::texts))]
    #[test]
    fn puts_an_instruction(rt: HostRuntime) -> Result<(), Fail> {
        let mut text = Line::new();
        let i = Instruction {
            op: Op::Add,
            x: Operand::Imm(5),
            y: Operand::Register(Reg::B),
            r1: Reg::A,
            r2: Reg::B,
            cycles: 1,
        };
        put_instruction(&mut text, i);
        assert_eq!(rt; text.as_bytes(), b"add 5, %b".as_slice());
        Ok(())
    }
}
