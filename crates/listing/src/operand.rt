// An instruction's operands as text.
ghost use Rattle.std.specs.Prelude.{◌≡◌, ◌++◌, ◌+◌, ◌≤◌, length};
ghost use Rattle.encoding.specs.Code.{instruction_of};
ghost use Rattle.listing.specs.Listing.{index_text};
ghost use Rattle.listing.specs.Pieces.{named, operand, is_absent, operands};

use super::names::register;
use definition::{Operand, Reg};
use encoding::Code;
use printing::Text;

// `%` and a name
pub fn put_register<const N: usize>(text: &mut Text<N>, r: Reg)
    requires { length text.old + length (named r) ≤ N }
    ensures { text.new ≡ text.old ++ named r }
{
    text.push(b'%');
    text.put(register(r));
}

// "index 0 as +0"
#[tactic(auto, using(crate::proofs::Pieces::indices))]
pub fn put_index<const N: usize>(text: &mut Text<N>, w: i64)
    requires { length text.old + length (index_text w) ≤ N }
    ensures { text.new ≡ text.old ++ index_text w }
{
    if w >= 0 {
        text.push(b'+');
    }
    text.put_number(w);
}

#[tactic(auto, using(printing::proofs::Laws::texts))]
pub fn put_operand<const N: usize>(text: &mut Text<N>, x: Operand)
    requires { length text.old + length (operand x) ≤ N }
    ensures { text.new ≡ text.old ++ operand x }
{
    match x {
        Operand::Absent => {}
        Operand::Imm(w) => text.put_number(w),
        Operand::Register(r) => put_register(text, r),
        Operand::Dir(w) => {
            text.push(b'[');
            text.put_number(w);
            text.push(b']');
        }
        Operand::Ind(r) => {
            text.push(b'[');
            put_register(text, r);
            text.push(b']');
        }
        Operand::Idx(r, w) => {
            text.push(b'[');
            put_register(text, r);
            put_index(text, w);
            text.push(b']');
        }
    }
}

fn is_absent(x: Operand) -> bool
    ensures { result ≡ is_absent x }
{
    matches!(x, Operand::Absent)
}

// What follows a mnemonic.
#[tactic(auto, using(printing::proofs::Laws::texts))]
pub fn put_operands<const N: usize>(text: &mut Text<N>, x: Operand, y: Operand)
    requires { length text.old + length (operands x y) ≤ N }
    ensures { text.new ≡ text.old ++ operands x y }
{
    if is_absent(x) {
        return;
    }
    text.push(b' ');
    put_operand(text, x);
    if is_absent(y) {
        return;
    }
    text.put(&[b',', b' ']);
    put_operand(text, y);
}

// Of a cell taken apart: where the first operand is absent the second is not made.
#[tactic(auto, using(printing::proofs::Laws::texts))]
#[inline(always)]
pub fn put_operands_of<const N: usize>(text: &mut Text<N>, i: &Code)
    requires { length text.old + length (operands (instruction_of i.now).x (instruction_of i.now).y) ≤ N }
    ensures { text.new ≡ text.old ++ operands (instruction_of i.now).x (instruction_of i.now).y }
{
    let x = i.x();
    if is_absent(x) {
        return;
    }
    text.push(b' ');
    put_operand(text, x);
    let y = i.y();
    if is_absent(y) {
        return;
    }
    text.put(b", ");
    put_operand(text, y);
}

#[cfg(test)]
mod tests {
    use super::*;
    use std::test::Fail;

    #[tactic(auto, using(printing::proofs::Laws::texts), unfolding(crate::specs::Listing::index_text))]
    #[test]
    fn puts_operands(rt: HostRuntime) -> Result<(), Fail> {
        let mut text = Text::<80>::new();
        put_operands(&mut text, Operand::Idx(Reg::SP, 0), Operand::Dir(-7));
        assert_eq!(rt; text.as_bytes(), b" [%sp+0], [-7]".as_slice());
        text.clear();
        put_operands(&mut text, Operand::Ind(Reg::B), Operand::Absent);
        assert_eq!(rt; text.as_bytes(), b" [%b]".as_slice());
        text.clear();
        put_operands(&mut text, Operand::Absent, Operand::Imm(1));
        assert_eq!(rt; text.as_bytes(), b"".as_slice());
        Ok(())
    }
}
