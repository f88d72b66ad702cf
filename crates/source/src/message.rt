// What a person reads of a file that is refused: the line, what was read, what was expected.
ghost use Rattle.std.specs.Prelude.{◌≡◌, ◌++◌, ◌+◌, ◌-◌, ◌≤◌, length};
ghost use Rattle.source.specs.Message.{lines_from, line_at, number_text, expected_text, message_text};

use super::Refused;
use expression::text::{next_line, split_line};
use printing::Text;

// The text from a line on, numbered from 1.
pub fn lines_from(text: &[u8], place: u64) -> &[u8]
    ensures { result.now ≡ lines_from (place - 1) text.now }
{
    let mut rest = text;
    for _line in 1..place {
        if rest.is_empty() {
            break;
        }
        rest = next_line(rest);
    }
    rest
}

// The bytes of a line.
#[tactic(auto, unfolding(crate::specs::Message::line_at))]
pub fn line_at(text: &[u8], place: u64) -> &[u8]
    ensures { result.now ≡ line_at place text.now }
{
    split_line(lines_from(text, place)).0
}

// `line ` and its number
#[tactic(auto, using(printing::proofs::Laws::texts), unfolding(crate::specs::Message::number_text))]
pub fn put_number<const N: usize>(text: &mut Text<N>, place: u64)
    requires { length text.old + length (number_text place) ≤ N }
    ensures { text.new ≡ text.old ++ number_text place }
{
    text.put(b"line ");
    text.put_decimal(place);
}

// What a file is to have in the place of what is refused with this number: all that Refused holds of why.
#[tactic(auto, unfolding(crate::specs::Message::expected_text, crate::specs::Message::start_text, crate::specs::Message::grammar_text, crate::specs::Message::label_text, crate::specs::Message::numbers_text, crate::specs::Message::value_text))]
pub fn expected(number: u64) -> &'static [u8]
    ensures { result.now ≡ expected_text number }
{
    match number {
        12 => {
            b"expected is start,pc,sp,sr: decimal numbers within 64 bits and no spaces, pc and sp from 0 to 4294967295\n"
        }
        13 => {
            b"expected is [label:] mnemonic operands, or .word value, as the grammar has it: brackets at most 32 deep, 2048 lines, 32768 bytes with the start line\n"
        }
        14 => { b"expected is a label that one line sets and no more, of at most 256\n" }
        18 => {
            b"expected is a program written as text: ./listing writes an image of such lines as one\n"
        }
        _ => {
            b"expected are values within 64 bits, and in square brackets an address, 0 to 4294967295\n"
        }
    }
}

#[tactic(auto, using(crate::proofs::Said::pieces), unfolding(crate::specs::Message::message_text))]
pub fn message<const N: usize>(text: &[u8], refused: Refused) -> Text<N>
    requires { length text.now + 512 ≤ N }
    ensures { result ≡ message_text text.now refused.number refused.place }
{
    let mut said = Text::new();
    put_number(&mut said, refused.place);
    said.put(b": read was: ");
    said.put(line_at(text, refused.place));
    said.push(b'\n');
    put_number(&mut said, refused.place);
    said.put(b": ");
    said.put(expected(refused.number));
    said
}
