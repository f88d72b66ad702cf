// The first pass: is every line in order, and is there room for it?
ghost use Rattle.std.specs.Prelude.{◌≡◌};
ghost use Rattle.expression.specs.Values.{values};
ghost use Rattle.expression.specs.Labels.{lookup};
ghost use Rattle.assembly.specs.Reader.{rows};
ghost use Rattle.assembler.specs.Meaning.{shape};

use definition::answers::Refusal;
use expression::labels::Labels;
use line::content::row;

// The count of lines of a text that has room and is in order, or the first line, from 1, that is not. A while, as a for over the
// room would ask for the text's end twice, in it and after it.
pub fn count_lines(text: &[u8], labels: &Labels, room: usize) -> Result<usize, Refusal>
    ensures { result ≡ shape 0 (rows (values (lookup labels.now)) 32 room text.now) }
{
    let mut rest = text;
    let mut count = 0;
    while !rest.is_empty() {
        // Where no cell is left the line is not read.
        if count == room {
            return Err(Refusal::Form(count as u64 + 1));
        }
        match row(rest, labels) {
            Some((_, after)) => {
                rest = after;
                count += 1;
            }
            _ => return Err(Refusal::Form(count as u64 + 1)),
        }
    }
    Ok(count)
}
