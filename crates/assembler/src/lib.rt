// Programs written as text: the passes over a text, and the call that fills an image.
#![tactic(auto)]

pub mod judge;
pub mod labels;
pub mod lines;
pub mod values;
pub mod write;

ghost use Rattle.std.specs.Prelude.{◌≡◌};
ghost use Rattle.definition.specs.Answers.{counted_of};
ghost use Rattle.definition.specs.Calls.{called};
ghost use Rattle.assembly.specs.Assemble.{assemble_call};

use definition::Counted;
use definition::answers::{Refusal, check};
use expression::labels::Labels;

// "A call that fills a lent image": text into the front of the image, or a refusal by 9, 13, 14 or 15 that leaves it.
pub fn assemble(text: &[u8], image: &mut [i64]) -> Counted
    ensures { called result image.new ≡ assemble_call text.now image.old }
{
    Counted::from(fill(text, image))
}

// How many cells were filled.
pub fn fill(text: &[u8], image: &mut [i64]) -> Result<u64, Refusal>
    ensures { called (counted_of result) image.new ≡ assemble_call text.now image.old }
{
    check(image.len() % 3 == 0, Refusal::Image)?;
    // Made once: while it is empty the first pass reads by it.
    let mut labels = Labels::new();
    let count = lines::count_lines(text, &labels, image.len() / 3)?;
    labels::collect(text, &mut labels);
    judge::judge(text, &labels, count)?;
    write::write(text, &labels, count, image);
    Ok(count as u64)
}
