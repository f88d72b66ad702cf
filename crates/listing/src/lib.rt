// Listings: an image as text of the assembler, one line a cell.
#![tactic(auto)]

pub mod cell;
pub mod lines;
pub mod names;
pub mod operand;

ghost use Rattle.std.specs.Prelude.{◌≡◌, ◌&&◌};
ghost use Rattle.definition.specs.Calls.{called};
ghost use Rattle.definition.specs.Answers.{counted_of};
ghost use Rattle.listing.specs.Call.{is_image, may_list, has_leave, listed, list_call};

use definition::Counted;
use definition::answers::{Refusal, check};

// "9. The image is no whole number of cells [...] or holds a damaged cell."
#[tactic(auto, unfolding(crate::specs::Call::is_image))]
pub fn is_image(image: &[i64]) -> bool
    ensures { result ≡ is_image image.now }
{
    image.len() % 3 == 0 && encoding::lowest_damaged(image).is_none()
}

// "16 empty cell without leave"
#[tactic(auto, unfolding(crate::specs::Call::may_list))]
pub fn may_list(leave: bool, image: &[i64]) -> bool
    ensures { result ≡ may_list leave image.now }
{
    leave || !lines::any_empty(image)
}

// Any number but 0 is leave.
#[tactic(auto, unfolding(crate::specs::Call::has_leave))]
pub fn has_leave(leave: u64, image: &[i64]) -> bool
    ensures { result ≡ has_leave leave image.now }
{
    may_list(leave != 0, image)
}

// The image's text put into the front of the buffer, and its length, or why the buffer is left as it is.
#[tactic(auto, using(crate::proofs::Cells::answers), unfolding(crate::specs::Call::listed, crate::specs::Call::listed_check, definition::specs::Calls::verdict))]
pub fn listed(image: &[i64], text: &mut [u8], leave: bool) -> Result<u64, Refusal>
    ensures { called (counted_of result) text.new ≡ listed leave image.now text.old }
{
    check(is_image(image), Refusal::Image)?;
    check(may_list(leave, image), Refusal::EmptyCell)?;
    let bytes = lines::measure(image, text.len()).ok_or(Refusal::TextRoom)?;
    lines::write(image, text);
    Ok(bytes as u64)
}

// The image's text into the front of the buffer, or a refusal by 9, 16 or 17 that leaves it. `leave` is C's: any number but 0.
#[tactic(auto, unfolding(crate::specs::Call::list_call))]
pub fn list(image: &[i64], text: &mut [u8], leave: u64) -> Counted
    ensures { called result text.new ≡ list_call leave image.now text.old }
{
    Counted::from(listed(image, text, leave != 0))
}
