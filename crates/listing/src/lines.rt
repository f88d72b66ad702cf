// The lines of an image: whether a cell is empty, how many bytes they take, and the lines written.
ghost use Rattle.std.specs.Prelude.{◌≡◌, ◌+◌, ◌≤◌, length};
ghost use Rattle.definition.specs.Memory.{cell_count};
ghost use Rattle.definition.specs.Calls.{lowest_damaged};
ghost use Rattle.listing.specs.Listing.{image_cells, any_empty};
ghost use Rattle.listing.specs.Call.{image_text, in_front};
ghost use Rattle.listing.specs.Pieces.{fitted};

use super::cell::{Line, put_line};
use memory::get_cell;

#[tactic(auto, using(crate::proofs::Cells::steps))]
pub fn any_empty(image: &[i64]) -> bool
    ensures { result ≡ any_empty (image_cells image.now) }
{
    (0..image.len() / 3).any(|n| get_cell(image, n).tag == 0)
}

// How many bytes the lines take, if so many are there. A line is made and only counted, so that nothing is written where the text does not fit.
#[tactic(auto, using(crate::proofs::Cells::steps))]
pub fn measure(image: &[i64], room: usize) -> Option<usize>
    requires { lowest_damaged 0 image.now ≡ cell_count image.now }
    ensures { result ≡ fitted (length (image_text image.now)) room }
{
    let mut left = room;
    let mut line = Line::new();
    for n in 0..image.len() / 3 {
        put_line(&mut line, get_cell(image, n));
        left = left.checked_sub(line.as_bytes().len())?;
    }
    Some(room - left)
}

// By places: with split_at_mut each round would hand the rest of the text on from the loan before.
#[tactic(auto, using(crate::proofs::Cells::steps))]
pub fn write(image: &[i64], text: &mut [u8])
    requires undamaged { lowest_damaged 0 image.now ≡ cell_count image.now }
    requires room { length (image_text image.now) ≤ length text.old }
    ensures { text.new ≡ in_front (image_text image.now) text.old }
{
    let mut at = 0;
    let mut line = Line::new();
    for n in 0..image.len() / 3 {
        put_line(&mut line, get_cell(image, n));
        let bytes = line.as_bytes();
        let end = at + bytes.len();
        word::copy::copy(&mut text[at..end], bytes);
        at = end;
    }
}
