// The listings tool: reads an old image's numeric lines from standard input and prints its cells as a program written as text. Its argument `loss` allows empty
// cells, which come out as `.word 0`. No contract can say which bytes the system gives or takes: what is read is said of readers whose bytes are known, and what
// is written is made by `list_input`.
#![tactic(auto)]

mod seen;

ghost use Rattle.std.specs.Prelude.{◌≡◌, ◌*◌, IfOk, IfErr, take};
ghost use Rattle.definition.specs.Answers.{number_of, place_of};
ghost use Rattle.report.specs.Text.{refusal_text};
ghost use Rattle.lister.specs.Output.{leave_of, listing_text, output_of, SeesInput, ListsInput};

use definition::answers::Refusal;
use printing::Text;
use seen::Seen;
use std::env::{Env, FillError};
use std::io::Read;

const STDOUT: i32 = 1;

// Room for 2,048 lines of at most 80 bytes.
type Listing = Text<163840>;

// Reads until the input ends or a line is broken. No input uses up so many reads.
fn read_all<R: Read>(from: &mut R) -> std::io::Result<Seen>
    ensures { IfOk result (SeesInput (R.remaining from.old)) }
{
    let mut seen = Seen::new();
    let mut part = io::large_buffer();
    for _read in 0..u64::MAX {
        let n = from.read(&mut part)?;
        if n == 0 {
            break;
        }
        seen.take_part(&part[..n]);
        if seen.state.reader.broken {
            break;
        }
    }
    Ok(seen)
}

// "with leave only if its argument is `loss`"
fn leave_of(word: &[u8]) -> bool
    ensures { result ≡ leave_of word.now }
{
    word == b"loss".as_slice()
}

#[tactic(auto, using(report::proofs::Laws::refusal_short))]
fn refusal(e: Refusal, text: &mut Listing)
    ensures { text.new ≡ refusal_text (number_of e) (place_of e) }
{
    text.clear();
    text.put(report::refusal(e.number(), e.place()).as_bytes());
}

// Card 3's text, or its refusal. The text is copied from a room of its own: a `Text` that lent its bytes would lend those behind its end, which its model hides.
fn list_image(image: &[i64], leave: bool, text: &mut Listing)
    ensures { text.new ≡ listing_text leave image.now }
{
    let mut room = [0u8; 163840];
    match listing::listed(image, &mut room, leave) {
        Ok(bytes) => {
            text.clear();
            text.put(&room[..bytes as usize]);
        }
        Err(e) => refusal(e, text),
    }
}

// The front of the cells: there are no more than 2,048.
fn named_cells(cells: &[i64; 6144], named: u64) -> &[i64]
    ensures { result.now ≡ take (3 * named) cells.now }
{
    let end = 3 * named.min(2048) as usize;
    &cells[..end]
}

// What is printed of what was read. Into a text that the caller has: one of this size that is answered is copied at each return.
#[tactic(auto, unfolding(crate::specs::Output::output_of))]
fn list_seen(seen: &Seen, leave: bool, text: &mut Listing)
    ensures { text.new ≡ output_of leave seen.now }
{
    match seen.state.reader.broken_line() {
        Some(line) => refusal(Refusal::ImageLine(line), text),
        None => list_image(named_cells(&seen.state.cells, seen.named), leave, text),
    }
}

// What is printed of what `from` gives, whole. Where that cannot be read the text stays as it was.
fn list_input<R: Read>(from: &mut R, word: &[u8], text: &mut Listing) -> std::io::Result<()>
    ensures listed { IfOk result (λ _. ListsInput (R.remaining from.old) word.now text.new) }
    ensures kept { IfErr result (λ _. text.new ≡ text.old) }
{
    let seen = read_all(from)?;
    list_seen(&seen, leave_of(word), text);
    Ok(())
}

// Prints the listing of what standard input gives, or says on standard error why it could not be read.
fn print_input(rt: &HostRuntime, word: &[u8]) -> std::io::Result<()> {
    let mut text = Text::new();
    match list_input(&mut rt.stdin(), word, &mut text) {
        Ok(()) => {
            io::write_all(STDOUT, text.as_bytes());
            Ok(())
        }
        Err(e) => failure::tell(rt.alloc(), "standard input", &e),
    }
}

// One argument may give leave; a missing one, or more than one, does not. By rt.arg and no env::args, which allocates, and is an error where an
// argument is no UTF-8: here such a word only gives no leave.
fn main(rt: HostRuntime) -> std::io::Result<()> {
    let mut word = io::buffer();
    let mut second = io::buffer();
    let n = rt.arg(1, &mut word).unwrap_or(0);
    match rt.arg(2, &mut second) {
        Err(FillError::NotPresent) => print_input(&rt, &word[..n]),
        _ => print_input(&rt, b""),
    }
}
