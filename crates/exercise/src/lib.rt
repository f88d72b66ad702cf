// "A stated exercise load": a lent image filled from a seed. Each function answers what specs/Exercise.antt says.
#![tactic(auto)]

pub mod forms;

ghost use Rattle.std.specs.Prelude.{◌≡◌, ◌/◌, ◌%◌, length, pos, ◌==◌};
ghost use Rattle.definition.specs.Memory.{cell_count};
ghost use Rattle.definition.specs.Encoding.{tag_of};
ghost use Rattle.definition.specs.Calls.{called};
ghost use Rattle.definition.specs.Answers.{counted_of};
ghost use Rattle.exercise.specs.Exercise.{next_state, draw, form_of, register, number, cell_of, third_state, cell_from, made, exercise};

use definition::answers::{Refusal, check};
use definition::{Cell, Counted};
use forms::FORMS;

// "state times 6364136223846793005 plus 1442695040888963407 modulo 2^64 gives the next state"
#[tactic(auto, unfolding(crate::specs::Exercise::next_state))]
pub fn next_state(state: u64) -> u64
    ensures { result ≡ next_state state }
{
    state
        .wrapping_mul(6364136223846793005)
        .wrapping_add(1442695040888963407)
}

// "whose upper 32 bits are the draw"
#[tactic(auto, unfolding(crate::specs::Exercise::draw))]
pub fn draw(state: u64) -> u32
    ensures { result ≡ draw state }
{
    (state >> 32) as u32
}

// "the first modulo 124 picks the form"
pub fn form_of(d: u32) -> u32
    ensures { result ≡ form_of d }
{
    FORMS[(d % 124) as usize]
}

// A register, "0 where unused". Mode and register are digits of a tag, drawn, so numbers.
#[tactic(auto, unfolding(crate::specs::Exercise::register))]
pub fn register(m: u32, r: u32) -> u32
    ensures { result ≡ register m r }
{
    if encoding::register_fits(m, r) { r } else { 0 }
}

// 1 for a mode that holds a number. Of an `if` the compiler makes a jump, which no draw foretells: a cell then takes twice the time, and fewer than 50
// million are made a second.
static NUMBERS: [i64; 6] = [0, 1, 0, 1, 0, 1];

// A number in its place, 0 where the mode holds none.
#[tactic(auto, unfolding(crate::specs::Exercise::number, definition::specs::Encoding::number_fits))]
pub fn number(m: u32, w: i64) -> i64
    ensures { result ≡ number m w }
{
    if m > 5 || m == 3 && !word::is_address(w) {
        return 0;
    }
    w * NUMBERS[m as usize]
}

// The tag of the entry k with two registers: the assembler's sum, whose op and modes come apart there.
pub fn tag_of(k: u32, r1: u32, r2: u32) -> i64
    ensures { result ≡ pos (tag_of (k / 36) (k / 6 % 6) (k % 6) r1 r2) }
{
    (2 + (k as u64 * 25 + r1 as u64 * 5 + r2 as u64)) as i64
}

// "Three draws make a cell"
#[tactic(auto, unfolding(crate::specs::Exercise::cell_of))]
pub fn cell_of(d1: u32, d2: u32, d3: u32) -> Cell
    ensures { result ≡ cell_of d1 d2 d3 }
{
    let k = form_of(d1);
    let m1 = k / 6 % 6;
    let m2 = k % 6;
    let r1 = register(m1, d2 % 5);
    let r2 = register(m2, d2 / 5 % 5);
    let w = (d3 % 16384) as i64;
    Cell {
        tag: tag_of(k, r1, r2),
        first: number(m1, w),
        second: number(m2, w),
    }
}

// The draws, one after another. No Iterator: none is the last, and each of a cell's three would be taken out of an Option.
#[derive(Drop)]
struct Draws {
    state: u64,
}

impl Draws {
    fn next(&mut self) -> u32
        ensures state { self.new.state ≡ next_state self.old.state }
        ensures value { result ≡ draw self.new.state }
    {
        self.state = next_state(self.state);
        draw(self.state)
    }

    #[tactic(auto, unfolding(crate::specs::Exercise::cell_from))]
    fn next_cell(&mut self) -> Cell
        ensures state { self.new.state ≡ third_state self.old.state }
        ensures value { result ≡ cell_from self.old.state }
    {
        cell_of(self.next(), self.next(), self.next())
    }
}

#[tactic(auto, using(crate::proofs::Made::steps))]
fn fill(image: &mut [i64], seed: u64)
    requires { length image.old % 3 ≡ 0 }
    ensures { image.new ≡ made (cell_count image.old) seed }
{
    let mut draws = Draws { state: seed };
    for n in 0..image.len() / 3 {
        memory::put_cell(image, n, draws.next_cell());
    }
}

// "9. The image is no whole number of cells": whether so many numbers are.
pub fn is_whole(length: usize) -> bool
    ensures { result ≡ (length % 3 == 0) }
{
    length % 3 == 0
}

// Fills the image, and answers how many cells it has.
#[tactic(auto, unfolding(crate::specs::Exercise::exercise, crate::specs::Exercise::exercise_check, definition::specs::Calls::verdict))]
fn filled(image: &mut [i64], seed: u64) -> Result<u64, Refusal>
    ensures { called (counted_of result) image.new ≡ exercise image.old seed }
{
    check(is_whole(image.len()), Refusal::Image)?;
    fill(image, seed);
    Ok((image.len() / 3) as u64)
}

// "A lent image is filled from a 64-bit seed"
pub fn exercise(image: &mut [i64], seed: u64) -> Counted
    ensures { called result image.new ≡ exercise image.old seed }
{
    Counted::from(filled(image, seed))
}
