// memory.rs: cells, each three numbers of a lent list. Every address is tested here or by a `requires`, so no caller can read past the end.
// How many cells there are, and that none is damaged, is asked where it is needed, and no invariant holds it: stores and calls take any slice
// that C lends.
#![tactic(auto)]

ghost use Rattle.std.specs.Prelude.{◌≡◌, ◌+◌, ◌<◌, pos, length, get_or, set};
ghost use Rattle.definition.specs.Memory.{cell, cell_count, cell_at, put_cell, get, extract_word, as_address, extract_address, is_instruction, word as wordCell};
ghost use Rattle.memory.specs.Overlay.{overlay};

use definition::{Cell, Word};

// A cell write that waits: v at `at`.
#[derive(Clone, Copy)]
pub struct Write {
    pub at: u32,
    pub v: Cell,
}

// The cell that the three numbers from place i on are: in the cells, in a row, in a record.
#[inline(always)]
pub fn cell_from(numbers: &[i64], i: usize) -> Cell
    requires { i + 2 < length numbers.now }
    ensures { result ≡ cell (get_or numbers.now i (pos 0)) (get_or numbers.now (i + 1) (pos 0)) (get_or numbers.now (i + 2) (pos 0)) }
{
    Cell {
        tag: numbers[i],
        first: numbers[i + 1],
        second: numbers[i + 2],
    }
}

#[inline(always)]
pub fn cell_into(numbers: &mut [i64], i: usize, v: Cell)
    requires { i + 2 < length numbers.old }
    ensures { numbers.new ≡ set (set (set numbers.old i v.tag) (i + 1) v.first) (i + 2) v.second }
{
    numbers[i] = v.tag;
    numbers[i + 1] = v.first;
    numbers[i + 2] = v.second;
}

#[tactic(auto, unfolding(definition::specs::Memory::cell_at))]
#[inline(always)]
pub fn get_cell(cells: &[i64], n: usize) -> Cell
    requires { n < cell_count cells.now }
    ensures { result ≡ cell_at cells.now n }
{
    cell_from(cells, 3 * n)
}

// Memory::get
#[inline(always)]
pub fn get(cells: &[i64], n: u32) -> Option<Cell>
    ensures { result ≡ get cells.now n }
{
    let at = n as usize;
    if at < cells.len() / 3 {
        Some(get_cell(cells, at))
    } else {
        None
    }
}

// Memory::get once the write that waits is made.
#[inline(always)]
pub fn read_over(cells: &[i64], write: Option<Write>, n: u32) -> Option<Cell>
    ensures { result ≡ get (overlay write cells.now) n }
{
    let old = get(cells, n)?;
    if let Some(w) = write {
        if w.at == n {
            return Some(w.v);
        }
    }
    Some(old)
}

// The write that waits, made: nothing where its address is outside.
pub fn put_over(cells: &mut [i64], write: Option<Write>)
    ensures { cells.new ≡ overlay write cells.old }
{
    if let Some(w) = write {
        let n = w.at as usize;
        if n < cells.len() / 3 {
            put_cell(cells, n, w.v);
        }
    }
}

// Memory::set
#[tactic(auto, unfolding(definition::specs::Memory::put_cell))]
#[inline(always)]
pub fn put_cell(cells: &mut [i64], n: usize, v: Cell)
    requires { n < cell_count cells.old }
    ensures { cells.new ≡ put_cell cells.old n v }
{
    cell_into(cells, 3 * n, v);
}

// Cell::extract_word, which tells an empty cell's word 0 from a word. A word is found by the first test.
#[inline(always)]
pub fn extract_word(v: Cell) -> Word
    ensures { result ≡ extract_word v }
{
    if v.tag == 1 {
        Word::Is(v.first)
    } else if v.tag < 2 {
        Word::Empty
    } else {
        Word::NotWord
    }
}

#[inline(always)]
pub fn as_address(w: Word) -> Option<u32>
    ensures { result ≡ as_address w }
{
    match w {
        Word::Is(w) => word::to_address(w),
        Word::Empty => Some(0),
        Word::NotWord => None,
    }
}

// Cell::extract_address
#[inline(always)]
pub fn extract_address(v: Cell) -> Option<u32>
    ensures { result ≡ extract_address v }
{
    as_address(extract_word(v))
}

#[tactic(auto, using(word::proofs::Laws::back), unfolding(definition::specs::Memory::is_instruction))]
pub fn is_instruction(v: Cell) -> bool
    ensures { result ≡ is_instruction v }
{
    2 <= v.tag
}

#[inline(always)]
pub fn word_cell(w: i64) -> Cell
    ensures { result ≡ wordCell w }
{
    Cell {
        tag: 1,
        first: w,
        second: 0,
    }
}

#[inline(always)]
pub fn address_cell(n: u32) -> Cell
    ensures { result ≡ wordCell (pos n) }
{
    word_cell(i64::from(n))
}
