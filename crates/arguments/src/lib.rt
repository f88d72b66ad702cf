// arguments.rs: what an operand names and gives. Which error an operand ends in, and what taking it leaves of the registers, is said here alone.
#![tactic(auto)]

ghost use Rattle.std.specs.Prelude.{◌≡◌, List, ℤ};
ghost use Rattle.definition.specs.declared.Registers as R;
ghost use Rattle.definition.specs.declared.Error.TheVariants.{InvalidMemoryAccess, Extract};
ghost use Rattle.definition.specs.Arguments.{indexed, resolve, resolved, cell_there, extract_cell};
ghost use Rattle.definition.specs.Exec.{core, take_word, take_address, or_given, read};
ghost use Rattle.definition.specs.Instructions.{cell_of, word_of, target_of, register_word, place_of};
ghost use Rattle.memory.specs.Overlay.{overlay};
ghost use Rattle.registers.specs.Meaning.{res_of};
ghost use Rattle.arguments.specs.Seen.{cells_of};

use definition::{Cell, Error, Missing, Operand, Reg, Registers, Word};
use memory::Write;

// The cells as an instruction sees them: those lent, and the one write that waits. Beside the registers, which are changed where these are
// only read: in one struct, each contract would have to say that the cells stay.
#[derive(Clone, Copy)]
pub struct Seen<'a>(pub &'a [i64], pub Option<Write>);

// "an indexed sum wraps at 64 bits before it is tested as an address"
#[tactic(auto, using(word::proofs::Laws::back), unfolding(definition::specs::Arguments::indexed, definition::specs::Word::wrap, definition::specs::Word::wrapped))]
#[inline(always)]
fn indexed(w: Word, k: i64) -> Option<u32>
    ensures { result ≡ indexed w k }
{
    let base = match w {
        Word::Is(n) => n,
        Word::Empty => 0,
        Word::NotWord => return None,
    };
    word::to_address(word::add(base, k).value)
}

// ResolveAddress: Dir, Ind, Idx
#[tactic(auto, using(word::proofs::Laws::back), unfolding(definition::specs::Arguments::resolve))]
#[inline(always)]
fn resolve(s: &Registers, x: Operand) -> Option<u32>
    ensures { result ≡ resolve x s.now }
{
    match x {
        Operand::Dir(w) => word::to_address(w),
        Operand::Ind(r) => memory::extract_address(registers::get_reg(s, r)),
        Operand::Idx(r, k) => indexed(memory::extract_word(registers::get_reg(s, r)), k),
        Operand::Absent | Operand::Imm(_) | Operand::Register(_) => None,
    }
}

// The word of the address register is taken.
#[tactic(auto, unfolding(definition::specs::Arguments::resolved))]
#[inline(always)]
fn count_base(s: &mut Registers, x: Operand)
    ensures { s.new ≡ resolved x s.old }
{
    if let Operand::Ind(r) | Operand::Idx(r, _) = x {
        let base = memory::extract_word(registers::get_reg(s, r));
        registers::count(s, base);
    }
}

// The cell at an address that may be none.
#[tactic(auto, unfolding(definition::specs::Arguments::cell_there, definition::specs::Arguments::read_there))]
#[inline(always)]
fn cell_there(seen: &Seen<'_>, n: Option<u32>) -> Result<Cell, Missing>
    ensures { result ≡ cell_there n (cells_of seen.now) }
{
    let n = n.ok_or(Missing::NoAddress)?;
    memory::read_over(seen.0, seen.1, n).ok_or(Missing::OutsideCells)
}

// ExtractValue: Imm, Reg, Dir, Ind, Idx
#[tactic(auto, using(word::proofs::Laws::back), unfolding(definition::specs::Arguments::extract_cell))]
#[inline(always)]
fn extract_cell(seen: &Seen<'_>, s: &Registers, x: Operand) -> Result<Cell, Missing>
    ensures { result ≡ extract_cell x (cells_of seen.now) s.now }
{
    match x {
        Operand::Absent => Err(Missing::NoAddress),
        Operand::Imm(w) => Ok(memory::word_cell(w)),
        Operand::Register(r) => Ok(registers::get_reg(s, r)),
        Operand::Dir(_) | Operand::Ind(_) | Operand::Idx(_, _) => {
            cell_there(seen, resolve(s, x))
        }
    }
}

// The operand's cell.
#[tactic(auto, unfolding(registers::specs::Meaning::res_of, definition::specs::Exec::or_given))]
#[inline(always)]
pub fn cell_of(seen: &Seen<'_>, s: &mut Registers, x: Operand) -> Result<Cell, Error>
    ensures { res_of result (core (cells_of seen.now) s.new) ≡ cell_of x (core (cells_of seen.now) s.old) }
{
    let given = extract_cell(seen, s, x);
    count_base(s, x);
    Ok(given?)
}

// Cell::extract_word: the cell's word, or the error. An empty cell's word is 0, and is counted.
#[tactic(auto, using(word::proofs::Laws::back), unfolding(registers::specs::Meaning::res_of, definition::specs::Exec::or_word, definition::specs::Registers::counted))]
#[inline(always)]
pub fn take_word(s: &mut Registers, v: Cell, error: Error) -> Result<i64, Error>
    ensures { (l : List ℤ) → res_of result (core l s.new) ≡ take_word v error (core l s.old) }
{
    let w = memory::extract_word(v);
    registers::count(s, w);
    match w {
        Word::Is(n) => Ok(n),
        Word::Empty => Ok(0),
        Word::NotWord => Err(error),
    }
}

// Cell::extract_address
#[tactic(auto, using(word::proofs::Laws::back), unfolding(registers::specs::Meaning::res_of, definition::specs::Exec::or_address, definition::specs::Exec::and_then))]
#[inline(always)]
pub fn take_address(s: &mut Registers, v: Cell, error: Error) -> Result<u32, Error>
    ensures { (l : List ℤ) → res_of result (core l s.new) ≡ take_address v error (core l s.old) }
{
    let w = take_word(s, v, error)?;
    word::to_address(w).ok_or(error)
}

// The operand's word.
#[tactic(auto, unfolding(registers::specs::Meaning::res_of, definition::specs::Exec::and_then))]
#[inline(always)]
pub fn word_of(seen: &Seen<'_>, s: &mut Registers, x: Operand) -> Result<i64, Error>
    ensures { res_of result (core (cells_of seen.now) s.new) ≡ word_of x (core (cells_of seen.now) s.old) }
{
    let v = cell_of(seen, s, x)?;
    take_word(s, v, Error::Extract)
}

// The operand's word, a jump's target.
#[tactic(auto, unfolding(registers::specs::Meaning::res_of, definition::specs::Exec::and_then))]
#[inline(always)]
pub fn target_of(seen: &Seen<'_>, s: &mut Registers, x: Operand) -> Result<u32, Error>
    ensures { res_of result (core (cells_of seen.now) s.new) ≡ target_of x (core (cells_of seen.now) s.old) }
{
    let v = cell_of(seen, s, x)?;
    take_address(s, v, Error::Extract)
}

// The word of a register.
#[tactic(auto, unfolding(registers::specs::Meaning::res_of))]
#[inline(always)]
pub fn register_word(s: &mut Registers, r: Reg) -> Result<i64, Error>
    ensures { (l : List ℤ) → res_of result (core l s.new) ≡ register_word r (core l s.old) }
{
    let v = registers::get_reg(s, r);
    take_word(s, v, Error::Extract)
}

// The address that the operand names.
#[tactic(auto, unfolding(registers::specs::Meaning::res_of, definition::specs::Exec::or_address))]
#[inline(always)]
pub fn place_of(s: &mut Registers, x: Operand) -> Result<u32, Error>
    ensures { (l : List ℤ) → res_of result (core l s.new) ≡ place_of x (core l s.old) }
{
    let n = resolve(s, x);
    count_base(s, x);
    n.ok_or(Error::CellError)
}

// A cell read at an address of the machine's own: pc, sp, or where pc and sr are saved.
#[tactic(auto, unfolding(registers::specs::Meaning::res_of, definition::specs::Exec::or_cell))]
#[inline(always)]
pub fn read(seen: &Seen<'_>, n: u32) -> Result<Cell, Error>
    ensures { (s : R.Registers) → res_of result (core (cells_of seen.now) s) ≡ read n InvalidMemoryAccess (core (cells_of seen.now) s) }
{
    memory::read_over(seen.0, seen.1, n).ok_or(Error::InvalidMemoryAccess)
}
