// registers.rs, and Computer::set_register of mod.rs, on registers changed in place: where a value is refused they are as they were.
#![tactic(auto)]

ghost use Rattle.std.specs.Prelude.{◌≡◌, ◌<◌};
ghost use Rattle.definition.specs.Word.{bit};
ghost use Rattle.definition.specs.Memory.{as_address};
ghost use Rattle.definition.specs.Registers.{get_reg, put_reg, put_sr, put_flag, supervisor, interrupt_enable, counted};
ghost use Rattle.definition.specs.Exec.{below};
ghost use Rattle.registers.specs.Meaning.{flag_bit, settled, addressed};

use definition::{Cell, Error, Reg, Registers, Word};
use memory::Write;

// What a step has done to the core so far: the registers, and the one cell write that waits. Cells and guard are lent beside it: were they fields,
// each contract would have to say that they stay.
#[derive(Clone, Copy)]
pub struct Plan {
    pub s: Registers,
    pub write: Option<Write>,
}

// The flags of sr, as StatusRegister names them.
#[derive(Clone, Copy)]
pub enum Flag {
    Zero,
    Negative,
    Overflow,
    InterruptEnable,
    Supervisor,
}

impl Flag {
    #[inline(always)]
    fn bit(self) -> u64
        ensures value { result ≡ flag_bit self }
        ensures word { result < 64 }
    {
        match self {
            Flag::Zero => 1,
            Flag::Negative => 2,
            Flag::Overflow => 3,
            Flag::InterruptEnable => 8,
            Flag::Supervisor => 9,
        }
    }
}

// StatusRegister::contains
#[inline(always)]
pub fn get_flag(s: &Registers, f: Flag) -> bool
    ensures { result ≡ bit (flag_bit f) s.now.sr }
{
    word::test_bit(s.sr, f.bit())
}

#[tactic(auto, unfolding(definition::specs::Registers::supervisor))]
#[inline(always)]
pub fn supervisor(s: &Registers) -> bool
    ensures { result ≡ supervisor s.now }
{
    get_flag(s, Flag::Supervisor)
}

#[tactic(auto, unfolding(definition::specs::Registers::interrupt_enable))]
#[inline(always)]
pub fn interrupt_enable(s: &Registers) -> bool
    ensures { result ≡ interrupt_enable s.now }
{
    get_flag(s, Flag::InterruptEnable)
}

// StatusRegister::set
#[inline(always)]
pub fn put_flag(s: &mut Registers, f: Flag, on: bool)
    ensures { s.new ≡ put_flag (flag_bit f) on s.old }
{
    s.sr = word::put_bit(s.sr, f.bit(), on);
}

// "sp 0 less 1 wraps to 4,294,967,295"
#[tactic(auto, unfolding(definition::specs::Exec::below))]
pub fn below(sp: u32) -> u32
    ensures { result ≡ below sp }
{
    sp.wrapping_sub(1)
}

// Registers::get
#[tactic(auto, using(word::proofs::Laws::back), unfolding(definition::specs::Registers::get_reg))]
#[inline(always)]
pub fn get_reg(s: &Registers, r: Reg) -> Cell
    ensures { result ≡ get_reg r s.now }
{
    match r {
        Reg::A => s.a,
        Reg::B => s.b,
        Reg::PC => memory::address_cell(s.pc),
        Reg::SP => memory::address_cell(s.sp),
        Reg::SR => memory::word_cell(s.sr),
    }
}

// The word is taken: an empty cell's is counted, here alone.
#[tactic(auto, unfolding(definition::specs::Registers::counted))]
#[inline(always)]
pub fn count(s: &mut Registers, w: Word)
    ensures { s.new ≡ counted w s.old }
{
    if let Word::Empty = w {
        s.empties = word::total(s.empties, 1);
    }
}

// The address that pc or sp takes, or else its error.
#[tactic(auto, unfolding(definition::specs::Registers::counted))]
#[inline(always)]
fn taken_address(s: &mut Registers, w: Word, error: Error) -> Result<u32, Error>
    ensures { (result, s.new) ≡ addressed s.old (as_address w) (counted w s.old) error }
{
    let n = memory::as_address(w).ok_or(error)?;
    count(s, w);
    Ok(n)
}

// "Writing sr with S clear raises code 3, whatever the value."
#[tactic(auto, using(word::proofs::Laws::back), unfolding(definition::specs::Registers::put_sr, definition::specs::Registers::counted))]
#[inline(always)]
fn put_sr(s: &mut Registers, w: Word) -> Result<(), Error>
    ensures { (result, s.new) ≡ settled s.old (put_sr (supervisor s.old) w (counted w s.old)) }
{
    if !supervisor(s) {
        return Err(Error::PrivilegedInstruction);
    }
    let sr = match w {
        Word::Is(n) => n,
        Word::Empty => 0,
        Word::NotWord => return Err(Error::InvalidSr),
    };
    count(s, w);
    s.sr = sr;
    Ok(())
}

// Computer::set_register
#[tactic(auto, unfolding(definition::specs::Registers::put_reg, definition::specs::Registers::put_pc, definition::specs::Registers::put_sp, definition::specs::Registers::counted, definition::specs::Memory::extract_address))]
#[inline(always)]
pub fn put_reg(s: &mut Registers, r: Reg, v: Cell) -> Result<(), Error>
    ensures { (result, s.new) ≡ settled s.old (put_reg r v s.old) }
{
    match r {
        Reg::A => s.a = v,
        Reg::B => s.b = v,
        Reg::PC => s.pc = taken_address(s, memory::extract_word(v), Error::InvalidPc)?,
        Reg::SP => s.sp = taken_address(s, memory::extract_word(v), Error::InvalidSp)?,
        Reg::SR => put_sr(s, memory::extract_word(v))?,
    }
    Ok(())
}
