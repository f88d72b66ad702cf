// "Cells and row": decoding an instruction's tag, its cost, and which cells are damaged.
#![tactic(auto)]

pub mod forms;

ghost use Rattle.std.specs.Prelude.{◌≡◌, true, ◌&&◌, ◌+◌, ◌*◌, ◌/◌, ◌%◌, ◌<◌, pos, length};
ghost use Rattle.std.specs.Int.Signed.{lt_z};
ghost use Rattle.definition.specs.Encoding.{legal, op_at, op_number, mode₁, mode₂, decode, register_fits, number_fits, sound_instruction, sound};
ghost use Rattle.definition.specs.Registers.{reg_at};
ghost use Rattle.definition.specs.Arguments.{operand};
ghost use Rattle.encoding.specs.Code.{instruction_of};
ghost use Rattle.encoding.specs.Damaged.{damaged};

use definition::{Cell, Instruction, Op, Operand, Reg};

// The place of a form among the 1,188, op * 36 + m1 * 6 + m2, of a tag less 2.
// Each step takes a tag apart: here and below a product and a shift, exact for numbers this small, replace a division, which takes about twice the instructions.
// Four functions and no const parameter: factor, shift and bound are proved for each divisor.
fn place(t: u32) -> u32
    requires { t < 29700 }
    ensures { result ≡ t / 25 }
{
    (t * 5243) >> 17
}

// The operation of a place.
fn op_of(k: u32) -> u32
    requires { k < 1188 }
    ensures { result ≡ k / 36 }
{
    (k * 1821) >> 16
}

// The first mode of m1 * 6 + m2.
fn sixth(m: u32) -> u32
    requires { m < 36 }
    ensures { result ≡ m / 6 }
{
    (m * 43) >> 8
}

// The first register of r1 * 5 + r2.
fn fifth(r: u32) -> u32
    requires { r < 25 }
    ensures { result ≡ r / 5 }
{
    (r * 52) >> 8
}

// "op is 0 to 32 in the order of `Instruction`". No TryFrom here and in the next two: a digit of a tag is one's number, so nothing fails.
#[tactic(auto, unfolding(definition::specs::Encoding::op_at))]
fn op_at(n: u32) -> Op
    ensures { result ≡ op_at n }
{
    match n {
        0 => Op::Add,
        1 => Op::And,
        2 => Op::Call,
        3 => Op::Cmp,
        4 => Op::Div,
        5 => Op::Fas,
        6 => Op::In,
        7 => Op::Jmp,
        8 => Op::Jeq,
        9 => Op::Jne,
        10 => Op::Jle,
        11 => Op::Jlt,
        12 => Op::Jge,
        13 => Op::Jgt,
        14 => Op::Ld,
        15 => Op::Mul,
        16 => Op::Neg,
        17 => Op::Nop,
        18 => Op::Not,
        19 => Op::Or,
        20 => Op::Out,
        21 => Op::Pop,
        22 => Op::Push,
        23 => Op::Reset,
        24 => Op::Rti,
        25 => Op::Rtn,
        26 => Op::Shl,
        27 => Op::Shr,
        28 => Op::St,
        29 => Op::Sub,
        30 => Op::Swap,
        31 => Op::Trap,
        32 => Op::Xor,
        _ => Op::Trap,
    }
}

// "registers: 0 a, 1 b, 2 pc, 3 sp, 4 sr"
#[tactic(auto, unfolding(definition::specs::Registers::reg_at))]
fn reg_at(r: u32) -> Reg
    ensures { result ≡ reg_at r }
{
    match r {
        1 => Reg::B,
        2 => Reg::PC,
        3 => Reg::SP,
        4 => Reg::SR,
        _ => Reg::A,
    }
}

// "modes: 0 none, 1 immediate, 2 register, 3 direct, 4 indirect, 5 indexed"
#[tactic(auto, unfolding(definition::specs::Arguments::operand))]
fn operand(m: u32, r: u32, w: i64) -> Operand
    ensures { result ≡ operand m r w }
{
    match m {
        1 => Operand::Imm(w),
        2 => Operand::Register(reg_at(r)),
        3 => Operand::Dir(w),
        4 => Operand::Ind(reg_at(r)),
        5 => Operand::Idx(reg_at(r), w),
        _ => Operand::Absent,
    }
}

// The digits of an instruction's tag: both registers are r, r1 * 5 + r2.
#[derive(Clone, Copy)]
struct Digits {
    op: u32,
    m1: u32,
    m2: u32,
    r: u32,
}

// Those of t, a tag less 2.
fn taken_apart(t: u32) -> Digits
    requires { t < 29700 }
    ensures { result ≡ record { op = op_number t; m1 = mode₁ t; m2 = mode₂ t; r = t % 25 } }
{
    let k = place(t);
    let op = op_of(k);
    let m = k - 36 * op;
    let m1 = sixth(m);
    Digits {
        op,
        m1,
        m2: m - 6 * m1,
        r: t - 25 * k,
    }
}

// An instruction's cell taken apart. What its numbers say is made where it is asked for: a step needs an operand or two of it, and a register.
#[derive(Clone, Copy)]
pub struct Code {
    pub op: Op,
    pub m1: u32,
    pub m2: u32,
    pub r1: u32,
    pub r2: u32,
    pub first: i64,
    pub second: i64,
    pub cycles: u64,
}

impl Code {
    #[tactic(auto, using(word::proofs::Laws::back))]
    #[inline(always)]
    pub fn x(&self) -> Operand
        ensures { result ≡ (instruction_of self.now).x }
    {
        operand(self.m1, self.r1, self.first)
    }

    #[tactic(auto, using(word::proofs::Laws::back))]
    #[inline(always)]
    pub fn y(&self) -> Operand
        ensures { result ≡ (instruction_of self.now).y }
    {
        operand(self.m2, self.r2, self.second)
    }

    #[inline(always)]
    pub fn r1(&self) -> Reg
        ensures { result ≡ (instruction_of self.now).r1 }
    {
        reg_at(self.r1)
    }

    #[inline(always)]
    pub fn r2(&self) -> Reg
        ensures { result ≡ (instruction_of self.now).r2 }
    {
        reg_at(self.r2)
    }

    #[inline(always)]
    pub fn instruction(&self) -> Instruction
        ensures { result ≡ instruction_of self.now }
    {
        Instruction {
            op: self.op,
            x: self.x(),
            y: self.y(),
            r1: self.r1(),
            r2: self.r2(),
            cycles: self.cycles,
        }
    }
}

// The cell whose tag less 2 is t.
#[inline(always)]
pub fn code_of(t: u32, first: i64, second: i64) -> Code
    requires { (t < 29700) × (legal (op_number t) (mode₁ t) (mode₂ t) ≡ true) }
    ensures { instruction_of result ≡ decode t first second }
{
    let tag = taken_apart(t);
    let r1 = fifth(tag.r);
    Code {
        op: op_at(tag.op),
        m1: tag.m1,
        m2: tag.m2,
        r1,
        r2: tag.r - 5 * r1,
        first,
        second,
        cycles: forms::cost_of(tag.op, tag.m1, tag.m2),
    }
}

// What t, an instruction's tag less 2, says of the instruction.
#[inline(always)]
pub fn decode(t: u32, first: i64, second: i64) -> Instruction
    requires { (t < 29700) × (legal (op_number t) (mode₁ t) (mode₂ t) ≡ true) }
    ensures { result ≡ decode t first second }
{
    code_of(t, first, second).instruction()
}

// "r is 0 where the mode has no register"
#[tactic(auto, unfolding(definition::specs::Encoding::register_fits))]
pub fn register_fits(m: u32, r: u32) -> bool
    ensures { result ≡ register_fits m r }
{
    (r == 0) | ((m == 2) | (4 <= m))
}

// "First and second hold the operands' numbers, 0 where the mode has none; a direct one is an address." No match on the mode: the acceptance
// test of 10,000 instructions then takes 60 µs in place of 53.
pub fn number_fits(m: u32, w: i64) -> bool
    ensures { result ≡ number_fits m w }
{
    if (w == 0) | ((m == 1) | (m == 5)) {
        return true;
    }
    (m == 3) & word::is_address(w)
}

// Do the registers, r = r1 * 5 + r2, and the numbers fit the modes? Both parts of r are only compared with 0, which takes no division.
fn operands_fit(m1: u32, m2: u32, r: u32, first: i64, second: i64) -> bool
    ensures { result ≡ ((register_fits m1 (r / 5) && register_fits m2 (r % 5)) && (number_fits m1 first && number_fits m2 second)) }
{
    register_fits(m1, r / 5)
        && register_fits(m2, r % 5)
        && number_fits(m1, first)
        && number_fits(m2, second)
}

#[tactic(auto, using(word::proofs::Laws::back), unfolding(definition::specs::Encoding::sound_instruction))]
pub fn sound_instruction(t: u32, first: i64, second: i64) -> bool
    requires { t < 29700 }
    ensures { result ≡ sound_instruction t first second }
{
    let tag = taken_apart(t);
    forms::is_legal(tag.op, tag.m1, tag.m2) && operands_fit(tag.m1, tag.m2, tag.r, first, second)
}

// Empty, a word or an instruction: "Anything else is damaged." In line, so that a call's acceptance test copies no cell.
#[inline(always)]
pub fn is_sound(v: Cell) -> bool
    ensures { result ≡ sound v }
{
    match v.tag {
        0 => v.first == 0 && v.second == 0,
        1 => v.second == 0,
        2..=29701 => sound_instruction((v.tag - 2) as u32, v.first, v.second),
        _ => false,
    }
}

// The lowest address of a damaged cell.
pub fn lowest_damaged(cells: &[i64]) -> Option<usize>
    ensures { result ≡ damaged cells.now }
{
    (0..cells.len() / 3).find(|n| !is_sound(memory::get_cell(cells, *n)))
}
