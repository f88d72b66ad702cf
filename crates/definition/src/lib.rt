// The types and the places that the definition and the code share, declared once.
#![tactic(auto)]

pub mod answers;
pub mod errors;
pub mod places;
pub mod stops;

// Three numbers (document 01, "Cells and row"): empty is 0,0,0, word w is 1,w,0, an instruction has a tag of 2 or more.
#[derive(Clone, Copy)]
pub struct Cell {
    pub tag: i64,
    pub first: i64,
    pub second: i64,
}

// The five registers, as in registers.rs, and beside them the count of empty reads of the step that is under way.
#[derive(Clone, Copy)]
pub struct Registers {
    pub a: Cell,
    pub b: Cell,
    pub pc: u32,
    pub sp: u32,
    pub sr: i64,
    // No register: how many of the words that the step has taken so far were an empty cell's. Each step begins at 0.
    pub empties: u64,
}

// The console's three marks (document 01's word): in io.rs irq_on_ready, interrupt_flag and pending_irq.
#[derive(Clone, Copy)]
pub struct Marks {
    pub enable: bool,
    pub flag: bool,
    pub pending: bool,
}

// The timer: its interval, what remains of it, and its mark. Off is an interval of 0 and no Option, since the row and port 120 hold it so.
// That both numbers are below 2^63 is asked by contracts (`TimerIn`) and no ghost field: the definition's machine has timers of any numbers.
#[derive(Clone, Copy)]
pub struct Timer {
    pub interval: u64,
    pub remaining: u64,
    pub mark: bool,
}

// The word that a cell gives, if it does. Empty reads as word 0, and is told apart: no Option, since an empty cell's word is counted.
#[derive(Clone, Copy)]
pub enum Word {
    Is(i64),
    Empty,
    NotWord,
}

// Why an operand gives no cell: its address is outside the cells, or it has no address.
#[derive(Clone, Copy)]
pub enum Missing {
    OutsideCells,
    NoAddress,
}

// A result wrapped at 64 bits, and whether it had to be. No Option: it is put all the same, and V is set beside it.
#[derive(Clone, Copy)]
pub struct Wrapped {
    pub value: i64,
    pub overflow: bool,
}

// What ends an instruction early: `ProcessorError` of mod.rs, its exceptions and its registers spelled out.
#[derive(Clone, Copy)]
pub enum Error {
    DivByZero,
    InvalidInstruction,
    PrivilegedInstruction,
    Trap,
    InvalidMemoryAccess,
    CellError,
    Extract,
    InvalidPc,
    InvalidSp,
    InvalidSr,
    Reset,
}

// What ends a step: exception entry with a code, or a stop. The code is a number: cell 102 and C hold it so, a raise is given one, and only 0
// is told apart.
#[derive(Clone, Copy)]
pub enum Ending {
    Exception(u32),
    Stops(Stop),
}

// Why a step stops, 1 to 7 of "Stops".
#[derive(Clone, Copy, Debug, PartialEq, Eq)]
pub enum Stop {
    Reset,
    // The exception's code.
    NoHandler(u32),
    CellError,
    Extract,
    InvalidRegister(Reg),
    OutputFull,
    CyclesFull,
}

// Reg of registers.rs.
#[derive(Clone, Copy, Debug, PartialEq, Eq)]
pub enum Reg {
    A,
    B,
    PC,
    SP,
    SR,
}

// An operand: the types of arguments.rs in one. Absent is one of the tag's six modes, so no Option.
#[derive(Clone, Copy)]
pub enum Operand {
    Absent,
    Imm(i64),
    Register(Reg),
    Dir(i64),
    Ind(Reg),
    Idx(Reg, i64),
}

// "op is 0 to 32 in the order of `Instruction`"
#[derive(Clone, Copy)]
pub enum Op {
    Add,
    And,
    Call,
    Cmp,
    Div,
    Fas,
    In,
    Jmp,
    Jeq,
    Jne,
    Jle,
    Jlt,
    Jge,
    Jgt,
    Ld,
    Mul,
    Neg,
    Nop,
    Not,
    Or,
    Out,
    Pop,
    Push,
    Reset,
    Rti,
    Rtn,
    Shl,
    Shr,
    St,
    Sub,
    Swap,
    Trap,
    Xor,
}

// An instruction as it is executed: its operands, the registers that its tag names, and its cost. r1 and r2 are a where it names none: an
// operation that takes one has a register there in each legal form.
#[derive(Clone, Copy)]
pub struct Instruction {
    pub op: Op,
    pub x: Operand,
    pub y: Operand,
    pub r1: Reg,
    pub r2: Reg,
    pub cycles: u64,
}

// What an instruction asks of the console: nothing, a port read into a register, or a word written to a port. No Option of the last two: a
// step serves it by three cases.
#[derive(Clone, Copy)]
pub enum Request {
    Nothing,
    Reads(u32, Reg),
    Writes(u32, i64),
}

// What an executed instruction costs, and what it asks of the console.
#[derive(Clone, Copy)]
pub struct Executed {
    pub cost: u64,
    pub request: Request,
}

// The answers of the calls, as C reads them: a refusal of 0 says that the call was done, and the other fields are 0 where it was refused.
#[repr(C)]
#[derive(Clone, Copy)]
pub struct Done {
    pub refusal: u64,
    pub place: u64,
}

#[repr(C)]
#[derive(Clone, Copy)]
pub struct Ran {
    pub refusal: u64,
    pub place: u64,
    pub stop: u64,
    pub detail: u64,
    pub steps: u64,
    pub empty: u64,
}

#[repr(C)]
#[derive(Clone, Copy)]
pub struct Drained {
    pub refusal: u64,
    pub place: u64,
    pub count: u64,
}

// Of the calls that write as much as there is: how much they wrote. Drained again, since C has a name of its own for each.
#[repr(C)]
#[derive(Clone, Copy)]
pub struct Counted {
    pub refusal: u64,
    pub place: u64,
    pub count: u64,
}

#[repr(C)]
#[derive(Clone, Copy)]
pub struct CellRead {
    pub refusal: u64,
    pub place: u64,
    pub tag: i64,
    pub first: i64,
    pub second: i64,
}

#[repr(C)]
#[derive(Clone, Copy)]
pub struct Raised {
    pub refusal: u64,
    pub place: u64,
    pub stop: u64,
    pub detail: u64,
}
