// The row of 20 numbers (document 01, "Cells and row"; document 02, Cards 5 and 14): its length, and where each number or cell begins, from 0.

pub const ROW: usize = 20;

pub const A: usize = 0;

pub const B: usize = 3;

pub const PC: usize = 6;

pub const SP: usize = 7;

pub const SR: usize = 8;

pub const CYCLES: usize = 9;

pub const ENABLE: usize = 10;

pub const FLAG: usize = 11;

pub const PENDING: usize = 12;

pub const START: usize = 13;

pub const COUNT: usize = 14;

pub const WRITTEN: usize = 15;

pub const FENCE: usize = 16;

pub const INTERVAL: usize = 17;

pub const REMAINING: usize = 18;

pub const MARK: usize = 19;

// The same places as a refusal names them, from 1: the definition's ROW-A to ROW-MARK. No refusal names sr.

pub const ROW_A: u64 = A as u64 + 1;

pub const ROW_B: u64 = B as u64 + 1;

pub const ROW_PC: u64 = PC as u64 + 1;

pub const ROW_SP: u64 = SP as u64 + 1;

pub const ROW_CYCLES: u64 = CYCLES as u64 + 1;

pub const ROW_ENABLE: u64 = ENABLE as u64 + 1;

pub const ROW_FLAG: u64 = FLAG as u64 + 1;

pub const ROW_PENDING: u64 = PENDING as u64 + 1;

pub const ROW_START: u64 = START as u64 + 1;

pub const ROW_COUNT: u64 = COUNT as u64 + 1;

pub const ROW_WRITTEN: u64 = WRITTEN as u64 + 1;

pub const ROW_FENCE: u64 = FENCE as u64 + 1;

pub const ROW_INTERVAL: u64 = INTERVAL as u64 + 1;

pub const ROW_REMAINING: u64 = REMAINING as u64 + 1;

pub const ROW_MARK: u64 = MARK as u64 + 1;
