// The names of operations and of registers.
ghost use Rattle.std.specs.Prelude.{◌≡◌};
ghost use Rattle.listing.specs.Names.{mnemonic, register};

use definition::{Op, Reg};
use line::names::{MNEMONICS, REGISTERS};

pub fn mnemonic(op: Op) -> &'static [u8]
    ensures { result.now ≡ mnemonic op }
{
    MNEMONICS[op as usize]
}

pub fn register(r: Reg) -> &'static [u8]
    ensures { result.now ≡ register r }
{
    REGISTERS[r as usize]
}
