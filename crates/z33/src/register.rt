// "set register (row)": "a, b, pc, sp may be set to a word, sr not"
ghost use Rattle.std.specs.Prelude.{◌≡◌};
ghost use Rattle.definition.specs.Calls.{called, set_register};

use definition::Done;

pub fn z33_set_register(row: &mut [i64], r: u64, w: i64) -> Done
    ensures { called result row.new ≡ set_register row.old r w }
{
    calls::register::set_register(row, r, w).into()
}
