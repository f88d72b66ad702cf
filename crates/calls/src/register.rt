// "set register (row)": "a, b, pc, sp may be set to a word, sr not"
ghost use Rattle.std.specs.Prelude.{◌≡◌, length};
ghost use Rattle.definition.specs.Constants.{ROW};
ghost use Rattle.definition.specs.Calls.{called, set_register, with_register};
ghost use Rattle.definition.specs.Answers.{done_of};

use definition::answers::Refusal;
use definition::places;

// r is C's number: of 0 to 3, once set_register_check has let it pass.
pub fn put_register(row: &mut [i64], r: u64, w: i64)
    requires { length row.old ≡ ROW }
    ensures { row.new ≡ with_register r w row.old }
{
    let v = memory::word_cell(w);
    match r {
        0 => memory::cell_into(row, places::A, v),
        1 => memory::cell_into(row, places::B, v),
        2 => row[places::PC] = w,
        _ => row[places::SP] = w,
    }
}

pub fn set_register(row: &mut [i64], r: u64, w: i64) -> Result<(), Refusal>
    ensures { called (done_of result) row.new ≡ set_register row.old r w }
{
    refusals::set_register_check(row, r, w)?;
    put_register(row, r, w);
    Ok(())
}
