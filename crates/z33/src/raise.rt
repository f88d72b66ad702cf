// "raise a code (cells, row)": `recover_from_exception` and its one cycle.
ghost use Rattle.std.specs.Prelude.{◌≡◌};
ghost use Rattle.definition.specs.Answers.{raise_of};
ghost use Rattle.definition.specs.Calls.{accepted, called, raise, raise_check};

use definition::{Raised, Stop};
use row::State;

// A raise that isn't refused. One that stops changes nothing.
pub(crate) fn raise_accepted(cells: &mut [i64], row: &mut [i64], code: u64) -> Result<(), Stop>
    requires { accepted ≡ raise_check cells.old row.old code }
    ensures { called (raise_of result) (cells.new, row.new) ≡ raise cells.old row.old code }
{
    let mut m = State::from_row(row);
    runtime::settle::raise(cells, &mut m, code as u32)?;
    row::write_row(row, &m);
    Ok(())
}

pub fn z33_raise(cells: &mut [i64], row: &mut [i64], code: u64) -> Raised
    ensures { called result (cells.new, row.new) ≡ raise cells.old row.old code }
{
    match refusals::raise_check(cells, row, code) {
        Ok(()) => raise_accepted(cells, row, code).into(),
        Err(refusal) => refusal.into(),
    }
}
