// set register, with a journal: r is C's number, as in calls
ghost use Rattle.std.specs.Prelude.{◌≡◌};
ghost use Rattle.definition.specs.Calls.{called};
ghost use Rattle.definition.specs.Answers.{done_of};
ghost use Rattle.journal.specs.Calls.{set_register_journal};

use definition::answers::Refusal;

pub fn set_register(row: &mut [i64], journal: &mut [i64], r: u64, w: i64) -> Result<(), Refusal>
    ensures { called (done_of result) (row.new, journal.new) ≡ set_register_journal row.old r w journal.old }
{
    if !ring::is_journal(journal) {
        refusals::set_register_check(row, r, w)?;
        return Err(Refusal::Journal);
    }
    calls::register::set_register(row, r, w)?;
    ring::empty(journal);
    Ok(())
}
