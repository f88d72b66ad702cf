// fresh, with a journal: it "tests its length only"
ghost use Rattle.std.specs.Prelude.{◌≡◌};
ghost use Rattle.definition.specs.Calls.{called};
ghost use Rattle.definition.specs.Answers.{done_of};
ghost use Rattle.journal.specs.Calls.{fresh_journal};

use definition::answers::Refusal;

pub fn fresh(cells: &mut [i64], row: &mut [i64], journal: &mut [i64]) -> Result<(), Refusal>
    ensures { called (done_of result) ((cells.new, row.new), journal.new) ≡ fresh_journal cells.old row.old journal.old }
{
    if !ring::is_whole(journal) {
        refusals::fresh_check(cells, row)?;
        return Err(Refusal::Journal);
    }
    calls::fresh::fresh(cells, row)?;
    ring::make(journal);
    Ok(())
}
