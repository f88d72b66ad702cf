// load, with a journal
ghost use Rattle.std.specs.Prelude.{◌≡◌};
ghost use Rattle.definition.specs.Calls.{called};
ghost use Rattle.definition.specs.Answers.{done_of};
ghost use Rattle.journal.specs.Calls.{load_journal};

use definition::answers::Refusal;

pub fn load(
    cells: &mut [i64],
    journal: &mut [i64],
    image: &[i64],
    start: u64,
) -> Result<(), Refusal>
    ensures { called (done_of result) (cells.new, journal.new) ≡ load_journal cells.old image.now start journal.old }
{
    if !ring::is_journal(journal) {
        refusals::load_check(cells, image, start)?;
        return Err(Refusal::Journal);
    }
    calls::cells::load(cells, image, start)?;
    ring::empty(journal);
    Ok(())
}
