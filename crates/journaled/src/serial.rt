// deliver and drain, with a journal
ghost use Rattle.std.specs.Prelude.{◌≡◌};
ghost use Rattle.definition.specs.Calls.{called};
ghost use Rattle.definition.specs.Answers.{done_of, drained_of};
ghost use Rattle.journal.specs.Calls.{deliver_journal, drain_journal};

use definition::answers::Refusal;

pub fn deliver(
    queue: &mut [u8],
    row: &mut [i64],
    journal: &mut [i64],
    bytes: &[u8],
) -> Result<(), Refusal>
    ensures { called (done_of result) ((queue.new, row.new), journal.new) ≡ deliver_journal queue.old row.old bytes.now journal.old }
{
    if !ring::is_journal(journal) {
        refusals::deliver_check(queue, row, bytes)?;
        return Err(Refusal::Journal);
    }
    calls::serial::deliver(queue, row, bytes)?;
    ring::empty(journal);
    Ok(())
}

// Answers how many bytes were drained.
pub fn drain(
    output: &[u8],
    row: &mut [i64],
    journal: &mut [i64],
    buffer: &mut [u8],
) -> Result<u64, Refusal>
    ensures { called (drained_of result) ((row.new, buffer.new), journal.new) ≡ drain_journal output.now row.old buffer.old journal.old }
{
    if !ring::is_journal(journal) {
        refusals::drain_check(output, row, buffer)?;
        return Err(Refusal::Journal);
    }
    let n = calls::serial::drain(output, row, buffer)?;
    ring::empty(journal);
    Ok(n)
}
