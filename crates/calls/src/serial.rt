// "deliver (queue, row), drain (output, row)"
ghost use Rattle.std.specs.Prelude.{◌≡◌, ◌+◌, ◌≤◌};
ghost use Rattle.definition.specs.Constants.{ROW-START, ROW-COUNT};
ghost use Rattle.definition.specs.Io.{around};
ghost use Rattle.definition.specs.Calls.{called, deliver, drain, number_of_row};
ghost use Rattle.definition.specs.Accepted.{RowFits};
ghost use Rattle.definition.specs.Answers.{done_of, drained_of};

use definition::answers::Refusal;
use definition::places;

// Where the first delivered byte goes: behind the unread ones, in a queue of q places.
pub fn first_free(row: &[i64], q: usize) -> usize
    requires { (q ≤ 4096) × RowFits q 65536 10000 row.now }
    ensures { result ≡ around q (number_of_row ROW-START row.now + number_of_row ROW-COUNT row.now) }
{
    let start = row::number_at(row, places::START) as usize;
    let count = row::number_at(row, places::COUNT) as usize;
    console::around(q, start + count)
}

pub fn deliver(queue: &mut [u8], row: &mut [i64], bytes: &[u8]) -> Result<(), Refusal>
    ensures { called (done_of result) (queue.new, row.new) ≡ deliver queue.old row.old bytes.now }
{
    refusals::deliver_check(queue, row, bytes)?;
    let at = first_free(row, queue.len());
    console::put_bytes(queue, at, bytes);
    row::put_delivered(row, bytes.len());
    Ok(())
}

// Answers how many bytes were drained.
pub fn drain(output: &[u8], row: &mut [i64], buffer: &mut [u8]) -> Result<u64, Refusal>
    ensures { called (drained_of result) (row.new, buffer.new) ≡ drain output.now row.old buffer.old }
{
    refusals::drain_check(output, row, buffer)?;
    let n = row::number_at(row, places::WRITTEN);
    console::drain_to(buffer, output, n as usize);
    row[places::WRITTEN] = 0;
    Ok(n)
}
