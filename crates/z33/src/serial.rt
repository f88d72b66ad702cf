// "deliver (queue, row), drain (output, row)"
ghost use Rattle.std.specs.Prelude.{◌≡◌};
ghost use Rattle.definition.specs.Calls.{called, deliver, drain};

use definition::{Done, Drained};

pub fn z33_deliver(queue: &mut [u8], row: &mut [i64], bytes: &[u8]) -> Done
    ensures { called result (queue.new, row.new) ≡ deliver queue.old row.old bytes.now }
{
    calls::serial::deliver(queue, row, bytes).into()
}

pub fn z33_drain(output: &[u8], row: &mut [i64], buffer: &mut [u8]) -> Drained
    ensures { called result (row.new, buffer.new) ≡ drain output.now row.old buffer.old }
{
    calls::serial::drain(output, row, buffer).into()
}
