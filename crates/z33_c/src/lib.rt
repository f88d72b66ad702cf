// The calls on numbers and slices, exported as C functions for the static library: each calls crate z33's function of the same name and states its
// clauses again, since a crate is built as a library or as a static library and not as both. include/z33.h declares them.
#![tactic(auto)]

ghost use Rattle.std.specs.Prelude.{◌≡◌};
ghost use Rattle.definition.specs.Calls.{called, lent, fresh, run_call, deliver, drain, read_cell, load, set_register, raise};
ghost use Rattle.assembly.specs.Assemble.{assemble_call};
ghost use Rattle.listing.specs.Call.{list_call};
ghost use Rattle.exercise.specs.Exercise.{exercise};
ghost use Rattle.bench.specs.Bench.{bench_call};
ghost use Rattle.journal.specs.Calls.{run_journal, fresh_journal, deliver_journal, drain_journal, load_journal, set_register_journal, raise_journal, backward, back};

use bench::{Benched, Seat};
use definition::{CellRead, Counted, Done, Drained, Raised, Ran};

#[unsafe(no_mangle)]
pub extern "C" fn z33_fresh(cells: &mut [i64], row: &mut [i64]) -> Done
    ensures { called result (cells.new, row.new) ≡ fresh cells.old row.old }
{
    z33::fresh::z33_fresh(cells, row)
}

#[unsafe(no_mangle)]
pub extern "C" fn z33_run(
    cells: &mut [i64],
    queue: &mut [u8],
    output: &mut [u8],
    row: &mut [i64],
    budget: u64,
) -> Ran
    ensures { called result (lent cells.new queue.new output.new row.new) ≡ run_call budget (lent cells.old queue.old output.old row.old) }
{
    z33::run::z33_run(cells, queue, output, row, budget)
}

#[unsafe(no_mangle)]
pub extern "C" fn z33_deliver(queue: &mut [u8], row: &mut [i64], bytes: &[u8]) -> Done
    ensures { called result (queue.new, row.new) ≡ deliver queue.old row.old bytes.now }
{
    z33::serial::z33_deliver(queue, row, bytes)
}

#[unsafe(no_mangle)]
pub extern "C" fn z33_drain(output: &[u8], row: &mut [i64], buffer: &mut [u8]) -> Drained
    ensures { called result (row.new, buffer.new) ≡ drain output.now row.old buffer.old }
{
    z33::serial::z33_drain(output, row, buffer)
}

#[unsafe(no_mangle)]
pub extern "C" fn z33_load(cells: &mut [i64], image: &[i64], start: u64) -> Done
    ensures { called result cells.new ≡ load cells.old image.now start }
{
    z33::cells::z33_load(cells, image, start)
}

#[unsafe(no_mangle)]
pub extern "C" fn z33_read_cell(cells: &[i64], address: u64) -> CellRead
    ensures { result ≡ read_cell cells.now address }
{
    z33::cells::z33_read_cell(cells, address)
}

#[unsafe(no_mangle)]
pub extern "C" fn z33_set_register(row: &mut [i64], r: u64, w: i64) -> Done
    ensures { called result row.new ≡ set_register row.old r w }
{
    z33::register::z33_set_register(row, r, w)
}

#[unsafe(no_mangle)]
pub extern "C" fn z33_raise(cells: &mut [i64], row: &mut [i64], code: u64) -> Raised
    ensures { called result (cells.new, row.new) ≡ raise cells.old row.old code }
{
    z33::raise::z33_raise(cells, row, code)
}

#[unsafe(no_mangle)]
pub extern "C" fn z33_assemble(text: &[u8], image: &mut [i64]) -> Counted
    ensures { called result image.new ≡ assemble_call text.now image.old }
{
    z33::text::z33_assemble(text, image)
}

#[unsafe(no_mangle)]
pub extern "C" fn z33_list(image: &[i64], text: &mut [u8], leave: u64) -> Counted
    ensures { called result text.new ≡ list_call leave image.now text.old }
{
    z33::text::z33_list(image, text, leave)
}

#[unsafe(no_mangle)]
pub extern "C" fn z33_exercise(image: &mut [i64], seed: u64) -> Counted
    ensures { called result image.new ≡ exercise image.old seed }
{
    z33::fill::z33_exercise(image, seed)
}

#[unsafe(no_mangle)]
pub extern "C" fn z33_bench(
    list: &mut [Seat],
    cells: &mut [i64],
    queues: &mut [u8],
    outputs: &mut [u8],
    rows: &mut [i64],
    seats: u64,
    total: u64,
) -> Benched
    ensures { called result (list.new, lent cells.new queues.new outputs.new rows.new) ≡ bench_call seats total list.old (lent cells.old queues.old outputs.old rows.old) }
{
    z33::benches::z33_bench(list, cells, queues, outputs, rows, seats, total)
}

#[unsafe(no_mangle)]
pub extern "C" fn z33_take_over(limit: u32, used: u32, stop: u32) -> Seat
    ensures { result ≡ record { limit = limit; used = used; stop = stop } }
{
    z33::benches::z33_take_over(limit, used, stop)
}

#[unsafe(no_mangle)]
pub extern "C" fn z33_fresh_journal(cells: &mut [i64], row: &mut [i64], journal: &mut [i64]) -> Done
    ensures { called result ((cells.new, row.new), journal.new) ≡ fresh_journal cells.old row.old journal.old }
{
    z33::journals::z33_fresh_journal(cells, row, journal)
}

#[unsafe(no_mangle)]
pub extern "C" fn z33_run_journal(
    cells: &mut [i64],
    queue: &mut [u8],
    output: &mut [u8],
    row: &mut [i64],
    journal: &mut [i64],
    budget: u64,
) -> Ran
    ensures { called result (lent cells.new queue.new output.new row.new, journal.new) ≡ run_journal budget (lent cells.old queue.old output.old row.old) journal.old }
{
    z33::journals::z33_run_journal(cells, queue, output, row, journal, budget)
}

#[unsafe(no_mangle)]
pub extern "C" fn z33_deliver_journal(
    queue: &mut [u8],
    row: &mut [i64],
    journal: &mut [i64],
    bytes: &[u8],
) -> Done
    ensures { called result ((queue.new, row.new), journal.new) ≡ deliver_journal queue.old row.old bytes.now journal.old }
{
    z33::journals::z33_deliver_journal(queue, row, journal, bytes)
}

#[unsafe(no_mangle)]
pub extern "C" fn z33_drain_journal(
    output: &[u8],
    row: &mut [i64],
    journal: &mut [i64],
    buffer: &mut [u8],
) -> Drained
    ensures { called result ((row.new, buffer.new), journal.new) ≡ drain_journal output.now row.old buffer.old journal.old }
{
    z33::journals::z33_drain_journal(output, row, journal, buffer)
}

#[unsafe(no_mangle)]
pub extern "C" fn z33_load_journal(
    cells: &mut [i64],
    journal: &mut [i64],
    image: &[i64],
    start: u64,
) -> Done
    ensures { called result (cells.new, journal.new) ≡ load_journal cells.old image.now start journal.old }
{
    z33::journals::z33_load_journal(cells, journal, image, start)
}

#[unsafe(no_mangle)]
pub extern "C" fn z33_set_register_journal(
    row: &mut [i64],
    journal: &mut [i64],
    r: u64,
    w: i64,
) -> Done
    ensures { called result (row.new, journal.new) ≡ set_register_journal row.old r w journal.old }
{
    z33::journals::z33_set_register_journal(row, journal, r, w)
}

#[unsafe(no_mangle)]
pub extern "C" fn z33_raise_journal(
    cells: &mut [i64],
    row: &mut [i64],
    journal: &mut [i64],
    code: u64,
) -> Raised
    ensures { called result ((cells.new, row.new), journal.new) ≡ raise_journal cells.old row.old code journal.old }
{
    z33::journals::z33_raise_journal(cells, row, journal, code)
}

#[unsafe(no_mangle)]
pub extern "C" fn z33_back(cells: &mut [i64], row: &mut [i64], journal: &mut [i64]) -> Done
    ensures { called result (backward cells.new row.new journal.new) ≡ back (backward cells.old row.old journal.old) }
{
    z33::journals::z33_back(cells, row, journal)
}
