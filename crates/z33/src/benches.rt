// "One bench, sixteen seats": the calls on a bench's list.
ghost use Rattle.std.specs.Prelude.{◌≡◌};
ghost use Rattle.definition.specs.Calls.{called, lent};
ghost use Rattle.bench.specs.Bench.{bench_call};

use bench::{Benched, Seat};
use seats::Buffers;

// "A whole class runs under one step total. [...] The answer is what is left of the total." The tests are made, and turns are taken until the total is
// spent or nobody can go on. The list stays lent.
pub fn z33_bench(
    list: &mut [Seat],
    cells: &mut [i64],
    queues: &mut [u8],
    outputs: &mut [u8],
    rows: &mut [i64],
    seats: u64,
    total: u64,
) -> Benched
    ensures { called result (list.new, lent cells.new queues.new outputs.new rows.new) ≡ bench_call seats total list.old (lent cells.old queues.old outputs.old rows.old) }
{
    let mut buffers = Buffers {
        cells,
        queues,
        outputs,
        rows,
    };
    turns::run(list, &mut buffers, seats, total).into()
}

// "A bench record stored in 32 bits is taken over with every number equal."
pub fn z33_take_over(limit: u32, used: u32, stop: u32) -> Seat
    ensures { result ≡ record { limit = limit; used = used; stop = stop } }
{
    bench::take_over(limit, used, stop)
}
