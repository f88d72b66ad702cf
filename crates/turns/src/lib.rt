// Turn by turn and round by round over a bench's list, which stays a lent slice of records.
#![tactic(auto)]

ghost use Rattle.std.specs.Prelude.{◌≡◌};
ghost use Rattle.definition.specs.Calls.{called};
ghost use Rattle.bench.specs.Refused.{answered};
ghost use Rattle.bench.specs.Bench.{round_of, bench_call};
ghost use Rattle.seats.specs.Meaning.{lent_of, AreSame};
ghost use Rattle.turns.specs.Turn.{lent_bench, IsAccepted};

use bench::{Refused, Seat};
use seats::Buffers;

// "Turns go round from seat 1": one round, and what it leaves of the total.
pub fn round(list: &mut [Seat], buffers: &mut Buffers<'_>, total: u64) -> u64
    requires { IsAccepted list.old (lent_of buffers.old) }
    ensures same { AreSame buffers.old buffers.new }
    ensures is { lent_bench result list.new (lent_of buffers.new) ≡ round_of (lent_bench total list.old (lent_of buffers.old)) }
    ensures accepted { IsAccepted list.new (lent_of buffers.new) }
{
    let n = list.len();
    let mut left = total;
    for (k, seat) in list.iter_mut().enumerate() {
        left -= buffers.turn(seat, n, k, left);
    }
    left
}

// "The answer is what is left of the total": the tests are made, and turns are taken "until the total is spent or nobody can go on".
pub fn run(
    list: &mut [Seat],
    buffers: &mut Buffers<'_>,
    seats: u64,
    total: u64,
) -> Result<u64, Refused>
    ensures same { AreSame buffers.old buffers.new }
    ensures is { called (answered result) (list.new, lent_of buffers.new) ≡ bench_call seats total list.old (lent_of buffers.old) }
{
    buffers.bench_check(list.len(), seats)?;
    let mut left = total;
    while 0 < left && bench::any_can_go_on(list) {
        left = round(list, buffers, left);
    }
    Ok(left)
}
