// What is done with one seat's parts of the four lent buffers: they are checked before the first turn, and run in the seat's turns.
#![tactic(auto)]

ghost use Rattle.std.specs.Prelude.{◌≡◌, ◌<◌};
ghost use Rattle.definition.specs.Calls.{called, lent, run_check};
ghost use Rattle.definition.specs.Answers.{done_of};
ghost use Rattle.definition.specs.UserMode.{Accepted};
ghost use Rattle.bench.specs.Refused.{checked_of};
ghost use Rattle.bench.specs.Bench.{machine_at, machines, seat_by_seat, bench_check};
ghost use Rattle.bench.specs.Turn.{turn_at};
ghost use Rattle.seats.specs.Meaning.{lent_of, AreSame, ran_at};

use bench::buffers::{part, range, seats_fit};
use bench::{Refused, Seat};
use definition::Ran;
use definition::answers::Refusal;

// "Four lent buffers hold the cells, rows, queues and outputs of 1 to 16 seats".
#[derive(Drop)]
pub struct Buffers<'a> {
    pub cells: &'a mut [i64],
    pub queues: &'a mut [u8],
    pub outputs: &'a mut [u8],
    pub rows: &'a mut [i64],
}

// "places within the seat", which is at place k of n. No struct of the two, nor n in Buffers: k
// goes over the seats, and the buffers stand before n is known to be 1 to 16. Nor are the four
// slices of a check Buffers, which are lent mutably: a check only reads, and takes shared ones.
pub fn seat_check(
    cells: &[i64],
    queues: &[u8],
    outputs: &[u8],
    rows: &[i64],
    n: usize,
    k: usize,
) -> Result<(), Refusal>
    requires { k < n }
    ensures { done_of result ≡ run_check (machine_at n k (lent cells.now queues.now outputs.now rows.now)) }
{
    refusals::run_check(
        part(cells, n, k),
        part(queues, n, k),
        part(outputs, n, k),
        part(rows, n, k),
    )
}

// "The others are then checked seat by seat, lowest first".
pub fn seats_check(
    cells: &[i64],
    queues: &[u8],
    outputs: &[u8],
    rows: &[i64],
    n: usize,
) -> Result<(), Refused>
    ensures { checked_of result ≡ seat_by_seat 1 (machines n n 0 (lent cells.now queues.now outputs.now rows.now)) }
{
    for k in 0..n {
        seat_check(cells, queues, outputs, rows, n, k).map_err(|e| Refused::Machine(
            k as u64 + 1,
            e,
        ))?;
    }
    Ok(())
}

// 19 first: without it there are no parts.
#[tactic(auto, unfolding(bench::specs::Bench::bench_check))]
pub fn bench_check(
    list: usize,
    cells: &[i64],
    queues: &[u8],
    outputs: &[u8],
    rows: &[i64],
    seats: u64,
) -> Result<(), Refused>
    ensures { checked_of result ≡ bench_check seats list (lent cells.now queues.now outputs.now rows.now) }
{
    let fit = seats_fit(
        list,
        cells.len(),
        queues.len(),
        outputs.len(),
        rows.len(),
        seats,
    );
    if !fit {
        return Err(Refused::Seats);
    }
    seats_check(cells, queues, outputs, rows, seats as usize)
}

impl Buffers<'_> {
    // The checks of what is lent, here and in the next two.
    pub fn seat_check(&self, n: usize, k: usize) -> Result<(), Refusal>
        requires { k < n }
        ensures { done_of result ≡ run_check (machine_at n k (lent_of self.now)) }
    {
        seat_check(self.cells, self.queues, self.outputs, self.rows, n, k)
    }

    pub fn seats_check(&self, n: usize) -> Result<(), Refused>
        ensures { checked_of result ≡ seat_by_seat 1 (machines n n 0 (lent_of self.now)) }
    {
        seats_check(self.cells, self.queues, self.outputs, self.rows, n)
    }

    pub fn bench_check(&self, list: usize, seats: u64) -> Result<(), Refused>
        ensures { checked_of result ≡ bench_check seats list (lent_of self.now) }
    {
        bench_check(
            list,
            self.cells,
            self.queues,
            self.outputs,
            self.rows,
            seats,
        )
    }

    // A run of the machine at place k of n.
    fn run_at(&mut self, n: usize, k: usize, budget: u64) -> Ran
        requires { (k < n) × Accepted (machine_at n k (lent_of self.old)) }
        ensures same { AreSame self.old self.new }
        ensures is { called result (lent_of self.new) ≡ ran_at n k budget (lent_of self.old) }
    {
        let c = range(self.cells.len(), n, k);
        let q = range(self.queues.len(), n, k);
        let o = range(self.outputs.len(), n, k);
        let r = range(self.rows.len(), n, k);
        machine::run(
            &mut self.cells[c],
            &mut self.queues[q],
            &mut self.outputs[o],
            &mut self.rows[r],
            budget,
        )
    }

    // "each a run on the least of 100, its limit's rest and the total's", if it is the seat's turn: the steps that it takes off the total.
    pub fn turn(&mut self, seat: &mut Seat, n: usize, k: usize, left: u64) -> u64
        requires { (k < n) × Accepted (machine_at n k (lent_of self.old)) }
        ensures same { AreSame self.old self.new }
        ensures is { called result (seat.new, lent_of self.new) ≡ turn_at n k left seat.old (lent_of self.old) }
    {
        if left == 0 || !seat.can_go_on() {
            return 0;
        }
        let ran = self.run_at(n, k, seat.turn_budget(left));
        seat.update(ran.steps, ran.stop as u32);
        ran.steps
    }
}
