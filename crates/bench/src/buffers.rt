// The four lent buffers in equal parts.
ghost use Rattle.std.specs.Prelude.{◌≡◌, ◌+◌, ◌*◌, ◌/◌, ◌<◌, ◌≤◌};
ghost use Rattle.bench.specs.Bench.{seats_fit, part_of};

use std::ops::Range;

// "each in equal parts, seat 1 first": where that of place k, from 0, of n, lies. No struct of the two: k goes over the seats, n stays.
pub fn range(len: usize, n: usize, k: usize) -> Range<usize>
    requires { k < n }
    ensures { (result.start ≡ k * (len / n)) × ((result.end ≡ k * (len / n) + len / n) × (result.end ≤ len)) }
{
    let size = len / n;
    let from = k * size;
    from..from + size
}

// That part.
pub fn part<T>(s: &[T], n: usize, k: usize) -> &[T]
    requires { k < n }
    ensures { result.now ≡ part_of n k s.now }
{
    &s[range(s.len(), n, k)]
}

// "19 seats not 1 to 16, the list not one record a seat, or a buffer not divisible by seats"
#[tactic(auto, unfolding(crate::specs::Bench::seats_fit))]
pub fn seats_fit(
    list: usize,
    cells: usize,
    queues: usize,
    outputs: usize,
    rows: usize,
    seats: u64,
) -> bool
    ensures { result ≡ seats_fit seats list cells queues outputs rows }
{
    if !(1..=16).contains(&seats) {
        return false;
    }
    let n = seats as usize;
    list == n && cells % n == 0 && queues % n == 0 && outputs % n == 0 && rows % n == 0
}
