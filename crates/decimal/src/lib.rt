// Decimal numbers of 64 bits, a digit at a time: those of programs written as text, of the runner's lines and of the recorded list.
#![tactic(auto)]

ghost use Rattle.std.specs.Prelude.{◌≡◌, ◌<◌, leb};
ghost use Rattle.decimal.specs.Decimal.{cap_step, limit, value_of};

// A digit more; what is larger than every number is 2^63 + 1. No Option: the digits go on, and with a minus 2^63 still is a number.
// d < 10 is asked for here and by both readers, and no type of digits: the arm b'0'..=b'9' that calls them shows it.
pub fn grown(size: u64, d: u8) -> u64
    requires { d < 10 }
    ensures { result ≡ cap_step size d }
{
    if 922337203685477580 < size {
        return 9223372036854775809;
    }
    size * 10 + d as u64
}

pub fn limit_of(minus: bool) -> u64
    ensures { result ≡ limit minus }
{
    if minus {
        9223372036854775808
    } else {
        9223372036854775807
    }
}

// "within 64 bits"; a sign and a size apart: two readers hold the size as an Option, and a third has no struct of the two.
pub fn is_within(minus: bool, size: u64) -> bool
    ensures { result ≡ leb size (limit minus) }
{
    size <= limit_of(minus)
}

pub fn value(minus: bool, size: u64) -> i64
    ensures { result ≡ value_of minus size }
{
    let w = word::of_bits(size);
    if minus {
        let n = word::neg(w);
        return n.value;
    }
    w
}
