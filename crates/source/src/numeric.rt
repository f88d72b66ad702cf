// Lines of four decimal numbers, which the runner took before: refusal 18.
ghost use Rattle.std.specs.Prelude.{◌≡◌};
ghost use Rattle.source.specs.Source.{after_minus, after_number, is_numeric, begins_numeric, line_after, lowest_numeric};

use expression::text::{digits, is_digit};
use lines::line::following_line;

#[tactic(auto, using(crate::proofs::Fronts::fronts), unfolding(crate::specs::Source::after_minus))]
pub fn skip_minus(s: &[u8]) -> &[u8]
    ensures { result.now ≡ after_minus s.now }
{
    match s {
        [b'-', rest @ ..] => rest,
        _ => s,
    }
}

// What stands behind a number; nothing where there is none. No Option: next a comma or a line end is asked for, and an empty rest has neither.
pub fn skip_number(s: &[u8]) -> &[u8]
    ensures { result.now ≡ after_number s.now }
{
    let number = skip_minus(s);
    let [first, ..] = number else {
        return &[];
    };
    if is_digit(*first) {
        digits(number).1
    } else {
        &[]
    }
}

// "a line of four comma-parted decimal numbers, of any size"
pub fn is_numeric(s: &[u8]) -> bool
    ensures { result ≡ is_numeric s.now }
{
    let mut rest = skip_number(s);
    for _comma in 0..3u64 {
        let [b',', next @ ..] = rest else {
            return false;
        };
        rest = skip_number(next);
    }
    matches!(rest, [b'\n', ..])
}

// Whether such a line begins here; fresh where a line does.
#[tactic(auto, unfolding(crate::specs::Source::begins_numeric))]
pub fn begins_numeric(fresh: bool, s: &[u8]) -> bool
    ensures { result ≡ begins_numeric fresh s.now }
{
    fresh && is_numeric(s)
}

#[tactic(auto, unfolding(crate::specs::Source::line_after))]
pub fn line_after(b: u8, k: u64) -> u64
    ensures { result ≡ line_after b k }
{
    if b == b'\n' { following_line(k) } else { k }
}

// The lowest such line. By bytes, not by `next_line`: a byte 0 ends a line there, and none here.
pub fn lowest_numeric(s: &[u8]) -> Option<u64>
    ensures { result ≡ lowest_numeric s.now }
{
    let mut k = 1;
    let mut fresh = true;
    let mut rest = s;
    while let [b, next @ ..] = rest {
        if begins_numeric(fresh, rest) {
            return Some(k);
        }
        k = line_after(*b, k);
        fresh = *b == b'\n';
        rest = next;
    }
    None
}
