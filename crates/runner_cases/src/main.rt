// Puts every case of the files that its arguments name through the runner's own functions and compares whole texts. A case is a line with two
// lengths of seven digits, the input's and the output's, then the input and the output.
#![tactic(auto)]

ghost use Rattle.std.specs.Prelude.{◌≡◌, ◌≤◌, length};
ghost use Rattle.runner_cases.specs.Cases.{digit_of, length_of, case_told, case_of, passing, tally_of, passed_text, verdict_text};

use printing::Text;
use std::env;
use std::fs::File;
use std::os::fd::AsRawFd;

const STDOUT: i32 = 1;

// The cases seen so far, and how many of them gave what is due.
#[derive(Clone, Copy)]
struct Tally {
    seen: u64,
    passed: u64,
}

// A case at the front of a text, and what is behind it.
#[derive(Clone, Copy)]
struct Case<'a> {
    input: &'a [u8],
    due: &'a [u8],
    rest: &'a [u8],
}

// Another byte counts as 0, as the definition of a case has it, so no Option.
#[tactic(auto, unfolding(crate::specs::Cases::digit_of))]
fn digit(b: u8) -> usize
    ensures value { result ≡ digit_of b }
    ensures upper_bound { result ≤ 9 }
{
    match b {
        b'0'..=b'9' => (b - b'0') as usize,
        _ => 0,
    }
}

// The number that seven digits say.
fn number(digits: &[u8]) -> usize
    requires { length digits.now ≡ 7 }
    ensures value { result ≡ length_of digits.now }
    ensures upper_bound { result ≤ 9999999 }
{
    let mut n = 0;
    for b in digits {
        n = n * 10 + digit(*b);
    }
    n
}

// The case at the front, if one stands whole there.
#[tactic(auto, unfolding(crate::specs::Cases::case_of))]
fn first_case(s: &[u8]) -> Option<Case<'_>>
    ensures { case_told result ≡ case_of s.now }
{
    let (line, rest) = s.split_at_checked(16)?;
    let (input, rest) = rest.split_at_checked(number(&line[..7]))?;
    let (due, rest) = rest.split_at_checked(number(&line[8..15]))?;
    Some(Case { input, due, rest })
}

// Whether the runner's text is the one that is due.
#[tactic(auto, unfolding(crate::specs::Cases::passing))]
fn passes(input: &[u8], due: &[u8]) -> bool
    ensures { result ≡ passing input.now due.now }
{
    image_run::report_file(input).out.as_bytes() == due
}

// Says which case, from 1, did not give its text.
fn tell(passed: bool, seen: u64) {
    if !passed {
        io::write_all(STDOUT, b"not as due: case ");
        io::print_decimal(STDOUT, seen);
        io::write_all(STDOUT, b"\n");
    }
}

// None where the text ends within a case. A while, and no iterator: where a case ends its own lengths say, and each that fails is told by its
// number.
fn replay(s: &[u8]) -> Option<Tally>
    ensures { result ≡ tally_of s.now }
{
    let mut rest = s;
    let mut seen: u64 = 0;
    let mut passed: u64 = 0;
    while !rest.is_empty() {
        let case = first_case(rest)?;
        let one = passes(case.input, case.due);
        seen += 1;
        passed += u64::from(one);
        tell(one, seen);
        rest = case.rest;
    }
    Some(Tally { seen, passed })
}

#[tactic(auto, using(printing::proofs::Laws::texts), unfolding(crate::specs::Cases::passed_text))]
fn passed(t: Tally) -> Text<64>
    ensures { result ≡ passed_text t }
{
    let mut text = Text::new();
    text.put(b": passed ");
    text.put_decimal(t.passed);
    text.put(b" of ");
    text.put_decimal(t.seen);
    text.push(b'\n');
    text
}

// What is said of a file.
#[tactic(auto, unfolding(crate::specs::Cases::verdict_text))]
fn verdict(tally: Option<Tally>) -> Text<64>
    ensures { result ≡ verdict_text tally }
{
    if let Some(t) = tally {
        return passed(t);
    }
    let mut text = Text::new();
    text.put(b": ends within a case\n");
    text
}

// Writes the file's name and the verdict. No contract can say what is written: `replay` has the numbers and `verdict` the text.
fn replay_file(rt: &HostRuntime, path: &str) -> std::io::Result<()> {
    let file = match File::open(rt, path) {
        Ok(file) => file,
        Err(e) => return failure::tell(rt.alloc(), path, &e),
    };
    // A file of cases is shorter than this.
    let mut text = [0u8; 65536];
    let n = io::read_full(file.as_raw_fd(), &mut text);
    let said = verdict(replay(&text[..n]));
    io::write_all(STDOUT, path.as_bytes());
    io::write_all(STDOUT, said.as_bytes());
    Ok(())
}

fn main(rt: HostRuntime) -> std::io::Result<()> {
    for path in env::args(&rt)?.skip(1) {
        replay_file(&rt, path.as_str())?;
    }
    Ok(())
}
