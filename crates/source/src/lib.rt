// The runner's file: a start line, then a program written as text, loaded from cell 0.
#![tactic(auto)]

pub mod message;
pub mod numeric;

ghost use Rattle.std.specs.Prelude.{◌≡◌};
ghost use Rattle.definition.specs.Answers.{counted_of};
ghost use Rattle.definition.specs.Calls.{called};
ghost use Rattle.lines.specs.Reader.{opened, within};
ghost use Rattle.source.specs.Source.{bounded, start_end, start_read, refused, is18, judged, assembler_answer, text_judged, loading};

use definition::answers::Refusal;
use definition::{Counted, Done};
use expression::text::split_line;
use lines::line::following_line;
use lines::{Reader, Start};
use printing::Text;

// Why a file is not loaded. No `Refusal`: each of the assembler's places becomes a line of the file, that of 9 too, which has none there.
#[derive(Clone, Copy)]
pub struct Refused {
    pub number: u64,
    pub place: u64,
}

impl From<Refusal> for Refused {
    ghost from_gives = { λ e r. r ≡ refused e };

    fn from(e: Refusal) -> Refused
        ensures { result ≡ refused e }
    {
        Refused {
            number: e.number(),
            place: e.place(),
        }
    }
}

// What became of a file: why it is refused, if it is, and what its start line says, of a refused file too.
#[derive(Clone, Copy)]
pub struct Loaded {
    pub start: Start,
    pub outcome: Result<(), Refused>,
}

// The file as far as it is looked at.
#[tactic(auto, using(printing::proofs::Laws::texts), unfolding(crate::specs::Source::bounded))]
pub fn bounded(file: &[u8]) -> Text<32769>
    ensures { result ≡ bounded file.now }
{
    let mut text = Text::new();
    if 32768 < file.len() {
        text.put(&file[..32768]);
        text.push(0);
    } else {
        text.put(file);
    }
    text
}

// As take_line_end at a first line, which here is all that is read.
#[tactic(auto, unfolding(crate::specs::Source::start_end))]
pub fn end_start(r: &mut Reader)
    ensures { r.new ≡ start_end r.old }
{
    if r.broken {
        return;
    }
    if r.field.magnitude.is_some() && r.count == 3 {
        r.take_start();
    } else {
        r.break_line();
    }
}

// The start line, without its end.
#[tactic(auto, unfolding(crate::specs::Source::start_read))]
pub fn read_start(line: &[u8]) -> Reader
    ensures { result ≡ start_read line.now }
{
    let mut r = Reader::new();
    for b in line {
        r.take_within(*b);
    }
    end_start(&mut r);
    r
}

// "of 13 and 18 the lowest line counts, 18 on a tie". 0 < n holds of every line that is found; the definition asks it of any number.
#[tactic(auto, unfolding(crate::specs::Source::is18))]
pub fn is_18(a: Counted, n: u64) -> bool
    ensures { result ≡ is18 a n }
{
    0 < n && !(a.refusal == 13 && a.place < n)
}

// Lines count from the start line; n is 0 where no line is numeric.
#[tactic(auto, unfolding(crate::specs::Source::judged))]
pub fn judge(a: Counted, n: u64) -> Done
    ensures { result ≡ judged a n }
{
    if is_18(a, n) {
        return Done {
            refusal: 18,
            place: following_line(n),
        };
    }
    if a.refusal == 0 {
        return Done {
            refusal: 0,
            place: 0,
        };
    }
    Done {
        refusal: a.refusal,
        place: following_line(a.place),
    }
}

// Whether this numeric line is what the text is refused for.
pub fn numeric_counts(a: Result<u64, Refusal>, n: u64) -> bool
    ensures { result ≡ is18 (counted_of a) n }
{
    is_18(Counted::from(a), n)
}

// What the assembler answered, at a line of the file: lines count from the start line.
pub fn assembled(a: Result<u64, Refusal>) -> Result<(), Refused>
    ensures { result ≡ assembler_answer (counted_of a) }
{
    match a {
        Ok(_) => Ok(()),
        Err(e) => Err(Refused {
            place: following_line(e.place()),
            ..Refused::from(e)
        }),
    }
}

#[tactic(auto, using(crate::proofs::Fronts::fronts), unfolding(crate::specs::Source::text_judged))]
pub fn judge_text(a: Result<u64, Refusal>, numeric: Option<u64>) -> Result<(), Refused>
    ensures { result ≡ text_judged (counted_of a) numeric }
{
    match numeric {
        Some(n) if numeric_counts(a, n) => Err(Refused::from(Refusal::NumericLine(following_line(
            n,
        )))),
        _ => assembled(a),
    }
}

// What the start line says of a text, loaded into the cells.
#[tactic(auto, using(crate::proofs::Fronts::fronts), unfolding(crate::specs::Source::loading, crate::specs::Source::start_good))]
pub fn load(t: &[u8], cells: &mut [i64]) -> Loaded
    ensures { called result cells.new ≡ loading t.now cells.old }
{
    let (line, rest) = split_line(t);
    let r = read_start(line);
    let no_start = Loaded {
        start: r.start,
        outcome: Err(Refused::from(Refusal::ImageLine(1))),
    };
    let [b'\n', program @ ..] = rest else {
        return no_start;
    };
    if r.broken {
        return no_start;
    }
    let a = assembler::fill(program, cells);
    Loaded {
        outcome: judge_text(a, numeric::lowest_numeric(program)),
        ..no_start
    }
}
