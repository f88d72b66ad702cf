// A program loaded, run as document 01's runner runs it, and what is printed of it.
#![tactic(auto)]

ghost use Rattle.std.specs.Prelude.{◌≡◌, ◌+◌, ◌≤◌, length};
ghost use Rattle.definition.specs.Constants.{ROW};
ghost use Rattle.image_run.specs.Image.{start_row, image_run, image_text, printed_texts, printed_of};

use definition::{Ran, places};
use lines::Start;
use printing::Text;
use report::Report;

// What is printed on standard output and on standard error.
#[derive(Drop)]
pub struct Output {
    pub out: Report,
    pub err: Text<33792>,
}

// "start,pc,sp,sr" in a row of zeros: a slice, as report's.
pub fn put_start(row: &mut [i64], s: Start)
    requires { length row.old ≡ ROW }
    ensures { row.new ≡ start_row row.old s }
{
    row[places::PC] = s.pc;
    row[places::SP] = s.sp;
    row[places::SR] = s.sr;
}

// "queue 256, output 4,096, budget 100,000"
#[tactic(auto, unfolding(crate::specs::Image::image_run))]
pub fn run_image(cells: &mut [i64], row: &mut [i64]) -> Ran
    ensures { (result ≡ (image_run cells.old row.old).answer) × (row.new ≡ (image_run cells.old row.old).left.row) × (cells.new ≡ (image_run cells.old row.old).left.cells) }
{
    let mut queue = [0u8; 256];
    let mut output = [0u8; 4096];
    z33::run::z33_run(cells, &mut queue, &mut output, row, 100000)
}

// The lines of a run from these cells.
#[tactic(auto, unfolding(crate::specs::Image::image_text))]
pub fn report_image(cells: &mut [i64], s: Start) -> Report
    ensures { result ≡ image_text cells.old s }
{
    let mut row = [0i64; places::ROW];
    put_start(&mut row, s);
    let ran = run_image(cells, &mut row);
    report::run(ran, &row)
}

// What is printed of a file within the limit, on standard output and on standard error.
#[tactic(auto, unfolding(crate::specs::Image::report_of, crate::specs::Image::message_of))]
pub fn report_text<const N: usize>(t: &[u8]) -> (Report, Text<N>)
    requires { length t.now + 512 ≤ N }
    ensures { result ≡ printed_texts t.now }
{
    let mut cells = lines::empty_cells();
    let loaded = source::load(t, &mut cells);
    match loaded.outcome {
        Ok(()) => (report_image(&mut cells, loaded.start), Text::new()),
        Err(e) => (
            report::refusal(e.number, e.place),
            source::message::message(t, e),
        ),
    }
}

// What is printed of a file.
#[tactic(auto, unfolding(crate::specs::Image::printed, crate::specs::Image::said))]
pub fn report_file(file: &[u8]) -> Output
    ensures { result ≡ printed_of file.now }
{
    let text = source::bounded(file);
    let (out, err) = report_text(text.as_bytes());
    Output { out, err }
}
