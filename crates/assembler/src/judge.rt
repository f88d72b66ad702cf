// The third pass: labels that are missing, set again or beyond 256, and values out of range.
ghost use Rattle.std.specs.Prelude.{◌≡◌, true, ◌<◌, Ok};
ghost use Rattle.expression.specs.Values.{values};
ghost use Rattle.expression.specs.Labels.{lookup};
ghost use Rattle.assembly.specs.Reader.{rows};
ghost use Rattle.assembly.specs.Assemble.{exceeds};
ghost use Rattle.line.specs.Code.{label_told, body_told, line_told};
ghost use Rattle.assembler.specs.Meaning.{is_whole, label_fails, line_fails, ruled, text_lines, judge};

use super::values::{exceeds, misses};
use definition::answers::{Refusal, check};
use expression::labels::Labels;
use line::content::row;
use line::{Body, Line};

// "set again or beyond 256": the label of line k, after c others.
pub fn label_fails(labels: &Labels, k: usize, c: usize, label: Option<&[u8]>) -> bool
    ensures { result ≡ label_fails (lookup labels.now) k c (label_told label.entry) }
{
    let Some(name) = label else {
        return false;
    };
    if c >= 256 {
        return true;
    }
    match labels.find(name) {
        Some(line) => line != k,
        None => true,
    }
}

pub fn line_fails(labels: &Labels, k: usize, c: usize, line: Line) -> bool
    ensures { result ≡ line_fails (lookup labels.now) k c (line_told line.entry) }
{
    label_fails(labels, k, c, line.label) | misses(line.body)
}

// The verdict on the values up to line k.
pub fn ruled(verdict: Result<(), Refusal>, body: Body, k: usize) -> Result<(), Refusal>
    requires { k < 18446744073709551615 }
    ensures { result ≡ ruled verdict (exceeds (body_told body)) k }
{
    verdict?;
    check(!exceeds(body), Refusal::Value(k as u64 + 1))
}

// Of a text that is whole, with at most so many lines.
pub fn judge(text: &[u8], labels: &Labels, count: usize) -> Result<(), Refusal>
    requires { is_whole (rows (values (lookup labels.now)) 32 count text.now) ≡ true }
    ensures { result ≡ judge (lookup labels.now) 0 0 (Ok tt) (text_lines (lookup labels.now) count text.now) }
{
    let mut rest = text;
    let mut set = 0;
    let mut verdict = Ok(());
    for k in 0..count {
        let Some((line, after)) = row(rest, labels) else {
            return verdict;
        };
        if line_fails(labels, k, set, line) {
            return Err(Refusal::Label(k as u64 + 1));
        }
        verdict = ruled(verdict, line.body, k);
        set += line.label.is_some() as usize;
        rest = after;
    }
    verdict
}
