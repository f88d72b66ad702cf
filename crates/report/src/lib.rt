// What the runner prints, as text: the eight lines of a run, or a refusal.
#![tactic(auto)]

ghost use Rattle.std.specs.Prelude.{◌≡◌, [], ◌∷◌, ◌++◌, ◌+◌, ◌≤◌, pos, length, map};
ghost use Rattle.definition.specs.Constants.{ROW};
ghost use Rattle.report.specs.Text.{field, line, answer_text, registers_text, cells_text, run_text, refusal_text};

use definition::{Ran, places};
use printing::{Number, Text};

/// Room for every text.
pub type Report = Text<512>;

// A comma and a number.
pub fn put_field<V: Number, const N: usize>(text: &mut Text<N>, v: V)
    requires { length text.old + length (field (V.number v)) ≤ N }
    ensures { text.new ≡ text.old ++ field (V.number v) }
{
    text.push(b',');
    text.put_number(v);
}

// A name, its fields and a line end.
#[tactic(auto, using(crate::proofs::Laws::left_steps), unfolding(crate::specs::Text::line))]
pub fn put_line<V: Number, const N: usize>(text: &mut Text<N>, name: &[u8], fields: &[V])
    requires { length text.old + length (line name.now (map V.number fields.now)) ≤ N }
    ensures { text.new ≡ text.old ++ line name.now (map V.number fields.now) }
{
    text.put(name);
    for v in fields {
        put_field(text, *v);
    }
    text.push(b'\n');
}

// "stop and detail; steps"
#[tactic(auto, using(crate::proofs::Laws::pieces), unfolding(crate::specs::Text::answer_text))]
pub fn put_answer<const N: usize>(text: &mut Text<N>, ran: Ran)
    requires { length text.old + length (answer_text ran) ≤ N }
    ensures { text.new ≡ text.old ++ answer_text ran }
{
    put_line(text, b"stop", &[ran.stop, ran.detail]);
    put_line(text, b"steps", &[ran.steps]);
}

// "cycles; pc, sp, sr". The row is a slice whose length is asked for, as crate row has it: an array's type would ask more of a caller that
// holds a slice.
#[tactic(auto, using(crate::proofs::Laws::pieces), unfolding(crate::specs::Text::registers_text))]
pub fn put_registers<const N: usize>(text: &mut Text<N>, row: &[i64])
    requires row_len { length row.now ≡ ROW }
    requires room { length text.old + length (registers_text row.now) ≤ N }
    ensures { text.new ≡ text.old ++ registers_text row.now }
{
    put_line(text, b"cycles", &row[places::CYCLES..places::ENABLE]);
    put_line(text, b"regs", &row[places::PC..places::CYCLES]);
}

// "cells a and b; output count"
#[tactic(auto, using(crate::proofs::Laws::pieces), unfolding(crate::specs::Text::cells_text))]
pub fn put_cells<const N: usize>(text: &mut Text<N>, row: &[i64])
    requires row_len { length row.now ≡ ROW }
    requires room { length text.old + length (cells_text row.now) ≤ N }
    ensures { text.new ≡ text.old ++ cells_text row.now }
{
    put_line(text, b"a", &row[places::A..places::B]);
    put_line(text, b"b", &row[places::B..places::PC]);
    put_line(text, b"out", &row[places::WRITTEN..places::FENCE]);
}

// The eight lines.
#[tactic(auto, using(crate::proofs::Laws::shorts), unfolding(crate::specs::Text::run_text, crate::specs::Text::empty_text))]
pub fn run(ran: Ran, row: &[i64]) -> Report
    requires { length row.now ≡ ROW }
    ensures { result ≡ run_text ran row.now }
{
    let mut text = Text::new();
    put_answer(&mut text, ran);
    put_registers(&mut text, row);
    put_cells(&mut text, row);
    put_line(&mut text, b"empty", &[ran.empty]);
    text
}

// "A refusal prints `refused`, number and line." Numbers, as they are printed: what a file is refused with is no `Refusal`.
#[tactic(auto, using(crate::proofs::Laws::shorts), unfolding(crate::specs::Text::refusal_text))]
pub fn refusal(number: u64, place: u64) -> Report
    ensures { result ≡ refusal_text number place }
{
    let mut text = Text::new();
    put_line(&mut text, b"refused", &[number, place]);
    text
}
