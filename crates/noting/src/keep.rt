// A step's record put into the journal, before the step is taken.
ghost use Rattle.std.specs.Prelude.{◌≡◌, true, List, ℕ, ◌+◌, ◌≤◌};
ghost use Rattle.definition.specs.Runtime.{turn as Runtime·turn};
ghost use Rattle.definition.specs.Accepted.{AcceptedMachine};
ghost use Rattle.row.specs.Meaning.{machine_at};
ghost use Rattle.runtime.specs.Meaning.{effects_at, turn_of};
ghost use Rattle.journal.specs.Journal.{record_of, put_record, remember, is_journal, noted};
ghost use Rattle.ring.specs.Meaning.{next_place};
ghost use Rattle.noting.specs.Meaning.{helds_of, row_of_state, RowFits};

use super::Noted;
use row::State;
use runtime::turn::Turn;

// The record where the next one goes.
fn put_next(journal: &mut [i64], m: &State, w: &Noted)
    requires { (is_journal journal.old ≡ true) × RowFits m.now }
    ensures { journal.new ≡ put_record (next_place journal.old) (record_of (row_of_state m.now) (helds_of w.now)) journal.old }
{
    let p = ring::next_place(journal);
    let from = 2 + 37 * p;
    super::write_record(&mut journal[from..from + 37], m, w);
}

// "A full journal forgets its oldest step."
fn remember(journal: &mut [i64], m: &State, w: &Noted)
    requires { (is_journal journal.old ≡ true) × RowFits m.now }
    ensures { journal.new ≡ remember (record_of (row_of_state m.now) (helds_of w.now)) journal.old }
{
    put_next(journal, m, w);
    ring::advance(journal);
}

// "keeps, for every step begun, the row before and what the cells it wrote held"
#[tactic(auto, using(crate::proofs::Kept::noted_begun, crate::proofs::Kept::noted_not))]
pub fn note(journal: &mut [i64], cells: &[i64], m: &State, turn: &Turn)
    requires accepted { (q : List ℕ) × ((o : List ℕ) × AcceptedMachine (machine_at cells.now q o m.now)) }
    requires soon { turn.now.effects.cycles ≤ m.now.cycles + 3 }
    requires journal { is_journal journal.old ≡ true }
    ensures { (q o : List ℕ) → turn_of turn.now.arrival (effects_at cells.now q o m.now turn.now.effects) ≡ Runtime·turn (machine_at cells.now q o m.now) → journal.new ≡ noted (machine_at cells.now q o m.now) journal.old }
{
    let w = super::find::notes(cells, m, turn);
    if w.begun {
        remember(journal, m, &w);
    }
}
