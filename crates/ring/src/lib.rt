// The journal's ring: its test, the places of its records, its start and its count. A record is written and read elsewhere. The journal stays a lent
// slice, and `is_journal` a requirement: a struct over it would hold the `&mut` that its records are written through between two of these calls, and
// would have to show its fact anew after each.
#![tactic(auto, unfolding(definition::specs::Io::around, journal::specs::Journal::whole_records, journal::specs::Journal::is_journal, journal::specs::Journal::kept_place, journal::specs::Journal::forget_newest, journal::specs::Calls::emptied, crate::specs::Meaning::next_place, crate::specs::Meaning::advanced))]

ghost use Rattle.std.specs.Prelude.{◌≡◌, true, ◌≤◌, length};
ghost use Rattle.definition.specs.Io.{around};
ghost use Rattle.journal.specs.Journal.{start_of, count_of, records, kept_place, forget_newest, with_start, whole_records, is_journal};
ghost use Rattle.journal.specs.Calls.{emptied};
ghost use Rattle.ring.specs.Meaning.{next_place, advanced};

// "no whole number of records, 1 to 4,096, after its start and count"
pub fn is_whole(journal: &[i64]) -> bool
    ensures { result ≡ whole_records journal.now }
{
    let n = journal.len();
    2 <= n && (n - 2) % 37 == 0 && 1 <= (n - 2) / 37 && (n - 2) / 37 <= 4096
}

// How many records it has room for.
pub fn room(journal: &[i64]) -> usize
    requires { 2 ≤ length journal.now }
    ensures { result ≡ records journal.now }
{
    (journal.len() - 2) / 37
}

// "start is no record's place, count is not 0 to the records"
pub fn is_journal(journal: &[i64]) -> bool
    ensures { result ≡ is_journal journal.now }
{
    if !is_whole(journal) {
        return false;
    }
    let k = room(journal) as u64;
    checks::is_below(journal[0], k) && checks::is_below(journal[1], k + 1)
}

// "it gets count 0 [...] and keeps the rest"
pub fn empty(journal: &mut [i64])
    requires { 2 ≤ length journal.old }
    ensures { journal.new ≡ emptied journal.old }
{
    journal[1] = 0;
}

// fresh "sets start 0 too"
pub fn make(journal: &mut [i64])
    requires { 2 ≤ length journal.old }
    ensures { journal.new ≡ with_start 0 (emptied journal.old) }
{
    empty(journal);
    journal[0] = 0;
}

// "start (the oldest record, from 0), count"
pub fn start(journal: &[i64]) -> usize
    requires { is_journal journal.now ≡ true }
    ensures { result ≡ start_of journal.now }
{
    row::number_at(journal, 0) as usize
}

pub fn count(journal: &[i64]) -> usize
    requires { is_journal journal.now ≡ true }
    ensures { result ≡ count_of journal.now }
{
    row::number_at(journal, 1) as usize
}

// The place of the i-th kept record, the oldest being number 0.
pub fn kept_place(journal: &[i64], i: usize) -> usize
    requires { (is_journal journal.now ≡ true) × (i ≤ records journal.now) }
    ensures { result ≡ kept_place i journal.now }
{
    console::around(room(journal), start(journal) + i)
}

// Where the next record goes. "A full journal forgets its oldest step."
pub fn next_place(journal: &[i64]) -> usize
    requires { is_journal journal.now ≡ true }
    ensures { result ≡ next_place journal.now }
{
    let n = count(journal);
    if n < room(journal) {
        kept_place(journal, n)
    } else {
        start(journal)
    }
}

// Start and count once a record stands there.
pub fn advance(journal: &mut [i64])
    requires { is_journal journal.old ≡ true }
    ensures { journal.new ≡ advanced journal.old }
{
    let n = count(journal);
    if n < room(journal) {
        journal[1] = (n + 1) as i64;
    } else {
        let s = console::around(room(journal), start(journal) + 1);
        journal[0] = s as i64;
    }
}

// "takes one off the count"
pub fn retreat(journal: &mut [i64])
    requires { (is_journal journal.old ≡ true) × (1 ≤ count_of journal.old) }
    ensures { journal.new ≡ forget_newest journal.old }
{
    journal[1] = (count(journal) - 1) as i64;
}
