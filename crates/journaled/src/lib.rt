// The calls that are lent a journal and take no step, raise aside: "first the call's own" refusals, "then 20". Each tests the journal first, and makes the call
// without one where it fits and only the call's tests where not: no test is made twice, and 20 is still answered last.
// Five functions and no generic one: its two closures would have to be handed what is lent, since captured, the test would borrow what the call
// borrows mutably; each call of it would be as long as a body here.
#![tactic(auto, using(definition::proofs::Checked::number_some), unfolding(journal::specs::Journal::is_journal, journal::specs::Journal::whole_records, journal::specs::Calls::with_journal, journal::specs::Calls::fresh_journal, journal::specs::Calls::load_journal, journal::specs::Calls::set_register_journal, journal::specs::Calls::deliver_journal, journal::specs::Calls::drain_journal, definition::specs::Calls::fresh, definition::specs::Calls::load, definition::specs::Calls::set_register, definition::specs::Calls::deliver, definition::specs::Calls::drain))]

pub mod cells;
pub mod fresh;
pub mod register;
pub mod serial;
