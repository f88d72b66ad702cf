// The calls on numbers and slices, which crate z33_c exports as C functions. Each answers and leaves what the definition's Calls says; the text calls' definitions are
// Assemble, in crates/assembly/specs, and Call, in crates/listing/specs, the exercise load's is Exercise, in crates/exercise/specs, and those with
// a journal are in Calls of crates/journal/specs.
#![tactic(auto, using(definition::proofs::Checked::number_some), unfolding(definition::specs::Calls::run_call, definition::specs::Calls::run_refused, definition::specs::Calls::raise))]

pub mod benches;
pub mod cells;
pub mod fill;
pub mod fresh;
pub mod journals;
pub mod raise;
pub mod register;
pub mod run;
pub mod serial;
pub mod text;
