// The six calls that take no step: fresh, read a cell, load, deliver, drain and set register. Each answers and leaves what the definition's
// Calls says.
#![tactic(auto, unfolding(definition::specs::Calls::fresh, definition::specs::Calls::read_cell, definition::specs::Calls::load, definition::specs::Calls::set_register, definition::specs::Calls::with_register, definition::specs::Calls::deliver, definition::specs::Calls::drain, definition::specs::Calls::loaded))]

pub mod cells;
pub mod fresh;
pub mod register;
pub mod serial;
