// Bytes and decimal numbers put behind one another, as a text of fixed room or in a buffer that is lent.
#![tactic(auto)]

pub mod number;
pub mod slice;
pub mod text;

pub use number::Number;
pub use slice::{put, put_byte, put_decimal, put_numeral};
pub use text::Text;
