// The recorded list, read byte by byte: lines of five numbers (host/recorded/FORMAT.md).
#![tactic(auto)]

pub mod compare;
pub mod length;
pub mod machine;
pub mod number;
pub mod place;
pub mod reader;
