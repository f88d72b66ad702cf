// What a program tells of a file that it could not read.
#![tactic(auto)]

ghost use Rattle.std.specs.Prelude.{◌≡◌, IfOk, IfSome, string_bytes};
ghost use Rattle.failure.specs.Message.{cause, message};

use std::alloc::{AllocError, Global};
use std::fmt::Display;
use std::io::Error;

const STDERR: i32 = 2;

// Why the system refused, without the error's number.
#[tactic(auto, using(crate::proofs::First::cause_none, crate::proofs::First::cause_first))]
pub fn cause(said: &str) -> &str
    ensures { result.now ≡ cause said.now }
{
    match said.split_once(" (os error ") {
        Some((why, _)) => why,
        None => said,
    }
}

// `NAME: WHY` and a line end.
pub fn message<E: Display>(alloc: Global, name: &str, error: &E) -> Result<String, AllocError>
    ensures { IfOk result (λ s. IfSome (E.output error.now) (λ said. string_bytes s ≡ message name.now said)) }
{
    let said = error.to_string(alloc)?;
    let why = cause(said.as_str());
    format!(in alloc; "{name}: {why}\n")
}

// Says on standard error why the file of that name could not be read.
pub fn tell(alloc: Global, name: &str, error: &Error) -> std::io::Result<()> {
    let text = message(alloc, name, error)?;
    io::write_all(STDERR, text.as_bytes());
    Ok(())
}

#[cfg(test)]
mod tests {
    use super::*;
    use std::test::Fail;

    #[test]
    fn names_the_file(rt: HostRuntime) -> Result<(), Fail> {
        let error = Error::from_raw_os_error(2);
        let text = message(rt.alloc(), "a.z33", &error)?;
        assert_eq!(rt; text.as_str(), "a.z33: No such file or directory\n");
        Ok(())
    }

    #[test]
    fn keeps_a_text_without_a_number(rt: HostRuntime) -> Result<(), Fail> {
        let text = message(rt.alloc(), "standard input", &"no more")?;
        assert_eq!(rt; text.as_str(), "standard input: no more\n");
        Ok(())
    }
}
