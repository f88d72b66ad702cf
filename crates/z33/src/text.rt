// "Candidates hand in assembler to be made an image." "Teachers want to read old images."
ghost use Rattle.std.specs.Prelude.{◌≡◌};
ghost use Rattle.definition.specs.Calls.{called};
ghost use Rattle.assembly.specs.Assemble.{assemble_call};
ghost use Rattle.listing.specs.Call.{list_call};

use definition::Counted;

pub fn z33_assemble(text: &[u8], image: &mut [i64]) -> Counted
    ensures { called result image.new ≡ assemble_call text.now image.old }
{
    assembler::assemble(text, image)
}

pub fn z33_list(image: &[i64], text: &mut [u8], leave: u64) -> Counted
    ensures { called result text.new ≡ list_call leave image.now text.old }
{
    listing::list(image, text, leave)
}
