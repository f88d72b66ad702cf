// "A stated exercise load. A lent image is filled from a 64-bit seed"
ghost use Rattle.std.specs.Prelude.{◌≡◌};
ghost use Rattle.definition.specs.Calls.{called};
ghost use Rattle.exercise.specs.Exercise.{exercise};

use definition::Counted;

pub fn z33_exercise(image: &mut [i64], seed: u64) -> Counted
    ensures { called result image.new ≡ exercise image.old seed }
{
    exercise::exercise(image, seed)
}
