// The version of the calls.
#![tactic(auto)]

ghost use Rattle.std.specs.Prelude.{◌≡◌};
ghost use Rattle.refusals.specs.Answers.{answer_of};

use refusals::Answer;

// Major, minor and patch, as the header has them.
pub fn version() -> Answer
    ensures { result ≡ answer_of 0 2 0 0 }
{
    refusals::tell(0, 2, 0, 0)
}
