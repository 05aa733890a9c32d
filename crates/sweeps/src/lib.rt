// What both routes of the raising sweeps need: whether a call is stranded, and the laws of sweeps that join handlers.
#![tactic(auto)]

ghost use Rattle.std.specs.Prelude.{◌≡◌};
ghost use Rattle.nested.specs.Raising.{stranded as stranded_of};

use code::Ins;
use ops::*;

// Whether a call at a marked instruction goes on where the instruction by itself does not lead, or gives up more than its result.
pub fn stranded(i: Ins) -> bool
    ensures { result ≡ stranded_of i }
{
    let dunder = i.marks / 2 % 2 == 1;
    dunder & matches!(i.op, ReturnR | Jump | UnpackR | WithEnter | WithExit)
}
