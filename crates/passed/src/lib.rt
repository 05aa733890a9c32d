// Parameters as bits: those that a call passes on (block.rs: `passed`).
#![tactic(auto)]

ghost use Rattle.std.specs.Prelude.{◌≡◌, ◌<◌, length};
ghost use Rattle.refusals.specs.Answers.{answered, Straight};
ghost use Rattle.code.specs.Inner.{Whole};
ghost use Rattle.passed.specs.Answers.{passed_answer};
ghost use Rattle.passed.specs.Passed.{arguments, keeps, passed_in, passed_at};

use code::Ins;
use ops::*;
use refusals::{Answer, Refusal};

// `passed`: refusals 1, 2, 6.
#[tactic(auto, using(refusals::proofs::Answers::asking), unfolding(crate::specs::Answers::passed_answer))]
pub fn passed(code: &[u16], at: usize, arity: usize) -> Result<Answer, Refusal>
    ensures answer { answered result ≡ passed_answer code.now at arity }
    ensures straight { Straight result }
{
    let c = code::instruction(code, at)?;
    if code::is_call(c.op) {
        return Ok(refusals::tell(passed_at(code, at, arity), 0, 0, 0));
    }
    Err(Refusal::Position(at))
}

// How many arguments the call c has, a method's receiver too.
#[tactic(auto, unfolding(crate::specs::Passed::arguments))]
fn arguments(c: Ins) -> usize
    ensures { result ≡ arguments c }
{
    usize::from(c.x) + usize::from(c.op == CallMethodR)
}

// Whether q is one of the first n arguments and passed on as it is: it stands in register q.
#[tactic(auto, unfolding(crate::specs::Passed::keeps))]
fn keeps(n: usize, q: usize, r: u16) -> bool
    ensures { result ≡ keeps n q r }
{
    (q < n) & (usize::from(r) == q)
}

// The parameters that the call c passes on as they are; from the third on its arguments stand in `rest`.
#[tactic(auto, using(laws::proofs::Mask::mask_five), unfolding(crate::specs::Passed::passed_in, crate::specs::Passed::keeps_at))]
fn passed_in(c: Ins, rest: Ins, arity: usize) -> u64
    ensures { result ≡ passed_in c rest arity }
{
    let n = arguments(c).min(arity);
    let first = u64::from(keeps(n, 0, c.b));
    let second = u64::from(keeps(n, 1, c.c));
    let third = u64::from(keeps(n, 2, rest.a));
    let fourth = u64::from(keeps(n, 3, rest.b));
    let fifth = u64::from(keeps(n, 4, rest.c));
    first + 2 * second + 4 * third + 8 * fourth + 16 * fifth
}

// `passed` in accepted code.
#[tactic(auto, unfolding(crate::specs::Passed::passed_at))]
fn passed_at(code: &[u16], j: usize, arity: usize) -> u64
    requires { Whole code.now × (j < length code.now) }
    ensures { result ≡ passed_at code.now j arity }
{
    let c = code::ins_at(code, j);
    let wide = c.marks % 2 == 1;
    passed_in(c, code::ins_at(code, j + usize::from(wide)), arity)
}
