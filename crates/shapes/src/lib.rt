// The shape of a body: whether it is flat, and whether a `try` or a `with` guards in it (block.rs: `flat`, `guarded`).
#![tactic(auto)]

ghost use Rattle.std.specs.Prelude.{◌≡◌, ◌<◌, length};
ghost use Rattle.refusals.specs.Answers.{answered, Straight};
ghost use Rattle.code.specs.Inner.{Whole};
ghost use Rattle.shapes.specs.Shape.{flat_here, flat_at, flat as flat_all, guards, guarded as guarded_any};
ghost use Rattle.shapes.specs.Answers.{flat_answer, guarded_answer};

use code::Ins;
use ops::*;
use refusals::{Answer, Refusal};

// `flat`: refusals 1, 2.
#[tactic(auto, using(refusals::proofs::Answers::telling), unfolding(crate::specs::Answers::flat_answer))]
pub fn flat(code: &[u16]) -> Result<Answer, Refusal>
    ensures answer { answered result ≡ flat_answer code.now }
    ensures straight { Straight result }
{
    code::check(code)?;
    Ok(refusals::tell(all_flat(code).into(), 0, 0, 0))
}

// `guarded`: refusals 1, 2.
#[tactic(auto, using(refusals::proofs::Answers::telling), unfolding(crate::specs::Answers::guarded_answer))]
pub fn guarded(code: &[u16]) -> Result<Answer, Refusal>
    ensures answer { answered result ≡ guarded_answer code.now }
    ensures straight { Straight result }
{
    code::check(code)?;
    Ok(refusals::tell(any_guards(code).into(), 0, 0, 0))
}

// Whether nothing of i stays on the stack, but for the value that a PushRegs hands the Raise right after it.
#[tactic(auto, unfolding(crate::specs::Shape::flat_here))]
fn flat_here(i: Ins, next: Ins) -> bool
    ensures { result ≡ flat_here i next }
{
    let o = i.op;
    let push = o == PushRegs;
    let register = i.marks / 4 % 2 == 1;
    push & (next.op == Raise) | !push & (matches!(o, Jump | Raise) | register)
}

// Whether the instruction at k leaves nothing on the stack, but for the value that a Raise right after it takes.
#[tactic(auto, unfolding(crate::specs::Shape::flat_at))]
fn flat_at(code: &[u16], k: usize) -> bool
    requires { Whole code.now × (k < length code.now) }
    ensures { result ≡ flat_at code.now k }
{
    flat_here(code::ins_at(code, k), code::ins_at(code, k + 1))
}

// `flat` in accepted code.
#[tactic(auto, using(laws::proofs::Every::all), unfolding(crate::specs::Shape::flat))]
fn all_flat(code: &[u16]) -> bool
    requires { Whole code.now }
    ensures { result ≡ flat_all code.now }
{
    let n = code.len() / 6;
    for k in 0..n {
        if !flat_at(code, k) {
            return false;
        }
    }
    true
}

// Whether i begins a `try` or a `with`.
#[tactic(auto, unfolding(crate::specs::Shape::guards))]
fn guards(i: Ins) -> bool
    ensures { result ≡ guards i }
{
    matches!(i.op, SetupExcept | SetupFinally | WithEnter)
}

// `guarded` in accepted code.
#[tactic(auto, using(laws::proofs::Some::somewhere, sections::proofs::There::tested_there), unfolding(crate::specs::Shape::guarded))]
fn any_guards(code: &[u16]) -> bool
    requires { Whole code.now }
    ensures { result ≡ guarded_any code.now }
{
    let n = code.len() / 6;
    for k in 0..n {
        if guards(code::ins_at(code, k)) {
            return true;
        }
    }
    false
}
