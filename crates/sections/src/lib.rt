// What walks share: the buffers that they clear first, and whether a value is returned right after its push (block.rs: `returns`).
#![tactic(auto)]

ghost use Rattle.std.specs.Prelude.{◌≡◌, ◌<◌, ◌≤◌, length};
ghost use Rattle.laws.specs.Table.{cleared_to};
ghost use Rattle.refusals.specs.Answers.{answered, Straight};
ghost use Rattle.code.specs.Inner.{Whole};
ghost use Rattle.sections.specs.Returns.{returns_here, returns_at};
ghost use Rattle.sections.specs.Answers.{returns_answer};

use code::Ins;
use ops::*;
use refusals::{Answer, Refusal};

// `returns`: refusals 1, 2, 6.
#[tactic(auto, using(refusals::proofs::Answers::telling, refusals::proofs::Stages::onward), unfolding(crate::specs::Answers::returns_answer))]
pub fn returns(code: &[u16], at: usize) -> Result<Answer, Refusal>
    ensures answer { answered result ≡ returns_answer code.now at }
    ensures straight { Straight result }
{
    refusals::inside(code::check(code), at)?;
    Ok(refusals::tell(returns_at(code, at).into(), 0, 0, 0))
}

// Whether i pushes the value that a ReturnValue returns, right after it or past a Jump, at t.
#[tactic(auto, unfolding(crate::specs::Returns::returns_here))]
fn returns_here(i: Ins, next: Ins, t: Ins) -> bool
    ensures { result ≡ returns_here i next t }
{
    let far = (next.op == Jump) & (t.op == ReturnValue);
    (i.op == PushRegs) & (i.x == 1) & ((next.op == ReturnValue) | far)
}

// Whether the instruction at k pushes a value that is returned right after it, or past a Jump.
#[tactic(auto, unfolding(crate::specs::Returns::returns_at))]
pub fn returns_at(code: &[u16], k: usize) -> bool
    requires { Whole code.now × (k < length code.now) }
    ensures { result ≡ returns_at code.now k }
{
    let next = code::ins_at(code, k + 1);
    let t = code::ins_at(code, usize::from(next.a));
    returns_here(code::ins_at(code, k), next, t)
}

// Makes the first m marks of a lent buffer 0.
pub fn clear_marks(out: &mut [u8], m: usize)
    requires { m ≤ length out.old }
    ensures { out.new ≡ cleared_to m out.old }
{
    out[..m].fill(0);
}

// Makes the first m words of a lent buffer 0.
pub fn clear_words(out: &mut [u32], m: usize)
    requires { m ≤ length out.old }
    ensures { out.new ≡ cleared_to m out.old }
{
    out[..m].fill(0);
}
