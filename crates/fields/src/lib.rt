// What is asked of the instruction at a position: `kinds`, `role`, `field`, `writes` (block.rs), and what it touches. Each answers 1, 2, 6, or the value.
#![tactic(auto)]

ghost use Rattle.std.specs.Prelude.{◌≡◌};
ghost use Rattle.refusals.specs.Answers.{answered, Straight};
ghost use Rattle.fields.specs.Answers.{role_told, kinds_answer, role_answer, field_answer, writes_answer, touch_answer};

use refusals::{Answer, Refusal};
use roles::{DEST, JUMPS, NONE};

// The bits of `kinds`.
#[tactic(auto, using(refusals::proofs::Answers::asking), unfolding(crate::specs::Answers::kinds_answer))]
pub fn kinds(code: &[u16], at: usize) -> Result<Answer, Refusal>
    ensures answer { answered result ≡ kinds_answer code.now at }
    ensures straight { Straight result }
{
    let i = code::instruction(code, at)?;
    Ok(refusals::tell(roles::kinds_of(i).into(), 0, 0, 0))
}

// 1, whether a is written, which of a, b, c are read, and whether a is a jump's target; or 0.
#[tactic(auto, using(refusals::proofs::Answers::asking), unfolding(crate::specs::Answers::role_answer))]
pub fn role(code: &[u16], at: usize) -> Result<Answer, Refusal>
    ensures answer { answered result ≡ role_answer code.now at }
    ensures straight { Straight result }
{
    let i = code::instruction(code, at)?;
    Ok(role_of(roles::kinds_of(i)))
}

// The same by the bits of `kinds`.
fn role_of(k: u8) -> Answer
    ensures { result ≡ role_told k }
{
    if k / NONE % 2 == 1 {
        return refusals::tell(0, 0, 0, 0);
    }
    let dest = k / DEST % 2 == 1;
    let reads = k / 2 % 8;
    let jumps = k / JUMPS % 2 == 1;
    refusals::tell(1, dest.into(), reads.into(), jumps.into())
}

// The field f: a, b, else c.
#[tactic(auto, using(refusals::proofs::Answers::asking), unfolding(crate::specs::Answers::field_answer))]
pub fn field(code: &[u16], at: usize, f: u8) -> Result<Answer, Refusal>
    ensures answer { answered result ≡ field_answer code.now at f }
    ensures straight { Straight result }
{
    let i = code::instruction(code, at)?;
    Ok(refusals::tell(roles::field_of(i, f).into(), 0, 0, 0))
}

// Whether r is written.
#[tactic(auto, using(refusals::proofs::Answers::asking), unfolding(crate::specs::Answers::writes_answer))]
pub fn writes(code: &[u16], at: usize, r: u16) -> Result<Answer, Refusal>
    ensures answer { answered result ≡ writes_answer code.now at r }
    ensures straight { Straight result }
{
    let i = code::instruction(code, at)?;
    let t = touch::writes_by(i, roles::kinds_of(i), r);
    Ok(refusals::tell(t.into(), 0, 0, 0))
}

// The fields used, given up and written, and how many registers from b on are given up and written besides.
#[tactic(auto, using(refusals::proofs::Answers::asking), unfolding(crate::specs::Answers::touch_answer))]
pub fn touched(code: &[u16], at: usize) -> Result<Answer, Refusal>
    ensures answer { answered result ≡ touch_answer code.now at }
    ensures straight { Straight result }
{
    let i = code::instruction(code, at)?;
    let t = touch::touch_of(i, roles::kinds_of(i));
    let used = u64::from(t.used / 2);
    Ok(refusals::tell(
        used,
        (t.given / 2).into(),
        (t.written / 2).into(),
        t.run.into(),
    ))
}
