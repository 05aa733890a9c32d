// Parameters as bits: those that are written (block.rs: `params_written`).
#![tactic(auto)]

ghost use Rattle.std.specs.Prelude.{◌≡◌};
ghost use Rattle.code.specs.Inner.{Whole};
ghost use Rattle.refusals.specs.Answers.{answered, Straight};
ghost use Rattle.params.specs.Answers.{written_answer};
ghost use Rattle.params.specs.Masks.{written_in, params_written};

use refusals::{Answer, Refusal};
use roles::Roles;

// `params_written`: refusals 1, 2.
#[tactic(auto, using(refusals::proofs::Answers::telling), unfolding(crate::specs::Answers::written_answer))]
pub fn params_written(code: &[u16], arity: usize) -> Result<Answer, Refusal>
    ensures answer { answered result ≡ written_answer code.now arity }
    ensures straight { Straight result }
{
    code::check(code)?;
    Ok(refusals::tell(params_in(code, arity), 0, 0, 0))
}

// Whether some instruction writes r.
#[tactic(auto, using(laws::proofs::Some::somewhere), unfolding(crate::specs::Masks::writes_at, crate::specs::Masks::written_in))]
fn any_writes(roles: &Roles, code: &[u16], r: u16) -> bool
    requires { Whole code.now }
    ensures { result ≡ written_in code.now r }
{
    let n = code.len() / 6;
    for k in 0..n {
        if touch::writes_in(&roles.bytes, code::ins_at(code, k), r) {
            return true;
        }
    }
    false
}

// `params_written` in accepted code.
#[tactic(auto, using(laws::proofs::Mask::mask_none, laws::proofs::Mask::mask_more, laws::proofs::Mask::mask_done), unfolding(crate::specs::Masks::params_written))]
fn params_in(code: &[u16], arity: usize) -> u64
    requires { Whole code.now }
    ensures { result ≡ params_written code.now arity }
{
    let roles = Roles::new();
    let n = arity.min(64);
    let mut m = 0;
    for r in 0..n {
        m |= u64::from(any_writes(&roles, code, r as u16)) << r;
    }
    m
}
