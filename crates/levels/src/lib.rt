// Where a level goes on and which register has its result, for hosts that save frames (document 02, wish 4).
#![tactic(auto)]

ghost use Rattle.std.specs.Prelude.{◌≡◌, ◌<◌};
ghost use Rattle.code.specs.Ins.{count};
ghost use Rattle.code.specs.Inner.{Valid};
ghost use Rattle.levels.specs.Answers.{level_told, level_answer};

use refusals::Answer;

// The level at a position: refusals 1, 2, 6.
#[tactic(auto, using(crate::proofs::Accepted::accepted), unfolding(crate::specs::Answers::level_answer))]
pub fn level(code: &[u16], at: usize) -> Answer
    ensures { result ≡ level_answer code.now at }
{
    if let Err(r) = refusals::inside(code::check(code), at) {
        return Answer::from(r);
    }
    level_in(code, at)
}

// The same in code that is not refused.
fn level_in(code: &[u16], k: usize) -> Answer
    requires { Valid code.now × (k < count code.now) }
    ensures { result ≡ level_told code.now k }
{
    if steps::level_at(code::ins_at(code, k)) {
        let a = steps::after(code, k);
        return refusals::tell(1, a.at as u64, a.result as u64, 0);
    }
    refusals::tell(0, 0, 0, 0)
}
