// Where code lands, in a lent buffer (block.rs: `targets`).
#![tactic(auto)]

ghost use Rattle.std.specs.Prelude.{◌≡◌, ◌+◌, ◌*◌, ◌/◌, ◌<◌, ◌≤◌, length};
ghost use Rattle.laws.specs.Table.{filled_to};
ghost use Rattle.refusals.specs.Answers.{answered, Straight};
ghost use Rattle.code.specs.Inner.{Whole};
ghost use Rattle.surveys.specs.Answers.{target_mark, Targets};
ghost use Rattle.surveys.specs.Targets.{hits, handler_of, jumped, handled};
ghost use Rattle.surveys.specs.Inner.{Lands};

use refusals::{Answer, Refusal};
use roles::Roles;

// `targets`: refusals 1, 2, 4, 5.
pub fn targets(code: &[u16], tries: &[u32], out: &mut [u8]) -> Result<Answer, Refusal>
    ensures answer { Targets code.now tries.now out.old (answered result) out.new }
    ensures straight { Straight result }
{
    let v = refusals::tried(code::check(code), tries);
    refusals::room(v, 1, out.len(), code.len() / 6 + 1)?;
    fill_targets(code, tries, out);
    Ok(refusals::tell(0, 0, 0, 0))
}

// A mark at q, unless that is past n.
fn land(out: &mut [u8], n: usize, yes: bool, q: usize)
    requires { n + 1 ≤ length out.old }
    ensures { Lands n (hits yes q) out.old out.new }
{
    if yes & (q <= n) {
        out[q] = 1;
    }
}

// The marks of the jumps.
fn land_jumps(code: &[u16], out: &mut [u8])
    requires { Whole code.now × (length code.now / 6 + 1 ≤ length out.old) }
    ensures { Lands (length code.now / 6) (jumped code.now (length code.now / 6))
        out.old out.new }
{
    let roles = Roles::new();
    let n = code.len() / 6;
    for k in 0..n {
        let i = code::ins_at(code, k);
        land(out, n, roles::is_jump_in(&roles.bytes, i), usize::from(i.a));
    }
}

// The h of try i.
#[tactic(auto, unfolding(crate::specs::Targets::handler_of))]
fn handler(tries: &[u32], i: usize) -> usize
    requires { 2 * i + 1 < length tries.now }
    ensures { result ≡ handler_of tries.now i }
{
    let at = 2 * i + 1;
    tries[at] as usize
}

// The marks of the handlers.
fn land_tries(tries: &[u32], n: usize, out: &mut [u8])
    requires { n + 1 ≤ length out.old }
    ensures { Lands n (handled tries.now (length tries.now / 2)) out.old out.new }
{
    let m = tries.len() / 2;
    for i in 0..m {
        land(out, n, true, handler(tries, i));
    }
}

// `targets` in accepted code.
fn fill_targets(code: &[u16], tries: &[u32], out: &mut [u8])
    requires { Whole code.now × (length code.now / 6 + 1 ≤ length out.old) }
    ensures { out.new ≡ filled_to (target_mark code.now tries.now) (length code.now / 6 + 1)
        out.old }
{
    let n = code.len() / 6;
    sections::clear_marks(out, n + 1);
    land_jumps(code, out);
    land_tries(tries, n, out);
}
