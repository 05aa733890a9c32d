// The callee of a call, traced back to what last wrote its register (block.rs: `global_of`).
#![tactic(auto)]

ghost use Rattle.std.specs.Prelude.{◌≡◌, ◌<◌, ◌≤◌};
ghost use Rattle.code.specs.Ins.{count};
ghost use Rattle.code.specs.Inner.{Valid};
ghost use Rattle.callee.specs.Trace.{sets_it, passes_by, says_at, traced, global_of};
ghost use Rattle.callee.specs.Answers.{global_answer};

use code::Ins;
use ops::*;
use refusals::Answer;
use roles::Roles;

// What an instruction says of a register: nothing, that it came from an earlier push, or which module binding it holds, if that is known.
#[derive(Clone, Copy)]
pub enum Step {
    Pass,
    Back(u16),
    Tell(Option<u16>),
}

// Whether i sets register a, as the trace sees it.
#[tactic(auto, unfolding(crate::specs::Trace::sets_it))]
fn sets_it(roles: &Roles, i: Ins, a: u16) -> bool
    ensures { result ≡ sets_it i a }
{
    touch::writes_in(&roles.bytes, i, a) & (i.op != ForIterR)
}

// Whether the trace passes by i.
#[tactic(auto, unfolding(crate::specs::Trace::passes_by))]
fn passes_by(roles: &Roles, i: Ins) -> bool
    ensures { result ≡ passes_by i }
{
    roles::has_role_in(&roles.bytes, i)
        || matches!(
            i.op,
            CallSectionR | SectionR | MakeFunction | CallIsInstance
        )
}

// What the instruction at d says of register a.
#[tactic(auto, unfolding(crate::specs::Trace::says_at))]
fn step_at(roles: &Roles, code: &[u16], d: usize, a: u16) -> Step
    requires { Valid code.now × (d < count code.now) }
    ensures { result ≡ says_at code.now d a }
{
    let i = code::ins_at(code, d);
    if sets_it(roles, i, a) {
        if i.op == StoreTopR {
            return match pushes::pushed_back_of(code, d, a) {
                Some(p) => Step::Back(p as u16),
                None => Step::Tell(None),
            };
        }
        if i.op == LoadGlobalR {
            return Step::Tell(Some(i.b));
        }
        return Step::Tell(None);
    }
    if passes_by(roles, i) {
        return Step::Pass;
    }
    Step::Tell(None)
}

// A restart that is no further back than this is taken by the loop of the call that found it.
const NEAR: usize = 8192;

// What register a holds before j. Each restart is from the push that was found, at an earlier position: near j the loop goes on there, further back
// the trace calls itself. Code has at most 65,535 instructions, so no more than 8 calls are ever open.
fn trace(roles: &Roles, code: &[u16], j: usize, a: u16) -> Option<u16>
    requires { Valid code.now × (j ≤ count code.now) }
    ensures { result ≡ traced code.now a j }
{
    let mut d = j;
    while 0 < d {
        d -= 1;
        match step_at(roles, code, d, a) {
            Step::Pass => {}
            Step::Back(p) => {
                d = usize::from(p);
                if d + NEAR < j {
                    return trace(roles, code, d, a);
                }
            }
            Step::Tell(v) => return v,
        }
    }
    None
}

// The binding that the call at j calls.
#[tactic(auto, unfolding(crate::specs::Trace::global_of))]
pub fn global_at(code: &[u16], j: usize) -> Option<u16>
    requires { Valid code.now × (j < count code.now) }
    ensures { result ≡ global_of code.now j }
{
    let i = code::ins_at(code, j);
    if i.op == CallGlobalR {
        return Some(i.a);
    }
    if i.op == CallR {
        let roles = Roles::new();
        return trace(&roles, code, j, i.a);
    }
    None
}

// The module binding that the call at a position calls: refusals 1, 2, 6.
#[tactic(auto, using(stack::proofs::Accepted::accepted), unfolding(crate::specs::Answers::global_answer))]
pub fn global_of(code: &[u16], at: usize) -> Answer
    ensures { result ≡ global_answer code.now at }
{
    match refusals::inside(code::check(code), at) {
        Err(r) => Answer::from(r),
        Ok(_) => match global_at(code, at) {
            Some(b) => refusals::tell(1, u64::from(b), 0, 0),
            None => refusals::tell(0, 0, 0, 0),
        },
    }
}
