// The push whose value a store takes back past a call (block.rs: `pushed_back`).
#![tactic(auto)]

ghost use Rattle.std.specs.Prelude.{◌≡◌, ◌<◌, ◌≤◌, length};
ghost use Rattle.code.specs.Ins.{count};
ghost use Rattle.code.specs.Inner.{Whole, Valid};
ghost use Rattle.stack.specs.Inner.{Narrow};
ghost use Rattle.pushes.specs.Pushes.{stores_from, call_before, taken_at, takes_back, pending, gives_back, pushed_back};
ghost use Rattle.pushes.specs.Answers.{push_answer};

use code::Ins;
use ops::*;
use refusals::Answer;

// Where the stores right before d begin.
fn stores_from(code: &[u16], d: usize) -> usize
    requires { Whole code.now }
    ensures { (result ≡ stores_from code.now d) × (result ≤ d) }
{
    for k in (0..d).rev() {
        if code::ins_at(code, k).op != StoreTopR {
            return k + 1;
        }
    }
    0
}

// The call before the stores from s on.
#[tactic(auto, unfolding(crate::specs::Pushes::call_before))]
fn call_before(code: &[u16], s: usize) -> usize
    requires { Whole code.now × (2 ≤ s) }
    ensures { (result ≡ call_before code.now s) × (result < s) }
{
    s - 1 - usize::from(code::ins_at(code, s - 1).op == ArgsR)
}

// Whether n stores may take back what p pushes under the call c, r too.
fn pending_under(c: Ins, p: Ins, n: usize, r: u16) -> bool
    ensures { result ≡ pending c p n r }
{
    let call = matches!(c.op, CallR | CallGlobalR | CallMethodR);
    let push = (p.op == PushRegs) & (p.x as usize == n);
    let pushed = (1 <= p.x) & (r == p.a) | (2 <= p.x) & (r == p.b) | (3 <= p.x) & (r == p.c);
    call & push & pushed
}

// Whether the instruction at k + i takes back what p pushed there.
#[tactic(auto, unfolding(crate::specs::Pushes::taken_at))]
fn taken_at(code: &[u16], k: usize, p: Ins, i: usize) -> bool
    requires { Whole code.now × (k ≤ length code.now) × (i < p.x) × Narrow p }
    ensures { result ≡ taken_at code.now k p i }
{
    let t = code::ins_at(code, k + i);
    let r = roles::field_of(p, (p.x as usize - 1 - i) as u8);
    (t.op == StoreTopR) & (t.a == r)
}

// Whether the stores from k on take back what p pushes.
#[tactic(auto, using(laws::proofs::Every::all), unfolding(crate::specs::Pushes::takes_back))]
fn takes_back(code: &[u16], k: usize, p: Ins) -> bool
    requires { Whole code.now × (k ≤ length code.now) × Narrow p }
    ensures { result ≡ takes_back code.now k p }
{
    for i in 0..p.x as usize {
        if !taken_at(code, k, p, i) {
            return false;
        }
    }
    true
}

// Whether the stores from s to d take back, r too, what was pushed under the call at c.
#[tactic(auto, using(stack::proofs::Accepted::narrow_at), unfolding(crate::specs::Pushes::gives_back))]
fn gives_back(code: &[u16], c: usize, s: usize, d: usize, r: u16) -> bool
    requires { Valid code.now × (0 < c) × (c < s) × (s ≤ d) × (d < count code.now) }
    ensures { result ≡ gives_back code.now c s d r }
{
    let p = code::ins_at(code, c - 1);
    let under = pending_under(code::ins_at(code, c), p, d - s, r);
    under & takes_back(code, s + 1, p)
}

// The push whose value the store at d takes back into r, past a call.
#[tactic(auto, unfolding(crate::specs::Pushes::pushed_back, crate::specs::Pushes::push_under, crate::specs::Pushes::call_before))]
pub fn pushed_back_of(code: &[u16], d: usize, r: u16) -> Option<usize>
    requires { Valid code.now × (d < count code.now) }
    ensures { result ≡ pushed_back code.now d r }
{
    let s = stores_from(code, d);
    if s < 2 {
        return None;
    }
    let c = call_before(code, s);
    if c == 0 {
        return None;
    }
    if gives_back(code, c, s, d, r) {
        return Some(c - 1);
    }
    None
}

// The push whose value the store at a position takes back into r: refusals 1, 2, 6.
#[tactic(auto, using(stack::proofs::Accepted::accepted), unfolding(crate::specs::Answers::push_answer))]
pub fn pushed_back(code: &[u16], at: usize, r: u16) -> Answer
    ensures { result ≡ push_answer code.now at r }
{
    match refusals::inside(code::check(code), at) {
        Err(q) => Answer::from(q),
        Ok(_) => match pushed_back_of(code, at, r) {
            Some(p) => refusals::tell(1, p as u64, 0, 0),
            None => refusals::tell(0, 0, 0, 0),
        },
    }
}
