// How many `for` loops each position lies inside, in a lent buffer (block.rs: `loops_around`).
#![tactic(auto)]

ghost use Rattle.std.specs.Prelude.{◌≡◌, ◌+◌, ◌/◌, ◌<◌, ◌≤◌, length};
ghost use Rattle.laws.specs.Table.{filled_to};
ghost use Rattle.refusals.specs.Answers.{answered, Straight};
ghost use Rattle.code.specs.Inner.{Whole};
ghost use Rattle.loops.specs.Answers.{LoopsAround};
ghost use Rattle.loops.specs.Loops.{next_step, leaves_at, end_of, depth};
ghost use Rattle.loops.specs.Inner.{Added, CanGrow, Space, Zeroed, Counted};

use ops::*;
use refusals::{Answer, Refusal};

// `loops_around`: refusals 1, 2, 5.
pub fn loops_around(code: &[u16], out: &mut [u32]) -> Result<Answer, Refusal>
    ensures answer { LoopsAround code.now out.old (answered result) out.new }
    ensures straight { Straight result }
{
    refusals::room(code::check(code), 1, out.len(), code.len() / 6 + 1)?;
    fill_loops(code, out);
    Ok(refusals::tell(0, 0, 0, 0))
}

// The first step of a `for` from g on, else n.
fn next_step(code: &[u16], g: usize) -> usize
    requires { Whole code.now × (g ≤ length code.now / 6) }
    ensures { result ≡ next_step code.now g }
{
    let n = code.len() / 6;
    for k in g..n {
        let i = code::ins_at(code, k);
        if (i.op == ForIterR) | (i.op == ForIter) {
            return k;
        }
    }
    n
}

// Where the loop ends that the step at f leaves.
#[tactic(auto, unfolding(crate::specs::Loops::leaves_at))]
fn leaves_at(code: &[u16], f: usize) -> usize
    requires { Whole code.now }
    ensures { (result ≡ leaves_at code.now f) × (result ≤ length code.now / 6) }
{
    let n = code.len() / 6;
    if n <= f {
        return 0;
    }
    let i = code::ins_at(code, f);
    usize::from(i.a).min(n)
}

// Where the loop of the GetIter at g ends, else 0.
fn end_of(code: &[u16], g: usize) -> usize
    requires { Whole code.now × (g < length code.now / 6) }
    ensures { (result ≡ end_of code.now g) × (result ≤ length code.now / 6) }
{
    let i = code::ins_at(code, g);
    if i.op == GetIter {
        return leaves_at(code, next_step(code, g + 1));
    }
    0
}

// One more from a on, below b.
fn add_over(out: &mut [u32], a: usize, b: usize, m: usize)
    requires { CanGrow m a b out.old }
    ensures { Added m a b out.old out.new }
{
    for p in a..b {
        out[p] += 1;
    }
}

// The depths, from a clear buffer.
fn count_loops(code: &[u16], out: &mut [u32])
    requires { Zeroed code.now out.old }
    ensures { Counted code.now out.old out.new }
{
    let n = code.len() / 6;
    for g in 0..n {
        let e = end_of(code, g);
        add_over(out, g + 1, e, n + 1);
    }
}

// `loops_around` in accepted code.
fn fill_loops(code: &[u16], out: &mut [u32])
    requires { Space code.now out.old }
    ensures { out.new ≡ filled_to (depth code.now) (length code.now / 6 + 1) out.old }
{
    sections::clear_words(out, code.len() / 6 + 1);
    count_loops(code, out);
}
