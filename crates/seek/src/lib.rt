// The search for a use of one register along the paths of accepted code, with marks so that loops end.
#![tactic(auto)]

ghost use Rattle.std.specs.Prelude.{◌≡◌, ℕ, ◌+◌, ◌/◌, ◌<◌, ◌≤◌, length, get_or};
ghost use mir.Val.{bool_byte};
ghost use Rattle.laws.specs.Page.{among};
ghost use Rattle.steps.specs.Inner.{used_of, given_of};
ghost use Rattle.paths.specs.Inner.{pushed, Searched};
ghost use Rattle.seek.specs.Inner.{on_to, over_to, Asked, AskedRoom};

use steps::Step;

// Whether a step uses r.
fn uses(s: Step, r: u16) -> bool
    ensures { result ≡ among r (used_of s) }
{
    touch::names(s.used, s.a, s.b, s.c, r)
}

// Whether a step gives r up.
#[tactic(auto, using(touch::proofs::Written::among_append))]
fn gives(s: Step, r: u16) -> bool
    ensures { result ≡ among r (given_of s) }
{
    touch::names(s.given, s.a, s.b, s.c, r) | touch::in_run(s.b, s.run, r)
}

// The waiting stack's height with the instructions on it that come after j, by its step.
fn follow(todo: &mut [u32], top: usize, j: usize, s: Step, n: usize) -> usize
    requires { (top + 1 < length todo.old) × (n ≤ 65535) × (j < n) × (s.target ≤ n) }
    ensures { (result ≡ top + bool_byte (on_to s j n) + bool_byte (over_to s n))
        × (todo.new ≡ pushed (pushed todo.old top (j + 1) (on_to s j n)) (top + bool_byte (on_to s j n)) s.target (over_to s n)) }
{
    let next = j + 1;
    let over = s.target;
    paths::follow(
        todo,
        top,
        next as u32,
        s.on & (next < n),
        over as u32,
        s.to & (over < n),
    )
}

// Whether a path from `start` uses r before it gives it up; no mark is set at entry. Only positions of the code wait, and each is looked at once at most.
pub fn search(code: &[u16], r: u16, start: usize, seen: &mut [u8], todo: &mut [u32]) -> bool
    requires { AskedRoom code.now seen.old todo.old
        × ((j : ℕ) → j < length code.now / 6 → get_or seen.old j 0 ≡ 0) }
    ensures { Searched (Asked code.now r start) (length code.now / 6)
        seen.old todo.old result seen.new todo.new }
{
    let n = code.len() / 6;
    if n <= start {
        return false;
    }
    todo[0] = start as u32;
    let mut top = 1;
    while 0 < top {
        top -= 1;
        let j = todo[top] as usize;
        if seen[j] != 0 {
            continue;
        }
        seen[j] = 1;
        let s = steps::step_of(code, n, j);
        if uses(s, r) {
            return true;
        }
        if gives(s, r) {
            continue;
        }
        top = follow(todo, top, j, s, n);
    }
    false
}
