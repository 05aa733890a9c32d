// Whether a body makes a function, and whether each return of it lies outside its `try`s and `with`s (block.rs: `gen_pure`).
#![tactic(auto)]

ghost use Rattle.std.specs.Prelude.{◌≡◌};
ghost use Rattle.code.specs.Inner.{Whole};
ghost use Rattle.outside.specs.Outside.{makes, made, opens, closes, returns_from, returns_outside};

use code::Ins;
use ops::*;

// Whether i makes a function.
#[tactic(auto, unfolding(crate::specs::Outside::makes))]
fn makes(i: Ins) -> bool
    ensures { result ≡ makes i }
{
    matches!(i.op, MakeFunction | MakeCoroutine)
}

// Whether some instruction makes a function.
#[tactic(auto, using(laws::proofs::Some::somewhere, sections::proofs::There::tested_there), unfolding(crate::specs::Outside::made))]
pub fn any_makes(code: &[u16]) -> bool
    requires { Whole code.now }
    ensures { result ≡ made code.now }
{
    let n = code.len() / 6;
    for k in 0..n {
        if makes(code::ins_at(code, k)) {
            return true;
        }
    }
    false
}

// Whether i opens a `try` or a `with`.
#[tactic(auto, unfolding(crate::specs::Outside::opens))]
fn opens(i: Ins) -> bool
    ensures { result ≡ opens i }
{
    matches!(i.op, SetupExcept | SetupFinally)
}

// Whether i closes a `try` or a `with`.
#[tactic(auto, unfolding(crate::specs::Outside::closes))]
fn closes(i: Ins) -> bool
    ensures { result ≡ closes i }
{
    (i.op == PopExcept) | (i.op == WithExit) & (i.x == 2)
}

// Whether i returns.
#[tactic(auto, unfolding(crate::specs::Outside::returns_from))]
fn leaves(i: Ins) -> bool
    ensures { result ≡ returns_from i }
{
    matches!(i.op, ReturnR | ReturnValue)
}

// `returns_outside`, with what is opened and what is closed counted apart: the Rust's depth goes below 0.
pub fn returns_outside(code: &[u16]) -> bool
    requires { Whole code.now }
    ensures { result ≡ returns_outside code.now }
{
    let n = code.len() / 6;
    let mut opened: usize = 0;
    let mut closed: usize = 0;
    for k in 0..n {
        let i = code::ins_at(code, k);
        let leaves = leaves(i);
        let pushed = sections::returns_at(code, k);
        if (opened != closed) & (leaves | pushed) {
            return false;
        }
        opened += usize::from(opens(i));
        closed += usize::from(closes(i));
    }
    true
}
