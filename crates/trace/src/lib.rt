// A recorded trace judged: whether it is a run of the code, and what is wrong first (document 02, wish 9).
#![tactic(auto)]

ghost use Rattle.std.specs.Prelude.{◌≡◌, ◌+◌, ◌/◌, ◌<◌};
ghost use Rattle.code.specs.Inner.{Whole};
ghost use Rattle.trace.specs.Trace.{verdict_of};

// What is wrong first with a trace that is no run, with its block or step.
#[derive(Clone, Copy)]
pub enum Wrong {
    Check(usize),
    Filler(usize),
    Move(usize),
}

// Block by block, and in each in this order: its check, its fillers, its steps.
#[tactic(auto, using(crate::proofs::Calls::judgings))]
pub fn judge(code: &[u16], tries: &[u32], t: &[u8]) -> Result<(), Wrong>
    requires { Whole code.now }
    ensures { result ≡ verdict_of code.now tries.now t.now }
{
    let blocks = t.len() / 512;
    for b in 0..blocks {
        if blocks::bad_check(t, b) {
            return Err(Wrong::Check(b));
        }
        if blocks::bad_fill(t, b) {
            return Err(Wrong::Filler(b));
        }
        let s = moves::first_step(code, tries, t, b);
        if s < 127 * b + 127 {
            return Err(Wrong::Move(s));
        }
    }
    if t.len() % 512 != 0 {
        return Err(Wrong::Check(blocks));
    }
    Ok(())
}
