// The steps of a recorded trace: which moves a run may make, and the first slot of a block that breaks its rules (document 02, wish 9).
#![tactic(auto)]

ghost use Rattle.std.specs.Prelude.{◌≡◌, ◌/◌, ◌<◌, length};
ghost use Rattle.laws.specs.Page.{among};
ghost use Rattle.code.specs.Ins.{count};
ghost use Rattle.code.specs.Inner.{Whole};
ghost use Rattle.flow.specs.Kept.{handlers_of};
ghost use Rattle.moves.specs.Moves.{may_go, bad_step, first_step};

// The first slot of block b that breaks the rules of a run, else the slot past the block.
#[tactic(auto, using(crate::proofs::Moves::steps))]
pub fn first_step(code: &[u16], tries: &[u32], t: &[u8], b: usize) -> usize
    requires { Whole code.now × (b < length t.now / 512) }
    ensures { result ≡ first_step code.now tries.now t.now b }
{
    let end = 127 * b + 127;
    for s in 127 * b..end {
        if bad_step(code, tries, t, s) {
            return s;
        }
    }
    end
}

// Whether slot s breaks the rules of a run.
#[tactic(auto, unfolding(crate::specs::Moves::bad_step))]
fn bad_step(code: &[u16], tries: &[u32], t: &[u8], s: usize) -> bool
    requires { Whole code.now × (s / 127 < length t.now / 512) }
    ensures { result ≡ bad_step code.now tries.now t.now s }
{
    let n = code.len() / 6;
    let q = blocks::slot_at(t, s);
    if q == u32::MAX as usize {
        return false;
    }
    if n <= q {
        return true;
    }
    if s == 0 {
        return q != 0;
    }
    let p = blocks::slot_at(t, s - 1);
    n <= p || !may_go(code, tries, p, q)
}

// Whether a run may go from p to q: by "after", from a level to a handler around it, from a wide call straight to its store.
#[tactic(auto, using(crate::proofs::Moves::go_is))]
fn may_go(code: &[u16], tries: &[u32], p: usize, q: usize) -> bool
    requires { Whole code.now × (p < count code.now) }
    ensures { result ≡ may_go code.now tries.now p q }
{
    let n = code.len() / 6;
    let st = steps::step_of(code, n, p);
    let i = code::ins_in(code, p);
    let level = steps::level_at(i);
    let wide = i.marks % 2 == 1;
    let store = steps::store_of(code, p);
    let caught = handled(tries, n, p, q);
    (st.on & (q == p + 1)) | (st.to & (q == st.target)) | (level & caught) | (wide & (q == store))
}

// Whether q is the handler of a try around p.
#[tactic(auto, using(crate::proofs::Moves::handlings))]
fn handled(tries: &[u32], n: usize, p: usize, q: usize) -> bool
    ensures { result ≡ among q (handlers_of n p tries.now) }
{
    for i in 0..tries.len() / 2 {
        let s = tries[2 * i] as usize;
        let h = tries[2 * i + 1] as usize;
        if (s < p) & (p < h) & (q == h.min(n)) {
            return true;
        }
    }
    false
}
