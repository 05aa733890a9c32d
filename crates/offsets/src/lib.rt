// Whether the offsets and the list of a kept-register call fit its code (document 02, wish 12: refusal 15).
#![tactic(auto)]

ghost use Rattle.std.specs.Prelude.{◌≡◌, ◌<◌, ◌≤◌, length};
ghost use Rattle.code.specs.Ins.{count};
ghost use Rattle.code.specs.Inner.{Whole};
ghost use Rattle.offsets.specs.Offsets.{wrong, first_wrong};

// Whether the offset of place k breaks its rule, in code of n instructions with a list of so many.
#[tactic(auto, using(crate::proofs::Offsets::wrongs))]
fn is_wrong(code: &[u16], offsets: &[u32], len: usize, k: usize) -> bool
    requires { Whole code.now × (count code.now < length offsets.now) × (k ≤ count code.now) }
    ensures { result ≡ wrong code.now offsets.now len k }
{
    let here = offsets[k];
    let start = (k == 0) & (here != 0);
    if k < code.len() / 6 {
        let next = offsets[k + 1];
        let level = steps::level_at(code::ins_at(code, k));
        return start | (next < here) | (!level & (next != here));
    }
    start | (here as usize != len)
}

// The first place that breaks its rule, else n + 1.
#[tactic(auto, using(laws::proofs::Walk::finds), unfolding(crate::specs::Offsets::first_wrong))]
pub fn first_wrong(code: &[u16], offsets: &[u32], len: usize) -> usize
    requires { Whole code.now × (count code.now < length offsets.now) }
    ensures { result ≡ first_wrong code.now offsets.now len }
{
    let m = code.len() / 6 + 1;
    for k in 0..m {
        if is_wrong(code, offsets, len, k) {
            return k;
        }
    }
    m
}
