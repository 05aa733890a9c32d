// Which lists of registers the frame saver takes (document 02, wish 4: refusal 14).
#![tactic(auto)]

ghost use Rattle.std.specs.Prelude.{◌≡◌, ◌<◌, length, eqb, get_or};
ghost use Rattle.laws.specs.Some.{some};
ghost use Rattle.taken.specs.Lists.{strange, first_strange};

// The first place of the list with a register that is not in the file, or listed before; else the list's length.
#[tactic(auto, using(laws::proofs::Walk::finds), unfolding(crate::specs::Lists::first_strange))]
pub fn first_strange(list: &[u16], regs: usize) -> usize
    ensures { result ≡ first_strange regs list.now }
{
    for i in 0..list.len() {
        if is_strange(list, regs, i) {
            return i;
        }
    }
    list.len()
}

// Whether the register at place i of the list is not in the file, or listed before.
#[tactic(auto, using(crate::proofs::Lists::strange_is))]
fn is_strange(list: &[u16], regs: usize, i: usize) -> bool
    requires { i < length list.now }
    ensures { result ≡ strange regs list.now i }
{
    let twice = before(list, i);
    (regs <= usize::from(list[i])) | twice
}

// Whether the register at place i of the list stands there before i. A few are walked: the library's search costs more before it begins.
fn before(list: &[u16], i: usize) -> bool
    requires { i < length list.now }
    ensures { result ≡ some (λ j. eqb (get_or list.now j 0) (get_or list.now i 0)) i }
{
    if 16 < i {
        return list[..i].contains(&list[i]);
    }
    for j in 0..i {
        if list[j] == list[i] {
            return true;
        }
    }
    false
}
