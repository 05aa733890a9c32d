// What the lists of frames whose calls raise add: the registers of one list that another has not.
#![tactic(auto)]

ghost use Rattle.std.specs.Prelude.{◌≡◌, ◌≤◌, length};
ghost use Rattle.laws.specs.Page.{among};
ghost use Rattle.exposes.specs.Answers.{ExposedLeft};
ghost use Rattle.exposes.specs.Inner.{Exposes};

use refusals::Refusal;

// The registers of a list that another has not, in order, from the front of `out` on: how many; or refusal 5, where `out` is shorter than the list.
pub fn exposed(plain: &[u16], list: &[u16], out: &mut [u16]) -> Result<usize, Refusal>
    ensures { ExposedLeft plain.now list.now out.old out.new result }
{
    if out.len() < list.len() {
        return Err(Refusal::Short {
            buffer: 1,
            needed: list.len(),
        });
    }
    Ok(expose(plain, list, out))
}

// Whether a list has r. A short one is walked: the library's search costs more before it begins.
fn has_reg(l: &[u16], r: u16) -> bool
    ensures { result ≡ among r l.now }
{
    if 16 < l.len() {
        return l.contains(&r);
    }
    for i in 0..l.len() {
        if l[i] == r {
            return true;
        }
    }
    false
}

// The same, where `out` is long enough.
fn expose(plain: &[u16], list: &[u16], out: &mut [u16]) -> usize
    requires { length list.now ≤ length out.old }
    ensures { Exposes plain.now list.now out.old out.new result }
{
    let mut m = 0;
    for i in 0..list.len() {
        let r = list[i];
        if !has_reg(plain, r) {
            out[m] = r;
            m += 1;
        }
    }
    m
}
