// What every call shares: why it is refused, the tests after the first in document 01's order, and what it answers.
#![tactic(auto)]

ghost use Rattle.std.specs.Prelude.{◌≡◌, not, ◌*◌, ◌<◌, min, length};
ghost use Rattle.refusals.specs.Stages.{try_kept, first_bad_try, registers_of, tried_of, inside_of, room_of};
ghost use Rattle.refusals.specs.Answers.{refusal_of, refused_of, answered, answer_of};

// Why a call is refused, with what is returned beside the number.
#[derive(Clone, Copy)]
pub enum Refusal {
    Length(usize),
    Record(usize),
    Registers(usize),
    Try(usize),
    Short { buffer: u8, needed: usize },
    Position(usize),
    Table(u8),
}

// What an exported call answers: 0 and its values, or a refusal's number and what it also returns.
#[repr(C)]
#[derive(Clone, Copy)]
pub struct Answer {
    pub refusal: u8,
    pub first: u64,
    pub second: u64,
    pub third: u64,
    pub fourth: u64,
}

// Refusal 3.
pub fn registers(v: Result<usize, Refusal>, regs: usize) -> Result<usize, Refusal>
    ensures { result ≡ registers_of v regs }
{
    let n = v?;
    if 1024 < regs {
        return Err(Refusal::Registers(regs));
    }
    Ok(n)
}

// The smaller number.
pub fn least(a: usize, b: usize) -> usize
    ensures { result ≡ min a b }
{
    a.min(b)
}

// Whether pair i of the tries breaks its rule.
#[tactic(auto, unfolding(crate::specs::Stages::try_kept))]
fn breaks_try(tries: &[u32], n: usize, i: usize) -> bool
    requires { 2 * i < length tries.now }
    ensures { result ≡ not (try_kept tries.now n i) }
{
    let at = 2 * i;
    if tries.len() <= at + 1 {
        return true;
    }
    let kept = tries[at] as usize <= n.min(tries[at + 1] as usize);
    !kept
}

// The first pair that breaks its rule, else how many there are.
#[tactic(auto, using(laws::proofs::Walk::finds), unfolding(crate::specs::Stages::first_bad_try))]
fn first_bad_try(tries: &[u32], n: usize) -> usize
    ensures { result ≡ first_bad_try tries.now n }
{
    let m = (tries.len() + 1) / 2;
    for i in 0..m {
        if breaks_try(tries, n, i) {
            return i;
        }
    }
    m
}

// Refusal 4.
pub fn tried(v: Result<usize, Refusal>, tries: &[u32]) -> Result<usize, Refusal>
    ensures { result ≡ tried_of v tries.now }
{
    let n = v?;
    let i = first_bad_try(tries, n);
    if i < (tries.len() + 1) / 2 {
        return Err(Refusal::Try(i));
    }
    Ok(n)
}

// Refusal 6.
pub fn inside(v: Result<usize, Refusal>, at: usize) -> Result<usize, Refusal>
    ensures { result ≡ inside_of v at }
{
    let n = v?;
    if at < n {
        return Ok(n);
    }
    Err(Refusal::Position(at))
}

// Refusal 5 for one buffer.
pub fn room(
    v: Result<usize, Refusal>,
    buffer: u8,
    have: usize,
    needed: usize,
) -> Result<usize, Refusal>
    ensures { result ≡ room_of v buffer have needed }
{
    let n = v?;
    if have < needed {
        return Err(Refusal::Short { buffer, needed });
    }
    Ok(n)
}

// An answer's four values.
pub fn tell(first: u64, second: u64, third: u64, fourth: u64) -> Answer
    ensures { result ≡ answer_of first second third fourth }
{
    Answer {
        refusal: 0,
        first,
        second,
        third,
        fourth,
    }
}

// A number and two values.
pub fn refuse(refusal: u8, first: u64, second: u64) -> Answer
    ensures { result ≡ refusal_of refusal first second }
{
    Answer {
        refusal,
        first,
        second,
        third: 0,
        fourth: 0,
    }
}

// A refusal by its number and values.
impl From<Refusal> for Answer {
    ghost from_gives = { λ r a. a ≡ refused_of r };

    fn from(r: Refusal) -> Answer {
        match r {
            Refusal::Length(n) => refuse(1, n as u64, 0),
            Refusal::Record(k) => refuse(2, k as u64, 0),
            Refusal::Registers(n) => refuse(3, n as u64, 0),
            Refusal::Try(k) => refuse(4, k as u64, 0),
            Refusal::Short { buffer, needed } => refuse(5, buffer as u64, needed as u64),
            Refusal::Position(k) => refuse(6, k as u64, 0),
            Refusal::Table(t) => refuse(7, t as u64, 0),
        }
    }
}

// What a call tells, or its refusal.
impl From<Result<Answer, Refusal>> for Answer {
    ghost from_gives = { λ v a. a ≡ answered v };

    fn from(v: Result<Answer, Refusal>) -> Answer {
        match v {
            Ok(a) => a,
            Err(r) => Answer::from(r),
        }
    }
}
