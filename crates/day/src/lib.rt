// Replay of a survey day: a trace is judged, then its reads and levels are counted (document 02, wish 9).
#![tactic(auto)]

ghost use Rattle.std.specs.Prelude.{◌≡◌, ◌<◌, ◌≤◌, length};
ghost use Rattle.code.specs.Ins.{count};
ghost use Rattle.code.specs.Inner.{Whole};
ghost use Rattle.day.specs.declared.DayRefusal.TheVariants.{Call, Trace};
ghost use Rattle.day.specs.Answers.{day_refused, day_told};
ghost use Rattle.day.specs.Day.{replay_stages, Day};
ghost use Rattle.day.specs.Inner.{CanRise, Lower, CountedOnce, Stepped, ZeroReads, Tallied, Walkable};

use refusals::{Answer, Refusal};
use trace::Wrong;

// Why there is no report: the call's own tests, or what is wrong with the trace.
#[derive(Clone, Copy)]
pub enum DayRefusal {
    Call(Refusal),
    Trace(Wrong),
}

// A test of the call.
impl From<Refusal> for DayRefusal {
    ghost from_gives = { λ r e. e ≡ Call r };

    fn from(r: Refusal) -> DayRefusal {
        Self::Call(r)
    }
}

// What is wrong with the trace.
impl From<Wrong> for DayRefusal {
    ghost from_gives = { λ w e. e ≡ Trace w };

    fn from(w: Wrong) -> DayRefusal {
        Self::Trace(w)
    }
}

// A refusal by its number and values.
impl From<DayRefusal> for Answer {
    ghost from_gives = { λ r a. a ≡ day_refused r };

    fn from(r: DayRefusal) -> Answer {
        match r {
            DayRefusal::Call(r) => Answer::from(r),
            DayRefusal::Trace(Wrong::Check(b)) => refusals::refuse(10, b as u64, 0),
            DayRefusal::Trace(Wrong::Filler(b)) => refusals::refuse(11, b as u64, 0),
            DayRefusal::Trace(Wrong::Move(s)) => refusals::refuse(12, s as u64, 0),
        }
    }
}

// What the exported call answers: steps and levels met, or why there is no report.
pub fn told(a: Result<(usize, usize), DayRefusal>) -> Answer
    ensures { result ≡ day_told a }
{
    match a {
        Ok((steps, levels)) => refusals::tell(steps as u64, levels as u64, 0, 0),
        Err(r) => Answer::from(r),
    }
}

// A recorded day is replayed: steps and levels met, and the reads of each register in the lent buffer.
#[tactic(auto, using(crate::proofs::Days::days))]
pub fn day(
    code: &[u16],
    regs: usize,
    tries: &[u32],
    t: &[u8],
    reads: &mut [u64],
) -> Result<(usize, usize), DayRefusal>
    ensures { Day code.now regs tries.now t.now reads.old reads.new result }
{
    staged(code, regs, tries, reads.len())?;
    trace::judge(code, tries, t)?;
    let m = blocks::steps_of(t);
    let levels = count_all(reads, regs, code, t, m);
    Ok((m, levels))
}

// What is tested before the trace is read.
#[tactic(auto, unfolding(crate::specs::Day::replay_stages))]
fn staged(code: &[u16], regs: usize, tries: &[u32], reads: usize) -> Result<usize, Refusal>
    ensures { result ≡ replay_stages code.now regs tries.now reads }
{
    let v = refusals::registers(code::check(code), regs);
    refusals::room(refusals::tried(v, tries), 1, reads, regs)
}

// Register r is read once more, if t says so.
#[tactic(auto, using(crate::proofs::Counts::bumps))]
fn once_more(reads: &mut [u64], regs: usize, t: bool, r: usize)
    requires { CanRise regs reads.old }
    ensures { CountedOnce regs reads.old reads.new t r }
{
    if t && r < regs {
        reads[r] += 1;
    }
}

// The registers that the step at k uses are read once more, each once.
fn count_step(reads: &mut [u64], regs: usize, code: &[u16], k: usize)
    requires { Whole code.now × (k < count code.now) × Lower regs reads.old }
    ensures { Stepped regs reads.old reads.new code.now k }
{
    let st = steps::step_of(code, code.len() / 6, k);
    let (a, b, c) = (usize::from(st.a), usize::from(st.b), usize::from(st.c));
    let first = st.used / 2 % 2 == 1;
    let second = st.used / 4 % 2 == 1;
    let third = st.used / 8 % 2 == 1;
    once_more(reads, regs, first, a);
    once_more(reads, regs, second & !(first & (b == a)), b);
    once_more(
        reads,
        regs,
        third & !(first & (c == a)) & !(second & (c == b)),
        c,
    );
}

// The reads of so many steps, and how many of them are levels.
#[tactic(auto, using(crate::proofs::Counts::zeros_of, crate::proofs::Counts::counted_over))]
fn count_all(reads: &mut [u64], regs: usize, code: &[u16], t: &[u8], steps: usize) -> usize
    requires { Walkable code.now t.now steps × (regs ≤ length reads.old) }
    ensures { Tallied code.now t.now regs reads.old steps reads.new result }
{
    reads[..regs].fill(0);
    tally(reads, regs, code, t, steps)
}

// The same, from reads that are all 0.
fn tally(reads: &mut [u64], regs: usize, code: &[u16], t: &[u8], steps: usize) -> usize
    requires { Walkable code.now t.now steps × ZeroReads regs reads.old }
    ensures { Tallied code.now t.now regs reads.old steps reads.new result }
{
    let mut levels = 0;
    for s in 0..steps {
        let k = blocks::slot_at(t, s);
        count_step(reads, regs, code, k);
        levels += usize::from(steps::level_at(code::ins_at(code, k)));
    }
    levels
}
