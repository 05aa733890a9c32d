// The word route of the sweeps that join handlers: a row in one word, and the handlers' rows together for a whole stretch of positions.
#![tactic(auto)]

ghost use Rattle.std.specs.Prelude.{◌≡◌, cond, ◌||◌, suc, ◌+◌, ◌/◌, ◌%◌, ◌<◌, ◌≤◌, max, length, eqb};
ghost use Rattle.code.specs.Ins.{count};
ghost use Rattle.code.specs.Inner.{Valid};
ghost use Rattle.roles.specs.Sets.{only};
ghost use Rattle.flow.specs.Flow.{joined, row_at};
ghost use Rattle.flow.specs.Sweep.{row, Found};
ghost use Rattle.flow.specs.Inner.{Put};
ghost use Rattle.steps.specs.Code.{set_of};
ghost use Rattle.steps.specs.Level.{is_level, first_level};
ghost use Rattle.steps.specs.Inner.{given_of, after_of, calm_of, calm_step};
ghost use Rattle.flow.specs.Kept.{handlers_of};
ghost use Rattle.nested.specs.Raising.{raising, mays};
ghost use Rattle.near.specs.Inner.{more_of, more_step, Stretch, edge_of, lowest_of, Covered};

use code::Ins;
use ops::*;
use rows::Counts;
use sets::Word;
use steps::Step;

// Row k is found, with the registers `more`, and stored: whether that changed it.
#[inline(always)]
fn put_word(s: Step, regs: usize, rows: &mut [u64], k: usize, more: u64) -> bool
    requires { (regs ≤ 64) × (k + 1 < length rows.old) × (s.target < length rows.old) }
    ensures { Put (more_step more regs s) rows.old k rows.new result }
{
    let set = rows::row_word(s, regs, rows, k) | more;
    if rows[k] == set {
        return false;
    }
    rows[k] = set;
    true
}

// The handlers' rows where an instruction may raise, else none.
fn raised(i: Ins, all: bool, out: u64) -> u64
    ensures { result ≡ cond (all || is_level i) out 0 }
{
    if out == 0 {
        return 0;
    }
    if all {
        return out;
    }
    if steps::level_at(i) { out } else { 0 }
}

// The same of an instruction that is a level by its mark alone.
fn raised_by(marks: u16, all: bool, out: u64) -> u64
    ensures { result ≡ cond (all || eqb (marks / 2 % 2) 1) out 0 }
{
    if marks / 2 % 2 == 1 {
        return out;
    }
    if all { out } else { 0 }
}

// Row k is found and stored, where an instruction only reads and writes the registers that m tells; most write a and read b and c, which is 13.
fn put_calm(i: Ins, m: u8, all: bool, out: u64, regs: usize, rows: &mut [u64], k: usize) -> bool
    requires { (m ≡ calm_of i.op) × (regs ≤ 64) × (k + 1 < length rows.old) }
    ensures { Put (more_step (cond (all || is_level i) out 0) regs (calm_step i m)) rows.old k rows.new result }
{
    if m == 13 {
        let more = raised_by(i.marks, all, out);
        return put_word(steps::calm(i, 13), regs, rows, k, more);
    }
    let more = raised(i, all, out);
    put_word(steps::calm(i, m), regs, rows, k, more)
}

// What row k is joined with whole: the next row where its instruction is stranded, and where it may raise the rows of the handlers around it.
fn leaves(i: Ins, all: bool, out: u64, rows: &[u64], k: usize) -> u64
    requires { k + 1 < length rows.now }
    ensures { result ≡ more_of all out i rows.now k }
{
    let more = raised(i, all, out);
    if i.marks / 2 % 2 == 0 {
        return more;
    }
    rows::row_if(sweeps::stranded(i), rows, k + 1) | more
}

// What a stretch of a sweep told: whether a row changed, and whether a jump goes back.
#[derive(Clone, Copy)]
pub struct Went {
    pub changed: bool,
    pub back: bool,
}

// A sweep comes down from `from` to `low`, through positions with the same tries around them, whose handlers' rows are `out` together. It is
// left, and tells nothing, where a jump goes to before the start.
fn sweep_near(
    code: &[u16],
    regs: usize,
    all: bool,
    rows: &mut [u64],
    out: u64,
    start: usize,
    from: usize,
    low: usize,
) -> Option<Went>
    requires { Valid code.now × (regs ≤ 64) × (length rows.old ≡ suc (count code.now)) × (start ≤ low) × (low ≤ from) × (from ≤ count code.now) }
    ensures { Stretch all out regs code.now start from low rows.old rows.new result }
{
    let n = code.len() / 6;
    let mut changed = false;
    let mut back = false;
    for k in (low..from).rev() {
        let i = code::ins_in(code, k);
        let m = routes::calm_of(i.op);
        if m < 16 {
            changed = put_calm(i, m, all, out, regs, rows, k) | changed;
            continue;
        }
        let step = steps::step_with(code, n, k, i, m);
        if steps::goes_before(step, start) {
            return None;
        }
        let more = leaves(i, all, out, rows, k);
        changed = put_word(step, regs, rows, k, more) | changed;
        back = steps::goes_before(step, k + 1) | back;
    }
    Some(Went { changed, back })
}

// The rows of the handlers around k, together.
fn handlers_word(rows: &[u64], n: usize, k: usize, tries: &[u32]) -> u64
    requires { n < length rows.now }
    ensures { result ≡ joined (row rows.now) (handlers_of n k tries.now) }
{
    let mut out: u64 = 0;
    for i in 0..tries.len() / 2 {
        let s = tries[2 * i] as usize;
        let h = tries[2 * i + 1] as usize;
        out = out | rows::row_if(lists::around(s, k, h), rows, h.min(n));
    }
    out
}

// Down to where a try (s, h) is around all, or around none, if it is around k or is not.
fn edge(s: usize, k: usize, h: usize) -> usize
    ensures { result ≡ edge_of k s h }
{
    if k < h {
        if s < k {
            return s + 1;
        }
        return 0;
    }
    h
}

// Down to where the tries are around all that they are around at k.
fn lowest(k: usize, tries: &[u32]) -> usize
    ensures { result ≡ lowest_of k tries.now }
{
    let mut low: usize = 0;
    for i in 0..tries.len() / 2 {
        let s = tries[2 * i] as usize;
        let h = tries[2 * i + 1] as usize;
        low = low.max(edge(s, k, h));
    }
    low
}

// Positions with the same tries around them, from `low` on: the rows of their handlers, together.
#[derive(Clone, Copy)]
pub struct Cover {
    pub out: u64,
    pub low: usize,
}

// What covers k.
fn covering(rows: &[u64], n: usize, k: usize, tries: &[u32]) -> Cover
    requires { n < length rows.now }
    ensures { Covered n tries.now rows.now result.out result.low k }
{
    let out = handlers_word(rows, n, k, tries);
    let low = lowest(k, tries);
    Cover { out, low }
}

// The rows from the first level on, for 64 registers at most.
pub fn live_near(code: &[u16], regs: usize, tries: &[u32], all: bool, rows: &mut [u64]) -> Counts
    requires { Valid code.now × (regs ≤ 64) × (length rows.old ≡ suc (count code.now)) }
    ensures { Found (raising (mays all code.now) regs code.now tries.now) (first_level code.now)
        rows.new result.full result.abandoned }
{
    let n = code.len() / 6;
    let mut start = steps::first_level(code);
    let mut full: u32 = 0;
    let mut abandoned: u32 = 0;
    u64::clear(rows);
    'again: loop {
        let mut changed = false;
        let mut back = false;
        let mut k = n;
        while start < k {
            let around = covering(rows, n, k - 1, tries);
            let low = start.max(around.low);
            let Some(p) = sweep_near(code, regs, all, rows, around.out, start, k, low) else {
                u64::clear(rows);
                start = 0;
                abandoned += 1;
                continue 'again;
            };
            changed = p.changed | changed;
            back = p.back | back;
            k = low;
        }
        full += 1;
        if !(changed & back) {
            return Counts { full, abandoned };
        }
    }
}
