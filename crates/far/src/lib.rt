// The wide route of the sweeps that join handlers: rows of several words.
#![tactic(auto)]

ghost use Rattle.std.specs.Prelude.{◌≡◌, true, ◌||◌, suc, ◌+◌, ◌*◌, ◌<◌, ◌≤◌, length};
ghost use Rattle.code.specs.Ins.{count};
ghost use Rattle.code.specs.Inner.{Valid};
ghost use Rattle.flow.specs.Flow.{joined, onto, row_at};
ghost use Rattle.flow.specs.Sweep.{row, Found};
ghost use Rattle.flow.specs.Inner.{Put, Holds};
ghost use Rattle.flow.specs.Words.{value, rows_of, Small};
ghost use Rattle.steps.specs.Inner.{after_of, step_flow};
ghost use Rattle.steps.specs.Level.{is_level};
ghost use Rattle.nested.specs.Raising.{stranded, leaving, raising, mays};
ghost use Rattle.far.specs.Inner.{raising_step, Quiet};

use code::Ins;
use sets::Word;
use steps::Step;

// A row as it is by itself, and where it is stranded with the next row, and where it may raise with those of the handlers around it.
fn row_raising(
    plain: [u64; 16],
    may: bool,
    past: bool,
    tries: &[u32],
    rows: &[u64],
    n: usize,
    words: usize,
    k: usize,
) -> [u64; 16]
    requires { (n ≤ 65535) × (words ≤ 16) × (k < n) × (suc n * words ≤ length rows.now) × Small 64 plain × Small 64 rows.now }
    ensures { Holds 64 result (onto (row (rows_of 64 words (suc n) rows.now)) (value 64 plain) (leaving may past n k tries.now)) }
{
    let next = sets::join_if(past, plain, rows, k + 1, words);
    if may {
        return lists::join_tries(next, rows, n, words, k, tries);
    }
    next
}

// Whether nothing leaves from an instruction: it has no mark, and no try is lent or it does not raise.
fn quiet(i: Ins, all: bool, tries: &[u32]) -> bool
    ensures { result ≡ true → Quiet all i tries.now }
{
    if i.marks / 2 % 2 == 1 {
        return false;
    }
    if tries.len() < 2 {
        return true;
    }
    if all {
        return false;
    }
    !steps::level_at(i)
}

// Row k is found and stored: whether that changed it.
fn put_raising(
    s: Step,
    i: Ins,
    all: bool,
    regs: usize,
    tries: &[u32],
    rows: &mut [u64],
    n: usize,
    words: usize,
    k: usize,
) -> bool
    requires { (n ≤ 65535) × (regs ≤ words * 64) × (words ≤ 16) × (k < n) × (s.target ≤ n) × (suc n * words ≤ length rows.old) }
    ensures { Put (raising_step (all || is_level i) (stranded i) n regs tries.now s) (rows_of 64 words (suc n) rows.old) k
        (rows_of 64 words (suc n) rows.new) result }
{
    let plain = rows::row_wide(s, regs, rows, n, words, k);
    if quiet(i, all, tries) {
        return sets::store_row(rows, k * words, words, plain);
    }
    let may = all | steps::level_at(i);
    let past = sweeps::stranded(i);
    let set = row_raising(plain, may, past, tries, rows, n, words, k);
    sets::store_row(rows, k * words, words, set)
}

// The rows from 0 on, and how many sweeps there were.
pub fn live_raising(
    code: &[u16],
    regs: usize,
    tries: &[u32],
    rows: &mut [u64],
    words: usize,
    all: bool,
) -> u32
    requires { Valid code.now × (regs ≤ words * 64) × (words ≤ 16) × (length rows.old ≡ suc (count code.now) * words) }
    ensures { Found (raising (mays all code.now) regs code.now tries.now)
        0 (rows_of 64 words (suc (count code.now)) rows.new) result 0 }
{
    let n = code.len() / 6;
    let mut full: u32 = 0;
    u64::clear(rows);
    loop {
        let mut changed = false;
        let mut back = false;
        for k in (0..n).rev() {
            let i = code::ins_in(code, k);
            let s = steps::step_of(code, n, k);
            changed = put_raising(s, i, all, regs, tries, rows, n, words, k) | changed;
            back = steps::goes_before(s, k + 1) | back;
        }
        full += 1;
        if !(changed & back) {
            return full;
        }
    }
}
