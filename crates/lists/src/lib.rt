// The registers of a set, counted and listed, and those that the handlers around a position add.
#![tactic(auto)]

ghost use Rattle.std.specs.Prelude.{◌≡◌, ◌&&◌, [], ◌∷◌, suc, ◌+◌, ◌*◌, ◌^◌, ◌<◌, ◌≤◌, length, take, drop, ltb};
ghost use Rattle.std.specs.Int.Bits.{bit_or};
ghost use Rattle.flow.specs.Set.{minus};
ghost use Rattle.flow.specs.Flow.{joined};
ghost use Rattle.flow.specs.Sweep.{row};
ghost use Rattle.flow.specs.Listed.{listed};
ghost use Rattle.flow.specs.Inner.{Listing, Holds};
ghost use Rattle.flow.specs.Words.{value, rows_of, Small};
ghost use Rattle.flow.specs.Kept.{handlers_of, added};

use sets::Word;

// The row that starts at `at`, less a set.
fn less_row<W: Word>(rows: &[W], at: usize, words: usize, less: W::Set) -> W::Set
    requires { (words ≤ W.WORDS) × (at + words ≤ length rows.now) × Small W.BITS (W.words_of less) × Small W.BITS (W.nums rows.now) }
    ensures { Holds W.BITS (W.words_of result) (minus (value W.BITS (take words (drop at (W.nums rows.now)))) (value W.BITS (W.words_of less))) }
{
    let mut out = W::empty();
    for j in 0..words {
        let word = rows[at + j].less(W::word(&less, j));
        W::put(&mut out, j, word);
    }
    out
}

// The registers of a word whose lowest bit is register `base`, ascending, from m on: the place past the last.
fn list_word<W: Word>(word: W, base: u16, out: &mut [u16], m: usize) -> usize
    requires { (base ≤ 1024) × (W.num word < 2 ^ W.BITS) × (m + length (listed W.BITS base (W.num word)) ≤ length out.old) }
    ensures { Listing (listed W.BITS base (W.num word)) out.old m out.new result }
{
    let mut rest = word;
    let mut n = m;
    while !rest.is_none() {
        out[n] = base + rest.lowest();
        rest = rest.others();
        n += 1;
    }
    n
}

// The registers of a set, ascending, from m on: the place past the last.
pub fn list_set<W: Word>(set: W::Set, words: usize, out: &mut [u16], m: usize) -> usize
    requires { (words ≤ W.WORDS) × Small W.BITS (W.words_of set) × (m + length (listed (words * W.BITS) 0 (value W.BITS (W.words_of set))) ≤ length out.old) }
    ensures { Listing (listed (words * W.BITS) 0 (value W.BITS (W.words_of set))) out.old m out.new result }
{
    W::sized(&set);
    let mut n = m;
    for j in 0..words {
        n = list_word(W::word(&set, j), (W::BITS * j) as u16, out, n);
    }
    n
}

// How many registers a set has.
pub fn count_set<W: Word>(set: W::Set, words: usize) -> usize
    requires { (words ≤ W.WORDS) × Small W.BITS (W.words_of set) }
    ensures { result ≡ length (listed (words * W.BITS) 0 (value W.BITS (W.words_of set))) }
{
    W::sized(&set);
    let mut n = 0;
    for j in 0..words {
        n += W::word(&set, j).count();
    }
    n
}

// A word of the tries as a position.
pub fn wide_of(x: u32) -> usize
    ensures { result ≡ x }
{
    x as usize
}

// Whether the try (s, h) is around k.
pub fn around(s: usize, k: usize, h: usize) -> bool
    ensures { result ≡ ltb s k && ltb k h }
{
    (s < k) & (k < h)
}

// A set and the row of the handler of the try (s, h), if it is around k, together.
fn join_try<W: Word>(
    seen: W::Set,
    rows: &[W],
    n: usize,
    words: usize,
    k: usize,
    s: usize,
    h: usize,
) -> W::Set
    requires { (n ≤ 65535) × (words ≤ W.WORDS) × (suc n * words ≤ length rows.now) × Small W.BITS (W.words_of seen) × Small W.BITS (W.nums rows.now) }
    ensures { Holds W.BITS (W.words_of result) (bit_or (value W.BITS (W.words_of seen)) (joined (row (rows_of W.BITS words (suc n) (W.nums rows.now)))
        (handlers_of n k (s ∷ h ∷ [])))) }
{
    if around(s, k, h) {
        return sets::join_row(seen, rows, refusals::least(h, n) * words, words);
    }
    seen
}

// What that handler adds to the registers seen, from m on: the place past the last.
fn list_try<W: Word>(
    seen: W::Set,
    rows: &[W],
    n: usize,
    words: usize,
    k: usize,
    s: usize,
    h: usize,
    out: &mut [u16],
    m: usize,
) -> usize
    requires { (n ≤ 65535) × (words ≤ W.WORDS) × (suc n * words ≤ length rows.now) × Small W.BITS (W.words_of seen) × Small W.BITS (W.nums rows.now)
        × (m + length (added (words * W.BITS) (row (rows_of W.BITS words (suc n) (W.nums rows.now))) (value W.BITS (W.words_of seen)) (handlers_of n k
        (s ∷ h ∷ []))) ≤ length out.old) }
    ensures { Listing (added (words * W.BITS) (row (rows_of W.BITS words (suc n) (W.nums rows.now))) (value W.BITS (W.words_of seen)) (handlers_of n k (s ∷ h ∷ [])))
        out.old m out.new result }
{
    if around(s, k, h) {
        let more = less_row(rows, refusals::least(h, n) * words, words, seen);
        return list_set::<W>(more, words, out, m);
    }
    m
}

// A set and the rows of the handlers around k, together.
pub fn join_tries<W: Word>(
    seen: W::Set,
    rows: &[W],
    n: usize,
    words: usize,
    k: usize,
    tries: &[u32],
) -> W::Set
    requires { (n ≤ 65535) × (words ≤ W.WORDS) × (suc n * words ≤ length rows.now) × Small W.BITS (W.words_of seen) × Small W.BITS (W.nums rows.now) }
    ensures { Holds W.BITS (W.words_of result) (bit_or (value W.BITS (W.words_of seen)) (joined (row (rows_of W.BITS words (suc n) (W.nums rows.now)))
        (handlers_of n k tries.now))) }
{
    let mut all = seen;
    let mut i = 0;
    while i + 1 < tries.len() {
        let s = wide_of(tries[i]);
        let h = wide_of(tries[i + 1]);
        if around(s, k, h) {
            let more = join_try(all, rows, n, words, k, s, h);
            all = more;
        }
        i += 2;
    }
    all
}

// What the handlers around k add to the registers seen, from m on: the place past the last.
pub fn list_tries<W: Word>(
    seen: W::Set,
    rows: &[W],
    n: usize,
    words: usize,
    k: usize,
    tries: &[u32],
    out: &mut [u16],
    m: usize,
) -> usize
    requires { (n ≤ 65535) × (words ≤ W.WORDS) × (suc n * words ≤ length rows.now) × Small W.BITS (W.words_of seen) × Small W.BITS (W.nums rows.now)
        × (m + length (added (words * W.BITS) (row (rows_of W.BITS words (suc n) (W.nums rows.now))) (value W.BITS (W.words_of seen))
        (handlers_of n k tries.now)) ≤ length out.old) }
    ensures { Listing (added (words * W.BITS) (row (rows_of W.BITS words (suc n) (W.nums rows.now))) (value W.BITS (W.words_of seen)) (handlers_of n k tries.now))
        out.old m out.new result }
{
    let mut all = seen;
    let mut at = m;
    let mut i = 0;
    while i + 1 < tries.len() {
        let s = wide_of(tries[i]);
        let h = wide_of(tries[i + 1]);
        if around(s, k, h) {
            at = list_try(all, rows, n, words, k, s, h, out, at);
            let more = join_try(all, rows, n, words, k, s, h);
            all = more;
        }
        i += 2;
    }
    at
}
