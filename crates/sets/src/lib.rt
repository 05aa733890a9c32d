// Sets of registers, in one word and in several: with registers and without them, joined with a row of a buffer, and stored in one.
#![tactic(auto)]

ghost use Rattle.std.specs.Prelude.{List, ℕ, ◌≡◌, cond, ◌+◌, ◌-◌, ◌*◌, ◌^◌, ◌≤◌, ◌<◌, eqb, length, get_or, count_ones, set as set_at, replicate, take, drop};
ghost use Rattle.std.specs.Int.Bits.{bit_and, bit_or};
ghost use lib.Count.{count_trailing_zeros};
ghost use Rattle.roles.specs.Sets.{only, from};
ghost use Rattle.flow.specs.Set.{minus};
ghost use Rattle.flow.specs.Words.{value, Small};
ghost use Rattle.flow.specs.Inner.{window, Holds, WordsStored};
ghost use Rattle.steps.specs.Code.{set_of};
ghost use Rattle.steps.specs.Step.{named};
ghost use Rattle.sets.specs.Word.{Width, Numbered, plain, width_64, width_32};

// A word, for as many registers as it has bits; so many of them are a set of 1,024.
pub trait Word: Copy {
    ghost BITS: { ℕ };

    ghost WORDS: { ℕ };

    type Set: Copy;

    // The number of a word, those of several, and those of a set's words.
    ghost num: { Self → ℕ };

    ghost nums: { List Self → List ℕ };

    ghost words_of: { Self.Set → List ℕ };

    const BITS: usize;

    // No register.
    fn none() -> Self
        ensures { num result ≡ 0 };

    // Register r.
    fn bit(r: usize) -> Self
        requires { r < BITS }
        ensures { num result ≡ 2 ^ r };

    // The registers of either.
    fn or(self, other: Self) -> Self
        ensures { num result ≡ bit_or (num self) (num other) };

    // The registers without those of another.
    fn less(self, other: Self) -> Self
        ensures { num result ≡ minus (num self) (num other) };

    // Whether both have the same registers.
    fn same(self, other: Self) -> bool
        ensures { result ≡ eqb (num self) (num other) };

    // Whether it has no register, how many it has, its lowest, and the others.
    fn is_none(self) -> bool
        ensures { result ≡ eqb (num self) 0 };

    fn count(self) -> usize
        ensures { result ≡ count_ones (num self) };

    fn lowest(self) -> u16
        requires { 0 < num self }
        ensures { result ≡ count_trailing_zeros BITS (num self) };

    fn others(self) -> Self
        requires { 0 < num self }
        ensures { num result ≡ bit_and (num self) (num self - 1) };

    // Each word becomes none.
    fn clear(words: &mut [Self])
        ensures { nums words.new ≡ replicate (length words.old) 0 };

    // No word has more bits than its type: no code, but what proofs rely on.
    fn bounded(words: &[Self])
        ensures { Small BITS (nums words.now) };

    // The empty set.
    fn empty() -> Self::Set
        ensures { words_of result ≡ replicate WORDS 0 };

    // Word j of a set.
    fn word(set: &Self::Set, j: usize) -> Self
        requires { j < WORDS }
        ensures { num result ≡ get_or (words_of set.now) j 0 };

    // Word j of a set becomes another.
    fn put(set: &mut Self::Set, j: usize, x: Self)
        requires { j < WORDS }
        ensures { words_of set.new ≡ set_at (words_of set.old) j (num x) };

    // A set has its count of words, each of its bits: no code, but what proofs rely on.
    fn sized(set: &Self::Set)
        ensures { (length (words_of set.now) ≡ WORDS) × Small BITS (words_of set.now) };

    ghost width: { Width BITS WORDS };

    ghost numbered: { Numbered num nums };
}

impl Word for u64 {
    ghost BITS = { 64 };

    ghost WORDS = { 16 };

    type Set = [u64; 16];

    ghost num = { λ x. x };

    ghost nums = { λ xs. xs };

    ghost words_of = { λ xs. xs };

    const BITS: usize = 64;

    #[inline(always)]
    fn none() -> u64 {
        0
    }

    #[inline(always)]
    fn bit(r: usize) -> u64 {
        1u64 << r
    }

    #[inline(always)]
    fn or(self, other: u64) -> u64 {
        self | other
    }

    #[inline(always)]
    fn less(self, other: u64) -> u64 {
        self & !other
    }

    #[inline(always)]
    fn same(self, other: u64) -> bool {
        self == other
    }

    #[inline(always)]
    fn is_none(self) -> bool {
        self == 0
    }

    #[inline(always)]
    fn count(self) -> usize {
        u64::count_ones(self) as usize
    }

    #[inline(always)]
    fn lowest(self) -> u16 {
        u64::trailing_zeros(self) as u16
    }

    #[inline(always)]
    fn others(self) -> u64 {
        self & (self - 1)
    }

    #[inline(always)]
    fn clear(words: &mut [u64]) {
        words.fill(0);
    }

    #[inline(always)]
    fn bounded(_words: &[u64]) {}

    #[inline(always)]
    fn empty() -> [u64; 16] {
        [0; 16]
    }

    #[inline(always)]
    fn word(set: &[u64; 16], j: usize) -> u64 {
        set[j]
    }

    #[inline(always)]
    fn put(set: &mut [u64; 16], j: usize, x: u64) {
        set[j] = x;
    }

    #[inline(always)]
    fn sized(set: &[u64; 16]) {
        u64::bounded(set);
    }

    ghost width = { width_64 };

    ghost numbered = { plain };
}

impl Word for u32 {
    ghost BITS = { 32 };

    ghost WORDS = { 32 };

    type Set = [u32; 32];

    ghost num = { λ x. x };

    ghost nums = { λ xs. xs };

    ghost words_of = { λ xs. xs };

    const BITS: usize = 32;

    #[inline(always)]
    fn none() -> u32 {
        0
    }

    #[inline(always)]
    fn bit(r: usize) -> u32 {
        1u32 << r
    }

    #[inline(always)]
    fn or(self, other: u32) -> u32 {
        self | other
    }

    #[inline(always)]
    fn less(self, other: u32) -> u32 {
        self & !other
    }

    #[inline(always)]
    fn same(self, other: u32) -> bool {
        self == other
    }

    #[inline(always)]
    fn is_none(self) -> bool {
        self == 0
    }

    #[inline(always)]
    fn count(self) -> usize {
        u32::count_ones(self) as usize
    }

    #[inline(always)]
    fn lowest(self) -> u16 {
        u32::trailing_zeros(self) as u16
    }

    #[inline(always)]
    fn others(self) -> u32 {
        self & (self - 1)
    }

    #[inline(always)]
    fn clear(words: &mut [u32]) {
        words.fill(0);
    }

    #[inline(always)]
    fn bounded(_words: &[u32]) {}

    #[inline(always)]
    fn empty() -> [u32; 32] {
        [0; 32]
    }

    #[inline(always)]
    fn word(set: &[u32; 32], j: usize) -> u32 {
        set[j]
    }

    #[inline(always)]
    fn put(set: &mut [u32; 32], j: usize, x: u32) {
        set[j] = x;
    }

    #[inline(always)]
    fn sized(set: &[u32; 32]) {
        u32::bounded(set);
    }

    ghost width = { width_32 };

    ghost numbered = { plain };
}

// Register r, if, and if there is such a register.
fn reg_word<W: Word>(t: bool, regs: usize, r: usize) -> W
    requires { regs ≤ W.BITS }
    ensures { W.num result ≡ set_of regs (only t r) }
{
    if t & (r < regs) { W::bit(r) } else { W::none() }
}

// Those of three registers that a mask names.
pub fn named_word<W: Word>(regs: usize, mask: u8, a: u16, b: u16, c: u16) -> W
    requires { regs ≤ W.BITS }
    ensures { W.num result ≡ set_of regs (named mask a b c) }
{
    let p: W = reg_word(mask / 2 % 2 == 1, regs, usize::from(a));
    let q: W = reg_word(mask / 4 % 2 == 1, regs, usize::from(b));
    let r: W = reg_word(mask / 8 % 2 == 1, regs, usize::from(c));
    p.or(q).or(r)
}

// The `run` registers from b on.
pub fn run_word<W: Word>(regs: usize, b: usize, run: u8) -> W
    requires { (regs ≤ W.BITS) × (b + run ≤ 65790) }
    ensures { W.num result ≡ set_of regs (from b run) }
{
    let mut all = W::none();
    for i in 0..usize::from(run) {
        all = all.or(reg_word(true, regs, b + i));
    }
    all
}

// A set and the row that starts at `at`, together.
pub fn join_row<W: Word>(set: W::Set, rows: &[W], at: usize, words: usize) -> W::Set
    requires { (words ≤ W.WORDS) × (at + words ≤ length rows.now) × Small W.BITS (W.words_of set) × Small W.BITS (W.nums rows.now) }
    ensures { Holds W.BITS (W.words_of result) (bit_or (value W.BITS (W.words_of set)) (value W.BITS (take words (drop at (W.nums rows.now))))) }
{
    W::sized(&set);
    let mut out = set;
    for j in 0..words {
        let word = W::word(&out, j).or(rows[at + j]);
        W::put(&mut out, j, word);
    }
    out
}

// A set and row k, if, together.
pub fn join_if<W: Word>(t: bool, set: W::Set, rows: &[W], k: usize, words: usize) -> W::Set
    requires { (words ≤ W.WORDS) × (k * words + words ≤ length rows.now) × Small W.BITS (W.words_of set) × Small W.BITS (W.nums rows.now) }
    ensures { Holds W.BITS (W.words_of result) (bit_or (value W.BITS (W.words_of set)) (cond t (value W.BITS (window words k (W.nums rows.now))) 0)) }
{
    if t {
        return join_row(set, rows, k * words, words);
    }
    set
}

// A set with a register, if, and if there is such a register.
fn with_reg<W: Word>(set: W::Set, t: bool, regs: usize, reg: usize) -> W::Set
    requires { (regs ≤ 1024) × Small W.BITS (W.words_of set) }
    ensures { Holds W.BITS (W.words_of result) (bit_or (value W.BITS (W.words_of set)) (set_of regs (only t reg))) }
{
    W::sized(&set);
    let mut out = set;
    if t & (reg < regs) {
        let j = reg / W::BITS;
        let word = W::word(&out, j).or(W::bit(reg % W::BITS));
        W::put(&mut out, j, word);
    }
    out
}

// A set without a register, if, and if there is such a register.
pub fn without_reg<W: Word>(set: W::Set, t: bool, regs: usize, reg: usize) -> W::Set
    requires { (regs ≤ 1024) × Small W.BITS (W.words_of set) }
    ensures { Holds W.BITS (W.words_of result) (minus (value W.BITS (W.words_of set)) (set_of regs (only t reg))) }
{
    W::sized(&set);
    let mut out = set;
    if t & (reg < regs) {
        let j = reg / W::BITS;
        let word = W::word(&out, j).less(W::bit(reg % W::BITS));
        W::put(&mut out, j, word);
    }
    out
}

// A set with those of three registers that a mask names.
pub fn with_named<W: Word>(set: W::Set, regs: usize, mask: u8, a: u16, b: u16, c: u16) -> W::Set
    requires { (regs ≤ 1024) × Small W.BITS (W.words_of set) }
    ensures { Holds W.BITS (W.words_of result) (bit_or (value W.BITS (W.words_of set)) (set_of regs (named mask a b c))) }
{
    let p = with_reg::<W>(set, mask / 2 % 2 == 1, regs, usize::from(a));
    let q = with_reg::<W>(p, mask / 4 % 2 == 1, regs, usize::from(b));
    with_reg::<W>(q, mask / 8 % 2 == 1, regs, usize::from(c))
}

// A set without those of three registers that a mask names.
pub fn without_named<W: Word>(set: W::Set, regs: usize, mask: u8, a: u16, b: u16, c: u16) -> W::Set
    requires { (regs ≤ 1024) × Small W.BITS (W.words_of set) }
    ensures { Holds W.BITS (W.words_of result) (minus (value W.BITS (W.words_of set)) (set_of regs (named mask a b c))) }
{
    let p = without_reg::<W>(set, mask / 2 % 2 == 1, regs, usize::from(a));
    let q = without_reg::<W>(p, mask / 4 % 2 == 1, regs, usize::from(b));
    without_reg::<W>(q, mask / 8 % 2 == 1, regs, usize::from(c))
}

// A set without the `run` registers from b on.
pub fn without_run<W: Word>(set: W::Set, regs: usize, b: usize, run: u8) -> W::Set
    requires { (regs ≤ 1024) × (b + run ≤ 65790) × Small W.BITS (W.words_of set) }
    ensures { Holds W.BITS (W.words_of result) (minus (value W.BITS (W.words_of set)) (set_of regs (from b run))) }
{
    let mut rest = set;
    for i in 0..usize::from(run) {
        rest = without_reg::<W>(rest, true, regs, b + i);
    }
    rest
}

// The words of a set are stored in the row that starts at `at`: whether that changed one.
pub fn store_row<W: Word>(rows: &mut [W], at: usize, words: usize, set: W::Set) -> bool
    requires { (words ≤ W.WORDS) × (at + words ≤ length rows.old) }
    ensures { WordsStored (W.nums rows.old) at words (W.words_of set) (W.nums rows.new) result }
{
    let mut changed = false;
    for j in 0..words {
        let word = W::word(&set, j);
        changed = !rows[at + j].same(word) | changed;
        rows[at + j] = word;
    }
    changed
}
