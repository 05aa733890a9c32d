// The constant pool: two lent buffers, a kind and a word for each constant, and their count.
#![tactic(auto, using(crate::proofs::Words::word), unfolding(crate::specs::Pool::find_or_push, crate::specs::Pool::to_val))]

ghost use Rattle.std.specs.Prelude.{◌≡◌, ◌≤◌, ◌<◌, length};
ghost use Rattle.std.specs.Float.{binary64};
ghost use Rattle.std.specs.Float.Ieee.{of_bits, to_bits};
ghost use Rattle.std.specs.Int.{w64};
ghost use Rattle.std.proofs.Common.{to_z, of_z};
ghost use Rattle.values.specs.Folds.{in_range};
ghost use Rattle.pool.specs.Pool.{to_val, const_to_val, equals, position, stored, find_or_push, find_or_push_const};
ghost use Rattle.pool.specs.Inner.{PushRoom, place};

use values::Val;

// The kind of an int.
const KIND_INT: u8 = 1;

// The kind of a float.
const KIND_FLOAT: u8 = 2;

// The kind of a bool.
const KIND_BOOL: u8 = 3;

// Onto so many constants, or more, none is pushed.
const MAX_CONSTANTS: usize = 65535;

// The first equal constant; otherwise it is pushed.
#[tactic(auto, using(crate::proofs::Words::word), unfolding(crate::specs::Pool::find_or_push_const))]
pub fn find_or_push_const(
    kinds: &mut [u8],
    words: &mut [u64],
    count: usize,
    v: Val,
) -> Option<(u16, usize)>
    requires { PushRoom kinds.old words.old count }
    ensures { stored result kinds.new words.new ≡ find_or_push_const kinds.old words.old count v }
{
    match v {
        Val::Int(i) => find_or_push(kinds, words, count, KIND_INT, i.cast_unsigned()),
        Val::Float(f) => find_or_push(kinds, words, count, KIND_FLOAT, float_to_word(f)),
        Val::Bool(_) => None,
    }
}

// The constant idx as an operand.
#[tactic(auto, using(crate::proofs::Words::word), unfolding(crate::specs::Pool::const_to_val))]
pub fn const_to_val(kinds: &[u8], words: &[u64], count: usize, idx: usize) -> Option<Val>
    requires { (count ≤ length kinds.now) × (count ≤ length words.now) }
    ensures { result ≡ const_to_val kinds.now words.now count idx }
{
    if count <= idx {
        return None;
    }
    to_val(kinds[idx], words[idx])
}

// The first constant of this kind and word; otherwise it is pushed, unless there are too many already.
fn find_or_push(
    kinds: &mut [u8],
    words: &mut [u64],
    count: usize,
    kind: u8,
    word: u64,
) -> Option<(u16, usize)>
    requires { PushRoom kinds.old words.old count }
    ensures { stored result kinds.new words.new ≡ find_or_push kinds.old words.old count kind word }
{
    if let Some(i) = find(kinds, words, count, kind, word) {
        return Some((i as u16, count));
    }
    if count >= MAX_CONSTANTS {
        return None;
    }
    kinds[count] = kind;
    words[count] = word;
    Some((count as u16, count + 1))
}

// Whether constant i is this one: the word first, which tells most apart.
fn is_at(kinds: &[u8], words: &[u64], kind: u8, word: u64, i: usize) -> bool
    requires { (i < length kinds.now) × (i < length words.now) }
    ensures { result ≡ equals kinds.now words.now kind word i }
{
    (words[i] == word) & (kinds[i] == kind)
}

// The first equal constant, if there is one. It is called: put in place, its loop took a fifth more instructions.
#[inline(never)]
fn find(kinds: &[u8], words: &[u64], count: usize, kind: u8, word: u64) -> Option<usize>
    requires { (count ≤ length kinds.now) × (count ≤ length words.now) }
    ensures { result ≡ place (position kinds.now words.now count kind word) count }
{
    for i in 0..count {
        if is_at(kinds, words, kind, word, i) {
            return Some(i);
        }
    }
    None
}

// A kind and a word as an operand.
fn to_val(kind: u8, word: u64) -> Option<Val>
    ensures { result ≡ to_val kind word }
{
    match kind {
        KIND_INT => values::in_range(word.cast_signed()),
        KIND_FLOAT => Some(Val::Float(word_to_float(word))),
        KIND_BOOL => Some(Val::Bool(word != 0)),
        _ => None,
    }
}

// A float from its bits: every NaN becomes the single one.
fn word_to_float(word: u64) -> f64
    ensures { result ≡ of_bits binary64 word }
{
    if word % 0x8000_0000_0000_0000 > 0x7FF0_0000_0000_0000 {
        return f64::NAN;
    }
    f64::from_bits(word)
}

// A float's bits, the single NaN's among them.
fn float_to_word(f: f64) -> u64
    ensures { result ≡ to_bits binary64 f }
{
    if f.is_nan() {
        return 0x7FF8_0000_0000_0000;
    }
    f.to_bits()
}
