// What folds compute: each constant is an int, a float or a bool, with its number inside.
#![tactic(auto, using(crate::proofs::Word::word), unfolding(crate::specs::Folds::ints, crate::specs::Folds::quotient, crate::specs::Folds::remainder))]

ghost use Rattle.std.specs.Prelude.{◌≡◌, nat_abs, neg_ℤ};
ghost use Rattle.std.specs.Float.{binary64};
ghost use Rattle.std.specs.Float.Ieee.{of_int};
ghost use Rattle.values.specs.Python.{shift_up, shift_down};
ghost use Rattle.values.specs.Folds.{SmallInt, in_range, divmod, shifted, ints, floats, fold_not, fold_neg, fold_binop};
ghost use Rattle.values.specs.Inner.{SoundInt};

// What folds compute with: an operand, or a result.
#[derive(Clone, Copy)]
pub enum Val {
    Int(i64),
    Float(f64),
    Bool(bool),
}

// The operators of two operands.
#[derive(Clone, Copy)]
pub enum Op {
    Add,
    Sub,
    Mul,
    Div,
    Mod,
    FloorDiv,
    Eq,
    NotEq,
    Lt,
    Gt,
    LtEq,
    GtEq,
    BitAnd,
    BitOr,
    BitXor,
    Shl,
    Shr,
}

// The least int in range.
const INT_MIN: i64 = -140_737_488_355_328;

// The greatest int in range.
const INT_MAX: i64 = 140_737_488_355_327;

// The most places that a shift may go.
const MAX_SHIFT: i64 = 62;

// Not: whether a number is zero, and the opposite of a bool.
#[tactic(auto, using(crate::proofs::Word::word), unfolding(crate::specs::Folds::fold_not))]
pub fn fold_not(v: Val) -> Option<Val>
    requires { SoundInt v }
    ensures { result ≡ fold_not v }
{
    match v {
        Val::Bool(b) => Some(Val::Bool(!b)),
        Val::Int(i) => Some(Val::Bool(i == 0)),
        Val::Float(f) => Some(Val::Bool(f == 0.0)),
    }
}

// Minus: the opposite of a number, an int's within the range; a bool has none.
#[tactic(auto, using(crate::proofs::Word::word), unfolding(crate::specs::Folds::fold_neg))]
pub fn fold_neg(v: Val) -> Option<Val>
    requires { SoundInt v }
    ensures { result ≡ fold_neg v }
{
    match v {
        Val::Int(i) => checked_neg(i),
        Val::Float(f) => Some(Val::Float(-f)),
        Val::Bool(_) => None,
    }
}

// An operator over two operands: an int beside a float becomes one, and a bool is no operand.
#[tactic(auto, using(crate::proofs::Word::word), unfolding(crate::specs::Folds::fold_binop))]
pub fn fold_binop(op: Op, a: Val, b: Val) -> Option<Val>
    requires { SoundInt a × SoundInt b }
    ensures { result ≡ fold_binop op a b }
{
    match (a, b) {
        (Val::Int(a), Val::Int(b)) => fold_ints(op, a, b),
        (Val::Int(a), Val::Float(b)) => fold_floats(op, as_f64(a), b),
        (Val::Float(a), Val::Int(b)) => fold_floats(op, a, as_f64(b)),
        (Val::Float(a), Val::Float(b)) => fold_floats(op, a, b),
        _ => None,
    }
}

// An int as a float, exactly.
fn as_f64(i: i64) -> f64
    requires { SmallInt i }
    ensures { result ≡ of_int binary64 i }
{
    i as f64
}

// Two ints, by Python's rules.
fn fold_ints(op: Op, a: i64, b: i64) -> Option<Val>
    requires { SmallInt a × SmallInt b }
    ensures { result ≡ ints op a b }
{
    match op {
        Op::Add => checked_add(a, b),
        Op::Sub => checked_sub(a, b),
        Op::Mul => checked_mul(a, b),
        Op::Div => None,
        Op::Mod => checked_mod(a, b),
        Op::FloorDiv => checked_div(a, b),
        Op::Eq => Some(Val::Bool(a == b)),
        Op::NotEq => Some(Val::Bool(a != b)),
        Op::Lt => Some(Val::Bool(a < b)),
        Op::Gt => Some(Val::Bool(a > b)),
        Op::LtEq => Some(Val::Bool(a <= b)),
        Op::GtEq => Some(Val::Bool(a >= b)),
        Op::BitAnd => in_range(a & b),
        Op::BitOr => in_range(a | b),
        Op::BitXor => in_range(a ^ b),
        Op::Shl => checked_shl(a, b),
        Op::Shr => checked_shr(a, b),
    }
}

// Two floats, by IEEE 754: each operation rounds once.
#[tactic(auto, unfolding(crate::specs::Folds::floats))]
fn fold_floats(op: Op, x: f64, y: f64) -> Option<Val>
    ensures { result ≡ floats op x y }
{
    match op {
        Op::Add => Some(Val::Float(x + y)),
        Op::Sub => Some(Val::Float(x - y)),
        Op::Mul => Some(Val::Float(x * y)),
        Op::Div => {
            if y == 0.0 {
                None
            } else {
                Some(Val::Float(x / y))
            }
        }
        Op::Eq => Some(Val::Bool(x == y)),
        Op::NotEq => Some(Val::Bool(x != y)),
        Op::Lt => Some(Val::Bool(x < y)),
        Op::Gt => Some(Val::Bool(x > y)),
        Op::LtEq => Some(Val::Bool(x <= y)),
        Op::GtEq => Some(Val::Bool(x >= y)),
        Op::Mod | Op::FloorDiv | Op::BitAnd | Op::BitOr | Op::BitXor | Op::Shl | Op::Shr => None,
    }
}

// An int result stays within 48 bits.
#[inline]
#[tactic(auto, using(crate::proofs::Word::word), unfolding(crate::specs::Folds::in_range))]
pub fn in_range(z: i64) -> Option<Val>
    ensures { result ≡ in_range z }
{
    if z < INT_MIN || INT_MAX < z {
        return None;
    }
    Some(Val::Int(z))
}

// The opposite of an int, if it is in range.
fn checked_neg(a: i64) -> Option<Val>
    requires { SmallInt a }
    ensures { result ≡ in_range (neg_ℤ a) }
{
    in_range(-a)
}

// The sum of two ints, if it is in range.
fn checked_add(a: i64, b: i64) -> Option<Val>
    requires { SmallInt a × SmallInt b }
    ensures { result ≡ ints Op.Add a b }
{
    in_range(a + b)
}

// The difference of two ints, if it is in range.
fn checked_sub(a: i64, b: i64) -> Option<Val>
    requires { SmallInt a × SmallInt b }
    ensures { result ≡ ints Op.Sub a b }
{
    in_range(a - b)
}

// A product out of range is found before it is made. Called, not put in place: the folds of sums are quicker without it among them.
#[inline(never)]
fn checked_mul(a: i64, b: i64) -> Option<Val>
    ensures { result ≡ ints Op.Mul a b }
{
    in_range(a.checked_mul(b)?)
}

// Floor quotient and remainder, none for a zero divisor.
fn int_divmod(a: i64, b: i64) -> Option<(i64, i64)>
    requires { SmallInt a × SmallInt b }
    ensures { result ≡ divmod a b }
{
    if b == 0 {
        return None;
    }
    let q = a / b;
    let r = a % b;
    if (r != 0) & ((r < 0) != (b < 0)) {
        Some((q - 1, r + b))
    } else {
        Some((q, r))
    }
}

// The quotient of two ints rounded down, if it is in range; none by zero.
fn checked_div(a: i64, b: i64) -> Option<Val>
    requires { SmallInt a × SmallInt b }
    ensures { result ≡ ints Op.FloorDiv a b }
{
    let (q, _) = int_divmod(a, b)?;
    in_range(q)
}

// What the quotient of two ints rounded down leaves, if it is in range; none by zero.
fn checked_mod(a: i64, b: i64) -> Option<Val>
    requires { SmallInt a × SmallInt b }
    ensures { result ≡ ints Op.Mod a b }
{
    let (_, r) = int_divmod(a, b)?;
    in_range(r)
}

// A shift up is a product with a power of two.
#[tactic(auto, using(crate::proofs::Word::word), unfolding(crate::specs::Folds::ints, crate::specs::Python::shift_up))]
fn checked_shl(a: i64, n: i64) -> Option<Val>
    ensures { result ≡ shifted n (shift_up a) }
{
    if n < 0 || MAX_SHIFT < n {
        return None;
    }
    checked_mul(a, 1 << n)
}

// A shift down by 0 to 62 places, rounded down; none by any other number of places.
fn checked_shr(a: i64, n: i64) -> Option<Val>
    ensures { result ≡ shifted n (shift_down a) }
{
    if n < 0 || MAX_SHIFT < n {
        return None;
    }
    in_range(a >> n)
}
