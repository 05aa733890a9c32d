// What an instruction by itself touches: the registers that it uses, gives up and writes (block.rs: `writes`).
#![tactic(auto)]

ghost use Rattle.std.specs.Prelude.{◌≡◌, cond};
ghost use Rattle.roles.specs.Kinds.{first_of, abc, kinds_of};
ghost use Rattle.laws.specs.Page.{among};
ghost use Rattle.roles.specs.Roles.{role_table};
ghost use Rattle.roles.specs.Sets.{case_of, from, writes};
ghost use Rattle.touch.specs.Touch.{named, plain_of, touch_of};

use code::Ins;
use ops::*;
use roles::{A, B, C, Case, NONE};

// The fields a and b, as a mask.
const AB: u8 = A + B;

// The fields a, b and c, as a mask.
const ABC: u8 = A + B + C;

// The first n of a, b, c.
fn first_abc(n: u16) -> u8
    ensures { result ≡ first_of abc n }
{
    match n {
        0 => 0,
        1 => A,
        2 => AB,
        _ => ABC,
    }
}

// Which of the cases an opcode is.
fn case_of(o: u16) -> Case
    ensures { result ≡ case_of o }
{
    match o {
        StoreTopR => Case::Store,
        UnpackR => Case::Unpack,
        WithEnter => Case::Enter,
        WithExit => Case::Exit,
        WithJudge => Case::Judge,
        ForIterR => Case::Step,
        _ => Case::Plain,
    }
}

// What an instruction by itself touches: the fields it uses, gives up and writes, and how many registers from b on it gives up and writes besides.
#[derive(Clone, Copy)]
pub struct Touch {
    pub used: u8,
    pub given: u8,
    pub written: u8,
    pub run: u8,
}

// No field and no register.
pub const NOTHING: Touch = Touch {
    used: 0,
    given: 0,
    written: 0,
    run: 0,
};

// A mask, if.
fn when(t: bool, mask: u8) -> u8
    ensures { result ≡ cond t mask 0 }
{
    if t { mask } else { 0 }
}

// What `kinds` tells.
#[tactic(auto, unfolding(crate::specs::Touch::plain_of))]
fn plain(kind: u8) -> Touch
    ensures { result ≡ plain_of kind }
{
    if kind / NONE % 2 == 1 {
        return NOTHING;
    }
    Touch {
        used: kind / 2 % 8 * 2,
        given: kind % 2 * 2,
        written: kind % 2 * 2,
        run: 0,
    }
}

// The three sets of an instruction.
#[tactic(auto, using(crate::proofs::Cases::arms))]
pub fn touch_of(i: Ins, kind: u8) -> Touch
    requires { kind ≡ kinds_of i }
    ensures { result ≡ touch_of i }
{
    let x = i.x;
    match case_of(i.op) {
        Case::Store => Touch {
            given: A,
            written: when(x == 0, A),
            ..NOTHING
        },
        Case::Unpack => {
            let m = first_abc(x);
            Touch {
                given: m,
                written: m,
                ..NOTHING
            }
        }
        Case::Enter => Touch {
            used: when(x == 2, C),
            run: when(x != 0, 2),
            ..NOTHING
        },
        Case::Exit => Touch {
            run: when(x != 0, 5),
            ..NOTHING
        },
        Case::Judge => Touch {
            used: when(x == 1, A),
            ..NOTHING
        },
        Case::Step => {
            let m = when(x == 0, B);
            Touch {
                used: m,
                written: m,
                ..NOTHING
            }
        }
        Case::Plain => plain(kind),
    }
}

// Whether r stands in a field that a mask names.
#[inline(always)]
#[tactic(auto, using(crate::proofs::Written::among_named))]
pub fn names(mask: u8, a: u16, b: u16, c: u16, r: u16) -> bool
    ensures { result ≡ among r (named mask a b c) }
{
    (mask / A % 2 == 1) & (r == a) | (mask / B % 2 == 1) & (r == b) | (mask / C % 2 == 1) & (r == c)
}

// Whether r is one of so many registers from b on.
#[inline(always)]
#[tactic(auto, using(crate::proofs::Sets::among_from))]
pub fn in_run(b: u16, run: u8, r: u16) -> bool
    ensures { result ≡ among r (from b run) }
{
    (b <= r) & (usize::from(r) < usize::from(b) + usize::from(run))
}

// `writes` of an instruction whose `kinds` is known.
#[tactic(auto, using(crate::proofs::Written::written_is))]
pub fn writes_by(i: Ins, kind: u8, r: u16) -> bool
    requires { kind ≡ kinds_of i }
    ensures { result ≡ writes i r }
{
    let t = touch_of(i, kind);
    names(t.written, i.a, i.b, i.c, r) | in_run(i.b, t.run, r)
}

// `writes` of an instruction.
pub fn writes_in(roles: &[u8; 1280], i: Ins, r: u16) -> bool
    requires { roles.now ≡ role_table }
    ensures { result ≡ writes i r }
{
    writes_by(i, roles::kinds_in(roles, i), r)
}
