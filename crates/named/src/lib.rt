// Which constants a chunk names, and its operands by their new numbers.
#![tactic(auto)]

ghost use Rattle.std.specs.Prelude.{◌≡◌, ◌*◌, ◌≤◌, ◌<◌, length};
ghost use Rattle.chunk.specs.Chunk.{stride, chunk_count};
ghost use Rattle.named.specs.Unused.{renamed_operand, recoded};
ghost use Rattle.named.specs.Inner.{noted, NamedMarks, LowNumbers, number_in};

use chunk::STRIDE;

// Marks the constant that instruction k names.
#[tactic(auto, unfolding(crate::specs::Inner::noted))]
fn note(code: &[u16], scratch: &mut [u32], m: usize, k: usize)
    requires { (k < chunk_count code.now) × (m ≤ length scratch.old) }
    ensures { scratch.new ≡ noted code.now m k scratch.old }
{
    let v = usize::from(chunk::operand_at(code, k));
    if v < m && chunk::names_constant(code, k) {
        scratch[v] = 1;
    }
}

// Marks the named constants.
pub fn mark_named(code: &[u16], scratch: &mut [u32], m: usize)
    requires { m ≤ length scratch.old }
    ensures { NamedMarks code.now m scratch.old scratch.new }
{
    scratch[..m].fill(0);
    for k in 0..code.len() / STRIDE {
        note(code, scratch, m, k);
    }
}

// The operand of instruction k by the numbers in scratch.
#[tactic(auto, using(crate::proofs::Recoding::number_low), unfolding(crate::specs::Unused::renamed_operand, crate::specs::Unused::renumbered))]
fn operand_of(code: &[u16], scratch: &[u32], m: usize, k: usize) -> u16
    requires { (k < chunk_count code.now) × LowNumbers m scratch.now }
    ensures { result ≡ renamed_operand (number_in scratch.now) m code.now k }
{
    let v = chunk::operand_at(code, k);
    let at = usize::from(v);
    if m <= at {
        return v;
    }
    if chunk::names_constant(code, k) {
        scratch[at] as u16
    } else {
        v
    }
}

// Renumbers the operands that name a constant.
pub fn renumber(code: &mut [u16], scratch: &[u32], m: usize)
    requires { (length code.old ≡ stride * chunk_count code.old) × LowNumbers m scratch.now }
    ensures { code.new ≡ recoded (number_in scratch.now) m code.old }
{
    for k in 0..code.len() / STRIDE {
        code[STRIDE * k + 2] = operand_of(code, scratch, m, k);
    }
}
