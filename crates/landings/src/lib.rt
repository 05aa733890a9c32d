// How many jumps and handlers land on each position of a chunk.
#![tactic(auto, using(crate::proofs::Filled::fills), unfolding(crate::specs::Inner::bumped))]

ghost use Rattle.std.specs.Prelude.{◌≡◌, cond, ◌+◌, ◌*◌, ◌/◌, ◌^◌, ◌<◌, ◌≤◌, length, get_or};
ghost use Rattle.chunk.specs.Chunk.{chunk_count};
ghost use Rattle.landings.specs.Landings.{landings_of};
ghost use Rattle.landings.specs.Inner.{bumped, FewAt, Jumped, Handled};
ghost use Rattle.landings.specs.Latest.{is_landing};

use chunk::STRIDE;

// One landing more on t; one beyond the table is not counted.
fn bump(landings: &mut [u64], t: usize)
    requires { get_or landings.old t 0 + 1 < 2 ^ 64 }
    ensures { landings.new ≡ bumped landings.old t }
{
    if t < landings.len() {
        landings[t] += 1;
    }
}

// The jumps, on a table of zeros.
fn count_jumps(code: &[u16], landings: &mut [u64])
    requires { FewAt landings.old 0 }
    ensures { Jumped code.now landings.old landings.new (chunk_count code.now) }
{
    for k in 0..code.len() / STRIDE {
        if chunk::is_jump(code, k) {
            bump(landings, usize::from(chunk::operand_at(code, k)));
        }
    }
}

// The handlers, on top of them.
fn count_handlers(tries: &[u32], landings: &mut [u64])
    requires { FewAt landings.old 65535 }
    ensures { Handled tries.now landings.old landings.new (length tries.now / 2) }
{
    for j in 0..tries.len() / 2 {
        bump(landings, tries[2 * j + 1] as usize);
    }
}

// The table of landings, from a buffer that may hold anything.
pub fn fill(code: &[u16], tries: &[u32], landings: &mut [u64])
    requires { (chunk_count code.now ≤ 65535) × (length landings.old ≡ chunk_count code.now + 1) }
    ensures { landings.new ≡ landings_of code.now tries.now }
{
    landings.fill(0);
    count_jumps(code, landings);
    count_handlers(tries, landings);
}

// The last landing at or before ip, from the last before it; plain mode asks for none.
pub fn last_at(landings: &[u64], strict: bool, last: usize, ip: usize) -> usize
    requires { ip < length landings.now }
    ensures { result ≡ cond (is_landing strict landings.now ip) ip last }
{
    if strict && landings[ip] != 0 {
        ip
    } else {
        last
    }
}
