// The save area of the frame saver: an entry stored, the newest entry, registers put back (document 02, wish 4).
#![tactic(auto)]

ghost use Rattle.std.specs.Prelude.{◌≡◌, ◌+◌, ◌*◌, ◌<◌, ◌≤◌};
ghost use Rattle.area.specs.Area.{free_of, put_in, put_back, top_of};
ghost use Rattle.area.specs.Inner.{StoreRoom, EntryStored};

// An entry of the area: where it begins, how long its list is, and its result register.
#[derive(Clone, Copy)]
pub struct Entry {
    pub base: usize,
    pub len: usize,
    pub res: u64,
}

// The area's free words.
pub fn free_of(used: usize) -> usize
    ensures { result ≡ free_of used }
{
    4096_usize.saturating_sub(used)
}

// An entry is written from `at` on: the place past it.
#[tactic(auto, using(crate::proofs::Calls::storings))]
pub fn store(area: &mut [u64; 4096], at: usize, file: &[u64; 64], list: &[u16], res: u64) -> usize
    requires { StoreRoom at list.now }
    ensures { EntryStored at file.now list.now res area.old area.new result }
{
    for (i, r) in list.iter().enumerate() {
        let p = at + 2 * i;
        area[p] = u64::from(*r);
        area[p + 1] = file[usize::from(*r)];
    }
    let p = at + 2 * list.len();
    area[p] = list.len() as u64;
    area[p + 1] = res;
    p + 2
}

// The newest entry, if there is one.
#[tactic(auto, using(crate::proofs::Calls::tops))]
pub fn top_of(area: &[u64; 4096], used: usize) -> Option<Entry>
    ensures { result ≡ top_of used area.now }
{
    if used < 2 || 4096 < used {
        return None;
    }
    let end = used - 2;
    let len = area[end] as usize;
    if end / 2 < len {
        return None;
    }
    Some(Entry {
        base: end - 2 * len,
        len,
        res: area[end + 1],
    })
}

// The registers of an entry are put back.
#[tactic(auto, using(crate::proofs::Calls::backings))]
pub fn put_back(area: &[u64; 4096], base: usize, len: usize, file: &mut [u64; 64], regs: usize)
    requires { (regs ≤ 64) × (base + 2 * len ≤ 4096) }
    ensures { file.new ≡ put_back regs area.now base len file.old }
{
    for i in 0..len {
        let p = base + 2 * i;
        put_in(file, regs, area[p], area[p + 1]);
    }
}

// A register is written, if it is in the file.
pub fn put_in(file: &mut [u64; 64], regs: usize, r: u64, v: u64)
    requires { regs ≤ 64 }
    ensures { file.new ≡ put_in regs r v file.old }
{
    let at = r as usize;
    if at < regs {
        file[at] = v;
    }
}
