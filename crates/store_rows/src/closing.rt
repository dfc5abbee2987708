// Closing up (document 02, R-6): "all greetings first close up from 0 in their order".
ghost use Rattle.std.specs.Prelude.{◌≡◌, ◌+◌, ◌^◌, ◌≤◌, ◌<◌, length, drop};
ghost use Rattle.std.proofs.Math.Seq.{paste};
ghost use Rattle.store_rows.specs.Cells.{rows_of};
ghost use Rattle.store_rows.specs.Sane.{Ordered};
ghost use Rattle.store_rows.specs.Closing.{moved_one, Closes};

// So many octets move at once, all read before the first is written: many times as fast as one by one.
const CHUNK: usize = 64;

fn hop(block: &mut [u8], from: usize, to: usize)
    requires { (to ≤ from) × (from + 64 ≤ length block.old) }
    ensures { block.new ≡ paste block.old to (drop from block.old) 64 }
{
    let mut chunk = [0u8; CHUNK];
    rules::copy_over(&mut chunk, &block[from..from + CHUNK]);
    rules::copy_over(&mut block[to..to + CHUNK], &chunk);
}

// n octets moved down, front to back: their old and new places may overlap. The few that are left go one by one.
pub fn shift(block: &mut [u8], from: usize, to: usize, n: usize)
    requires { (to ≤ from) × (from + n ≤ length block.old) }
    ensures { block.new ≡ paste block.old to (drop from block.old) n }
{
    let mut i = 0;
    while CHUNK <= n - i {
        hop(block, from + i, to + i);
        i += CHUNK;
    }
    block.copy_within(from + i..from + n, to + i);
}

// "those whose start changed"
pub fn moved_one(start: usize, to: usize, octets: usize) -> usize
    ensures { result ≡ moved_one start to octets }
{
    if start == to { 0 } else { octets }
}

// All greetings from 0 on, in their order; the octets moved.
// By an index: a row is read and its start written in one table, which an iterator would hold lent.
pub fn close_up(block: &mut [u8], table: &mut [u32], size: usize) -> usize
    requires ordered { Ordered size table.old }
    requires size_in_bounds { (size ≤ length block.old) × (size < 2 ^ 32) }
    ensures { Closes block.old table.old (rows_of table.old)
        block.new table.new result }
{
    let n = table[0] as usize;
    let mut to = 0;
    let mut moved = 0;
    for i in 0..n {
        let k = 1 + crate::rows::ROW_CELLS * i;
        let r = crate::rows::row_at(table, k);
        let m = moved_one(r.start, to, r.octets);
        shift(block, r.start, to, m);
        table[k + 1] = to as u32;
        moved += m;
        to += r.octets;
    }
    moved
}
