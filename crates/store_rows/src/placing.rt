// A greeting put in among the others of a table, or taken out of it (document 02, R-6): rows stay in order of start, one behind another.
ghost use Rattle.std.specs.Prelude.{◌≡◌, ◌+◌, ◌^◌, ◌≤◌, ◌<◌, length, get_or};
ghost use Rattle.store_rows.specs.Limits.{row_cells, list_cells};
ghost use Rattle.store_rows.specs.Cells.{rows_of, laid};
ghost use Rattle.store_rows.specs.Changed.{insert_at, remove_at, row_laid};

use crate::rows::{ROW_CELLS, Row};

// A row's three cells.
fn lay_row(table: &mut [u32], k: usize, r: Row)
    requires { (k + row_cells ≤ length table.old) × (r.number < 2 ^ 32) × (r.start < 2 ^ 32) × (r.octets < 2 ^ 32) }
    ensures { table.new ≡ row_laid table.old k r }
{
    let cells = [r.number as u32, r.start as u32, r.octets as u32];
    rules::copy_over(&mut table[k..k + ROW_CELLS], &cells);
}

// A row put in, i rows standing before it.
pub fn insert(table: &mut [u32], n: usize, i: usize, r: Row)
    requires n_value { (n ≡ get_or table.old 0 0) × (n ≤ 31) × (i ≤ n) × (list_cells ≤ length table.old) }
    requires number_bound { (r.number < 2 ^ 32) × (r.start < 2 ^ 32) × (r.octets < 2 ^ 32) }
    ensures { table.new ≡ laid (insert_at i r (rows_of table.old)) table.old }
{
    let k = 1 + ROW_CELLS * i;
    table.copy_within(k..1 + ROW_CELLS * n, k + ROW_CELLS);
    lay_row(table, k, r);
    table[0] = (n + 1) as u32;
}

// The row at i taken out.
pub fn remove(table: &mut [u32], n: usize, i: usize)
    requires { (n ≡ get_or table.old 0 0) × (n ≤ 32) × (i < n) × (list_cells ≤ length table.old) }
    ensures { table.new ≡ laid (remove_at i (rows_of table.old)) table.old }
{
    let k = 1 + ROW_CELLS * i;
    table.copy_within(k + ROW_CELLS..1 + ROW_CELLS * n, k);
    table[0] = (n - 1) as u32;
}
