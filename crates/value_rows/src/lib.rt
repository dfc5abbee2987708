// Table 7-28 of 001 (document 02, R-14, tool 11): which rows a length has, and what a row is.
#![tactic(auto)]

ghost use Rattle.std.specs.Prelude.{◌≡◌, ◌≤◌, ◌<◌};
ghost use Rattle.rules.specs.Samples.{sample_of};
ghost use Rattle.rules.specs.Fractional.{first_code, row_count, value_for};
ghost use Rattle.value_rows.specs.Rows.{RowIs, packed};

// "Prefix code for each frame length": that of a length's first row.
pub fn first_code(n: usize) -> u8
    ensures { result ≡ first_code n }
{
    match n {
        40 => 2,
        80 => 14,
        160 => 20,
        240 => 24,
        _ => 28,
    }
}

// How many rows a length has.
pub fn row_count(n: usize) -> usize
    ensures { (result ≡ row_count n) × (result ≤ 12) }
{
    match n {
        40 => 12,
        80 => 6,
        _ => 4,
    }
}

// A row: R', how far its least is below 0, and how many of its values are below 0.
#[derive(Clone, Copy, Drop)]
pub struct Row {
    pub radix: usize,
    pub low: usize,
    pub below: usize,
}

// The twelve rows, each as one octet: 32 times `low`, 8 times `below`, and R'. A match becomes one load, where a const array is made on the
// stack.
fn packed_row(k: usize) -> u8
    requires { k < 12 }
    ensures { result ≡ packed k }
{
    match k {
        0 => 2,
        1 => 84,
        2 => 74,
        3 => 75,
        4 => 83,
        5 => 43,
        6 => 116,
        7 => 85,
        8 => 76,
        9 => 126,
        10 => 117,
        _ => 158,
    }
}

// Row k of the table.
pub fn row_at(k: usize) -> Row
    requires { k < 12 }
    ensures { RowIs k result }
{
    let e = usize::from(packed_row(k));
    Row {
        radix: e % 8,
        low: e / 32,
        below: e / 8 % 4,
    }
}

// The sample of a row's digit d: (8-23) to (8-28).
pub fn sample_at(mask: u8, low: usize, below: usize, d: usize) -> u8
    requires { (mask < 128) × (below ≤ low) × (low < 128) × (d < 128) }
    ensures { result ≡ sample_of mask (value_for low below d) }
{
    if d < below {
        ((low - 1 - d) as u8) ^ mask
    } else {
        128 + (((d - below) as u8) ^ mask)
    }
}
