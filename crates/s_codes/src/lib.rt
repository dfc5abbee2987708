// The codes of S: one table, for what reads, for what measures and for what writes.
#![tactic(auto)]

ghost use Rattle.std.specs.Prelude.{◌≡◌, ◌≤◌};
ghost use Rattle.rules.specs.Zeros.{most_s};
ghost use Rattle.s_codes.specs.Codes.{TableIs, CodesAre, CodeIs, FoundIs};

// The codes for a frame's length: for each S the bits of its code, and these as a number. The first entry, 00, is no code of an S.
// And for each number of six bits the S whose code it begins with, a hexadecimal digit each, the lowest first.
// Arrays of a fixed size, since memory is fixed; `CodesAre` says their zeros.
#[derive(Clone, Copy)]
pub struct Table {
    pub bits: [u8; 10],
    pub values: [u8; 10],
    pub found: [u64; 4],
}

// For 40, for 80, and for 160, 240, 320. An S past the last has no bits.
pub fn table_of(n: usize) -> Table
    ensures { TableIs n result }
{
    match n {
        40 => Table {
            bits: [2, 2, 2, 3, 4, 4, 0, 0, 0, 0],
            values: [0, 1, 2, 6, 14, 15, 0, 0, 0, 0],
            found: [
                0,
                0x1111111111111111,
                0x2222222222222222,
                0x5555444433333333,
            ],
        },
        80 => Table {
            bits: [2, 2, 2, 4, 4, 4, 4, 0, 0, 0],
            values: [0, 1, 2, 12, 13, 14, 15, 0, 0, 0],
            found: [
                0,
                0x1111111111111111,
                0x2222222222222222,
                0x6666555544443333,
            ],
        },
        _ => Table {
            bits: [2, 2, 2, 4, 4, 5, 5, 5, 6, 6],
            values: [0, 1, 2, 12, 13, 28, 29, 30, 62, 63],
            found: [
                0,
                0x1111111111111111,
                0x2222222222222222,
                0x9877665544443333,
            ],
        },
    }
}

// The bits of the code of each S.
pub fn lengths_of(n: usize) -> [u8; 10]
    ensures { CodesAre n result }
{
    table_of(n).bits
}

// A code: so many bits, and their number.
#[derive(Drop)]
pub struct Code {
    pub bits: usize,
    pub value: u64,
}

// The code of S.
pub fn code_of(n: usize, s: usize) -> Code
    requires { (1 ≤ s) × (s ≤ 9) }
    ensures { CodeIs n s result }
{
    let t = table_of(n);
    Code {
        bits: usize::from(t.bits[s]),
        value: u64::from(t.values[s]),
    }
}

// What begins some bits: an S, and the bits of its code.
#[derive(Drop)]
pub struct Found {
    pub s: usize,
    pub bits: usize,
}

// The S whose code begins a window of 32 bits.
pub fn s_in(n: usize, window: u32) -> Found
    ensures { FoundIs n window result }
{
    let t = table_of(n);
    let six = (window >> 26) as usize;
    let s = ((t.found[six / 16] >> (4 * (six % 16))) % 16) as usize;
    Found {
        s,
        bits: usize::from(t.bits[s]),
    }
}

pub fn most_s(n: usize) -> usize
    ensures { (result ≡ most_s n) × ((1 ≤ result) × (result ≤ 9)) }
{
    match n {
        40 => 5,
        80 => 6,
        _ => 9,
    }
}
