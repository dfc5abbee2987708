// Document 01, "First octet" and tool sets: what a first octet begins, whether a set holds a tool, and
// the first octet that a writer gives.
#![tactic(auto)]

ghost use Rattle.std.specs.Prelude.{◌≡◌, ◌≤◌, ◌<◌};
ghost use Rattle.rules.specs.Tools as tools;
ghost use Rattle.rules.specs.First.{first_octet, base_of, octet_for};
ghost use Rattle.first_octet.specs.Answers.{as_first, entry_tells, eight_from};

// What a first octet begins: nothing, a pad, a tool's frame of so many samples, or one of tool 6 or 8.
// No Option or Result: its four cases are those of the paper's `First`.
#[derive(Drop)]
pub enum Begins {
    Unassigned,
    Pad,
    Tool(u32, usize),
    SixOrEight(usize),
}

// "The map from first octet to tool and length has 256 entries": the tool as the first hexadecimal digit, the length as the second, in
// forties. A pad is 0, an octet that is not assigned 1; no entry is tool 6 or tool 8 alone, and 6 stands for both.
pub const FIRST: [u8; 256] = [
    0, // 00
    1, // 01
    0xB1, 0xB1, 0xB1, 0xB1, 0xB1, 0xB1, 0xB1, 0xB1, 0xB1, 0xB1, 0xB1, 0xB1, 0xB2, 0xB2, 0xB2, // 10
    0xB2, 0xB2, 0xB2, 0xB4, 0xB4, 0xB4, 0xB4, 0xB6, 0xB6, 0xB6, 0xB6, 0xB8, 0xB8, 0xB8, 0xB8, 0x16, // 20
    0x26, 0x36, 0x46, 0x56, 0x76, 0xA6, 0xA6, 0x66, 0x66, 0x66, 0x66, 0x96, 0x96, 0x96, 0x96, 0x18, // 30
    0x28, 0x38, 0x48, 0x58, 0x78, 0xA8, 0xA8, 0x68, 0x68, 0x68, 0x68, 0x98, 0x98, 0x98, 0x98, 0x11, // 40
    0x21, 0x31, 0x41, 0x51, 0xC1, 1, // 46
    1, // 47
    0xD1, 0xD1, 0xD1, 0xD1, 0xD1, 0xD1, 0xD1, 0xD1, 0x61, // 50
    0x61, 0x61, 0x61, 0x61, 0x61, 0x61, 0x61, 0x61, 0x61, 0x61, 0x61, 0x61, 0x61, 0x61, 0x61, 0x91, // 60
    0x91, 0x91, 0x91, 0x91, 0x91, 0x91, 0x91, 0x91, 0x91, 0x91, 0x91, 0x91, 0x91, 0x91, 0x91, 0x91, // 70
    0x91, 0x91, 0x91, 0x91, 0x91, 0x91, 0x91, 0x91, 0x91, 0x91, 0x91, 0x91, 0x91, 0x91, 0x91, 0x12, // 80
    0x22, 0x32, 0x42, 0x52, 1, // 85
    0x72, 1, // 87
    1, // 88
    1, // 89
    1, // 8A
    1, // 8B
    1, // 8C
    1, // 8D
    1, // 8E
    1, // 8F
    0x62, // 90
    0x62, 0x62, 0x62, 0x62, 0x62, 0x62, 0x62, 0x62, 0x62, 0x62, 0x62, 0x62, 0x62, 0x62, 0x62, 0x92, // A0
    0x92, 0x92, 0x92, 0x92, 0x92, 0x92, 0x92, 0x92, 0x92, 0x92, 0x92, 0x92, 0x92, 0x92, 0x92, 0x92, // B0
    0x92, 0x92, 0x92, 0x92, 0x92, 0x92, 0x92, 0x92, 0x92, 0x92, 0x92, 0x92, 0x92, 0x92, 0x92, 0x14, // C0
    0x24, 0x34, 0x44, 0x54, 1, // C5
    0x74, 1, // C7
    0xA4, 0xA4, 0xA4, 0xA4, 0xA4, 0xA4, 0xA4, 0xA4, 0x64, // D0
    0x64, 0x64, 0x64, 0x64, 0x64, 0x64, 0x64, 0x64, 0x64, 0x64, 0x64, 0x64, 0x64, 0x64, 0x64, 0x94, // E0
    0x94, 0x94, 0x94, 0x94, 0x94, 0x94, 0x94, 0x94, 0x94, 0x94, 0x94, 0x94, 0x94, 0x94, 0x94, 0x94, // F0
    0x94, 0x94, 0x94, 0x94, 0x94, 0x94, 0x94, 0x94, 0x94, 0x94, 0x94, 0x94, 0x94, 0x94, 0x94,
];

// The table's entry for a first octet.
// Beside `entry`, which is the same as one load: this is the table as document 01 has it.
pub fn listed(o: u8) -> u8
    ensures { entry_tells o result ≡ first_octet o }
{
    FIRST[o as usize]
}

// Eight entries as one word, the first of them lowest: octets 8 * h to 8 * h + 7.
// A match becomes one load from read-only memory, where a look into FIRST makes all of it on the stack.
fn eight(h: u8) -> u64
    requires { h < 32 }
    ensures { result ≡ eight_from h }
{
    match h {
        0 => 0xB1B1B1B1B1B10100,
        1 => 0xB2B2B1B1B1B1B1B1,
        2 => 0xB4B4B4B4B2B2B2B2,
        3 => 0xB8B8B8B8B6B6B6B6,
        4 => 0xA6A6765646362616,
        5 => 0x9696969666666666,
        6 => 0xA8A8785848382818,
        7 => 0x9898989868686868,
        8 => 0x0101C15141312111,
        9 => 0xD1D1D1D1D1D1D1D1,
        10 => 0x6161616161616161,
        11 => 0x6161616161616161,
        12 => 0x9191919191919191,
        13 => 0x9191919191919191,
        14 => 0x9191919191919191,
        15 => 0x9191919191919191,
        16 => 0x0172015242322212,
        17 => 0x0101010101010101,
        18 => 0x6262626262626262,
        19 => 0x6262626262626262,
        20 => 0x9292929292929292,
        21 => 0x9292929292929292,
        22 => 0x9292929292929292,
        23 => 0x9292929292929292,
        24 => 0x0174015444342414,
        25 => 0xA4A4A4A4A4A4A4A4,
        26 => 0x6464646464646464,
        27 => 0x6464646464646464,
        28 => 0x9494949494949494,
        29 => 0x9494949494949494,
        30 => 0x9494949494949494,
        _ => 0x9494949494949494,
    }
}

// The same entry, from its word.
pub fn entry(o: u8) -> u8
    ensures { entry_tells o result ≡ first_octet o }
{
    ((eight(o / 8) >> (8 * (o % 8))) % 256) as u8
}

// What a first octet begins.
// Numbers widen by `as`: a `from` would be a call amid each of them, with a step more to prove.
pub fn first_octet(o: u8) -> Begins
    ensures { as_first o result ≡ first_octet o }
{
    let e = entry(o);
    if e == 0 {
        return Begins::Pad;
    }
    if e == 1 {
        return Begins::Unassigned;
    }
    let t = (e >> 4) as u32;
    let n = 40 * (e % 16) as usize;
    if t == 6 {
        Begins::SixOrEight(n)
    } else {
        Begins::Tool(t, n)
    }
}

// "Tool t (1 to 7) adds 2^(t-1)"; tool 11 adds 128 (document 02, R-14).
pub fn holds(set: u32, t: u32) -> bool
    ensures { result ≡ tools.holds set t }
{
    match t {
        1..=7 => (set >> (t - 1)) % 2 == 1,
        11 => (set >> 7) % 2 == 1,
        _ => false,
    }
}

// The length code's octet.
pub fn base_of(n: usize) -> u8
    ensures { result ≡ base_of n }
{
    match n {
        40 => 0x40,
        80 => 0x80,
        160 => 0xC0,
        240 => 0x20,
        _ => 0x30,
    }
}

// The first octet that a writer gives tools 1 to 5, and tool 7.
pub fn octet_for(t: u32, n: usize) -> u8
    requires { (1 ≤ t) × (t ≤ 7) }
    ensures { result ≡ octet_for t n }
{
    let base = base_of(n);
    if t != 7 {
        base + (t - 1) as u8
    } else if n < 240 {
        base + 6
    } else {
        base + 5
    }
}
