// A frame of the two zeros: what Rice would write of it.
#![tactic(auto)]

ghost use Rattle.std.specs.Prelude.{◌≡◌, List, ℕ, ◌≤◌, true};
ghost use Rattle.write_scan.specs.Rows.{flags_in, RowIs};
ghost use Rattle.write_runs.specs.Runs.{RunsAre};
ghost use Rattle.write_zeros.specs.Rice.{turns_of, ZerosAre, StartIs, RiceIs};

use s_codes::{lengths_of, most_s};
use write_measure::least_s;
use write_runs::runs_in;
use write_scan::row::Row;

// The bits before the code of S: the length code, and three more.
fn start_bits(n: usize) -> usize
    ensures { StartIs n result }
{
    if 240 <= n { 7 } else { 5 }
}

// What Rice writes of a frame of the two zeros: its bits, the mark, S and how many runs.
// The mark is a number and no bool: it is a bit of the form, put out as a number.
#[derive(Clone, Copy, Drop)]
pub struct Zeros {
    pub bits: usize,
    pub mark: usize,
    pub s: usize,
    pub count: usize,
}

// A row of flags, every one turned.
fn turned(row: &Row) -> Row
    ensures { RowIs (turns_of true (flags_in row.now)) row.now.count result }
{
    let mut words = row.words;
    for w in words.iter_mut() {
        *w = 0xFFFFFFFFFF - *w;
    }
    Row {
        words,
        count: row.count,
    }
}

// The runs of a row of flags, every one turned or none.
fn turned_runs(row: &Row, turn: bool, runs: &mut [u16; 321]) -> usize
    ensures { RunsAre (turns_of turn (flags_in row.now)) result runs.new }
{
    if turn {
        runs_in(&turned(row), runs)
    } else {
        runs_in(row, runs)
    }
}

// Rice: the runs are left in the lent array. "the commoner zero, plus on a tie": the mark is 1 where it is minus. The row's flags are 1 at
// minus zero; where that is the commoner, they are turned.
pub fn rice_of(n: usize, plus: usize, minus: usize, row: &Row, runs: &mut [u16; 321]) -> Zeros
    requires { n ≤ 320 }
    ensures { (mask : ℕ) (s : List ℕ) → ZerosAre mask n plus minus row.now s → RiceIs mask s result runs.new }
{
    let mark = usize::from(plus < minus);
    let count = turned_runs(row, plus < minus, runs);
    let least = least_s(&runs[..count], &lengths_of(n), most_s(n));
    Zeros {
        bits: start_bits(n) + least.bits,
        mark,
        s: least.s,
        count,
    }
}
