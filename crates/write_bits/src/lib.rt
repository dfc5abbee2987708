// Bits put into lent octets. "Bits go highest first; the last octet is filled with 0 bits."
// Up to 31 bits are held in a word; where 32 are there, they are stored as four octets at once.
#![tactic(auto)]

ghost use Rattle.std.specs.Prelude.{◌≡◌, ◌+◌, ◌^◌, ◌%◌, ◌≤◌, ◌<◌, length, replicate};
ghost use Rattle.rules.specs.Bits.{low_bits};
ghost use Rattle.rules.specs.Runs.{rice_form, rice_forms};
ghost use Rattle.write_scan.specs.Rows.{flags_in};
ghost use Rattle.write_bits.specs.Puts.{pen_bits, Able, Puts, Stores, Flushes, Packed};

pub mod pen;

use pen::Pen;
use write_scan::row::Row;

// The low 32 bits of a word, as four octets. Four stores, which compile to one.
fn store(out: &mut [u8], at: usize, word: u64)
    requires { at + 4 ≤ length out.old }
    ensures { Stores out.old at word out.new }
{
    out[at] = ((word >> 24) % 256) as u8;
    out[at + 1] = ((word >> 16) % 256) as u8;
    out[at + 2] = ((word >> 8) % 256) as u8;
    out[at + 3] = (word % 256) as u8;
}

impl Pen {
    // n bits, at most 32: the number v.
    pub fn put(&mut self, out: &mut [u8], n: usize, v: u64)
        requires able { Able out.old self.old n }
        requires n_bound { (n ≤ 32) × (v < 2 ^ n) }
        ensures { Puts out.old self.old (low_bits n v) out.new self.new }
    {
        let held = self.held + n;
        let word = (self.word << n) + v;
        self.word = word % 4294967296;
        if held < 32 {
            self.held = held;
        } else {
            self.held = held - 32;
            store(out, self.at, word >> self.held);
            self.at += 4;
        }
    }

    // So many zero bits.
    // The loop counts down the bits that are left, and no index.
    pub fn put_zeros(&mut self, out: &mut [u8], v: u64)
        requires { Able out.old self.old v }
        ensures { Puts out.old self.old (replicate v 0) out.new self.new }
    {
        let mut zeros = v;
        while 32 < zeros {
            self.put(out, 32, 0);
            zeros -= 32;
        }
        self.put(out, zeros as usize, 0);
    }

    // "k zeros and a 1, then the low S bits of v": at once where they are few.
    pub fn put_rice(&mut self, out: &mut [u8], s: usize, v: u64)
        requires s_bound { s ≤ 15 }
        requires able { Able out.old self.old (length (rice_form s v)) }
        ensures { Puts out.old self.old (rice_form s v) out.new self.new }
    {
        let zeros = v >> s;
        let last = (1 << s) + v % (1 << s);
        if zeros <= 16 {
            self.put(out, zeros as usize + 1 + s, last);
        } else {
            self.put_zeros(out, zeros);
            self.put(out, 1 + s, last);
        }
    }

    // Runs, each as a Rice code.
    pub fn put_runs(&mut self, out: &mut [u8], s: usize, runs: &[u16])
        requires s_bound { s ≤ 15 }
        requires able { Able out.old self.old (length (rice_forms s runs.now)) }
        ensures { Puts out.old self.old (rice_forms s runs.now) out.new self.new }
    {
        for &v in runs {
            self.put_rice(out, s, u64::from(v));
        }
    }

    // A row of flags, 40 to a word.
    pub fn put_row(&mut self, out: &mut [u8], row: &Row)
        requires { Able out.old self.old (length (flags_in row.now)) }
        ensures { Puts out.old self.old (flags_in row.now) out.new self.new }
    {
        for &w in row.words() {
            self.put(out, 8, w >> 32);
            self.put(out, 32, w % 4294967296);
        }
    }

    // What is held, stored by octets.
    // The loop counts down the bits that are held, and no index.
    fn flush(self, out: &mut [u8]) -> usize
        requires able { Able out.old self 0 }
        requires held_value { self.held % 8 ≡ 0 }
        ensures { Flushes out.old self out.new result }
    {
        let mut held = self.held;
        let mut at = self.at;
        while held != 0 {
            held -= 8;
            out[at] = ((self.word >> held) % 256) as u8;
            at += 1;
        }
        at
    }

    // "The last octet is filled with 0 bits." The number of octets comes back.
    pub fn finish(mut self, out: &mut [u8]) -> usize
        requires { Able out.old self 0 }
        ensures { Packed (pen_bits out.old self) out.old out.new result }
    {
        let fill = (8 - self.held % 8) % 8;
        self.put(out, fill, 0);
        self.flush(out)
    }
}
