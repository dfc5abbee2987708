// Runs found: those of a row of flags, and those of up to three values, each among the places that the ones before it left.
#![tactic(auto)]

ghost use Rattle.std.specs.Prelude.{◌≡◌, ◌+◌, ◌%◌, ◌≤◌, ◌<◌, length, take};
ghost use Rattle.write_scan.specs.Rows.{flags_in};
ghost use Rattle.write_runs.specs.Runs.{RunsAre, FoundIs};
ghost use Rattle.write_runs.specs.Tracks.{Closes, Ends, TracksAre, Apart};

use write_scan::row::Row;
use write_scan::word_of;

// The number of runs of each of three values.
// No array, as of `Tracks`.
#[derive(Drop)]
pub struct Found {
    pub first: usize,
    pub second: usize,
    pub third: usize,
}

// The runs of a value found so far, and the place after the last of them: what is open begins there, and a stretch of zeros costs nothing.
#[derive(Clone, Copy, Drop)]
struct Track {
    count: usize,
    start: usize,
}

impl Track {
    fn new() -> Track
        ensures { (result.count ≡ 0) × (result.start ≡ 0) }
    {
        Track { count: 0, start: 0 }
    }

    // A 1 at a place ends the run that is open.
    fn close(self, runs: &mut [u16; 321], place: usize) -> Track
        requires { (self.count ≤ self.start) × ((self.start ≤ place) × (place < 320)) }
        ensures { Closes self place runs.old result runs.new }
    {
        runs[self.count] = (place - self.start) as u16;
        Track {
            count: self.count + 1,
            start: place + 1,
        }
    }

    // A place that another value took is none of this one's.
    fn skip(self) -> Track
        requires { self.start < 320 }
        ensures { (result.count ≡ self.count) × (result.start ≡ self.start + 1) }
    {
        Track {
            start: self.start + 1,
            ..self
        }
    }

    // What is open at the end is a run only if it is not empty: "No run follows a run whose closing sample is the last place."
    fn end(self, runs: &mut [u16; 321], places: usize) -> usize
        requires { (self.count ≤ self.start) × ((self.start ≤ places) × (places ≤ 320)) }
        ensures { Ends self places runs.old result runs.new }
    {
        let open = (places - self.start) as u16;
        runs[self.count] = open;
        if open == 0 {
            self.count
        } else {
            self.count + 1
        }
    }
}

// The runs of a row of flags, left in the lent array; their number comes back. The ones of a word are found from its highest, which is the
// first, and each is taken off.
// The array is lent, since memory is fixed.
// An iterator of a word's ones would be no plainer: it would need members and proofs of its own for four lines.
pub fn runs_in(row: &Row, runs: &mut [u16; 321]) -> usize
    ensures { RunsAre (flags_in row.now) result runs.new }
{
    let mut t = Track::new();
    let words = row.words();
    for (i, &word) in words.iter().enumerate() {
        let mut w = word;
        while w != 0 {
            let top = w.ilog2();
            t = t.close(runs, 40 * i + 39 - top as usize);
            w -= 1 << top;
        }
    }
    t.end(runs, 40 * words.len())
}

// Three values to be found, and the common one, whose places are passed over.
// No array, as of `Tracks`.
#[derive(Clone, Copy, Drop)]
pub struct Sought {
    pub plus: u8,
    pub first: u8,
    pub second: u8,
    pub third: u8,
}

// The tracks of three values.
// No array: `mark` treats each of the three otherwise, so one would be read at 0, 1 and 2 by hand.
#[derive(Clone, Copy, Drop)]
struct Tracks {
    first: Track,
    second: Track,
    third: Track,
}

impl Tracks {
    // One place more. "D is N for the first value, then the places still empty": a value's place is none of the later ones'.
    fn mark(
        self,
        frame: &[u8],
        i: usize,
        v: Sought,
        a: &mut [u16; 321],
        b: &mut [u16; 321],
        c: &mut [u16; 321],
    ) -> Tracks
        requires i_bound { (i < 320) × (i < length frame.now) }
        requires tracks_are { TracksAre v (take i frame.now) i self a.old b.old c.old }
        ensures { TracksAre v (take (i + 1) frame.now) (i + 1) result a.new b.new c.new }
    {
        let x = frame[i];
        if x == v.first {
            Tracks {
                first: self.first.close(a, i),
                second: self.second.skip(),
                third: self.third.skip(),
            }
        } else if x == v.second {
            Tracks {
                second: self.second.close(b, i),
                third: self.third.skip(),
                ..self
            }
        } else if x == v.third {
            Tracks {
                third: self.third.close(c, i),
                ..self
            }
        } else {
            self
        }
    }
}

// The runs of three values in one pass, each value among the places that those before it left. Of 40 samples only those that are not the
// common value are looked at. A value that is given again has none of its own left, so fewer values are given with the first repeated.
// The runs go into arrays that are lent, since memory is fixed, and their numbers come back.
pub fn found_in(
    frame: &[u8],
    v: Sought,
    a: &mut [u16; 321],
    b: &mut [u16; 321],
    c: &mut [u16; 321],
) -> Found
    requires size { (length frame.now ≤ 320) × (length frame.now % 40 ≡ 0) }
    requires apart { Apart v }
    ensures { FoundIs v frame.now result a.new b.new c.new }
{
    let mut t = Tracks {
        first: Track::new(),
        second: Track::new(),
        third: Track::new(),
    };
    let (chunks, _) = frame.as_chunks::<40>();
    for (i, chunk) in chunks.iter().enumerate() {
        let mut w = word_of(chunk, v.plus);
        while w != 0 {
            let top = w.ilog2();
            t = t.mark(frame, 40 * i + 39 - top as usize, v, a, b, c);
            w -= 1 << top;
        }
    }
    Found {
        first: t.first.end(a, frame.len()),
        second: t.second.end(b, frame.len()),
        third: t.third.end(c, frame.len()),
    }
}
