// The sound of octets, and of a file window by window, used: written, compared or counted; and its losses, or all its items, told.
//   play: the items of octets.      play_file: those of a file.
ghost use Rattle.std.specs.Prelude.{◌+◌, ◌≤◌, ◌≡◌, true, length, IfOk};
ghost use Rattle.rules.specs.Walk.{longest};
ghost use Rattle.tool_sound.specs.Uses.{is_well, UsesUpTo};
ghost use Rattle.tool_playback.specs.Runs.{Lawful, NextSound, TellsFile, Reachable, TellsOne, Within};
ghost use Rattle.tool_playback.specs.Runs.{no_total, Fit, behind_of, UnreadAfter};
ghost use Rattle.tool_playback.specs.Lines.{Behind};

use crate::parts::{Part, Point, Reading, next_part};
use crate::telling::{Teller, Tells, tell_part};
use recording::Ending;
use std::fs::File;
use std::io;
use tool_sound::sounds::{Trouble, Used, Way};

// What came of octets: how they ended and where, the refusal's bit, the items, the losses among them, the samples that are well, and what
// is wrong.
#[derive(Clone, Copy)]
pub struct Total {
    pub end: Ending,
    pub at: usize,
    pub bit: usize,
    pub items: usize,
    pub lost: usize,
    pub samples: usize,
    pub wrong: Result<(), Trouble>,
}

// The sound of a part, used. It is the part of `body` at `at`; the set stands here for the contract alone.
fn use_part(
    body: &[u8],
    how: Reading,
    at: usize,
    p: Part,
    way: Way<'_>,
    page: &[u8],
    master: &mut [u8],
) -> Used
    requires { NextSound body.now how at page.now p × (p.samples ≤ length page.now) × (length page.now ≤ length master.old) }
    ensures { UsesUpTo p.samples result }
{
    tool_sound::sounds::use_sound(way, how.law, &page[..p.samples], master)
}

// Part after part, page by page.
// No `for`: how far a part goes is known when it is read.
fn parts(
    to: Teller,
    body: &[u8],
    how: Reading,
    way: Way<'_>,
    base: Point,
    page: &mut [u8],
    master: &mut [u8],
) -> Total
    requires { (length body.now ≤ longest) × (320 ≤ length page.old) × (length page.old ≤ length master.old) × Behind how base }
    ensures tells_file { is_well result.wrong ≡ true → TellsFile body.now how result }
    ensures within { Within (length body.now) result }
{
    let mut cells = [0u16; 192];
    let mut at = 0;
    let mut items = 0;
    let mut lost = 0;
    let mut samples = 0;
    loop {
        let p = next_part(body, how, at, page, &mut cells);
        let u = use_part(body, how, at, p, way, page, master);
        tell_part(
            to.rt,
            body,
            how,
            Point { at, items, samples },
            p,
            to.tells,
            base,
        );
        items += p.items;
        lost += p.lost;
        samples += u.good;
        if u.end.is_err() || !p.more {
            return Total {
                end: p.end,
                at: p.at,
                bit: p.bit,
                items,
                lost,
                samples,
                wrong: u.end,
            };
        }
        at = p.at;
    }
}

// Octets behind what stands before them: their sound is used, and their losses, or all their items, are told. The second page is for a
// master.
fn play(
    rt: HostRuntime,
    body: &[u8],
    how: Reading,
    way: Way<'_>,
    tells: Tells,
    base: Point,
) -> Total
    requires { (length body.now ≤ longest) × Behind how base }
    ensures tells_file { is_well result.wrong ≡ true → TellsFile body.now how result }
    ensures within { Within (length body.now) result }
{
    let mut page = [0u8; 61440];
    let mut master = [0u8; 61440];
    parts(
        Teller { rt, tells },
        body,
        how,
        way,
        base,
        &mut page,
        &mut master,
    )
}

// The octets of a file's frames or items: where they begin in it, and how many they are. The file itself stands beside.
#[derive(Clone, Copy)]
pub struct Body {
    pub skip: usize,
    pub size: usize,
}

// A window has more octets than a part's items.
const WINDOW: usize = 131072;

// The octets of a window: those from a place on, as many as there are and as it holds.
pub fn window_at(fd: &File, b: Body, at: usize, window: &mut [u8]) -> io::Result<usize>
    requires { (at ≤ b.size) × Reachable b }
    ensures { IfOk result (λ n. (n ≤ length window.new) × (at + n ≤ b.size)) }
{
    let n = window.len().min(b.size - at);
    tool_console::read_at(fd, b.skip + at, &mut window[..n])
}

// Whether another window follows: there are octets behind this one, which is full, and it ended clean or inside a frame (SHORT).
fn goes_further(number: u32, count: usize, full: usize, left: usize) -> bool {
    full <= count && count < left && number <= 1
}

// What came of no octets.
fn nothing() -> Total
    ensures { result ≡ no_total }
{
    Total {
        end: Ok(()),
        at: 0,
        bit: 0,
        items: 0,
        lost: 0,
        samples: 0,
        wrong: Ok(()),
    }
}

// What came of a window, behind what came of those before.
fn behind(done: Total, t: Total) -> Total
    requires { Fit done t }
    ensures { result ≡ behind_of done t }
{
    Total {
        end: t.end,
        at: done.at + t.at,
        bit: t.bit,
        items: done.items + t.items,
        lost: done.lost + t.lost,
        samples: done.samples + t.samples,
        wrong: t.wrong,
    }
}

// A file that can't be read further, and why.
fn unread(done: Total, why: io::Error) -> Total
    ensures { UnreadAfter done result }
{
    Total {
        end: Ok(()),
        at: done.at,
        bit: 0,
        items: done.items,
        lost: done.lost,
        samples: done.samples,
        wrong: Err(Trouble::Unread(why)),
    }
}

// A file, window by window: each begins where an item does.
// No `for`: how far a window goes is known when it is played.
fn windows(
    rt: HostRuntime,
    fd: &File,
    b: Body,
    how: Reading,
    way: Way<'_>,
    tells: Tells,
    window: &mut [u8],
) -> Total
    requires { Reachable b × Lawful how }
    ensures tells_one { is_well result.wrong ≡ true → TellsOne how result }
    ensures within { Within b.size result }
{
    let mut done = nothing();
    loop {
        let n = match window_at(fd, b, done.at, window) {
            Ok(n) => n,
            Err(why) => return unread(done, why),
        };
        let base = Point {
            at: done.at,
            items: done.items,
            samples: done.samples,
        };
        let t = play(rt, &window[..n], how, way, tells, base);
        let total = behind(done, t);
        if t.wrong.is_err()
            || !goes_further(rules::number_of(t.end), n, window.len(), b.size - done.at)
        {
            return total;
        }
        if t.at == 0 {
            return unread(done, tool_console::no_error());
        }
        done = total;
    }
}

// A whole file: its sound is used, and its losses, or all its items, are told.
pub fn play_file(
    rt: HostRuntime,
    fd: &File,
    b: Body,
    how: Reading,
    way: Way<'_>,
    tells: Tells,
) -> Total
    requires { Reachable b × Lawful how }
    ensures tells_one { is_well result.wrong ≡ true → TellsOne how result }
    ensures within { Within b.size result }
{
    let mut window = [0u8; WINDOW];
    windows(rt, fd, b, how, way, tells, &mut window)
}
