// What is said of the items: a line for each loss, and, where all are asked for, for each frame as the listing has it.
ghost use Rattle.std.specs.Prelude.{◌≤◌, length};
ghost use Rattle.rules.specs.Walk.{longest};
ghost use Rattle.text_lines.specs.Puts.{Puts};
ghost use Rattle.tool_playback.specs.Lines.{loss_line, Follows, NextItem, LossAt, Sums, Behind};

use crate::parts::{Part, Point, Reading, next_part};
use recording::marking::LOSS_FROM;

// What is told of the items.
#[derive(Clone, Copy)]
pub enum Tells {
    Nothing,
    Losses,
    All,
}

// What is told of the items, and where.
#[derive(Clone, Copy)]
pub struct Teller {
    pub rt: HostRuntime,
    pub tells: Tells,
}

// The line of a loss: `loss=I at=P samples=N before=S`.
fn put_loss(number: usize, place: usize, samples: usize, heard: usize, out: &mut [u8]) -> usize
    requires { 160 ≤ length out.old }
    ensures puts { Puts out.old 0 (loss_line number place samples heard) out.new result }
    ensures most { result ≤ 160 }
{
    let l = text_lines::put_field(b"loss=", number, out, 0);
    let p = text_lines::put_field(b" at=", place, out, l);
    let s = text_lines::put_field(b" samples=", samples, out, p);
    let end = text_lines::put_field(b" before=", heard, out, s);
    text_lines::put_word(b"\n", out, end)
}

// Says a loss of `n` samples, where it stands behind what is before the octets. These, and how they are read, stand here for the contract
// alone.
fn say_loss(rt: HostRuntime, body: &[u8], how: Reading, here: Point, n: usize, base: Point)
    requires { (LossAt body.now how here n) × Sums base here × Behind how base }
{
    let mut text = [0u8; 160];
    let to = put_loss(
        base.items + here.items,
        base.at + here.at,
        n,
        base.samples + here.samples,
        &mut text,
    );
    tool_console::say(rt, &text[..to]);
}

// Says a frame, as the listing does.
fn say_frame(rt: HostRuntime, body: &[u8], how: Reading, here: Point, base: Point)
    requires { (here.at ≤ length body.now) × Sums base here }
{
    let mut samples = [0u8; 320];
    let r = walk::pass(body, how.law, how.set, here.at, 320, &mut samples);
    let mut text = [0u8; 160];
    let to = text_lines::frame_line(
        base.items + here.items,
        base.at + here.at,
        r.len,
        r.tool as usize,
        r.octets,
        r.bits,
        &mut text,
        0,
    );
    tool_console::say(rt, &text[..to]);
}

// Says an item, alone in its part: a loss always, a frame where all are told.
fn say_item(to: Teller, body: &[u8], how: Reading, here: Point, p: Part, cell: u16, base: Point)
    requires { (here.at ≤ length body.now) × (NextItem body.now how here cell p) × Sums base here × Behind how base }
{
    if p.items == 0 {
        return;
    }
    if p.lost != 0 {
        let n = (cell - LOSS_FROM) as usize;
        say_loss(to.rt, body, how, here, n, base);
        return;
    }
    match to.tells {
        Tells::All => say_frame(to.rt, body, how, here, base),
        Tells::Losses => {}
        Tells::Nothing => {}
    }
}

// What is told of so many items from a place on. They are played one by one, so that the place of each is known.
// A `while`: how far an item goes is known when it is played.
fn tell(
    rt: HostRuntime,
    body: &[u8],
    how: Reading,
    from: Point,
    items: usize,
    tells: Tells,
    base: Point,
)
    requires { (length body.now ≤ longest) × Follows body.now how from × Behind how base }
{
    let mut page = [0u8; 320];
    let mut one = [0u16; 1];
    let mut here = from;
    let mut left = items;
    while 0 < left {
        let p = next_part(body, how, here.at, &mut page, &mut one);
        say_item(Teller { rt, tells }, body, how, here, p, one[0], base);
        if !p.more {
            return;
        }
        here = Point {
            at: p.at,
            items: here.items + p.items,
            samples: here.samples + p.samples,
        };
        left -= 1;
    }
}

// What is told of a part: nothing where nothing is asked, or where it has no loss and only these are.
pub fn tell_part(
    rt: HostRuntime,
    body: &[u8],
    how: Reading,
    here: Point,
    p: Part,
    tells: Tells,
    base: Point,
)
    requires { (length body.now ≤ longest) × Follows body.now how here × Behind how base }
{
    match tells {
        Tells::Nothing => {}
        Tells::Losses => {
            if p.lost != 0 {
                tell(rt, body, how, here, p.items, tells, base);
            }
        }
        Tells::All => tell(rt, body, how, here, p.items, tells, base),
    }
}
