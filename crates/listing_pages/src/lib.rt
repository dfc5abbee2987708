// The listing page by page (document 01, "Walk and listing"): what is put into a lent page is the next part of the
// listing's text, and the rest follows from where the page ends.
#![tactic(auto)]

ghost use Rattle.std.specs.Prelude.{◌≡◌, ◌+◌, ◌≤◌, ◌<◌, Some, length};
ghost use Rattle.rules.specs.Refusals.{refusal_number};
ghost use Rattle.rules.specs.Tools.{most_law};
ghost use Rattle.rules.specs.Listing.{list_stream};
ghost use Rattle.listing_pages.specs.Pages.{Stands, Lists, Ends, Listable, ListsFrame, Opens, Stops, OpensInput, steps_left};

use reader::Report;
use rules::{Numbered, Refusal};

// Where the listing of a stream of a law stands: the frames that are listed, the place of the next one, and the samples that they hold.
#[derive(Clone, Copy)]
pub struct Stand {
    pub law: u32,
    pub frames: usize,
    pub at: usize,
    pub samples: usize,
}

// A page, or the listing's first lines: the end of their text, and where the listing stands after them, unless it is at its end.
#[derive(Drop)]
pub struct Page {
    pub next: Option<Stand>,
    pub to: usize,
}

// The last two lines.
fn last(number: usize, tool: usize, bit: usize, s: Stand, out: &mut [u8], to: usize) -> Page
    requires { to + 320 ≤ length out.old }
    ensures { Ends number tool bit s out.old to result out.new }
{
    let stop = text_lines::stop_line(number, s.at, tool, bit, out, to);
    Page {
        next: None,
        to: text_lines::samples_line(s.samples, out, stop),
    }
}

// A frame that was read: its line, and where the listing stands after it.
fn list_frame(r: Report, s: Stand, out: &mut [u8], to: usize) -> Page
    requires { Listable s r × (to + 320 ≤ length out.old) }
    ensures { ListsFrame s r out.old to result out.new }
{
    let end = text_lines::frame_line(
        s.frames,
        s.at,
        r.len,
        r.tool as usize,
        r.octets,
        r.bits,
        out,
        to,
    );
    let next = Stand {
        law: s.law,
        frames: s.frames + 1,
        at: s.at + r.octets,
        samples: s.samples + r.len,
    };
    Page {
        next: Some(next),
        to: end,
    }
}

// The line of the frame at the place (320 samples of room are enough for any), or, at the stream's end and where the frame is refused, the
// last two lines.
fn step(stream: &[u8], s: Stand, room: &mut [u8; 320], out: &mut [u8], to: usize) -> Page
    requires { (Stands stream.now s) × (to + 320 ≤ length out.old) × (length room.old ≡ 320) }
    ensures lists { Lists stream.now s out.old to result.next out.new result.to }
    ensures less { steps_left stream.now result.next < steps_left stream.now (Some s) }
    ensures size { length room.new ≡ 320 }
{
    if stream.len() <= s.at {
        return last(0, 0, 0, s, out, to);
    }
    let r = walk::pass(stream, s.law, rules::LISTED_TOOLS, s.at, 320, room);
    match r.end {
        Err(why) => last(why.number() as usize, r.tool as usize, r.bit, s, out, to),
        Ok(()) => list_frame(r, s, out, to),
    }
}

// As many lines as the page has room for; its room for samples is used for one frame after another.
pub fn next_page(stream: &[u8], from: Stand, out: &mut [u8]) -> Page
    requires { (Stands stream.now from) × (320 ≤ length out.old) }
    ensures lists { Lists stream.now from out.old 0 result.next out.new result.to }
    ensures less { steps_left stream.now result.next < steps_left stream.now (Some from) }
{
    let mut room = [0u8; 320];
    let mut s = from;
    let mut to = 0;
    loop {
        let page = step(stream, s, &mut room, out, to);
        let Some(next) = page.next else {
            return page;
        };
        if out.len() - page.to < 320 {
            return page;
        }
        s = next;
        to = page.to;
    }
}

// "Input with no or another first octet prints `stop=12 at=0 tool=0` only; a longer stream prints that line with 13"; its bit is 0.
fn refused(why: Refusal, out: &mut [u8]) -> Page
    requires { 160 ≤ length out.old }
    ensures { Stops (refusal_number why) out.old result out.new }
{
    Page {
        next: None,
        to: text_lines::stop_line(why.number() as usize, 0, 0, 0, out, 0),
    }
}

// The law's line, and the stream's first place.
fn open_stream(stream: &[u8], law: u32, out: &mut [u8]) -> Page
    requires { (law ≤ most_law) × (160 ≤ length out.old) }
    ensures { Opens (list_stream law stream.now) stream.now out.old result out.new }
{
    if rules::MOST_LISTED < stream.len() {
        return refused(Refusal::Long, out);
    }
    let to = text_lines::law_line(law as usize, out, 0);
    let start = Stand {
        law,
        frames: 0,
        at: 0,
        samples: 0,
    };
    Page {
        next: Some(start),
        to,
    }
}

// "A or M, then a stream of at most 65,535 octets"
pub fn open_listing(input: &[u8], out: &mut [u8]) -> Page
    requires { 160 ≤ length out.old }
    ensures { OpensInput input.now out.old result out.new }
{
    let Some(letter) = input.first() else {
        return refused(Refusal::Law, out);
    };
    match *letter {
        b'A' => open_stream(&input[1..], 0, out),
        b'M' => open_stream(&input[1..], 1, out),
        _ => refused(Refusal::Law, out),
    }
}
