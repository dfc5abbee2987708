// The listing program (document 01, "Walk and listing"): it reads standard input and writes its listing, page by page. What the pages
// hold stands in crate `listing_pages`.
#![tactic(auto)]

ghost use Rattle.std.specs.Prelude.{◌≤◌, IfOk, length};
ghost use Rattle.listing_pages.specs.Pages.{Stands};

use listing_pages::Stand;
use std::io;
use std::io::{Print, Read};

// The stream's lines, page by page.
fn list_stream(rt: HostRuntime, stream: &[u8], start: Stand, text: &mut [u8]) -> io::Result<()>
    requires { (Stands stream.now start) × (320 ≤ length text.old) }
{
    let mut next = Some(start);
    while let Some(s) = next {
        let page = listing_pages::next_page(stream, s, text);
        Print::write_all(&rt.stdout(), &text[..page.to])?;
        next = page.next;
    }
    Ok(())
}

// All that the listing of an input is.
fn list(rt: HostRuntime, input: &[u8], text: &mut [u8]) -> io::Result<()>
    requires { 320 ≤ length text.old }
{
    let page = listing_pages::open_listing(input, text);
    Print::write_all(&rt.stdout(), &text[..page.to])?;
    match page.next {
        Some(start) => list_stream(rt, &input[1..], start, text),
        None => Ok(()),
    }
}

// Reads standard input until the octets lent are full or it ends.
// A `while`: how many octets a read gives is known when it is done.
fn read_full(rt: HostRuntime, input: &mut [u8]) -> io::Result<usize>
    ensures { IfOk result (λ n. n ≤ length input.new) }
{
    let mut from = rt.stdin();
    let mut done = 0;
    while done < input.len() {
        let n = from.read(&mut input[done..])?;
        if n == 0 {
            return Ok(done);
        }
        done += n;
    }
    Ok(done)
}

// Reads standard input and lists it.
fn run(rt: HostRuntime, input: &mut [u8], text: &mut [u8]) -> io::Result<()>
    requires { 320 ≤ length text.old }
{
    let n = read_full(rt, input)?;
    list(rt, &input[..n], text)
}

fn main(rt: HostRuntime) -> io::Result<()> {
    let mut space = [0u8; 65538];
    let mut page = [0u8; 8192];
    run(rt, &mut space, &mut page)
}
