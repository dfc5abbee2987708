// Names of files: the ending, the law that it tells, and the name of what is written.
ghost use Rattle.std.specs.Prelude.{◌≡◌, ◌∷◌, ◌+◌, ◌≤◌, length};
ghost use Rattle.tool_words.specs.Names.{place_after, ending_at, law_of_sound, law_of_stream, law_told, new_ending, new_name};
ghost use Rattle.tool_words.specs.Texts.{Laid};

use crate::texts::{is_same, lay};

// Where an octet at place i leaves the ending's place.
fn place_after(none: usize, place: usize, i: usize, octet: u8) -> usize
    requires { (i + 1 ≤ none) × (place ≤ none) }
    ensures value { result ≡ place_after none place i octet }
    ensures most { result ≤ none }
{
    match octet {
        b'/' => none,
        b'.' => i + 1,
        _ => place,
    }
}

// An ending begins after the last '.' that is after the last '/'; where there is none it is empty, at the name's end.
pub fn ending_at(name: &[u8]) -> usize
    ensures value { result ≡ ending_at name.now }
    ensures most { result ≤ length name.now }
{
    let none = name.len();
    let mut place = none;
    for (i, octet) in name.iter().enumerate() {
        place = place_after(none, place, i, *octet);
    }
    place
}

// The law that an ending of raw sound tells.
#[tactic(auto, unfolding(crate::specs::Names::law_of_sound))]
fn law_of_sound(ending: &[u8]) -> Option<u32>
    ensures { result ≡ law_of_sound ending.now }
{
    if is_same(ending, b"ul8") || is_same(ending, b"mu8") || is_same(ending, b"mu") {
        Some(1)
    } else if is_same(ending, b"al8") || is_same(ending, b"al") {
        Some(0)
    } else {
        None
    }
}

// The law that an ending of a stream tells.
#[tactic(auto, unfolding(crate::specs::Names::law_of_stream))]
fn law_of_stream(ending: &[u8]) -> Option<u32>
    ensures { result ≡ law_of_stream ending.now }
{
    if is_same(ending, b"lcm") {
        Some(1)
    } else if is_same(ending, b"lca") {
        Some(0)
    } else {
        None
    }
}

// The law that the name of what is read tells: `pack` reads sound, `unpack` a stream.
pub fn law_told(packs: bool, name: &[u8]) -> Option<u32>
    ensures { result ≡ law_told packs name.now }
{
    let ending = &name[ending_at(name)..];
    if packs {
        law_of_sound(ending)
    } else {
        law_of_stream(ending)
    }
}

// The ending of what is written, after its '.'.
fn new_ending(packs: bool, law: u32) -> [u8; 4]
    ensures value { result ≡ 0x2E ∷ new_ending packs law }
    ensures size { 4 ≡ length result }
{
    match (packs, law) {
        (true, 1) => *b".lcm",
        (true, _) => *b".lca",
        (false, 1) => *b".muo",
        (false, _) => *b".alo",
    }
}

// The name of what is written, and its length: an ending that tells a law is replaced, otherwise the new one is appended. There is none
// where it does not fit.
pub fn new_name(packs: bool, law: u32, name: &[u8], out: &mut [u8]) -> Option<usize>
    ensures { Laid (new_name packs law name.now) out.old out.new result }
{
    let ending = new_ending(packs, law);
    match law_told(packs, name) {
        None => lay(name, &ending, out),
        Some(_) => lay(&name[..ending_at(name)], &ending[1..], out),
    }
}
