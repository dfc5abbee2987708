// What a file is: `unpack` knows a recording by its heading.
ghost use Rattle.std.specs.Prelude.{◌≡◌};
ghost use Rattle.tool_playback.specs.Kinds.{kind_of};

// A stream, a recording of a law, or what begins as a recording and has no heading.
// No Option or Result: it has three cases of its own.
#[derive(Clone, Copy)]
pub enum Kind {
    Stream,
    Recording(u32),
    Headless,
}

// What a file is, by its first octets.
pub fn kind_of(octets: &[u8]) -> Kind
    ensures { result ≡ kind_of octets.now }
{
    match recording_read::law_in(octets) {
        Some(law) => Kind::Recording(law),
        None if text_keyvalue::has_word(octets, 0, b"#!G7110") => Kind::Headless,
        None => Kind::Stream,
    }
}
