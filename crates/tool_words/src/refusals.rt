// The names of document 01's refusals, and of HEAD (14) of document 02.
ghost use Rattle.std.specs.Prelude.{◌≡◌};
ghost use Rattle.tool_words.specs.Refusals.{refusal_name};

// The name of a refusal by its number; any other number has none, and its name is empty.
pub fn refusal_name(number: u32) -> &'static str
    ensures { result.now ≡ refusal_name number }
{
    match number {
        1 => "SHORT",
        2 => "PREFIX",
        3 => "TOOL",
        4 => "ROOM",
        5 => "CASE",
        6 => "METHOD",
        7 => "RUN",
        8 => "PLACE",
        9 => "ALIGN",
        10 => "LENGTH",
        11 => "SET",
        12 => "LAW",
        13 => "LONG",
        14 => "HEAD",
        _ => "",
    }
}
