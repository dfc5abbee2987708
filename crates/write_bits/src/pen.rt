// How far the putting of bits has come.
ghost use Rattle.std.specs.Prelude.{◌≡◌, ◌^◌, ◌<◌};

// The bits that are held, as a word of so many; and the place of the next octet.
#[derive(Drop)]
pub struct Pen {
    pub word: u64,
    pub held: usize,
    pub at: usize,
    ghost small: { word < 2 ^ 32 },
    ghost few: { held < 32 },
}

impl Pen {
    // A pen that has put nothing yet.
    pub fn new() -> Pen
        ensures { (result.word ≡ 0) × ((result.held ≡ 0) × (result.at ≡ 0)) }
    {
        Pen {
            word: 0,
            held: 0,
            at: 0,
        }
    }
}
