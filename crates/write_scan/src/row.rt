// Flags as words of 40, the first one highest. Every frame's length is a multiple of 40, so no word is part empty.
ghost use Rattle.std.specs.Prelude.{◌≡◌, ℕ, ◌^◌, ◌≤◌, ◌<◌, get_or, take};

// A row of flags, of which the first `count` words count.
#[derive(Drop)]
pub struct Row {
    pub words: [u64; 8],
    pub count: usize,
    ghost small: { (i : ℕ) → get_or words i 0 < 2 ^ 40 },
    ghost few: { count ≤ 8 },
}

impl Row {
    // The words that count.
    pub fn words(&self) -> &[u64]
        ensures { result.now ≡ take self.now.count self.now.words }
    {
        &self.words[..self.count]
    }
}
