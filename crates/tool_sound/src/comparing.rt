// The comparison of two sounds.
ghost use Rattle.std.specs.Prelude.{◌≡◌, ◌≤◌, length};
ghost use Rattle.tool_sound.specs.Agreeing.{agreeing};

// The number of octets at the start in which two sounds agree.
pub fn agree(a: &[u8], b: &[u8]) -> usize
    ensures value { result ≡ agreeing a.now b.now }
    ensures most { (result ≤ length a.now) × (result ≤ length b.now) }
{
    for (i, x) in a.iter().enumerate() {
        if b.len() <= i || b[i] != *x {
            return i;
        }
    }
    a.len()
}
