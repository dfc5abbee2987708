// "LENGTH (an item that is neither a length nor 32768 plus one of the six lengths, or frames whose samples together are not exactly the
// samples given)".

ghost use Rattle.std.specs.Prelude.{◌≡◌};
ghost use Rattle.recording.specs.Files.{six_lengths, given_by};
ghost use Rattle.recording_write.specs.Cells.{length_in, taken, is_given};

use recording::marking::LOSS_FROM;
use rules::is_length;

// The length that an item names.
pub fn length_in(c: u16) -> usize
    ensures { result ≡ length_in c }
{
    if c < LOSS_FROM {
        usize::from(c)
    } else {
        usize::from(c - LOSS_FROM)
    }
}

// The samples that an item takes: a loss takes none.
pub fn samples_in(c: u16) -> usize
    ensures { result ≡ taken c }
{
    if c < LOSS_FROM { usize::from(c) } else { 0 }
}

// "one of the six lengths", 0 among them.
fn is_item(c: u16) -> bool
    ensures { result ≡ six_lengths (length_in c) }
{
    let n = length_in(c);
    n == 0 || is_length(n)
}

// Whether items and samples are frames and losses: item by item, and no sample is left over.
pub fn are_given(samples: &[u8], cells: &[u16]) -> bool
    ensures { result ≡ is_given (given_by cells.now samples.now) }
{
    let mut from = 0;
    for &c in cells {
        if !is_item(c) {
            return false;
        }
        let n = samples_in(c);
        if samples.len() - from < n {
            return false;
        }
        from += n;
    }
    samples.len() == from
}
