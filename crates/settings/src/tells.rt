// What a box's settings tell, nothing changed: a kept revision's values as they stand, and the numbers of all that are kept.
// What each call answers stands in specs/Tells.
ghost use Rattle.std.specs.Prelude.{◌≡◌, ◌*◌, ◌<◌, length, get_or};
ghost use Rattle.settings.specs.Tells.{get_of, get_number_of, values_in, numbers_kept};

use crate::{Refusal, Settings};
use rules::Numbered;

// A kept revision's values: GONE.
pub fn get(state: &[u32; 41], revision: u32) -> Option<Settings>
    ensures { result ≡ get_of state.now revision }
{
    crate::look_up(state, revision)
}

// An accepted call has the number 0.
pub fn get_number(k: Option<Settings>) -> u32
    ensures { result ≡ get_number_of k }
{
    match k {
        Some(_) => 0,
        None => Refusal::Gone.number(),
    }
}

// What a call tells; a refused one reports zeros.
pub fn values_in(k: Option<Settings>) -> Settings
    ensures { result ≡ values_in k }
{
    k.unwrap_or(Settings {
        law: 0,
        set: 0,
        block: 0,
        greeting: 0,
    })
}

// The number of row k.
fn number_at(rows: &[u32], k: usize) -> u32
    requires { (k < 8) × (length rows.now ≡ 45) }
    ensures { result ≡ get_or rows.now (5 * k) 0 }
{
    rows[5 * k]
}

// The numbers of the kept revisions, the oldest first, then 0: never refused.
pub fn kept(state: &[u32; 41]) -> [u64; 8]
    ensures { result ≡ numbers_kept state.now }
{
    let mut rows = [0u32; 45];
    crate::gather(state, &mut rows);
    let mut numbers = [0u64; 8];
    for (k, n) in numbers.iter_mut().enumerate() {
        *n = u64::from(number_at(&rows, k));
    }
    numbers
}
