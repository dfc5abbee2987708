// A frame from -2 to 1 that the look leaves and that has a 1 or a -2: value-location, or the last of the tie order.

ghost use Rattle.std.specs.Prelude.{◌≡◌, true, ◌≤◌, length};
ghost use Rattle.write_scan.specs.Looks.{is_mask, FrameIn};
ghost use Rattle.write_choice.specs.Plans.{Left, NearFrame, near_by, NearPlanned};

use crate::last::last_of;
use crate::plans::{NearPlan, Plain};
use first_octet::holds;
use write_located::Located;
use write_offers::{better, near_of};

// Value-location where its octets are not more, else what was best before it.
fn located_or(last: Plain, w: Located) -> NearPlan
    requires { (last.choice.bits ≤ 1000000000) × (w.bits ≤ 1000000000) }
    ensures { result ≡ near_by last w }
{
    let seven = better(last.choice, 7, true, w.bits);
    if seven.tool == 7 {
        NearPlan::Values(w)
    } else {
        NearPlan::Last(last)
    }
}

// "Fewest octets" for such a frame: binary and Rice do not apply. Nothing is measured where the set lacks value-location.
pub fn near_plan(
    frame: &[u8],
    mask: u8,
    set: u32,
    a: &mut [u16; 321],
    b: &mut [u16; 321],
    c: &mut [u16; 321],
) -> NearPlan
    requires frame_in { (FrameIn frame.now) × (is_mask mask ≡ true) }
    requires left { (Left mask set frame.now) × (NearFrame mask frame.now) }
    ensures { NearPlanned mask set frame.now result a.new b.new c.new }
{
    let last = last_of(frame, mask, set);
    if !holds(set, 7) {
        return NearPlan::Last(last);
    }
    match near_of(frame, mask, a, b, c) {
        Ok(w) => located_or(last, w),
        Err(_) => NearPlan::Last(last),
    }
}
