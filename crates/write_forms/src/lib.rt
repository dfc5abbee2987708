// The forms of the tools, put out as planned: nothing is decided here.
#![tactic(auto)]

ghost use Rattle.std.specs.Prelude.{◌≡◌, true, cond, map, ℕ, ◌+◌, ◌*◌, ◌/◌, ◌^◌, ◌≤◌, ◌<◌, length, get_or, eqb};
ghost use Rattle.rules.specs.Bits.{bits_of};
ghost use Rattle.rules.specs.Fractional.{radix, place_in, samples_at};
ghost use Rattle.rules.specs.First.{rice_code};
ghost use Rattle.rules.specs.Chooses.{numbers_form};
ghost use Rattle.rules.specs.Zeros as zeros;
ghost use Rattle.write_bits.specs.Puts.{Able, Puts, Packed};
ghost use Rattle.write_scan.specs.Looks.{is_mask, FrameIn};
ghost use Rattle.write_forms.specs.Ways.{places_by, marks_form, way_of, WayPlanned};
ghost use Rattle.write_forms.specs.Forms.{whole_octets, Copied, RiceReady, rice_form_of, ValuesReady, values_form_of, LocatedReady};
ghost use Rattle.write_forms.specs.Forms.{located_form_of, plan_form, binary_form, row_form};

use first_octet::{base_of, octet_for};
use s_codes::code_of;
use value_rows::{first_code, row_at};
use write_bits::pen::Pen;
use write_fractional::grouping::put_body;
use write_located::{Located, Way};
use write_measure::width_of;
use write_scan::row::Row;
use write_zeros::Zeros;

// The first octet of every tool but 6.
fn put_prefix(pen: &mut Pen, out: &mut [u8], tool: u32, n: usize)
    requires le_tool { (1 ≤ tool) × (tool ≤ 7) }
    requires able { Able out.old pen.old 8 }
    ensures { Puts out.old pen.old (zeros.prefix tool n) out.new pen.new }
{
    pen.put(out, 8, u64::from(octet_for(tool, n)));
}

// "Uncompressed: N octets", copied whole behind the first octet.
fn put_samples(out: &mut [u8], frame: &[u8])
    requires { length frame.now < length out.old }
    ensures { Copied frame.now (length frame.now) out.old out.new }
{
    rules::copy_over(&mut out[1..=frame.len()], frame);
}

// The form of tools 1 to 4: whole octets, stored with no pen. Their number comes back.
pub fn put_whole(out: &mut [u8], frame: &[u8], tool: u32) -> usize
    requires le_tool { (1 ≤ tool) × (tool ≤ 4) }
    requires frame_in { FrameIn frame.now }
    requires tool_in_bounds { cond (eqb tool 1) (1 + length frame.now) (cond (eqb tool 4) 2 1) ≤ length out.old }
    ensures { Packed (bits_of (whole_octets tool frame.now)) out.old out.new result }
{
    let n = frame.len();
    out[0] = octet_for(tool, n);
    match tool {
        1 => {
            put_samples(out, frame);
            1 + n
        }
        4 => {
            out[1] = frame[0];
            2
        }
        _ => 1,
    }
}

// "After the length code come 010 or 011 (100 or 101 for 240 and 320)": all of that at once.
fn put_start(pen: &mut Pen, out: &mut [u8], n: usize, mark: usize)
    requires mark_bound { mark < 2 }
    requires able { Able out.old pen.old (length (rice_code n mark)) }
    ensures { Puts out.old pen.old (rice_code n mark) out.new pen.new }
{
    let base = u64::from(base_of(n));
    if 240 <= n {
        pen.put(out, 7, (base / 16) * 8 + 4 + mark as u64);
    } else {
        pen.put(out, 5, (base / 64) * 8 + 2 + mark as u64);
    }
}

// Rice: the start, the code of S, and the runs.
// The array of runs is lent whole, here and in those below: the plan has the count.
fn put_plus_minus(pen: &mut Pen, out: &mut [u8], r: Zeros, n: usize, runs: &[u16; 321])
    requires rice_ready { RiceReady n r runs.now }
    requires able { Able out.old pen.old (length (rice_form_of n r runs.now)) }
    ensures { Puts out.old pen.old (rice_form_of n r runs.now) out.new pen.new }
{
    put_start(pen, out, n, r.mark);
    let k = code_of(n, r.s);
    pen.put(out, k.bits, k.value);
    pen.put_runs(out, r.s, &runs[..r.count]);
}

// "that many places of ceil(log2 D) bits, rising": the places at which runs end.
fn put_listed(pen: &mut Pen, out: &mut [u8], runs: &[u16], w: usize)
    requires w_bound { (w ≤ 9) × (length runs.now ≤ 321) }
    requires by_index { (i : ℕ) → get_or (places_by 0 runs.now) i 0 < 2 ^ w }
    requires able { Able out.old pen.old (length (numbers_form w (places_by 0 runs.now))) }
    ensures { Puts out.old pen.old (numbers_form w (places_by 0 runs.now)) out.new pen.new }
{
    let mut at = 0;
    for &run in runs {
        let place = at + u64::from(run);
        pen.put(out, w, place);
        at = place + 1;
    }
}

// "D bits, where a 1 is an occurrence": each run is its zeros and a 1, and what is open at the end is zeros alone.
fn put_marks(pen: &mut Pen, out: &mut [u8], runs: &[u16], count: usize)
    requires count_le { count ≤ length runs.now }
    requires able { Able out.old pen.old (length (marks_form count runs.now)) }
    ensures { Puts out.old pen.old (marks_form count runs.now) out.new pen.new }
{
    pen.put_runs(out, 0, &runs[..count]);
    if count < runs.len() {
        pen.put_zeros(out, u64::from(runs[count]));
    }
}

// A value's places by its method, from its runs alone.
fn put_value(pen: &mut Pen, out: &mut [u8], w: Way, runs: &[u16; 321])
    requires way_planned { WayPlanned w runs.now }
    requires able { Able out.old pen.old (length (way_of w runs.now)) }
    ensures { Puts out.old pen.old (way_of w runs.now) out.new pen.new }
{
    let found = &runs[..w.runs];
    match w.method {
        5 => {
            pen.put(out, 3, 5);
        }
        0 => {
            pen.put(out, 3, 0);
            put_marks(pen, out, found, w.count);
        }
        1..=4 => {
            pen.put(out, 3, u64::from(w.method));
            pen.put_runs(out, usize::from(w.method), found);
        }
        _ => {
            pen.put(out, 5, 28 + w.count as u64 - 1);
            put_listed(pen, out, &found[..w.count], width_of(w.d));
        }
    }
}

// "The values below in turn": as many as the row has for the flag.
fn put_values(
    pen: &mut Pen,
    out: &mut [u8],
    plan: Located,
    a: &[u16; 321],
    b: &[u16; 321],
    c: &[u16; 321],
)
    requires values_ready { ValuesReady plan a.now b.now c.now }
    requires able { Able out.old pen.old (length (values_form_of plan a.now b.now c.now)) }
    ensures { Puts out.old pen.old (values_form_of plan a.now b.now c.now)
        out.new pen.new }
{
    put_value(pen, out, plan.first, a);
    if plan.count == 1 {
        return;
    }
    put_value(pen, out, plan.second, b);
    if plan.count == 2 {
        return;
    }
    put_value(pen, out, plan.third, c);
}

// "Range case (2 bits), flag (1 bit), then the values": the body of value-location.
fn put_located_body(
    pen: &mut Pen,
    out: &mut [u8],
    plan: Located,
    a: &[u16; 321],
    b: &[u16; 321],
    c: &[u16; 321],
)
    requires located_ready { LocatedReady plan a.now b.now c.now }
    requires able { Able out.old pen.old (length (located_form_of plan a.now b.now c.now)) }
    ensures { Puts out.old pen.old (located_form_of plan a.now b.now c.now)
        out.new pen.new }
{
    pen.put(out, 3, plan.row as u64 * 2 + plan.flag as u64);
    put_values(pen, out, plan, a, b, c);
}

// Value-location as planned, as octets. Their number comes back.
pub fn put_located(
    out: &mut [u8],
    n: usize,
    plan: Located,
    a: &[u16; 321],
    b: &[u16; 321],
    c: &[u16; 321],
) -> usize
    requires located_ready { LocatedReady plan a.now b.now c.now }
    requires c_len_bound { length (plan_form n plan a.now b.now c.now) ≤ 8 * length out.old }
    ensures { Packed (plan_form n plan a.now b.now c.now) out.old out.new result }
{
    let mut pen = Pen::new();
    put_prefix(&mut pen, out, 7, n);
    put_located_body(&mut pen, out, plan, a, b, c);
    pen.finish(out)
}

// Rice as planned, as octets. Their number comes back.
pub fn put_rice(out: &mut [u8], n: usize, plan: Zeros, runs: &[u16; 321]) -> usize
    requires rice_ready { RiceReady n plan runs.now }
    requires runs_len_bound { length (rice_form_of n plan runs.now) ≤ 8 * length out.old }
    ensures { Packed (rice_form_of n plan runs.now) out.old out.new result }
{
    let mut pen = Pen::new();
    put_plus_minus(&mut pen, out, plan, n, runs);
    pen.finish(out)
}

// "Binary: N bits, 1 is minus zero", as octets: the flags of the row. Their number comes back.
pub fn put_binary(out: &mut [u8], n: usize, row: &Row) -> usize
    requires row_len_bound { length (binary_form n row.now) ≤ 8 * length out.old }
    ensures { Packed (binary_form n row.now) out.old out.new result }
{
    let mut pen = Pen::new();
    put_prefix(&mut pen, out, 5, n);
    pen.put_row(out, row);
    pen.finish(out)
}

// The form of a frame that has row k, as octets: the first octet, and the body. Their number comes back.
pub fn put_fractional(out: &mut [u8], frame: &[u8], mask: u8, k: usize) -> usize
    requires frame_in { (FrameIn frame.now) × (is_mask mask ≡ true) × (k < 12) }
    requires by_index { (i : ℕ) → get_or (map (place_in (samples_at mask k)) frame.now) i 0 < radix k }
    requires samples_len_bound { length (row_form mask (length frame.now) k frame.now) ≤ 8 * length out.old }
    ensures { Packed (row_form mask (length frame.now) k frame.now) out.old out.new result }
{
    let mut pen = Pen::new();
    pen.put(out, 8, u64::from(first_code(frame.len())) + k as u64);
    put_body(&mut pen, out, frame, mask, row_at(k));
    pen.finish(out)
}
