// The C boundary: numbers and slices only. include/g7110.h says what a C program passes.
#![tactic(auto)]

ghost use Rattle.std.specs.Prelude.{map, ◌≡◌, length};
ghost use Rattle.rules.specs.Frame.{read_one};
ghost use Rattle.rules.specs.Walk.{walk_all};
ghost use Rattle.rules.specs.Chooses.{write_one};
ghost use Rattle.mending.specs.Mend.{mend_of};
ghost use Rattle.settings.specs.Calls.{Wipe};
ghost use Rattle.g7110.specs.Mending.{MendReported};
ghost use Rattle.g7110.specs.Settings.{SaveReported, BackReported, RevisionReported};
ghost use Rattle.reasons.specs.Why.{why_one};
ghost use Rattle.store_notes.specs.Sane.{store_cells};
ghost use Rattle.g7110.specs.Store.{PutReported, GetReported, DeleteReported, JumpReported};
ghost use Rattle.store_moves.specs.Record.{MoveStep};
ghost use Rattle.g7110.specs.Moves.{TryReported, NextReported, MovedReported, RenumberReported};
ghost use Rattle.linear.specs.Equations.{to_pcm, from_pcm};
ghost use Rattle.g7110.specs.Saved.{SavedReported, LoadReported};
ghost use Rattle.recording.specs.Items.{read_file};
ghost use Rattle.recording.specs.Files.{write_file};
ghost use Rattle.g7110.specs.Recordings.{FileReadReported, FileWriteReported};
ghost use Rattle.settings.specs.Tells.{get_of, numbers_kept};
ghost use Rattle.mending.specs.Why.{why_of};
ghost use Rattle.g7110.specs.Tells.{InfoReported, AtReported, TotalsReported, ValuesReported, MendWhyReported};
ghost use Rattle.g7110.specs.Boundary.{ReadReported, WalkReported, WriteReported, WhyReported, Converted};
ghost use Rattle.read_head.specs.Heads.{head_of};
ghost use Rattle.walk_check.specs.Check.{check_of};
ghost use Rattle.recording.specs.Remembered.{headed};
ghost use Rattle.g7110.specs.Telling.{version, CheckReported, HeadReported, FileHeadReported};
ghost use Rattle.g7110.specs.Telling.{FileNextReported, ToMasterReported, FromMasterReported};

use rules::Numbered;

// Reading one frame: the number, and in the report samples, octets used, bits, tool and the refusal's bit.
#[unsafe(no_mangle)]
pub extern "C" fn g7110_read(
    octets: &[u8],
    law: u32,
    set: u32,
    out: &mut [u8],
    report: &mut [u64; 5],
) -> u32
    ensures { ReadReported (read_one octets.now law set (length out.old))
        out.old out.new report.new result }
{
    let a = reader::read_frame(octets, law, set, out);
    *report = [
        a.frame.len as u64,
        a.octets as u64,
        a.bits as u64,
        a.tool as u64,
        a.bit as u64,
    ];
    rules::number_of(a.end)
}

// Walking a stream: the number, and in the report frames, octets and samples kept, the tool that TOOL gives, and the refusal's bit.
#[unsafe(no_mangle)]
pub extern "C" fn g7110_walk(
    octets: &[u8],
    law: u32,
    set: u32,
    out: &mut [u8],
    report: &mut [u64; 5],
) -> u32
    ensures { WalkReported (walk_all octets.now law set (length out.old))
        out.old out.new report.new result }
{
    let a = walk::walk(octets, law, set, out);
    let tool = rules::tool_of(a.end);
    *report = [
        a.frames as u64,
        a.octets as u64,
        a.samples as u64,
        tool as u64,
        a.bit as u64,
    ];
    rules::number_of(a.end)
}

// Writing one frame: the number, and in the report octets, bits and tool.
#[unsafe(no_mangle)]
pub extern "C" fn g7110_write(
    samples: &[u8],
    law: u32,
    set: u32,
    out: &mut [u8],
    report: &mut [u64; 3],
) -> u32
    ensures { WriteReported (write_one (length samples.now) samples.now law set (length out.old))
        out.old out.new report.new result }
{
    let a = writer::write_samples(samples, law, set, out);
    *report = [a.octets as u64, a.bits as u64, a.tool as u64];
    rules::number_of(a.end)
}

// Why the writer takes its tool: the number, and in the report the octets of text.
#[unsafe(no_mangle)]
pub extern "C" fn g7110_why(
    samples: &[u8],
    law: u32,
    set: u32,
    text: &mut [u8; 512],
    report: &mut [u64; 1],
) -> u32
    ensures { WhyReported (why_one (length samples.now) samples.now law set)
        text.old text.new report.new result }
{
    match reasoning::why_samples(samples, law, set) {
        Err(why) => {
            *report = [0];
            why.number()
        }
        Ok(r) => {
            let octets = reasons::text_of(r, text);
            *report = [octets as u64];
            0
        }
    }
}

// A frame of octets to linear values.
#[unsafe(no_mangle)]
pub extern "C" fn g7110_to_linear(samples: &[u8], law: u32, out: &mut [i16]) -> u32
    ensures { Converted law (length samples.now) (map (to_pcm law) samples.now)
        out.old out.new result }
{
    rules::number_of(linear::to_linear(samples, law, out))
}

// A frame of linear values to octets.
#[unsafe(no_mangle)]
pub extern "C" fn g7110_from_linear(linear: &[i16], law: u32, out: &mut [u8]) -> u32
    ensures { Converted law (length linear.now) (map (from_pcm law) linear.now)
        out.old out.new result }
{
    rules::number_of(linear::from_linear(linear, law, out))
}

// Saving a store's table: the number, and in the report the octets of text.
#[unsafe(no_mangle)]
pub extern "C" fn g7110_store_save(
    block: &[u8],
    table: &[u32],
    out: &mut [u8],
    report: &mut [u64; 1],
) -> u32
    ensures { SavedReported block.now table.now out.old out.new report.new result }
{
    let a = store_save::save(block, table, out);
    let (octets, _) = a.unwrap_or((0, 0));
    *report = [octets as u64];
    rules::number_of(a)
}

// Loading a table's text: the number.
#[unsafe(no_mangle)]
pub extern "C" fn g7110_store_load(text: &[u8], block: &[u8], table: &mut [u32]) -> u32
    ensures { LoadReported text.now block.now table.old table.new result }
{
    rules::number_of(store_save::load(text, block, table))
}

// Saving settings: the number, and in the report the new revision.
#[unsafe(no_mangle)]
pub extern "C" fn g7110_settings_save(
    state: &mut [u32; 41],
    text: &[u8],
    report: &mut [u64; 1],
) -> u32
    ensures { SaveReported text.now state.old state.new report.new result }
{
    let a = settings::save(state, text);
    *report = [u64::from(a.unwrap_or(0))];
    rules::number_of(a)
}

// Going back to a kept revision: the number, and in the report the new revision.
#[unsafe(no_mangle)]
pub extern "C" fn g7110_settings_back(
    state: &mut [u32; 41],
    revision: u32,
    report: &mut [u64; 1],
) -> u32
    ensures { BackReported revision state.old state.new report.new result }
{
    let a = settings::back(state, revision);
    *report = [u64::from(a.unwrap_or(0))];
    rules::number_of(a)
}

// A kept revision's text: the number, and in the report its octets.
#[unsafe(no_mangle)]
pub extern "C" fn g7110_settings_read(
    state: &[u32; 41],
    revision: u32,
    text: &mut [u8; 80],
    report: &mut [u64; 1],
) -> u32
    ensures { RevisionReported revision state.now text.old text.new report.new result }
{
    let a = settings::read(state, revision, text);
    *report = [u64::from(a.unwrap_or(0))];
    rules::number_of(a)
}

// The wipe for the next tenant: never refused.
#[unsafe(no_mangle)]
pub extern "C" fn g7110_settings_wipe(state: &mut [u32; 41]) -> u32
    ensures { (result ≡ 0) × (Wipe state.old state.new) }
{
    settings::wipe(state);
    0
}

// Mending a damaged greeting: the number, and in the report octets of the result, frames kept, octets kept and samples filled.
#[unsafe(no_mangle)]
pub extern "C" fn g7110_mend(
    octets: &[u8],
    law: u32,
    total: u64,
    out: &mut [u8],
    report: &mut [u64; 4],
) -> u32
    ensures { MendReported (mend_of octets.now law total (length out.old))
        out.old out.new report.new result }
{
    let a = mending::mend(octets, law, total, out);
    *report = [
        a.octets as u64,
        a.frames as u64,
        a.kept as u64,
        a.filled as u64,
    ];
    rules::number_of(a.end)
}

// How many cells a store's table needs for a block of a size: its greetings, their notes and all marks.
#[unsafe(no_mangle)]
pub extern "C" fn g7110_store_cells(size: u64) -> u64
    ensures { result ≡ store_cells size }
{
    let cells = store_notes::store_cells(size as usize);
    cells as u64
}

// Putting a greeting of a law: the number, and in the report its start and the octets moved.
#[unsafe(no_mangle)]
pub extern "C" fn g7110_store_put(
    block: &mut [u8],
    table: &mut [u32],
    law: u32,
    number: u32,
    octets: &[u8],
    report: &mut [u64; 2],
) -> u32
    ensures { PutReported law number octets.now block.old table.old
        block.new table.new report.new result }
{
    let a = store::put(block, table, law, number, octets);
    let (start, moved) = a.unwrap_or((0, 0));
    *report = [start as u64, moved as u64];
    rules::number_of(a)
}

// Getting one: the number, and in the report its start and octets.
#[unsafe(no_mangle)]
pub extern "C" fn g7110_store_get(
    block: &[u8],
    table: &[u32],
    number: u32,
    report: &mut [u64; 2],
) -> u32
    ensures { GetReported number block.now table.now report.new result }
{
    let a = store::get(block, table, number);
    let (start, octets) = a.unwrap_or((0, 0));
    *report = [start as u64, octets as u64];
    rules::number_of(a)
}

// Deleting one: the number.
#[unsafe(no_mangle)]
pub extern "C" fn g7110_store_delete(block: &[u8], table: &mut [u32], number: u32) -> u32
    ensures { DeleteReported number block.now table.old table.new result }
{
    rules::number_of(store::delete(block, table, number))
}

// Jumping to a sample of one: the number, and in the report the frame that holds it, its octet place, the sample's place in it, and the
// frames read.
#[unsafe(no_mangle)]
pub extern "C" fn g7110_store_jump(
    block: &[u8],
    table: &[u32],
    number: u32,
    sample: u64,
    report: &mut [u64; 4],
) -> u32
    ensures { JumpReported number sample block.now table.now report.new result }
{
    let a = store_jump::jumping::jump(block, table, number, sample);
    let t = store_jump::jumping::told_of(a);
    *report = [
        t.frame as u64,
        t.place as u64,
        t.inside as u64,
        t.read as u64,
    ];
    rules::number_of(a)
}

// Reading a recording file: the number, and in the report law, items, octets after the heading, samples, the tool that TOOL gives, and the
// refusal's bit.
#[unsafe(no_mangle)]
pub extern "C" fn g7110_file_read(
    octets: &[u8],
    set: u32,
    out: &mut [u8],
    items: &mut [u16],
    report: &mut [u64; 6],
) -> u32
    ensures { FileReadReported (read_file octets.now set (length out.old) (length items.old))
        out.old out.new items.old items.new report.new result }
{
    let a = recording_read::read_file(octets, set, out, items);
    let tool = recording::tool_of(a.end);
    *report = [
        a.law as u64,
        a.items as u64,
        a.octets as u64,
        a.samples as u64,
        tool as u64,
        a.bit as u64,
    ];
    rules::number_of(a.end)
}

// Writing one: the number, and in the report the octets of the file.
#[unsafe(no_mangle)]
pub extern "C" fn g7110_file_write(
    samples: &[u8],
    items: &[u16],
    law: u32,
    set: u32,
    out: &mut [u8],
    report: &mut [u64; 1],
) -> u32
    ensures { FileWriteReported (write_file samples.now items.now law set (length out.old))
        out.old out.new report.new result }
{
    let a = recording_write::write_file(samples, items, law, set, out);
    *report = [a.octets as u64];
    rules::number_of(a.end)
}

// What a put would answer: the number, and in the report the start and the octets moved. Nothing is changed.
#[unsafe(no_mangle)]
pub extern "C" fn g7110_store_try(
    block: &[u8],
    table: &[u32],
    law: u32,
    number: u32,
    octets: &[u8],
    report: &mut [u64; 2],
) -> u32
    ensures { TryReported law number octets.now block.now table.now report.new result }
{
    let a = store_moves::calls::try_put(block, table, law, number, octets);
    let (start, moved) = a.unwrap_or((0, 0));
    *report = [start as u64, moved as u64];
    rules::number_of(a)
}

// The next move of closing up: the number, and in the report the greeting's number, where it lies, where it goes, and its octets.
#[unsafe(no_mangle)]
pub extern "C" fn g7110_store_next(block: &[u8], table: &[u32], report: &mut [u64; 4]) -> u32
    ensures { NextReported block.now table.now report.new result }
{
    let t = store_moves::calls::next(block, table);
    let hop = store_moves::calls::told_hop(t);
    *report = [
        hop.number as u64,
        hop.from as u64,
        hop.to as u64,
        hop.octets as u64,
    ];
    rules::number_of(t)
}

// The table with the greeting of the next move at its new place: the number.
#[unsafe(no_mangle)]
pub extern "C" fn g7110_store_moved(block: &[u8], table: &mut [u32], number: u32, to: u64) -> u32
    ensures { MovedReported number to block.now table.old table.new result }
{
    rules::number_of(store_moves::calls::moved(block, table, number, to))
}

// Another number for a greeting: the number.
#[unsafe(no_mangle)]
pub extern "C" fn g7110_store_renumber(block: &[u8], table: &mut [u32], number: u32, to: u32) -> u32
    ensures { RenumberReported number to block.now table.old table.new result }
{
    rules::number_of(store_moves::calls::renumber(block, table, number, to))
}

// One chunk of the move that the record tells of, and in `next` the record after it: the number.
#[unsafe(no_mangle)]
pub extern "C" fn g7110_move_step(
    block: &mut [u8],
    spare: &mut [u8],
    words: &[u32; 8],
    next: &mut [u32; 8],
) -> u32
    ensures { MoveStep block.old spare.old words.now next.old
        block.new spare.new next.new result }
{
    store_moves::steps::move_step(block, spare, words, next)
}

// The header's G7110_VERSION.
#[unsafe(no_mangle)]
pub extern "C" fn g7110_version() -> u32
    ensures { result ≡ version }
{
    13
}

// A stream judged with no room for its samples: the number, and in the report what a walk reports.
#[unsafe(no_mangle)]
pub extern "C" fn g7110_check(octets: &[u8], law: u32, set: u32, report: &mut [u64; 5]) -> u32
    ensures { CheckReported (check_of octets.now law set) report.new result }
{
    let a = walk_check::check(octets, law, set);
    let tool = rules::tool_of(a.end);
    *report = [
        a.frames as u64,
        a.octets as u64,
        a.samples as u64,
        tool as u64,
        a.bit as u64,
    ];
    rules::number_of(a.end)
}

// What a frame's first octets tell: the number, and in the report its tool and samples.
#[unsafe(no_mangle)]
pub extern "C" fn g7110_head(octets: &[u8], set: u32, report: &mut [u64; 2]) -> u32
    ensures { HeadReported (head_of octets.now set) report.new result }
{
    let a = read_head::head(octets, set);
    *report = [a.tool as u64, a.samples as u64];
    rules::number_of(a.end)
}

// What a recording's heading tells: the number, and in the report its law and octets.
#[unsafe(no_mangle)]
pub extern "C" fn g7110_file_head(octets: &[u8], report: &mut [u64; 2]) -> u32
    ensures { FileHeadReported (headed octets.now) report.new result }
{
    let a = recording_next::file_head(octets);
    *report = [a.law as u64, a.octets as u64];
    rules::number_of(a.end)
}

// One item of a recording at a place behind the heading: the number, and in the report kind, samples, octets, tool, the refusal's bit, and
// the next place.
#[unsafe(no_mangle)]
pub extern "C" fn g7110_file_next(
    octets: &[u8],
    at: u64,
    law: u32,
    set: u32,
    out: &mut [u8],
    report: &mut [u64; 6],
) -> u32
    ensures { FileNextReported octets.now at law set out.old out.new report.new result }
{
    let a = recording_next::next(octets, at, law, set, out);
    *report = [
        a.kind as u64,
        a.samples as u64,
        a.octets as u64,
        a.tool as u64,
        a.bit as u64,
        a.place as u64,
    ];
    rules::number_of(a.end)
}

// A frame of octets to a master's values.
#[unsafe(no_mangle)]
pub extern "C" fn g7110_to_master(samples: &[u8], law: u32, out: &mut [i16]) -> u32
    ensures { ToMasterReported law samples.now out.old out.new result }
{
    rules::number_of(linear_masters::to_master(samples, law, out))
}

// A master's values to a frame of octets.
#[unsafe(no_mangle)]
pub extern "C" fn g7110_from_master(master: &[i16], law: u32, out: &mut [u8]) -> u32
    ensures { FromMasterReported law master.now out.old out.new result }
{
    rules::number_of(linear_masters::from_master(master, law, out))
}

// A greeting by its number: the number, and in the report its start, octets, law, samples and how many marks it has.
#[unsafe(no_mangle)]
pub extern "C" fn g7110_store_info(
    block: &[u8],
    table: &[u32],
    number: u32,
    report: &mut [u64; 5],
) -> u32
    ensures { InfoReported number block.now table.now report.new result }
{
    let t = store_tell::info(block, table, number);
    let e = store_tell::entry_in(t);
    *report = [
        e.start as u64,
        e.octets as u64,
        e.law as u64,
        e.samples as u64,
        e.marks as u64,
    ];
    rules::number_of(t)
}

// A greeting by its place in order of start: the number, and in the report its number, start, octets, law, samples and how many marks it
// has.
#[unsafe(no_mangle)]
pub extern "C" fn g7110_store_at(
    block: &[u8],
    table: &[u32],
    index: u64,
    report: &mut [u64; 6],
) -> u32
    ensures { AtReported index block.now table.now report.new result }
{
    let t = store_tell::at(block, table, index);
    let e = store_tell::entry_in(t);
    *report = [
        e.number as u64,
        e.start as u64,
        e.octets as u64,
        e.law as u64,
        e.samples as u64,
        e.marks as u64,
    ];
    rules::number_of(t)
}

// All greetings together: the number, and in the report how many, the octets held, the octets free and the largest gap.
#[unsafe(no_mangle)]
pub extern "C" fn g7110_store_totals(block: &[u8], table: &[u32], report: &mut [u64; 4]) -> u32
    ensures { TotalsReported block.now table.now report.new result }
{
    let s = store_tell::totals(block, table);
    let t = store_tell::sums_in(s);
    *report = [
        t.greetings as u64,
        t.held as u64,
        t.free as u64,
        t.gap as u64,
    ];
    rules::number_of(s)
}

// A kept revision's values: the number, and in the report law, set, block and greeting.
#[unsafe(no_mangle)]
pub extern "C" fn g7110_settings_get(state: &[u32; 41], revision: u32, report: &mut [u64; 4]) -> u32
    ensures { ValuesReported (get_of state.now revision) report.new result }
{
    let k = settings::tells::get(state, revision);
    let v = settings::tells::values_in(k);
    *report = [
        v.law as u64,
        v.set as u64,
        v.block as u64,
        v.greeting as u64,
    ];
    settings::tells::get_number(k)
}

// The numbers of the kept revisions: never refused.
#[unsafe(no_mangle)]
pub extern "C" fn g7110_settings_kept(state: &[u32; 41], report: &mut [u64; 8]) -> u32
    ensures { (result ≡ 0) × (report.new ≡ numbers_kept state.now) }
{
    *report = settings::tells::kept(state);
    0
}

// What mending a greeting would answer, room apart: the number, and in the report octets of the result, frames kept, octets kept, samples
// filled, and how the walk of what is kept stopped: its number, place, tool and bit.
#[unsafe(no_mangle)]
pub extern "C" fn g7110_mend_why(octets: &[u8], law: u32, total: u64, report: &mut [u64; 8]) -> u32
    ensures { MendWhyReported (why_of octets.now law total) report.new result }
{
    let a = mending::mend_why(octets, law, total);
    let stop = a.stop;
    let number = mending::stop_number(stop);
    let tool = rules::tool_of(stop);
    *report = [
        a.octets as u64,
        a.frames as u64,
        a.kept as u64,
        a.filled as u64,
        number as u64,
        a.kept as u64,
        tool as u64,
        a.bit as u64,
    ];
    rules::number_of(a.end)
}
