// Writing a recording file (document 02, R-1): its heading, then frames and losses. What is refused is found before an octet is written.
#![tactic(auto)]

ghost use Rattle.std.specs.Prelude.{◌≡◌, true};
ghost use Rattle.rules.specs.Tools.{is_law, is_writer_set};
ghost use Rattle.recording.specs.Files.{given_by};
ghost use Rattle.recording.specs.Calls.{WriteFile};
ghost use Rattle.recording_write.specs.Cells.{is_given};
ghost use Rattle.recording_write.specs.Steps.{Declines, WriteGiven};

use given::are_given;
use items::{By, put_items};
use law::mask_of;
use recording::marking::{HEADING, heading_of, plus_plus};
use recording::{FileWritten, Refusal};
use rules::LONGEST;
use sizes::octets_to_judge;

pub mod given;
pub mod items;
pub mod sizes;

// A refusal: no octets.
fn refused(why: rules::Refusal) -> FileWritten
    ensures { Declines why result }
{
    FileWritten {
        end: Err(Refusal::Frame(why)),
        octets: 0,
    }
}

// After LAW, SET and LENGTH: "LONG, ROOM (heading and all)", judged before an octet is written.
fn write_given(samples: &[u8], cells: &[u16], law: u32, set: u32, out: &mut [u8]) -> FileWritten
    requires law_value { (is_law law ≡ true) × (is_writer_set set ≡ true) }
    requires samples_value { is_given (given_by cells.now samples.now) ≡ true }
    ensures { WriteGiven samples.now cells.now law set out.old out.new result }
{
    let quiet = [plus_plus(mask_of(law)); 320];
    let by = By { law, set };
    let after = octets_to_judge(samples, cells, by, &quiet, out.len());
    if LONGEST < after {
        return refused(rules::Refusal::Long);
    }
    if out.len() < HEADING + after {
        return refused(rules::Refusal::Room);
    }
    let heading = heading_of(law);
    let at = text_lines::put_word(&heading, out, 0);
    let octets = put_items(samples, cells, by, &quiet, out, at);
    FileWritten {
        end: Ok(()),
        octets,
    }
}

// Writing a file. "LAW, SET, LENGTH, LONG, ROOM"; nothing is written by a refused call.
pub fn write_file(samples: &[u8], cells: &[u16], law: u32, set: u32, out: &mut [u8]) -> FileWritten
    ensures { WriteFile samples.now cells.now law set out.old out.new result }
{
    match rules::guard_writer(law, set) {
        Err(why) => refused(why),
        Ok(()) => {
            if !are_given(samples, cells) {
                return refused(rules::Refusal::Length);
            }
            write_given(samples, cells, law, set, out)
        }
    }
}
