//! The texts of one line: usage, acceptance, refusals, and the place whose numbers left their
//! range.
ghost use Rattle.std.specs.Prelude.{◌≡◌, ◌<◌, ◌≤◌, length, IfSome};
ghost use Rattle.std.specs.Option.{option_map};
ghost use Rattle.case_model.specs.Accepted.{IsAccepted};
ghost use Rattle.surge_io.specs.Writings.{IsWritten};
ghost use Rattle.report.specs.Messages.{accepted_text, range_text, reason_of, refusal_text};
ghost use Rattle.report.specs.Messages.{usage_text};

use crate::fields::add_label;
use crate::places::place_at;
use crate::sizing::sizes;
use case_model::{Case, Mesh};
use surge_io::{Failed, Line, Sink, put};

/// Writes the line for words that aren't those of a command.
/// `Failed` comes only where the sink's count of faults rose in this call, and then a first part
/// was written.
#[tactic(auto, unfolding(crate::specs::Messages::usage_text))]
pub fn write_usage<K: Sink>(out: &mut K) -> Result<(), Failed>
    ensures { IsWritten K.held K.faults result out.old out.new usage_text }
{
    put(
        out,
        b"usage: surge check|mesh|rounds|run|drill|upgrade [number] [--workers n] [--slots n] [--window n]\n",
    )
}

/// Writes the line for a case text that is accepted.
/// `Failed` comes only where the sink's count of faults rose in this call, and then a first part
/// was written.
#[tactic(auto, unfolding(crate::specs::Messages::accepted_text))]
pub fn write_accepted<K: Sink>(out: &mut K) -> Result<(), Failed>
    ensures { IsWritten K.held K.faults result out.old out.new accepted_text }
{
    put(out, b"accepted\n")
}

/// Writes the line of a refusal, by its number and the line of the case text that it stands on, or
/// 0. A number that isn't that of a refusal has no reason. `Failed` comes only where the sink's
/// count of faults rose in this call, and then a first part was written.
pub fn write_refusal<K: Sink>(number: u8, line: u64, out: &mut K) -> Result<(), Failed>
    ensures { IsWritten K.held K.faults result out.old out.new (refusal_text number line) }
{
    let text = refusal_line(number, line);
    put(out, text.as_bytes())
}

/// Writes the line that names the first place, by its number, and the step at which its numbers
/// left their range. `Failed` comes only where the sink's count of faults rose in this call, and
/// then a first part was written.
pub fn write_range<K: Sink>(
    case: &Case,
    mesh: &Mesh,
    step: u64,
    place: u64,
    out: &mut K,
) -> Result<(), Failed>
    requires accepted { IsAccepted case.now mesh.now }
    requires there { place < mesh.now.places }
    ensures { IsWritten K.held K.faults result out.old out.new
        (range_text case.now mesh.now step place) }
{
    let text = range_line(case, mesh, step, place);
    put(out, text.as_bytes())
}

// What a refusal's number stands for, if it is that of one.
fn reason_of(number: u8) -> Option<&'static [u8]>
    ensures text { option_map (λ text. text.now) result ≡ reason_of number }
    ensures few { IfSome result (λ text. length text.now ≤ 25) }
{
    match number {
        1 => Some(b"first line"),
        2 => Some(b"unknown word"),
        3 => Some(b"count of fields"),
        4 => Some(b"spelling"),
        5 => Some(b"number out of limits"),
        6 => Some(b"name repeated"),
        7 => Some(b"name unknown"),
        8 => Some(b"directive missing"),
        9 => Some(b"directive repeated"),
        10 => Some(b"too many or too long"),
        11 => Some(b"ends do not suit"),
        12 => Some(b"reaches"),
        13 => Some(b"wave speed over tolerance"),
        14 => Some(b"table order"),
        15 => Some(b"coefficient out of limits"),
        16 => Some(b"probe off the mesh"),
        _ => None,
    }
}

#[tactic(auto, unfolding(crate::specs::Messages::refusal_text))]
fn refusal_line(number: u8, line: u64) -> Line
    ensures { result ≡ refusal_text number line }
{
    let mut text = Line::new();
    text.push(b"refused");
    text.add_count(number as u64);
    text.add_field(b"line");
    text.add_count(line);
    if let Some(reason) = reason_of(number) {
        text.add_field(reason);
    }
    text.push(b"\n");
    text
}

#[tactic(auto, unfolding(crate::specs::Messages::range_text))]
fn range_line(case: &Case, mesh: &Mesh, step: u64, place: u64) -> Line
    requires accepted { IsAccepted case.now mesh.now }
    requires there { place < mesh.now.places }
    ensures { result ≡ range_text case.now mesh.now step place }
{
    sizes(case, mesh);
    let mut text = Line::new();
    text.push(b"range");
    text.add_count(step);
    add_label(&mut text, case, place_at(mesh, place));
    text.push(b"\n");
    text
}
