// What is printed of a record.
ghost use Rattle.std.specs.Prelude.{◌+◌, ◌*◌, ◌≤◌, length};
ghost use Rattle.text.specs.Lines.{Written};
ghost use Rattle.load.specs.Step.{carried_text};
ghost use Rattle.load.specs.Code.{HitsFit};

use crate::carry::Carried;

// Writes the lines of a record to the front of a text.
pub fn write_carried(out: &mut [u8], carried: Carried, ids: &[u32], distances: &[f32]) -> usize
    requires hits_fit { HitsFit carried ids.now distances.now }
    requires ids_in_bounds { 20 * length ids.now + 27 ≤ length out.old }
    ensures { Written out.old 0 (carried_text carried ids.now distances.now) out.new result }
{
    match carried {
        Carried::End | Carried::Silent { .. } => 0,
        Carried::Refused(refusal) => text::write_refused(out, 0, refusal.number()),
        Carried::Answered {
            count,
            opened,
            whole,
            ..
        } => {
            let end = text::write_hits(out, 0, ids, distances, count);
            text::write_closing(out, end, whole, opened)
        }
    }
}
