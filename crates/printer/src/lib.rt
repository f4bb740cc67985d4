// Prints an echo file: one record after the other is carried out, and its lines are written to standard output.
#![tactic(auto)]

ghost use Rattle.std.specs.Prelude.{◌+◌, ◌^◌, ◌<◌, length, ◌≡◌, IfOk};
ghost use Rattle.load.specs.File.{file_text};
ghost use Rattle.load.specs.Step.{printed_of};
ghost use Rattle.printer.specs.Due.{Due};

use load::LoadStep;
use std::io;

// The bytes that a step wrote.
fn printed_of(step: LoadStep) -> usize
    ensures { result ≡ printed_of step }
{
    match step {
        LoadStep::Ended { printed } | LoadStep::Next { printed, .. } => printed,
    }
}

// Writes the next text of what is printed of a file, after `done` bytes of it; how many those are with it. Nothing is written elsewhere.
fn print_next(rt: &impl Print, file: &[u8], done: usize, text: &[u8]) -> io::Result<usize>
    requires due { Due file.now done text.now }
    requires text_bound { done + length text.now < 2 ^ 64 }
    ensures { IfOk result (λ n. n ≡ done + length text.now) }
{
    rt.write_all(text)?;
    Ok(done + text.len())
}

// How many bytes were printed: all of them. The lists have room for V 128, E 256, M 512, D 16 and B 64, 65,280 bytes of label text, answers of 256 places and the lines of one.
pub fn print_file(rt: &impl Print, file: &[u8]) -> io::Result<usize>
    ensures { IfOk result (λ n. n ≡ length (file_text file.now)) }
{
    let mut floats = [0.0f32; 11264];
    let mut numbers = [0u32; 4992];
    let mut hashes = [0u64; 2304];
    let mut labels = [0u8; 65280];
    let mut work = [0u32; 2304];
    let mut ids = [0u32; 256];
    let mut distances = [0.0f32; 256];
    let mut text = [0u8; 5147];
    let mut loading = None;
    let mut at = 0;
    let mut done = 0;
    // By hand: only its step says whether a record was left.
    loop {
        let step = load::load_record(
            loading,
            file,
            at,
            &mut floats,
            &mut numbers,
            &mut hashes,
            &mut labels,
            &mut work,
            &mut ids,
            &mut distances,
            &mut text,
        );
        let end = printed_of(step);
        done = print_next(rt, file, done, &text[..end])?;
        let LoadStep::Next {
            loading: running,
            at: next,
            ..
        } = step
        else {
            return Ok(done);
        };
        loading = running;
        at = next;
    }
}
