// The second reader's answer to a line of an address and words, written into a lent buffer.
#![tactic(auto)]

ghost use Rattle.std.proofs.Common.{rules};
ghost use Rattle.std.specs.Prelude.{◌≡◌, ◌+◌, ◌≤◌, length};
ghost use Rattle.base_spec.specs.Written.{placed};
ghost use Rattle.base_text.specs.Wrote.{Wrote};
ghost use Rattle.base_spec.specs.Lines.{answered_of, step_of};
ghost use Rattle.m68000_spec.specs.Reading68000.{as_reading_68000};
ghost use Rattle.m68000_spec.specs.Answer68000.{reading_68000_text};
ghost use Rattle.m68000_answers.specs.Kept.{run_68000_text, kept_68000_answer_of};

use base_spec::Step;
use line_program::{Answer, AnswerLines};
use m68000_spec::Unread68000;
use read_runs::Run;
use read_spec::Read;

fn put_reading(out: &mut [u8], at: usize, reading: Result<Read, Unread68000>) -> usize
    requires { at + 398 ≤ length out.old }
    ensures { Wrote out.old at (reading_68000_text (as_reading_68000 reading)) out.new result × (result ≤ at + 398) }
{
    match reading {
        Ok(r) => read_answers::put_reading(out, at, Ok(r)),
        Err(Unread68000::First(e)) => read_answers::put_reading(out, at, Err(e)),
        Err(Unread68000::NotOf68000) => base_text::put_refused(out, at, 15),
    }
}

fn put_run(out: &mut [u8], at: usize, run: Run) -> usize
    requires { (at + 398 ≤ length out.old) × (run.count ≤ 16) × (run.count ≤ length run.words) }
    ensures { Wrote out.old at (run_68000_text run) out.new result × (result ≤ at + 398) }
{
    let words = run.words;
    let count = run.count;
    put_reading(out, at, m68000::read_68000(&words[..count], run.address))
}

/// The answer to a line, from place `at` on; the next place.
pub fn answer(line: &[u8], out: &mut [u8], at: usize) -> usize
    requires { at + 398 ≤ length out.old }
    ensures { (result ≡ at + length (kept_68000_answer_of line.now)) × (out.new ≡ placed out.old at (kept_68000_answer_of line.now)) × (result ≤ at + 398) }
{
    let run = read_runs::read_run(line);
    if run.ok {
        put_run(out, at, run)
    } else {
        base_text::put_not_in_form(out, at)
    }
}

/// The instruction that a run of words reads as, for boards with an MC68000.
pub struct ReadingRuns68000;

impl Answer for ReadingRuns68000 {
    ghost answer_of = { kept_68000_answer_of };

    ghost ROOM = { 512 };

    const ROOM: usize = 512;

    fn answer(&self, line: &[u8], out: &mut [u8], at: usize) -> usize {
        answer(line, out, at)
    }

    ghost room = { Prim.search rules };
}

impl AnswerLines for ReadingRuns68000 {
    fn answers(&self, text: &[u8], from: usize, out: &mut [u8]) -> Step {
        answers(text, from, out)
    }
}

/// The answers to the lines from a place on, while the buffer has room.
pub fn answers(text: &[u8], from: usize, out: &mut [u8]) -> Step
    ensures { (result ≡ step_of kept_68000_answer_of 512 text.now from (length out.old)) × (out.new ≡ placed out.old 0 (answered_of kept_68000_answer_of 512 text.now from (length out.old))) }
{
    line_program::answers(&ReadingRuns68000, text, from, out)
}
