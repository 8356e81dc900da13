// What is printed of a job: the line of a refusal; or phase 1's verdict, the marks, and the hard
// arguments with their values. Each name that is printed stands here, and once.
ghost use Rattle.std.specs.Prelude.{[]};
ghost use Rattle.numbers.specs.Refusals.{number_of};
ghost use Rattle.domain.specs.Marks.{mark_numbers};
ghost use Rattle.text.specs.Text.{bytes, line};
ghost use Rattle.text.specs.Writing.{Wrote};
ghost use Rattle.job.specs.Output.{verdict_name, mark_digits, argument_lines};
ghost use Rattle.job.specs.Output.{refused, report};

use domain::Mark;
use numbers::Refusal;
use text::Writer;

// A refusal is its number alone.
#[tactic(auto, unfolding(crate::specs::Output::refused))]
pub(crate) fn put_refusal(refusal: Refusal, out: &mut Writer)
    ensures { Wrote out.old (refused (number_of refusal)) out.new }
{
    out.put_line(b"refused=", u32::from(refusal) as u64);
}

// What is printed of a job that is not refused.
pub(crate) fn put_report(
    first: segment::Verdict,
    marks: &[Mark],
    arguments: &[u64],
    values: &[u64],
    out: &mut Writer,
)
    ensures { Wrote out.old (report first (mark_numbers marks.now) arguments.now values.now) out.new }
{
    put_first(first, out);
    put_parts(marks, out);
    out.put_line(b"listed=", arguments.len() as u64);
    put_arguments(arguments, values, out);
}

// The line of phase 1's verdict.
fn put_first(first: segment::Verdict, out: &mut Writer)
    ensures { Wrote out.old (line (bytes "first=") (verdict_name first) []) out.new }
{
    out.put(b"first=");
    put_verdict(first, out);
    out.put_byte(b'\n');
}

// What a verdict is called. No Display: std's formatter knows nothing of a writer's places.
#[tactic(auto, unfolding(crate::specs::Output::verdict_name))]
fn put_verdict(verdict: segment::Verdict, out: &mut Writer)
    ensures { Wrote out.old (verdict_name verdict) out.new }
{
    match verdict {
        segment::Verdict::Clear => out.put(b"cleared"),
        segment::Verdict::Possible => out.put(b"possible"),
    }
}

// The line of the marks.
fn put_parts(marks: &[Mark], out: &mut Writer)
    ensures { Wrote out.old (line (bytes "parts=") (mark_digits (mark_numbers marks.now)) []) out.new }
{
    out.put(b"parts=");
    put_marks(marks, out);
    out.put_byte(b'\n');
}

// The marks, a digit each.
fn put_marks(marks: &[Mark], out: &mut Writer)
    ensures { Wrote out.old (mark_digits (mark_numbers marks.now)) out.new }
{
    for mark in marks {
        out.put_byte(b'0' + u8::from(*mark));
    }
}

// A line for each argument and its value.
fn put_arguments(arguments: &[u64], values: &[u64], out: &mut Writer)
    ensures { Wrote out.old (argument_lines arguments.now values.now) out.new }
{
    for (argument, value) in arguments.iter().zip(values) {
        out.put(b"argument=");
        out.put_number(*argument);
        out.put_line(b" value=", *value);
    }
}
