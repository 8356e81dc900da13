// The text of a job: read strictly, run, and its answer printed; bytes in, bytes out.
//
// A job names a domain on seven lines in fixed order, origin=, modulus=, value=, slope=, curve=,
// count= and window=, each with a decimal number and a line feed; the first line may be left out,
// and the origin is 0 then. All else is refused by 8, before all other refusals.
#![tactic(auto)]

ghost use Rattle.std.specs.Prelude.{◌≡◌, ℕ, List, length};
ghost use Rattle.numbers.specs.Lists.{overwrite_front};
ghost use Rattle.text.specs.Reader.{StandsAt};
ghost use Rattle.text.specs.Writing.{Wrote};
ghost use Rattle.job.specs.Reading.{lines_from, reading};
ghost use Rattle.job.specs.Output.{job_answer, job_marks, job_list, job_values};
ghost use Rattle.job.specs.Output.{output_with, output_of, longest};

mod report;

use domain::{Domain, Mark, Searched};
use numbers::Refusal;
use report::{put_refusal, put_report};
use text::{Reader, Writer};

// The longest answer: 4,096 arguments of sixteen digits with values of nineteen.
pub const LONGEST: usize = 213034;

// Reads a job, where the text is one: no space, no sign but a minus before a curve that is not 0,
// no leading zero but in 0 itself, numbers below 2^64, a curve's size below 2^63, nothing after the
// line feed of the window. Without the line of the origin the text begins with that of the modulus.
pub fn read_job(text: &[u8]) -> Option<Domain>
    ensures { result ≡ reading text.now }
{
    let mut reader = Reader::new(text);
    let origin = reader.field(b"origin=").unwrap_or(0);
    read_lines(reader, origin)
}

// The six lines that every job has, and nothing after them.
#[tactic(auto, unfolding(crate::specs::Reading::lines_from, crate::specs::Reading::rest_from))]
fn read_lines(mut reader: Reader, origin: u64) -> Option<Domain>
    ensures { (at : ℕ) (text : List ℕ) → StandsAt reader.entry at text
        → result ≡ lines_from at origin text }
{
    let modulus = reader.field(b"modulus=")?;
    let value = reader.field(b"value=")?;
    let slope = reader.field(b"slope=")?;
    let curve = reader.signed_field(b"curve=")?;
    let count = reader.field(b"count=")?;
    let window = reader.field(b"window=")?;
    if !reader.is_at_end() {
        return None;
    }
    Some(Domain {
        origin,
        modulus,
        value,
        slope,
        curve,
        count,
        window,
    })
}

// Runs the job of a text and prints the answer from the first place of the buffer on; the places
// after it are left as they were. Tells how many bytes it printed. The buffer is as large as the
// longest answer, of 4,096 arguments and their values.
pub fn run_job(text: &[u8], out: &mut [u8; LONGEST]) -> usize
    ensures count { result ≡ length (output_of text.now) }
    ensures written { out.new ≡ overwrite_front (output_of text.now) out.old }
    ensures room { length out.old ≡ longest }
{
    let mut writer = Writer::new(out);
    print_answer(read_job(text), &mut writer);
    writer.place()
}

// Prints the answer to a job, or the refusal of a text that is none.
fn print_answer(job: Option<Domain>, out: &mut Writer)
    ensures { Wrote out.old (output_with job) out.new }
{
    let mut marks = [Mark::Unseen; 8];
    let mut list = [0u64; 4096];
    let mut values = [0u64; 4096];
    match search(job, &mut marks, &mut list, &mut values) {
        Err(refusal) => put_refusal(refusal, out),
        Ok(found) => put_report(
            found.first,
            &marks,
            &list[..found.listed as usize],
            &values[..found.listed as usize],
            out,
        ),
    }
}

// Searches the domain of a job. List and values are two buffers, as the domain's search wants them. A text that is none is refused by 8, and leaves marks, list and
// values as they were.
fn search(
    job: Option<Domain>,
    marks: &mut [Mark; 8],
    list: &mut [u64],
    values: &mut [u64],
) -> Result<Searched, Refusal>
    ensures value { result ≡ job_answer job (length list.old) (length values.old) }
    ensures marks_after { marks.new ≡ job_marks job (length list.old) (length values.old) marks.old }
    ensures list_after { list.new ≡ job_list job (length values.old) list.old }
    ensures values_after { values.new ≡ job_values job (length list.old) values.old }
{
    match job {
        Some(domain) => domain::search(domain, marks, list, values),
        None => Err(Refusal::Malformed),
    }
}
