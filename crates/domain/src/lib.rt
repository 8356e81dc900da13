// Scans of segments and the search of a domain, the parabola V(x) = (value + slope·x +
// curve·x(x-1)/2) mod modulus over the arguments x below count. A domain's argument is hard where
// V(x) is less than the window from a multiple of the modulus, on either side: all hard arguments
// are listed, each as origin + x and with its value, and a domain that is cleared has none. A
// segment's is hard where its residue is less than the window, on one side.
#![tactic(auto)]

ghost use Rattle.std.specs.Prelude.{◌≡◌, ◌-◌, length};
ghost use Rattle.expansion.specs.Reached.Search.{regular};
ghost use Rattle.segment.specs.Search.{verdict};
ghost use Rattle.segment.specs.declared.Verdict.TheVariants.{Possible};
ghost use Rattle.segment.specs.Accepted.{asked, Accepted as AcceptedSegment};
ghost use Rattle.parabola.specs.Parabola.{covering, line};
ghost use Rattle.domain.specs.Domain.{centred_of, Accepted};
ghost use Rattle.domain.specs.Scanned.{scanned};
ghost use Rattle.domain.specs.Marks.{mark_number, mark_numbers};
ghost use Rattle.domain.specs.Answer.{too_few, answer_with, marks_with, list_with, values_with, domain_answer, marks_after, mark_numbers_after, list_after, values_after, scan_answer, scan_list_after, scan_values_after};

mod marks;
mod phases;
mod scan;

use arc::{Arc, Within};
pub use marks::Mark;
use numbers::{Refusal, Residues, min};
use scan::{Scan, list_all};
use segment::{Segment, Verdict};

// 2^52.
const LARGEST_ORIGIN: u64 = 4503599627370496;

// A domain, with the words of a job. The origin is where it begins in its binade: its argument x is
// listed as origin + x.
#[derive(Clone, Copy, Debug, PartialEq, Eq)]
pub struct Domain {
    pub origin: u64,
    pub modulus: u64,
    pub value: u64,
    pub slope: u64,
    pub curve: i64,
    pub count: u64,
    pub window: u64,
}

// What a search of a domain finds: the verdict of phase 1, where clear clears the whole domain, and
// how many hard arguments were listed.
#[derive(Clone, Copy, Debug, PartialEq, Eq)]
pub struct Searched {
    pub first: Verdict,
    pub listed: u32,
}

// Lists the hard arguments of the segment (start - step·x) mod modulus, ascending from the first
// place of the list, and beside each, at the same place of the values, its residue; the places
// after them are left as they were. The answer is how many there are. Refused as a search of the
// segment is, and else for room where the list or the values have fewer places than there are hard
// arguments: on a refusal both are as they were.
pub fn scan_segment(segment: Segment, list: &mut [u64], values: &mut [u64]) -> Result<u32, Refusal>
    ensures value { result ≡ scan_answer segment.modulus segment.step segment.start segment.count
        segment.window (length list.old) (length values.old) }
    ensures list_after { list.new ≡ scan_list_after segment.modulus segment.step segment.start
        segment.count segment.window (length values.old) list.old }
    ensures values_after { values.new ≡ scan_values_after segment.modulus segment.step segment.start
        segment.count segment.window (length list.old) values.old }
{
    segment::refuse(segment)?;
    let line = line(segment);
    let places = min(list.len() as u64, values.len() as u64);
    let listed = line.count_hard();
    if places < listed as u64 {
        return Err(Refusal::Room);
    }
    if listed as u64 == segment.count {
        list_all(line.within, list, values);
        return Ok(listed);
    }
    line.list_hard(listed, list, values);
    Ok(listed)
}

// A segment that nothing refuses, as a line: it falls by the step, modulo M.
fn line(segment: Segment) -> Scan
    requires { AcceptedSegment
        (asked segment.modulus segment.step segment.start segment.count segment.window) }
    ensures made { scanned result ≡ line
        (asked segment.modulus segment.step segment.start segment.count segment.window) }
    ensures raise { result.raise ≡ 0 }
    ensures begin { result.begin ≡ 0 }
{
    let opposite = Residues {
        first: 0,
        second: segment.step,
        modulus: segment.modulus,
    };
    let within = Within {
        arc: Arc {
            modulus: segment.modulus,
            value: segment.start,
            slope: opposite.difference(),
            curve: 0,
            count: segment.count,
            highest: segment.window - 1,
        },
    };
    Scan {
        within,
        raise: 0,
        begin: 0,
    }
}

// Searches a domain in three phases: the whole of it; if that is possible, each of eight parts; and
// all arguments of the parts that are possible. Each part has an eighth of the arguments, rounded
// down, and the first ones have one more until the rest is used up. The marks tell what was found
// of each part. The hard arguments x are listed as by a scan, each as origin + x, and beside each,
// at the same place of the values, V(x). Refused: for a modulus outside 2 to 2^62, else for a slope
// or a value that is not below it (by the names `Step` and `Start`), else for a count outside 1 to
// 1,048,576, else for a window outside 1 to the modulus, else for a curve outside -1,048,576 to
// 1,048,576, else for an origin above 2^52, else for room where the list or the values have fewer
// places than there are hard arguments. On a refusal marks, list and values are as they were. List
// and values are two buffers, and no list of pairs: C lends them so.
pub fn search(
    domain: Domain,
    marks: &mut [Mark; 8],
    list: &mut [u64],
    values: &mut [u64],
) -> Result<Searched, Refusal>
    ensures value { result ≡ domain_answer domain (length list.old) (length values.old) }
    ensures marks_after { marks.new ≡ marks_after domain (length list.old) (length values.old) marks.old }
    ensures list_after { list.new ≡ list_after domain (length values.old) list.old }
    ensures values_after { values.new ≡ values_after domain (length list.old) values.old }
{
    arc::refuse(
        domain.modulus,
        domain.value,
        domain.slope,
        domain.curve,
        domain.count,
        domain.window,
    )?;
    if LARGEST_ORIGIN < domain.origin {
        return Err(Refusal::Origin);
    }
    let scan = centred(domain);
    // Where every value is hard, no search can clear the domain. docs/DECISIONS.md says why this is
    // a call of its own.
    if scan.within.arc.highest == domain.modulus - 1 {
        search_parts(scan, marks, list, values)
    } else {
        match scan.within.regular_verdict() {
            Verdict::Clear => {
                *marks = [Mark::Unseen; 8];
                Ok(Searched {
                    first: Verdict::Clear,
                    listed: 0,
                })
            }
            Verdict::Possible => search_parts(scan, marks, list, values),
        }
    }
}

// The same with the numbers of the marks, as C and others lend them: any eight, and a refusal leaves
// them as they were.
pub fn search_domain(
    domain: Domain,
    marks: &mut [u8; 8],
    list: &mut [u64],
    values: &mut [u64],
) -> Result<Searched, Refusal>
    ensures value { result ≡ domain_answer domain (length list.old) (length values.old) }
    ensures marks_after { marks.new ≡ mark_numbers_after domain (length list.old) (length values.old) marks.old }
    ensures list_after { list.new ≡ list_after domain (length values.old) list.old }
    ensures values_after { values.new ≡ values_after domain (length list.old) values.old }
{
    let mut seen = [Mark::Unseen; 8];
    let found = search(domain, &mut seen, list, values)?;
    *marks = numbers_of(seen);
    Ok(found)
}

// Marks by their numbers.
fn numbers_of(marks: [Mark; 8]) -> [u8; 8]
    ensures { result ≡ mark_numbers marks }
{
    marks.map(
        |mark| -> u8
            ensures { result ≡ mark_number mark }
        { u8::from(mark) },
    )
}

// What the phases search. Raised by w - 1, the values that lie less than w from a multiple of the
// modulus are those up to 2(w - 1), or all of them: one test for both sides.
fn centred(domain: Domain) -> Scan
    requires { Accepted domain }
    ensures made { scanned result ≡ centred_of domain }
    ensures raise { result.raise ≡ domain.window - 1 }
    ensures begin { result.begin ≡ domain.origin }
{
    let raise = domain.window - 1;
    let value = Residues {
        first: domain.value,
        second: raise,
        modulus: domain.modulus,
    };
    let within = Within {
        arc: Arc {
            modulus: domain.modulus,
            value: value.sum(),
            slope: domain.slope,
            curve: domain.curve,
            count: domain.count,
            highest: min(domain.modulus - 1, raise + raise),
        },
    };
    Scan {
        within,
        raise,
        begin: domain.origin,
    }
}

// Phases 2 and 3 of an arc that phase 1 does not clear: the hard arguments are counted before
// anything is written.
fn search_parts(
    scan: Scan,
    marks: &mut [Mark; 8],
    list: &mut [u64],
    values: &mut [u64],
) -> Result<Searched, Refusal>
    requires { verdict regular (covering (scanned scan)) ≡ Possible }
    ensures value { result ≡ answer_with
        (too_few (scanned scan) (length list.old) (length values.old)) (scanned scan) }
    ensures marks_after { marks.new ≡ marks_with
        (too_few (scanned scan) (length list.old) (length values.old)) (scanned scan) marks.old }
    ensures list_after { list.new ≡ list_with
        (too_few (scanned scan) (length list.old) (length values.old))
        scan.begin (scanned scan) list.old }
    ensures values_after { values.new ≡ values_with
        (too_few (scanned scan) (length list.old) (length values.old))
        scan.raise (scanned scan) values.old }
{
    let places = min(list.len() as u64, values.len() as u64);
    let report = scan.examine_parts();
    if places < report.total as u64 {
        return Err(Refusal::Room);
    }
    // Through a variable: no field that is an array is stored straight.
    let found = report.marks;
    *marks = found;
    let hard = report.hard;
    scan.list_parts(hard, list, values);
    Ok(Searched {
        first: Verdict::Possible,
        listed: report.total,
    })
}
