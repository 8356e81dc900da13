// The calls as C functions: numbers in, the answer into the caller's memory. Each contract is by the definition of the call's answer, and by what that leaves in memory.
// A pointer that is passed points to as many numbers as its array type says, or to one, and no two of them overlap: that is C's side to keep. A list is
// two arguments in C, the pointer and after it a usize, the number of its places; it points to so many. The values beside it are two more.
// Each function returns 0 or the number of the refusal, and so has the same match: a C function is one
// name with its own pointers.
#![tactic(auto)]

ghost use Rattle.std.specs.Prelude.{◌≡◌, length};
ghost use Rattle.numbers.specs.Refusals.{number_in};
ghost use Rattle.expansion.specs.Answer.{answer};
ghost use Rattle.ostrowski.specs.Answer.{digits_answer, residue_answer, divide_answer};
ghost use Rattle.segment.specs.Answer.{regular_answer, fine_answer};
ghost use Rattle.domain.specs.Answer.{scan_answer, scan_list_after, scan_values_after, domain_answer, mark_numbers_after, list_after, values_after};
ghost use Rattle.range.specs.Range.{start_of, count_of};
ghost use Rattle.c_api.specs.Memory.{memory, Delivered, digits_memory, count_memory, number_memory, verdict_number, regular_memory, fine_memory, scan_memory, domain_of, domain_memory};

// expansion::expand: returns 0 or the refusal. The table's columns and its last row's index are left as they were on a refusal.
#[unsafe(no_mangle)]
pub extern "C" fn geyserdish_expand(
    modulus: u64,
    step: u64,
    remainders: &mut [u64; 89],
    denominators: &mut [u64; 89],
    quotients: &mut [u64; 89],
    last: &mut u64,
) -> u32
    ensures { Delivered (answer modulus step) result
        (memory remainders.old denominators.old quotients.old last.old)
        (memory remainders.new denominators.new quotients.new last.new) }
{
    match expansion::expand(modulus, step) {
        Err(refusal) => u32::from(refusal),
        Ok(table) => {
            // Through variables: no field that is an array is stored straight.
            let r = table.remainders;
            *remainders = r;
            let d = table.denominators;
            *denominators = d;
            let q = table.quotients;
            *quotients = q;
            *last = table.last as u64;
            0
        }
    }
}

// ostrowski::digits: returns 0 or the refusal. The digits, and how many they are, are left as they were on a refusal.
#[unsafe(no_mangle)]
pub extern "C" fn geyserdish_digits(
    modulus: u64,
    step: u64,
    argument: u64,
    digits: &mut [u64; 88],
    count: &mut u64,
) -> u32
    ensures returned { result ≡ number_in (digits_answer modulus step argument) }
    ensures digits_after { digits.new ≡ digits_memory (digits_answer modulus step argument) digits.old }
    ensures count_after { count.new ≡ count_memory (digits_answer modulus step argument) count.old }
{
    match ostrowski::digits(modulus, step, argument) {
        Err(refusal) => u32::from(refusal),
        Ok(found) => {
            let d = found.digits;
            *digits = d;
            *count = found.count as u64;
            0
        }
    }
}

// ostrowski::residue: returns 0 or the refusal. The residue is left as it was on a refusal.
#[unsafe(no_mangle)]
pub extern "C" fn geyserdish_residue(
    modulus: u64,
    step: u64,
    argument: u64,
    residue: &mut u64,
) -> u32
    ensures returned { result ≡ number_in (residue_answer modulus step argument) }
    ensures residue_after { residue.new ≡ number_memory (residue_answer modulus step argument) residue.old }
{
    match ostrowski::residue(modulus, step, argument) {
        Err(refusal) => u32::from(refusal),
        Ok(number) => {
            *residue = number;
            0
        }
    }
}

// ostrowski::divide: returns 0 or the refusal. The argument is left as it was on a refusal.
#[unsafe(no_mangle)]
pub extern "C" fn geyserdish_divide(modulus: u64, step: u64, target: u64, argument: &mut u64) -> u32
    ensures returned { result ≡ number_in (divide_answer modulus step target) }
    ensures argument_after { argument.new ≡ number_memory (divide_answer modulus step target) argument.old }
{
    match ostrowski::divide(modulus, step, target) {
        Err(refusal) => u32::from(refusal),
        Ok(number) => {
            *argument = number;
            0
        }
    }
}

// segment::regular_search: returns 0 or the refusal. Shown: count, quotients, distance, argument, and 1 for clear or 0 for possible; left as it
// was on a refusal.
#[unsafe(no_mangle)]
pub extern "C" fn geyserdish_regular_search(
    modulus: u64,
    step: u64,
    start: u64,
    count: u64,
    window: u64,
    shown: &mut [u64; 5],
) -> u32
    ensures returned { result ≡ number_in (regular_answer modulus step start count window) }
    ensures shown_after { shown.new ≡ regular_memory (regular_answer modulus step start count window) shown.old }
{
    let segment = segment::Segment {
        modulus,
        step,
        start,
        count,
        window,
    };
    match segment::regular_search(segment) {
        Err(refusal) => u32::from(refusal),
        Ok(found) => {
            *shown = [
                found.count,
                found.quotients as u64,
                found.distance,
                found.argument,
                number_of(found.verdict),
            ];
            0
        }
    }
}

// segment::fine_search: the same with count, index, part, distance, argument, and 1 for clear or 0 for possible.
#[unsafe(no_mangle)]
pub extern "C" fn geyserdish_fine_search(
    modulus: u64,
    step: u64,
    start: u64,
    count: u64,
    window: u64,
    shown: &mut [u64; 6],
) -> u32
    ensures returned { result ≡ number_in (fine_answer modulus step start count window) }
    ensures shown_after { shown.new ≡ fine_memory (fine_answer modulus step start count window) shown.old }
{
    let segment = segment::Segment {
        modulus,
        step,
        start,
        count,
        window,
    };
    match segment::fine_search(segment) {
        Err(refusal) => u32::from(refusal),
        Ok(found) => {
            *shown = [
                found.count,
                found.index as u64,
                found.part,
                found.distance,
                found.argument,
                number_of(found.verdict),
            ];
            0
        }
    }
}

// domain::scan_segment: returns 0 or the refusal. Listed: how many hard arguments are in the list, and as many residues in the values. List, values and listed are
// left as they were on a refusal.
#[unsafe(no_mangle)]
pub extern "C" fn geyserdish_scan_segment(
    modulus: u64,
    step: u64,
    start: u64,
    count: u64,
    window: u64,
    list: &mut [u64],
    values: &mut [u64],
    listed: &mut u64,
) -> u32
    ensures returned { result ≡ number_in (scan_answer modulus step start count window (length list.old) (length values.old)) }
    ensures list_after { list.new ≡ scan_list_after modulus step start count window (length values.old) list.old }
    ensures values_after { values.new ≡ scan_values_after modulus step start count window (length list.old) values.old }
    ensures listed_after { listed.new ≡ scan_memory (scan_answer modulus step start count window (length list.old) (length values.old)) listed.old }
{
    let segment = segment::Segment {
        modulus,
        step,
        start,
        count,
        window,
    };
    match domain::scan_segment(segment, list, values) {
        Err(refusal) => u32::from(refusal),
        Ok(number) => {
            *listed = number as u64;
            0
        }
    }
}

// domain::search_domain: returns 0 or the refusal. Marks, of the eight parts: 0 not looked at, 1 clear, 2 possible and scanned, 3 without arguments.
// Searched: 1 for cleared or 0 for possible, and how many hard arguments x are in the list, each as origin + x, and as many values beside them. List, values, marks and
// searched are left as they were on a refusal.
#[unsafe(no_mangle)]
pub extern "C" fn geyserdish_search_domain(
    origin: u64,
    modulus: u64,
    value: u64,
    slope: u64,
    curve: i64,
    count: u64,
    window: u64,
    list: &mut [u64],
    values: &mut [u64],
    marks: &mut [u8; 8],
    searched: &mut [u64; 2],
) -> u32
    ensures returned { result ≡ number_in (domain_answer (domain_of origin modulus value slope curve count window) (length list.old) (length values.old)) }
    ensures list_after { list.new ≡ list_after (domain_of origin modulus value slope curve count window) (length values.old) list.old }
    ensures values_after { values.new ≡ values_after (domain_of origin modulus value slope curve count window) (length list.old) values.old }
    ensures marks_after { marks.new ≡ mark_numbers_after (domain_of origin modulus value slope curve count window) (length list.old) (length values.old) marks.old }
    ensures searched_after { searched.new ≡ domain_memory (domain_answer (domain_of origin modulus value slope curve count window) (length list.old) (length values.old)) searched.old }
{
    let domain = domain::Domain {
        origin,
        modulus,
        value,
        slope,
        curve,
        count,
        window,
    };
    match domain::search_domain(domain, marks, list, values) {
        Err(refusal) => u32::from(refusal),
        Ok(found) => {
            *searched = [number_of(found.first), found.listed as u64];
            0
        }
    }
}

// range::range: returns how many entries the range has, and leaves in start where it begins in the list.
#[unsafe(no_mangle)]
pub extern "C" fn geyserdish_range(list: &[u64], lo: u64, hi: u64, start: &mut u64) -> u64
    ensures returned { result ≡ count_of lo hi list.now }
    ensures start_after { start.new ≡ start_of lo hi list.now }
{
    let place = range::locate(list, lo, hi);
    *start = place.start as u64;
    let part = range::range(list, lo, hi);
    part.len() as u64
}

// Clear is 1 and possible 0: numbers of the C interface, and no conversion of the search's own.
fn number_of(verdict: segment::Verdict) -> u64
    ensures { result ≡ verdict_number verdict }
{
    match verdict {
        segment::Verdict::Clear => 1,
        segment::Verdict::Possible => 0,
    }
}
