// The eight parts of an arc that phase 1 did not clear: examined, and then those with hard
// arguments listed.
ghost use Rattle.std.specs.Prelude.{◌≡◌, ◌+◌, ◌≤◌, ◌<◌, length};
ghost use Rattle.std.proofs.lemmas.List.Edits.{sets};
ghost use Rattle.numbers.specs.Lists.{overwrite_front};
ghost use Rattle.parabola.specs.Parabola.{hard_list, part, part_start, part_count};
ghost use Rattle.domain.specs.Phases.{part_report, hard_counts, report};
ghost use Rattle.domain.specs.Scan.{listed_from, lowered_values};
ghost use Rattle.domain.specs.Scanned.{scanned, arguments_of, values_of};

use crate::marks::Mark;
use crate::scan::Scan;
use arc::{Arc, Within};
use numbers::min;
use segment::Verdict;

// Of a part: its mark, and how many hard arguments it has.
#[derive(Clone, Copy)]
struct PartReport {
    mark: Mark,
    hard: u32,
}

// Of all parts: the marks, how many hard arguments each has, and how many they have together. Two
// arrays, and none of PartReport: the marks are handed over as they are.
#[derive(Clone, Copy)]
pub(crate) struct Report {
    pub(crate) marks: [Mark; 8],
    pub(crate) hard: [u32; 8],
    pub(crate) total: u32,
}

// Where a part begins. A part's number is below 8, here and below: a struct around it would say no
// more, and be no plainer.
fn part_start(count: u64, i: u64) -> u64
    requires count_bound { count ≤ 1048576 }
    requires is_part { i < 8 }
    ensures { result ≡ part_start count i }
{
    i * (count / 8) + min(i, count % 8)
}

// How many arguments it has.
fn part_count(count: u64, i: u64) -> u64
    requires { count ≤ 1048576 }
    ensures { result ≡ part_count count i }
{
    count / 8 + (i < count % 8) as u64
}

impl Scan {
    // A part with arguments is scanned as an arc of its own.
    fn part(self, i: u64) -> Scan
        requires is_part { i < 8 }
        requires some_argument { 1 ≤ part_count self.within.arc.count i }
        ensures made { scanned result ≡ part (scanned self) i }
        ensures raise { result.raise ≡ self.raise }
        ensures begin { result.begin ≡ self.begin + part_start self.within.arc.count i }
    {
        let start = part_start(self.within.arc.count, i);
        let Some(point) = self.within.point_at(start) else {
            unreachable!()
        };
        let within = Within {
            arc: Arc {
                value: point.value,
                slope: point.slope,
                count: part_count(self.within.arc.count, i),
                ..self.within.arc
            },
        };
        Scan {
            within,
            raise: self.raise,
            begin: self.begin + start,
        }
    }

    // Phase 2, and the first half of phase 3: a part that is possible is scanned. One without
    // arguments is neither searched nor scanned.
    fn examine_part(self, i: u64) -> PartReport
        requires { i < 8 }
        ensures { result ≡ part_report (part (scanned self) i) }
    {
        if part_count(self.within.arc.count, i) == 0 {
            return PartReport {
                mark: Mark::Empty,
                hard: 0,
            };
        }
        let part = self.part(i);
        match part.within.fine_verdict() {
            Verdict::Clear => PartReport {
                mark: Mark::Clear,
                hard: 0,
            },
            Verdict::Possible => PartReport {
                mark: Mark::Possible,
                hard: part.count_hard(),
            },
        }
    }

    pub(crate) fn examine_parts(self) -> Report
        ensures { result ≡ report (scanned self) }
    {
        let mut marks = [Mark::Unseen; 8];
        let mut hard = [0u32; 8];
        let mut total: u32 = 0;
        for i in 0..8 {
            let examined = self.examine_part(i as u64);
            marks[i] = examined.mark;
            hard[i] = examined.hard;
            total += examined.hard;
        }
        Report { marks, hard, total }
    }

    // The second half of phase 3, once it is known that the list and the values, two buffers as C lends
    // them, have room for all. The place is where the rest of both begins for the next part.
    pub(crate) fn list_parts(self, hard: [u32; 8], list: &mut [u64], values: &mut [u64])
        requires hard_counted { hard ≡ hard_counts (scanned self) }
        requires list_room { length (hard_list (scanned self)) ≤ length list.old }
        requires values_room { length (hard_list (scanned self)) ≤ length values.old }
        ensures list_after { list.new ≡ overwrite_front (arguments_of self) list.old }
        ensures values_after { values.new ≡ overwrite_front (values_of self) values.old }
    {
        let mut place: usize = 0;
        for (i, &number) in hard.iter().enumerate() {
            self.list_part(i as u64, number, &mut list[place..], &mut values[place..]);
            place += number as usize;
        }
    }

    // A part without hard arguments has nothing to list, and is not made.
    fn list_part(self, i: u64, number: u32, list: &mut [u64], values: &mut [u64])
        requires is_part { i < 8 }
        requires number_counted { number ≡ length (hard_list (part (scanned self) i)) }
        requires list_room { number ≤ length list.old }
        requires values_room { number ≤ length values.old }
        ensures list_after { list.new ≡ sets list.old 0
            (listed_from (self.begin + part_start self.within.arc.count i) (part (scanned self) i)) }
        ensures values_after { values.new ≡ sets values.old 0
            (lowered_values self.raise (part (scanned self) i)) }
    {
        if number == 0 {
            return;
        }
        self.part(i).list_hard(number, list, values);
    }
}
