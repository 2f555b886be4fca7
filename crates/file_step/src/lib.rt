// One record of a month file, judged where the reading stands (01 "The month file" and "Refusal numbers"): each record is decoded once and judged by 2, 1, 3,
// 4, 5, 11, 12, 15. What is kept of the records before is where the reading stands, a struct by value. `file_sections` reads the whole file.
#![tactic(auto)]

ghost use Rattle.std.specs.Prelude.{◌≡◌, ◌≤◌};
ghost use Rattle.record.specs.Record.{glns_in};
ghost use Rattle.file_step.specs.Walk.{start_of, hours_in, after_prices_in, due_in, with_in, Few, Steppable, Stepped, moved_in, risen_in, counted_in, judged_in};

use answer::{Refusal, Refused};
use record::{Heading, Record};
use setting::Prices;

// How far the reading of a file has come: whether its prices are needed, the records before, the heading (H and P are 0 until it is read), how many of each kind,
// and of the last party the number of its GLN and its record's kind.
#[derive(Clone, Copy)]
pub struct Walk {
    pub prices_asked: Prices,
    pub records: usize,
    pub heading: Heading,
    pub parties: usize,
    pub fixed: usize,
    pub refixed: usize,
    pub prices: usize,
    pub readings: usize,
    pub last_gln: u64,
    pub party_kind: u8,
}

// What a record does that is not refused: the reading goes on so many bytes further, or ends.
#[derive(Clone, Copy)]
pub enum Step {
    Next(Walk, usize),
    End,
}

// Nothing read yet.
pub fn start(prices_asked: Prices) -> Walk
    ensures { result ≡ start_of prices_asked }
{
    Walk {
        prices_asked,
        records: 0,
        heading: Heading {
            area: 0,
            year: 0,
            month: 0,
            hours: 0,
            parties: 0,
            carrier: 0,
        },
        parties: 0,
        fixed: 0,
        refixed: 0,
        prices: 0,
        readings: 0,
        last_gln: 0,
        party_kind: 0,
    }
}

// "H times 03; none or H times 06"
fn hours_there(w: Walk) -> bool
    ensures { result ≡ hours_in w }
{
    let hours = w.heading.hours as usize;
    (w.fixed == hours) & ((w.refixed == 0) | (w.refixed == hours))
}

// Whether a reading or the end is due: the prices are all there, or there are none and none is needed. W6: "A file for the first alone may have no 05 records;
// the statement program goes on refusing such a file with 3."
fn after_prices(w: Walk) -> bool
    ensures { result ≡ after_prices_in w }
{
    let hours = w.heading.hours as usize;
    if w.prices == hours {
        return 1 <= hours;
    }
    let asked = w.prices_asked;
    match asked {
        Prices::Needed => false,
        Prices::Optional => (w.prices == 0) & hours_there(w) & (1 <= hours),
    }
}

// "Order: one 01; P times 02; H times 03; none or H times 06; H times 05; any number of 04; one 07. Hour fields run 0, 1, 2 and so on". W5: "a mixture of 02 and
// 12 is 3". W6: none or H times 05.
fn due(w: Walk, r: Record) -> bool
    ensures { result ≡ due_in w r }
{
    let hours = w.heading.hours as usize;
    let parties = w.heading.parties as usize;
    match r {
        Record::Heading(_) => hours == 0,
        Record::Party(brp, _) => (w.parties < parties)
            & ((w.parties == 0) | (w.party_kind == record::party_kind(brp))),
        Record::FixedHour(hour, _) => (w.parties == parties)
            & (w.fixed < hours)
            & (hour as usize == w.fixed),
        Record::Reading(_) => after_prices(w),
        Record::Price(hour, _) => hours_there(w)
            & (w.prices < hours)
            & (w.readings == 0)
            & (hour as usize == w.prices),
        Record::RefixedHour(hour, _) => (w.fixed == hours)
            & (w.refixed < hours)
            & (w.prices == 0)
            & (w.readings == 0)
            & (hour as usize == w.refixed),
        Record::End(_) => after_prices(w),
    }
}

// Where the reading stands with one record more. Of a party the number of its GLN and its record's kind are kept.
fn with(w: Walk, r: Record, gln_number: u64) -> Walk
    requires { Few w }
    ensures { result ≡ with_in w r gln_number }
{
    let mut v = w;
    v.records = w.records + 1;
    match r {
        Record::Heading(h) => v.heading = h,
        Record::Party(brp, _) => {
            v.parties = w.parties + 1;
            v.last_gln = gln_number;
            v.party_kind = record::party_kind(brp);
        }
        Record::FixedHour(_, _) => v.fixed = w.fixed + 1,
        Record::Reading(_) => v.readings = w.readings + 1,
        Record::Price(_, _) => v.prices = w.prices + 1,
        Record::RefixedHour(_, _) => v.refixed = w.refixed + 1,
        Record::End(_) => {}
    }
    v
}

impl Walk {
    // One record, at the start of the bytes that are left: 2, 1, 3, 4, 5, 11, 12, 15.
    pub fn step(self, rest: &[u8]) -> Result<Step, Refused>
        requires { Steppable self rest.now }
        ensures { Stepped self rest.now result }
    {
        let records = self.records;
        let size = record::body_length(rest[0]);
        if size == 0 {
            return Err(Refused(Refusal::UnknownKind, records));
        }
        if rest.len() <= size {
            return Err(Refused(Refusal::FileFault, records));
        }
        let r = record::decode(rest);
        if !due(self, r) {
            return Err(Refused(Refusal::OutOfOrder, records));
        }
        record_rule::fault_of_part(r, rest, self.heading.hours, self.heading.parties, records)?;
        judged(self, r, rest, size)
    }
}

// The reading goes on: where it stands after the record, so many bytes further.
fn moved(w: Walk, r: Record, gln_number: u64, size: usize) -> Step
    requires { (size ≤ 35) × Few w }
    ensures { result ≡ moved_in w r gln_number size }
{
    Step::Next(with(w, r, gln_number), size + 1)
}

// 5 of a party: "not rising". "GLNs rise strictly."
fn risen(w: Walk, r: Record, g: Option<u64>, size: usize) -> Result<Step, Refused>
    requires { (size ≤ 35) × Few w }
    ensures { result ≡ risen_in w r g size }
{
    match g {
        Some(number) => {
            if (w.parties == 0) | (w.last_gln < number) {
                return Ok(moved(w, r, number, size));
            }
            Err(Refused(Refusal::GlnFault, w.records))
        }
        None => Err(Refused(Refusal::GlnFault, w.records)),
    }
}

// 15: "wrong count in the end record".
fn counted(w: Walk, count: u32) -> Result<Step, Refused>
    ensures { result ≡ counted_in w count }
{
    if count as usize == w.records {
        Ok(Step::End)
    } else {
        Err(Refused(Refusal::WrongCount, w.records))
    }
}

// The last of a record's checks, and what it comes to: a party's GLN has to rise, an end has to count right.
fn judged(w: Walk, r: Record, rest: &[u8], size: usize) -> Result<Step, Refused>
    requires { (size ≤ 35) × Few w }
    ensures { result ≡ judged_in w r (glns_in rest.now).gln size }
{
    match r {
        Record::Party(_, _) => risen(w, r, gln::check(record::gln_in(rest)), size),
        Record::End(count) => counted(w, count),
        _ => Ok(moved(w, r, 0, size)),
    }
}
