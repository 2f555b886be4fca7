// A whole month file, read record by record (01 "The month file" and "Refusal numbers") to its sections or to the first refusal. One pass over the bytes:
// `file_reader` goes from record to record, and `file_step` judges each before the next is looked at. What stands in a section is read by `file_fields`.
#![tactic(auto)]

ghost use Rattle.std.specs.Prelude.{◌≡◌, ◌+◌, ◌*◌, ◌≤◌};
ghost use Rattle.file_step.specs.Walk.{Few};
ghost use Rattle.file_sections.specs.Walk.{sections_in, Promised};
ghost use Rattle.rules.specs.Record.{body_length};

use answer::{Refusal, Refused};
use file_step::{Step, Walk};
use record::Heading;
use setting::Prices;

// An accepted file: its heading, how many refixed hours, prices and readings it has, how many bytes a party's record has, and where each section starts.
#[derive(Clone, Copy)]
pub struct Sections {
    pub heading: Heading,
    pub refixed: usize,
    pub prices: usize,
    pub readings: usize,
    pub party_size: usize,
    pub parties_at: usize,
    pub fixed_at: usize,
    pub refixed_at: usize,
    pub prices_at: usize,
    pub readings_at: usize,
}

// How many bytes a record of a kind has with its kind byte.
fn size_of(kind: u8) -> usize
    ensures value { result ≡ 1 + body_length kind }
    ensures bound { result ≤ 36 }
{
    1 + record::body_length(kind)
}

// The place after the heading and so many parties, whose records have so many bytes each.
fn after_parties(party_size: usize, parties: u8) -> usize
    requires { party_size ≤ 36 }
    ensures value { result ≡ 10 + party_size * parties }
    ensures bound { result ≤ 9190 }
{
    record::HEADING_SIZE + party_size * (parties as usize)
}

// Where each section of a file starts, by what was counted.
fn laid_out(w: Walk) -> Sections
    requires { Few w }
    ensures { result ≡ sections_in w }
{
    let heading = w.heading;
    let hours = heading.hours as usize;
    let party_size = size_of(w.party_kind);
    let fixed_at = after_parties(party_size, heading.parties);
    let refixed_at = fixed_at + record::HOUR_SIZE * hours;
    let prices_at = refixed_at + record::HOUR_SIZE * w.refixed;
    let readings_at = prices_at + record::PRICE_SIZE * w.prices;
    Sections {
        heading,
        refixed: w.refixed,
        prices: w.prices,
        readings: w.readings,
        party_size,
        parties_at: record::HEADING_SIZE,
        fixed_at,
        refixed_at,
        prices_at,
        readings_at,
    }
}

// A WHOLE FILE, record by record, with its prices needed or not. Refuses 1 where it is empty or too long, before all else; then each record by 2, 1, 3, 4, 5, 11, 12, 15; then 1 for a
// missing end and for bytes after it, at the number of complete records.
pub fn read(file: &[u8], prices: Prices) -> Result<Sections, Refused>
    ensures { Promised prices file.now result }
{
    if file.len() < 1 {
        return Err(Refused(Refusal::FileFault, 0));
    }
    if limits::LONGEST_FILE < file.len() {
        return Err(Refused(Refusal::FileFault, 0));
    }
    let mut w = file_step::start(prices);
    let mut at = 0;
    while at < file.len() {
        match file_reader::next_at(file, at, w)? {
            Step::Next(next, size) => {
                w = next;
                at += size;
            }
            Step::End => {
                if file.len() - at == record::END_SIZE {
                    return Ok(laid_out(w));
                }
                return Err(Refused(Refusal::FileFault, w.records + 1));
            }
        }
    }
    Err(Refused(Refusal::FileFault, w.records))
}
