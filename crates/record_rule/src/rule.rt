// The rule of a record's fields (01 "Numbers that bound it"): what is tested of each kind.
ghost use Rattle.std.specs.Prelude.{◌≡◌, ltb, ◌&&◌};
ghost use Rattle.answer.specs.Said.{named, said};
ghost use Rattle.record.specs.Record.{heading_of, flows_of, glns, no_glns};
ghost use Rattle.record_rule.specs.Judged.{fault_of};
ghost use Rattle.rules.specs.Refusals.{unless};
ghost use Rattle.rules.specs.Words.{within_ℤ};
ghost use Rattle.rules.specs.Flows.{flows_in_range, silent_is_zero};
ghost use Rattle.rules.specs.Gln.{valid_gln};
ghost use Rattle.rules.specs.Limits.{greatest_flow, greatest_price};
ghost use Rattle.rules.specs.Record.{heading_in_range, hour_in_range};

use answer::{Refusal, Refused};
use record::{Brp, Flows, Heading, MOST_HOURS, MOST_PARTIES, Reading, Record};

// The ends of the signed ranges.
const GREATEST_NET_WH: i64 = limits::GREATEST_FLOW_WH as i64;

const LEAST_NET_WH: i64 = -GREATEST_NET_WH;

const LEAST_PRICE_ORE: i64 = -limits::GREATEST_PRICE_ORE;

// Accepted where a test holds, and else refused.
pub fn unless(test: bool, refusal: Refusal, place: usize) -> Result<(), Refused>
    ensures { said result ≡ unless test (named refusal) place }
{
    if test {
        return Ok(());
    }
    Err(Refused(refusal, place))
}

// "Area 1..999. Year 2000..2099. Month 1..12. H 1..745. P 1..64; loss carrier .. below P."
pub fn heading_in_range(h: Heading) -> bool
    ensures { result ≡ heading_in_range (heading_of h) }
{
    (1 <= h.area)
        & (h.area <= limits::GREATEST_AREA)
        & ((limits::EARLIEST_YEAR <= h.year) & (h.year <= limits::LATEST_YEAR))
        & ((1 <= h.month) & (h.month <= limits::MONTHS_OF_A_YEAR))
        & ((1 <= h.hours) & (h.hours <= MOST_HOURS))
        & ((1 <= h.parties) & (h.parties <= MOST_PARTIES))
        & (h.carrier < h.parties)
}

// "Net supply -8,000,000,000..8,000,000,000"
fn net_in_range(z: i64) -> bool
    ensures { result ≡ within_ℤ greatest_flow z }
{
    (LEAST_NET_WH <= z) & (z <= GREATEST_NET_WH)
}

// An hour field below H, and "Price -5,000,000..5,000,000."
pub fn price_in_range(hours: u16, hour: u16, z: i64) -> bool
    ensures { result ≡ ltb hour hours && within_ℤ greatest_price z }
{
    (hour < hours) & ((LEAST_PRICE_ORE <= z) & (z <= limits::GREATEST_PRICE_ORE))
}

// An hour's status and flows. "With status 0 a figure other than 0 is refused with 4"
fn flows_in_range(f: Flows) -> bool
    ensures { result ≡ flows_in_range (flows_of f) && silent_is_zero (flows_of f) }
{
    let range = (f.status <= limits::ESTIMATED)
        & net_in_range(f.net_wh)
        & (f.production_wh <= limits::GREATEST_FLOW_WH)
        & (f.hourly_wh <= limits::GREATEST_FLOW_WH)
        & (f.flex_wh <= limits::GREATEST_FLOW_WH);
    let silent = (f.net_wh == 0) & (f.production_wh == 0) & (f.hourly_wh == 0) & (f.flex_wh == 0);
    range & ((limits::MEASURED <= f.status) | silent)
}

// An hour field below H, and the hour's status and flows.
pub fn hour_in_range(hours: u16, hour: u16, f: Flows) -> bool
    ensures { result ≡ hour_in_range hours hour (flows_of f) }
{
    (hour < hours) & flows_in_range(f)
}

// Thirteen digits with the right check digit.
fn gln_valid(gln: &[u8]) -> bool
    ensures { result ≡ valid_gln gln.now }
{
    gln::check(gln).is_some()
}

// 4 and 5 of a party: "Load share 0..4,000,000,000", then "GLN not digits, wrong check digit"; W5: "a bad BRP GLN is 5".
pub fn party_fault(
    brp: Brp,
    share: u64,
    gln: &[u8],
    brp_gln: &[u8],
    place: usize,
) -> Result<(), Refused>
    ensures { said result ≡ fault_of 0 0 (glns gln.now brp_gln.now) (Record.Party brp share) place }
{
    if limits::GREATEST_SHARE_KWH < share {
        return Err(Refused(Refusal::OutOfRange, place));
    }
    if !gln_valid(gln) {
        return Err(Refused(Refusal::GlnFault, place));
    }
    match brp {
        Brp::Own => Ok(()),
        Brp::Named => unless(gln_valid(brp_gln), Refusal::GlnFault, place),
    }
}

// 4, 11 and 12 of a reading: "a reading's party below P", "a not below b, b above H", "E too large"
pub fn reading_fault(r: Reading, hours: u16, parties: u8, place: usize) -> Result<(), Refused>
    ensures { said result ≡ fault_of hours parties no_glns (Record.Reading r) place }
{
    if parties <= r.party {
        return Err(Refused(Refusal::OutOfRange, place));
    }
    if r.b <= r.a {
        return Err(Refused(Refusal::SpanFault, place));
    }
    if hours < r.b {
        return Err(Refused(Refusal::SpanFault, place));
    }
    if limits::GREATEST_ENERGY_WH < r.e_wh {
        return Err(Refused(Refusal::EnergyTooLarge, place));
    }
    Ok(())
}
