// An answer as the one number that C gets (include/sayarimu.h): 0 for accepted, else number + 256 x place (01 "Refusal numbers": "A refusal returns its
// number and a place").
#![tactic(auto)]

ghost use Rattle.std.specs.Prelude.{◌≡◌};
ghost use Rattle.answer_code.specs.Coded.{number_at, Promised};

use answer::Refused;

// Up to this place, 2 ^ 56 - 1, number + 256 x place is within 64 bits. Every service refuses far below it.
const GREATEST_PLACE: usize = 72_057_594_037_927_935;

// What a refusal past it would answer.
const PAST_EVERY_PLACE: u64 = 18_446_744_073_709_551_615;

// Number + 256 x place.
fn number_at(number: u8, place: usize) -> u64
    ensures { result ≡ number_at number place }
{
    if place <= GREATEST_PLACE {
        return number as u64 + 256 * place as u64;
    }
    PAST_EVERY_PLACE
}

// An answer as one number: 0 for done.
pub fn code(a: Result<(), Refused>) -> u64
    ensures { Promised a result }
{
    match a {
        Ok(()) => 0,
        Err(Refused(refusal, place)) => number_at(refusal.number(), place),
    }
}
