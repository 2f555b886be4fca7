// The setting of a call on a whole file: what the caller says of the month, final or provisional (02, W1 "Do not settle silently on fixed figures"), with the
// refusal of a final run of a month that has no refixed series; and whether its prices are needed (02, W6 "Quantities first, amounts later"), which is handed by
// value from the call to the reading of each record.
#![tactic(auto)]

ghost use Rattle.setting.specs.Asked.{Promised};

use answer::{Refusal, Refused};

#[derive(Clone, Copy)]
pub enum Setting {
    Final,
    Provisional,
}

// W6: "A file for the first alone may have no 05 records; the statement program goes on refusing such a file with 3."
#[derive(Clone, Copy)]
pub enum Prices {
    Needed,
    Optional,
}

// "17, no refixed series in a final run, place 0": by the number of 06 records.
pub fn refixed_or_provisional(setting: Setting, refixed: usize) -> Result<(), Refused>
    ensures { Promised setting refixed result }
{
    match setting {
        Setting::Provisional => Ok(()),
        Setting::Final => {
            if refixed == 0 {
                return Err(Refused(Refusal::NotRefixed, 0));
            }
            Ok(())
        }
    }
}
