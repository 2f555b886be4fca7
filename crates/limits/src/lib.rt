// "Numbers that bound it" (01): every limit of the paper as a constant, under its sentence, by the name that it has in `rules/specs/Limits`. The code has its
// limits from here and nowhere else as a figure; a place that needs another width casts (`limits::MOST_HOURS as u16`). No code.
#![tactic(auto)]

// "Area 1..999."
pub const GREATEST_AREA: u16 = 999;

// "Year 2000..2099."
pub const EARLIEST_YEAR: u16 = 2000;

pub const LATEST_YEAR: u16 = 2099;

// "Month 1..12."
pub const MONTHS_OF_A_YEAR: u8 = 12;

// "H 1..745."
pub const MOST_HOURS: usize = 745;

// "P 1..64; loss carrier and a reading's party below P."
pub const MOST_PARTIES: usize = 64;

// "Load share 0..4,000,000,000", in kWh per year
pub const GREATEST_SHARE_KWH: u64 = 4_000_000_000;

// "W 1..4,000,000,000.", in kWh per year
pub const GREATEST_W_KWH: u64 = 4_000_000_000;

// "Net supply -8,000,000,000..8,000,000,000; other flows 0..8,000,000,000."
pub const GREATEST_FLOW_WH: u64 = 8_000_000_000;

// "Residual 0..2,000,000,000."
pub const GREATEST_RESIDUAL_WH: u32 = 2_000_000_000;

// "Curve number at most 1,000,000,000."
pub const GREATEST_CURVE_NUMBER: u32 = 1_000_000_000;

// "E at most 1,000,000,000."
pub const GREATEST_ENERGY_WH: u32 = 1_000_000_000;

// "All periodised consumption in an hour at most 2,000,000,000."
pub const GREATEST_PERIODISED_WH: u32 = 2_000_000_000;

// "Price -5,000,000..5,000,000.", in øre per MWh
pub const GREATEST_PRICE_ORE: i64 = 5_000_000;

// "Amount = difference x price, exact, in millionths of an øre" (Reconciliation): so many make one
pub const MILLIONTHS_IN_ORE: u64 = 1_000_000;

// "The service takes E and the weights alone, 1 to 8,784 hours of them." (Periodised consumption)
pub const MOST_WEIGHTS: usize = 8_784;

// W3: "the whole is over 8,784,000,000,000"
pub const GREATEST_WHOLE: u64 = 8_784_000_000_000;

// W3: "A yearly reading crosses up to thirteen month files."
pub const MOST_MONTHS: usize = 13;

// "distributed outside -1..2,000,000,001" (Refusal numbers, reconciliation of one hour)
pub const GREATEST_DISTRIBUTED_WH: i64 = 2_000_000_001;

// W6: "a difference beyond 2,000,000,001 Wh of either sign"
pub const GREATEST_DIFFERENCE_WH: i64 = 2_000_000_001;

// "Each hour has a status: 0 missing, 1 measured, 2 estimated." (From flows to the curve)
pub const MISSING: u8 = 0;

pub const MEASURED: u8 = 1;

pub const ESTIMATED: u8 = 2;

// "At most 65,536 bytes." (The month file)
pub const LONGEST_FILE: usize = 65_536;

// "thirteen digits" (The month file)
pub const GLN_DIGITS: usize = 13;
