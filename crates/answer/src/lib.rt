// What a call refuses, by name at a place (01 "Refusal numbers"): each call answers `Result<_, Refused>`, and `?` hands a refusal on. The paper's number of each
// refusal stands in `rules`, once; `said` and `told` of specs/Said.antt read an answer as the verdict of the rules.
#![tactic(auto)]

ghost use Rattle.std.specs.Prelude.{◌≡◌, ℕ, map};
ghost use Rattle.answer.specs.Promised.{NumberPromised, EachAtMostPromised, WithinPromised, EachWithinPromised};

// The refusals, in the order of the paper's table, and then those that came with the requests (02).
#[derive(Clone, Copy, Debug, PartialEq, Eq)]
pub enum Refusal {
    FileFault,
    UnknownKind,
    OutOfOrder,
    OutOfRange,
    GlnFault,
    WOutOfRange,
    MissingHour,
    ResidualNegative,
    ResidualTooLarge,
    CurveTooLarge,
    SpanFault,
    EnergyTooLarge,
    NothingToFollow,
    PeriodisedTooLarge,
    WrongCount,
    WrongLength,
    NotRefixed,
    WholeExceeded,
    DifferenceTooLarge,
}

// "A refusal returns its number and a place"
#[derive(Clone, Copy, Debug, PartialEq, Eq)]
pub struct Refused(pub Refusal, pub usize);

impl Refusal {
    // The paper's number of a refusal.
    pub fn number(self) -> u8
        ensures { NumberPromised self result }
    {
        match self {
            Refusal::FileFault => 1,
            Refusal::UnknownKind => 2,
            Refusal::OutOfOrder => 3,
            Refusal::OutOfRange => 4,
            Refusal::GlnFault => 5,
            Refusal::WOutOfRange => 6,
            Refusal::MissingHour => 7,
            Refusal::ResidualNegative => 8,
            Refusal::ResidualTooLarge => 9,
            Refusal::CurveTooLarge => 10,
            Refusal::SpanFault => 11,
            Refusal::EnergyTooLarge => 12,
            Refusal::NothingToFollow => 13,
            Refusal::PeriodisedTooLarge => 14,
            Refusal::WrongCount => 15,
            Refusal::WrongLength => 16,
            Refusal::NotRefixed => 17,
            Refusal::WholeExceeded => 18,
            Refusal::DifferenceTooLarge => 19,
        }
    }
}

// A figure without a sign, of 32 or of 64 bits, as the number that it is.
pub trait Figure: Copy {
    ghost number: { Self → ℕ };

    fn wide(self) -> u64
        ensures { result ≡ number self };
}

impl Figure for u32 {
    ghost number = { λ figure. figure };

    fn wide(self) -> u64 {
        u64::from(self)
    }
}

impl Figure for u64 {
    ghost number = { λ figure. figure };

    fn wide(self) -> u64 {
        self
    }
}

// "the place of 4 is the first value outside in its list": every value is at most `most`, or the first that is above it is refused at its place.
pub fn each_at_most<T: Figure>(values: &[T], most: u64, otherwise: Refusal) -> Result<(), Refused>
    ensures { EachAtMostPromised (map T.number values.now) most otherwise result }
{
    for (i, value) in values.iter().enumerate() {
        if most < value.wide() {
            return Err(Refused(otherwise, i));
        }
    }
    Ok(())
}

// Whether a signed figure lies in a range, both of its ends within it.
pub fn within_i64(figure: i64, lowest: i64, greatest: i64) -> bool
    ensures { WithinPromised figure lowest greatest result }
{
    (lowest <= figure) & (figure <= greatest)
}

// The same of signed figures: the first that lies outside the range is refused at its place.
pub fn each_within_i64(
    figures: &[i64],
    lowest: i64,
    greatest: i64,
    otherwise: Refusal,
) -> Result<(), Refused>
    ensures { EachWithinPromised figures.now lowest greatest otherwise result }
{
    for (i, figure) in figures.iter().enumerate() {
        if !within_i64(*figure, lowest, greatest) {
            return Err(Refused(otherwise, i));
        }
    }
    Ok(())
}
