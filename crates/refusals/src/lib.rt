// Why a call is refused: a named case for each cause of the scope's two lists, with what orders add to them, and its number there.
#![tactic(auto)]

ghost use Rattle.std.specs.Prelude.{◌≡◌};
ghost use Rattle.refusals.specs.Numbers.{number_of};

#[derive(Clone, Copy)]
pub enum Refusal {
    // The file ends inside a count or section.
    FileTooShort = 1,
    // The bus count is 0 or above the limit.
    BusCount = 2,
    // A need is 0 or above the limit.
    Need = 3,
    // The line count is above the limit.
    LineCount = 4,
    // Bytes follow the last weight.
    FileTooLong = 5,
    // A record names a bus that the network does not have, or one bus twice.
    LineEnds = 6,
    // A bus has more different neighbours than it may have lines.
    DegreeTooHigh = 7,
    // Cancel is given denominator 0.
    NoDenominator = 9,
    // Too few entries are lent for the line table.
    TableTooShort = 10,
    // The slice holds no network.
    NoNetwork = 11,
    // Too few entries are lent for the numerators, or for the changes.
    NumeratorsTooShort = 12,
    // The network does not have the bus, or the sheet does not have the line.
    NoSuchBus = 13,
    // Too few bytes are lent for the sheet line.
    TextTooShort = 14,
    // A record names its higher bus first, or is below the record before it.
    OutOfOrder = 15,
    // Too few bytes are lent for the network file.
    BytesTooShort = 16,
    // A need exceeds its bus's degree, apart from need 1 at a bus without lines.
    NeedAboveDegree = 17,
    // The network does not have the line.
    NoSuchLine = 18,
    // The weight count is not the bus count.
    WeightCount = 19,
    // A weight is 0 or above the limit.
    Weight = 20,
}

impl Refusal {
    // The number that programs print and C callers are given.
    pub fn number(self) -> u8
        ensures { result ≡ number_of self }
    {
        self as u8
    }
}
