//! What an office's accounts, meters, bands and periods are called in the program.

/// An account, by its position in the office file's list, from 0.
#[derive(Clone, Copy, Debug, PartialEq, Eq, PartialOrd, Ord, Hash)]
pub struct AccountId(pub u16);

/// A meter, by its position in the office file's list, from 0.
#[derive(Clone, Copy, Debug, PartialEq, Eq, PartialOrd, Ord, Hash)]
pub struct MeterId(pub u16);

/// A tariff band, by its position in the office file's list, from 0.
#[derive(Clone, Copy, Debug, PartialEq, Eq, PartialOrd, Ord, Hash)]
pub struct BandId(pub u8);

/// A tariff period, by its position in time, from 0: the office file's own week and prices, then its list of periods.
#[derive(Clone, Copy, Debug, PartialEq, Eq, PartialOrd, Ord, Hash)]
pub struct PeriodId(pub u8);

/// An account, or nobody.
pub type Owner = Option<AccountId>;

/// Which way energy flows, seen from the client.
#[derive(Clone, Copy, Debug, PartialEq, Eq, PartialOrd, Ord, Hash)]
pub enum Direction {
    /// Delivered to the client.
    Import,
    /// Delivered by the client.
    Export,
}

impl Direction {
    ghost use Rattle.std.specs.Prelude.{◌≡◌};
    ghost use Rattle.pw_tariff.specs.Ids.{direction_name};

    /// The name of a direction: `import` or `export`.
    pub fn name(self) -> &'static str
        ensures { result.now ≡ direction_name self }
    {
        match self {
            Direction::Import => "import",
            Direction::Export => "export",
        }
    }
}
