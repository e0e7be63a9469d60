//! The versions of a store, and the kinds of records and of totals, each kept in a table of its own.

/// A version of a store, by which tables it has.
#[derive(Clone, Copy, Debug, PartialEq, Eq)]
pub enum StoreVersion {
    First,
    Second,
    Third,
}

/// A kind of records: readings, assignments and top-ups, and withdrawals by what they name.
#[derive(Clone, Copy, Debug, PartialEq, Eq)]
pub enum RecordKind {
    Readings,
    Assignments,
    TopUps,
    WithdrawnReadings,
    WithdrawnAssignments,
    WithdrawnTopUps,
}

/// A kind of totals: energies by owner, period, band and direction, or what was topped up by account.
#[derive(Clone, Copy, Debug, PartialEq, Eq)]
pub enum TotalKind {
    Energies,
    Payments,
}
