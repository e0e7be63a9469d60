//! The laws of the definitions.
//!
//! Each function does nothing. What counts is its contract, a law of the definitions in `specs/`, which is proved for
//! all sets of records.

ghost use Rattle.pw_months.specs.Laws.{AllBillsAddUp, BalanceLessWhatIsBehind, BillBalances, BillOfAllTime, BillsAddUp, ClassesOfTimeAddUp, EnergyOfCutOffice, NothingIsLostInTime, OrderOfBillCountsNothing, PiecesOfTimeAddUp, TopUpsBetweenAddUp};
ghost use Rattle.pw_months.specs.Pieces.{PiecesAreRows};
ghost use Rattle.pw_months.specs.Reaching.{BillGoesByWhatIsTold, EnergyGoesByWhatIsTold, OneReadingReaches, OtherStartReaches, TopUpsGoByWhatIsTold};
ghost use Rattle.pw_months.specs.Why.{WhyAddsUp};
ghost use Rattle.pw_months.specs.Window.{CutOwnersCutShares, NamedDaysShare, PairsOfIntervalAreEnough};
ghost use Rattle.pw_months.specs.Worked.{WorkedBills, WorkedWhy};

/// The bills of two intervals, the second behind the first, add up to the bill of both, and the first ends with the
/// balance that the second begins with.
pub fn bills_add_up()
    ensures { BillsAddUp }
{}

/// So do those of any intervals one behind another.
pub fn all_bills_add_up()
    ensures { AllBillsAddUp }
{}

/// The balance at the end of a bill is that at its begin with its top-ups, less what import costs, with what export
/// brings; and what that is adds up over periods and bands, each energy at its price.
pub fn bill_balances()
    ensures { BillBalances }
{}

/// The bill of all time is the statement.
pub fn bill_of_all_time()
    ensures { BillOfAllTime }
{}

/// A balance is that at an instant, with what is topped up and flows from then on.
pub fn balance_less_what_is_behind()
    ensures { BalanceLessWhatIsBehind }
{}

/// What is topped up in an interval is the sum of the counting top-ups that have an instant in it.
pub fn top_ups_between_add_up()
    ensures { TopUpsBetweenAddUp }
{}

/// Order of arrival counts nothing.
pub fn order_of_bill_counts_nothing()
    ensures { OrderOfBillCountsNothing }
{}

/// Energies of intervals one behind another add up.
pub fn pieces_of_time_add_up()
    ensures { PiecesOfTimeAddUp }
{}

/// Energies of classes of seconds add up.
pub fn classes_of_time_add_up()
    ensures { ClassesOfTimeAddUp }
{}

/// Conservation in time: the energies of all owners, periods, bands and intervals are all that neighbours rise by.
pub fn nothing_is_lost_in_time()
    ensures { NothingIsLostInTime }
{}

/// The energy of an interval is the energy in an office whose bands end with the interval.
pub fn energy_of_cut_office()
    ensures { EnergyOfCutOffice }
{}

/// The energies of an interval go by its owners, and by the readings that count in it with a neighbour at each side.
pub fn energy_goes_by_what_is_told()
    ensures { EnergyGoesByWhatIsTold }
{}

/// What is topped up in an interval goes by the counting top-ups that have their instant in it.
pub fn top_ups_go_by_what_is_told()
    ensures { TopUpsGoByWhatIsTold }
{}

/// Nothing behind the end of an interval changes its bill, but the first reading of a register.
pub fn bill_goes_by_what_is_told()
    ensures { BillGoesByWhatIsTold }
{}

/// A reading changes energies of no interval that doesn't meet the time between its neighbours.
pub fn one_reading_reaches_its_neighbours()
    ensures { OneReadingReaches }
{}

/// An assignment changes energies of no interval that doesn't meet the time from its start to the meter's next one.
pub fn other_start_reaches_the_next()
    ensures { OtherStartReaches }
{}

/// The rows that tell why a bill is what it is add up to its every energy, and to what all energy of a direction costs.
pub fn why_adds_up()
    ensures { WhyAddsUp }
{}

/// Two bills worked by hand.
pub fn worked_bills()
    ensures { WorkedBills }
{}

/// The rows of one of them, worked by hand.
pub fn worked_why()
    ensures { WorkedWhy }
{}

/// The pairs of the points of an interval, with one neighbour on each side, give its whole energy.
pub fn pairs_of_interval_are_enough()
    ensures { PairsOfIntervalAreEnough }
{}

/// What a pair gives an account under owners cut to an interval is what it gives it in the interval.
pub fn cut_owners_cut_shares()
    ensures { CutOwnersCutShares }
{}

/// What a pair gives under owners that name the days of an account is what it gives the account on each day.
pub fn named_days_share()
    ensures { NamedDaysShare }
{}

/// The pieces that a pair gives an account, under owners cut to an interval, are its rows of why in the interval.
pub fn pieces_are_rows()
    ensures { PiecesAreRows }
{}
