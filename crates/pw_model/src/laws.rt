//! The laws of the definitions.
//!
//! Each function does nothing. What counts is its contract, a law of the definitions in `specs/`, which is proved for
//! all sets of records.

ghost use Rattle.pw_model.specs.Bearing.{OneMoreBearing};
ghost use Rattle.pw_model.specs.Bounds.{BalancesFit, TotalsAreBounded};
ghost use Rattle.pw_model.specs.Laws.{BalanceIsOfPeriods, CountIsLength, EnergyIsOfPeriods, ForeignTotalsAreNone, ListsAreAtMostOne, ListsExist, NothingIsLost, OneIsCounting, OrderCountsNothing, RepeatedPeriodChangesNothing, SplitPeriodsChangeNothing, TopUpsAddUp};
ghost use Rattle.pw_model.specs.Changes.{OtherStartWindow};
ghost use Rattle.pw_model.specs.Changes.{OneMoreAssignment};
ghost use Rattle.pw_model.specs.Changes.{OneMorePayment};
ghost use Rattle.pw_model.specs.Changes.{OneMoreRecord};
ghost use Rattle.pw_model.specs.Changes.{OneMoreReading};
ghost use Rattle.pw_model.specs.Office.{SoundOfficeIsOffice};
ghost use Rattle.pw_model.specs.Shelf.{EmptyIsTrue, TrueContentsAreAlike, TrueTotalsAreBounded};

/// Of what is no withdrawal, the contents at a key are one exactly for the record that counts.
pub fn one_is_counting()
    ensures { OneIsCounting }
{}

/// Order counts nothing, and repetition neither: two lists of one set have the same energies, top-ups and balances,
/// the same falls, disputes and readings, and the same number of records.
pub fn order_counts_nothing()
    ensures { OrderCountsNothing }
{}

/// A set has at most one list of falls, one of disputes, and one of the readings of a register.
pub fn lists_are_at_most_one()
    ensures { ListsAreAtMostOne }
{}

/// A set has a list of falls, one of disputes, and one of the readings of each register.
pub fn lists_exist()
    ensures { ListsExist }
{}

/// Where each record stands once in a list, the records held are as many as the list is long.
pub fn count_is_length()
    ensures { CountIsLength }
{}

/// Conservation of energy: where each second has one of the office's bands and all records are of the office, over all
/// owners with nobody and all bands, the energies of a direction add up to the rises of all its neighbours that don't fall.
pub fn conservation_of_energy()
    ensures { NothingIsLost }
{}

/// Where each second has one of the office's periods, an energy is the sum of those of the periods.
pub fn energy_is_of_periods()
    ensures { EnergyIsOfPeriods }
{}

/// A balance is the sum over periods and bands, each energy at the price of its own period and band.
pub fn balance_is_of_periods()
    ensures { BalanceIsOfPeriods }
{}

/// Splitting periods changes nothing: where an office is another one with some of its periods split, each part with the
/// prices of the whole, and all seconds have the same bands, energies, costs and balances are the same in both.
pub fn split_periods_change_nothing()
    ensures { SplitPeriodsChangeNothing }
{}

/// A period that changes neither week nor prices changes nothing: where an office file has one that repeats those of the
/// period before it, energies, costs and balances are as with the file without it.
pub fn repeated_period_changes_nothing()
    ensures { RepeatedPeriodChangesNothing }
{}

/// What one more counting reading changes, or one less.
pub fn one_more_reading()
    ensures { OneMoreReading }
{}

/// What one more record changes that withdraws none, and that none withdraws: the contents at its key alone.
pub fn one_more_record()
    ensures { OneMoreRecord }
{}

/// Where one more record may change what is told: at its own key, and at that of the record that a withdrawal names.
pub fn one_more_bearing()
    ensures { OneMoreBearing }
{}

/// What one more record that withdraws none changes of what is topped up.
pub fn one_more_payment()
    ensures { OneMorePayment }
{}

/// What another assignment of a meter changes.
pub fn one_more_assignment()
    ensures { OneMoreAssignment }
{}

/// Totals of what isn't the office's are 0: where all records are of the office, energies of an owner that is no account
/// of it and top-ups of what is no account of it; where each second has one of its periods, energies in another period;
/// where each second has one of its bands, energies in another band.
pub fn foreign_totals_are_none()
    ensures { ForeignTotalsAreNone }
{}

/// What is topped up for an account is the sum of the cents of its counting top-ups, in whatever order they are listed,
/// each once; and there is such a list.
pub fn top_ups_add_up()
    ensures { TopUpsAddUp }
{}

/// Totals are bounded: an energy by 99,999,999,999 Wh for each record, what is topped up by 100,000,000 cents for each.
pub fn totals_are_bounded()
    ensures { TotalsAreBounded }
{}

/// A balance fits a signed number of 128 bits, up to 10,000,000 records.
pub fn balances_fit()
    ensures { BalancesFit }
{}

/// A sound office file is an office: its bands, periods, prices and limits are as the laws ask.
pub fn sound_office_is_office()
    ensures { SoundOfficeIsOffice }
{}

/// An empty shelf is true in every office.
pub fn empty_content_is_true()
    ensures { EmptyIsTrue }
{}

/// True contents of one set of records have the same points, starts and totals.
pub fn true_contents_are_alike()
    ensures { TrueContentsAreAlike }
{}

/// A true total of at most 10,000,000 records is at most 10,000,000 times 99,999,999,999.
pub fn true_totals_are_bounded()
    ensures { TrueTotalsAreBounded }
{}

/// Which pairs of a register change where a meter has another assignment.
pub fn other_start_window()
    ensures { OtherStartWindow }
{}
