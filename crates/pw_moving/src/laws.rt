//! The laws of the definitions.
//!
//! Each function does nothing. What counts is its contract, a law of the definitions in `specs/`, which is proved for
//! all office files and all sets of records.

ghost use Rattle.pw_moving.specs.Laws.{AdoptedOfficesAgree, AgreeingOfficesAreAlike, AgreeingOfficesKeepTheTruth, CarriedFiguresStay, CarriedRecordsStand, GoneAccountsHaveNothing, NamesComeBack, SameLinesSameTariff};

/// Offices that agree on what the records of a set ask for give it the same energies, costs and balances.
pub fn agreeing_offices_are_alike()
    ensures { AgreeingOfficesAreAlike }
{}

/// In a true content of records on which two offices agree, each record is of the other office too, and points, starts
/// and totals are true there as they stand.
pub fn agreeing_offices_keep_the_truth()
    ensures { AgreeingOfficesKeepTheTruth }
{}

/// Where a new office file adopts the records of the old one, the two offices agree on what the records ask for.
pub fn adopted_offices_agree()
    ensures { AdoptedOfficesAgree }
{}

/// By equal names, an account or a meter that has a place in another office comes back to its own from there: so no two
/// have one place.
pub fn names_come_back()
    ensures { NamesComeBack }
{}

/// Where all records of a set can be carried, each of them is withdrawn, and counts, exactly where it was and did.
pub fn carried_records_stand()
    ensures { CarriedRecordsStand }
{}

/// Two office files that are alike in all lines but those of accounts and meters have the same bands, periods and
/// prices.
pub fn same_lines_same_tariff()
    ensures { SameLinesSameTariff }
{}

/// Where two offices differ in accounts and meters alone, in their order or number, and all records can be carried,
/// nobody and each account of both have the same energies, costs, top-ups and balances.
pub fn carried_figures_stay()
    ensures { CarriedFiguresStay }
{}

/// Where all records can be carried, an account of the old office that the new one hasn't has nothing: no energy, no
/// cost and no top-up.
pub fn gone_accounts_have_nothing()
    ensures { GoneAccountsHaveNothing }
{}
