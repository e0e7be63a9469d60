//! The laws of an office and its shares.
//!
//! Each function does nothing. What counts is its contract, a law of the definitions in `specs/`.

ghost use Rattle.pw_tariff.specs.Laws.{BandIsConstantWithinAnHour, BandsAreOfTheOffice, OfficeOfTextIsSound, PeriodIsTheLatest, PiecesAreShares, PiecesAreUnique, SharesAreUnique, TextHasOneAnswer};

pub use pw_flow::laws::{
    classes_add_up, flow_is_level_rise, flows_of_a_piece_add_up, piece_of_one_kind,
};

/// Tariff period and band are the same throughout an hour of UTC.
pub fn band_is_constant_within_an_hour()
    ensures { BandIsConstantWithinAnHour }
{}

/// The period of an instant is the one with the latest start that isn't later.
pub fn period_is_the_latest()
    ensures { PeriodIsTheLatest }
{}

/// The band of each second is one of the office's, and so is its period.
pub fn bands_are_of_the_office()
    ensures { BandsAreOfTheOffice }
{}

/// Each text has one answer, its office or a refusal, and no other one.
pub fn text_has_one_answer()
    ensures { TextHasOneAnswer }
{}

/// The office of a text is sound: its limits, names, prices, registers, week and periods are as those of every office.
pub fn office_of_text_is_sound()
    ensures { OfficeOfTextIsSound }
{}

/// There are no two ways to share out a difference.
pub fn shares_are_unique()
    ensures { SharesAreUnique }
{}

/// What the pieces of a difference give an owner in a period and a band is its share of it, and so
/// what its cell has.
pub fn pieces_are_shares()
    ensures { PiecesAreShares }
{}

/// There are no two ways to cut a difference into pieces.
pub fn pieces_are_unique()
    ensures { PiecesAreUnique }
{}
