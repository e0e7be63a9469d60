//! The laws of level, flow and energy.
//!
//! Each function does nothing. What counts is its contract, a law of the definitions in `specs/`, which is proved for
//! all readings.

ghost use Rattle.std.specs.Prelude.{ℕ, Option};
ghost use Rattle.pw_flow.specs.Laws.{CellIsAtMostRise, ClassesAddUp, FlowIsLevelRise, FlowIsRise, FlowsAddUp};
ghost use Rattle.pw_flow.specs.Changes.{NeighboursAreFound};
ghost use Rattle.pw_flow.specs.Changes.{FindsNext};
ghost use Rattle.pw_flow.specs.Changes.{FindsLatest};
ghost use Rattle.pw_flow.specs.Changes.{OneTermChanges};
ghost use Rattle.pw_flow.specs.Changes.{OtherWindow};
ghost use Rattle.pw_flow.specs.Changes.{OneMorePoint};
ghost use Rattle.pw_flow.specs.Changes.{SameSecondsSameEnergy};
ghost use Rattle.pw_flow.specs.Changes.{PieceOfOneKind};
ghost use Rattle.pw_flow.specs.Changes.{EnergyIsBounded};
ghost use Rattle.pw_flow.specs.Changes.{EnergyOfPairs};

/// The latest that stands at a second or before it is what `last` finds.
pub fn latest_is_found<A>()
    ensures { (p : ℕ → Option A) (t : ℕ) → FindsLatest p t }
{}

/// The earliest that stands at the seconds behind a second is what `next` finds.
pub fn earliest_behind_is_found<A>()
    ensures { (p : ℕ → Option A) (t n : ℕ) → FindsNext p t n }
{}

/// Neighbours are a point and what `next` finds behind it.
pub fn neighbours_are_found()
    ensures { NeighboursAreFound }
{}

/// A second between neighbours carries what the level rises by, and nothing where they fall or where no neighbours
/// stand round it.
pub fn flow_is_level_rise()
    ensures { FlowIsLevelRise }
{}

/// The flows of a piece add up: between neighbours that don't fall they are the difference of the levels at its ends,
/// and over the whole pair the difference of the values.
pub fn flows_of_a_piece_add_up()
    ensures { FlowsAddUp }
{}

/// All that flows is what neighbours that don't fall rise by.
pub fn all_flow_is_rise()
    ensures { FlowIsRise }
{}

/// A pair gives at most what it rises by, and a fall gives nothing.
pub fn cell_is_at_most_rise()
    ensures { CellIsAtMostRise }
{}

/// The energy of a register is what its neighbouring pairs give.
pub fn energy_of_pairs()
    ensures { EnergyOfPairs }
{}

/// The energy of a register is at most the largest value times the number of its points.
pub fn energy_is_bounded()
    ensures { EnergyIsBounded }
{}

/// A piece of a pair whose seconds are all kept gives the difference of the levels at its ends, and one whose seconds
/// are all left out gives nothing.
pub fn piece_of_one_kind()
    ensures { PieceOfOneKind }
{}

/// Where the same seconds are kept, the energy is the same.
pub fn same_seconds_same_energy()
    ensures { SameSecondsSameEnergy }
{}

/// Where each second belongs to one class, what all classes get is the whole.
pub fn classes_add_up()
    ensures { ClassesAddUp }
{}

/// What one more point changes, or one less.
pub fn one_more_point()
    ensures { OneMorePoint }
{}

/// Which pairs change where other seconds are kept within a window.
pub fn other_window()
    ensures { OtherWindow }
{}

/// What a sum changes by where one of its terms does.
pub fn one_term_changes()
    ensures { OneTermChanges }
{}
