//! Why a text has no instant, and how that is reported.

/// Why a text has no instant.
#[derive(Clone, Copy, Debug, PartialEq, Eq)]
pub enum StampFault {
    /// The text isn't in its form.
    Form,
    /// The calendar hasn't the date.
    NoSuchDate,
    /// A day hasn't the time: an hour above 23, a minute or a second above 59.
    NoSuchTime,
    /// The season mark is neither `S` nor `W`; or the clock marks its times, and the text has no
    /// mark.
    Mark,
    /// The instant isn't from 2000-01-01T00:00:00Z to 2099-12-31T23:59:59Z.
    Range,
    /// Local clocks never show this time: it is skipped as summer time begins.
    Gap,
    /// Local clocks show this time twice, as summer time ends.
    Fold,
}

impl StampFault {
    ghost use Rattle.std.specs.Prelude.{◌≡◌};
    ghost use Rattle.pw_time.specs.Faults.{stamp_fault_told};

    /// The number under which the fault is reported, from 1 to 7.
    pub fn number(self) -> u8
        ensures { result ≡ (stamp_fault_told self).0 }
    {
        self.told().0
    }

    /// The name under which the fault is reported: that of the variant.
    pub fn name(self) -> &'static str
        ensures { result.now ≡ (stamp_fault_told self).1 }
    {
        self.told().1
    }

    // The number and the name.
    fn told(self) -> (u8, &'static str)
        ensures number { result.0 ≡ (stamp_fault_told self).0 }
        ensures name { result.1.now ≡ (stamp_fault_told self).1 }
    {
        match self {
            StampFault::Form => (1, "Form"),
            StampFault::NoSuchDate => (2, "NoSuchDate"),
            StampFault::NoSuchTime => (3, "NoSuchTime"),
            StampFault::Mark => (4, "Mark"),
            StampFault::Range => (5, "Range"),
            StampFault::Gap => (6, "Gap"),
            StampFault::Fold => (7, "Fold"),
        }
    }
}
