//! The laws of uploads.
//!
//! Each function changes nothing. What counts is its contract; its body makes the calls that show it.

ghost use Rattle.pw_record.specs.Laws.{HasNoTwoOutcomes, HasOneOutcome, upload_of};
ghost use Rattle.pw_record.specs.Uploads.{Upload};
ghost use Rattle.pw_record.specs.inner.Outcomes.{HasBodyOutcome};
ghost use Rattle.pw_record.specs.inner.Steps.{IsSourceOf};

use crate::frames::{MOST_FRAMES, read_frame};
use crate::origin::{FrameBasis, Source};
use pw_frame::Frames;
use pw_tariff::Office;
use pw_time::{Clock, Zone};

/// What an upload holds.
#[derive(Clone, Copy, Debug, PartialEq, Eq)]
pub enum UploadKind<'a> {
    /// DSMR P1 telegrams.
    Telegrams,
    /// IEC 62056-21 readouts of the meter with this id.
    Readouts(&'a [u8]),
    /// Rows that assign meters to accounts.
    Assignments,
    /// Rows of top-ups.
    TopUps,
    /// Rows that withdraw records.
    Withdrawals,
}

/// What is sent for an upload: what it is told to hold, and its body, of which nothing is read yet.
#[derive(Clone, Copy, Debug)]
pub struct UploadBytes<'a> {
    pub kind: UploadKind<'a>,
    pub body: &'a [u8],
}

/// No upload has two outcomes: by the office file, where it is sent, and its bytes it gives one list of entries at most,
/// or is refused for one content fault in one part at most, and not both.
pub fn no_upload_has_two_outcomes(office: &Office)
    ensures { (upload : Upload) → HasNoTwoOutcomes office.now upload }
{
    let _ = office.bands();
}

/// Each upload has one outcome: by the office file, where it is sent, and its bytes it gives one list of entries, or is
/// refused for one content fault in one part; never both, and never neither.
pub fn each_upload_has_one_outcome(office: &Office, upload: UploadBytes)
    ensures { HasOneOutcome office.now (upload_of upload.entry) }
{
    let _ = office.bands();
    match upload.kind {
        UploadKind::Telegrams => {
            frames_have_an_outcome(office, Source::Telegrams, upload.body);
        }
        UploadKind::Readouts(id) => {
            let Some(meter) = office.meter(id) else {
                return;
            };
            let clock = office.clock(meter);
            if clock == Clock::Marked {
                return;
            }
            frames_have_an_outcome(office, Source::Readouts(meter, clock), upload.body);
        }
        UploadKind::Assignments => {}
        UploadKind::TopUps => {}
        UploadKind::Withdrawals => {}
    }
}

// Frames give readings, or one is refused: it reads them to their end or to the first that is refused.
fn frames_have_an_outcome(office: &Office, source: Source, body: &[u8])
    requires { IsSourceOf office.now source }
    ensures { HasBodyOutcome office.now source body.now }
{
    let zone = Zone::central();
    let basis = FrameBasis {
        office,
        zone: &zone,
        source,
    };
    let mut frames = Frames::new(body);
    let mut part = 1;
    'frames: while let Some(next) = frames.next_frame() {
        if part > MOST_FRAMES {
            return;
        }
        let frame = match next {
            Ok(frame) => frame,
            Err(_) => return,
        };
        match read_frame(&basis, &frame) {
            Ok(_) => {}
            Err(_) => return,
        }
        part += 1;
    }
}
