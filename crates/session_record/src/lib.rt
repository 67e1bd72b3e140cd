// The session record: how it begins, what it is without its summary, and which records accepted commands can leave.
#![tactic(auto)]

ghost use Rattle.std.specs.Prelude.{◌≡◌};
ghost use Rattle.session_record.specs.Session.{fresh};

pub mod check;

use limits::{MAX_CAMERAS, MAX_VIEWS, POSE_FLOATS};
use shared_counts::SUMMARY_ENTRIES;

// The floats of the buffer: seven for each cell of 64 views and 16 cameras.
pub const BUFFER_FLOATS: usize = POSE_FLOATS * (MAX_VIEWS * MAX_CAMERAS);

// Bit v of a camera's mask is set when view v holds a pose of that camera, and `shared` is the summary of the masks: at 16 × a + b, how many views hold poses
// of both cameras a and b. A fresh session is all zeros: no sizes, no poses.
#[derive(Clone, Copy)]
pub struct Session {
    pub masks: [u64; MAX_CAMERAS],
    pub views: u8,
    pub cameras: u8,
    pub reference: u8,
    pub shared: [u8; SUMMARY_ENTRIES],
}

// The record without its summary, which no answer goes by. Commands are lent both side by side, and change them where they stand.
// Kept: four fields that `Session` has too: nested in it, each clause that speaks of a record would read `session.held.views`.
#[derive(Clone, Copy)]
pub struct Held {
    pub views: u8,
    pub cameras: u8,
    pub reference: u8,
    pub masks: [u64; MAX_CAMERAS],
}

pub fn fresh() -> Session
    ensures { result ≡ fresh }
{
    Session {
        masks: [0; MAX_CAMERAS],
        views: 0,
        cameras: 0,
        reference: 0,
        shared: [0; SUMMARY_ENTRIES],
    }
}

impl From<Session> for Held {
    ghost use Rattle.session_record.specs.Session.{held_of};

    ghost from_gives = { λ session held. held ≡ held_of session };

    fn from(session: Session) -> Held {
        let masks = session.masks;
        Held {
            masks,
            views: session.views,
            cameras: session.cameras,
            reference: session.reference,
        }
    }
}

impl Held {
    ghost use Rattle.session_record.specs.Session.{session_of, with_sizes, with_masks};

    pub fn with_summary(self, shared: [u8; SUMMARY_ENTRIES]) -> Session
        ensures { result ≡ session_of self shared }
    {
        let masks = self.masks;
        Session {
            masks,
            views: self.views,
            cameras: self.cameras,
            reference: self.reference,
            shared,
        }
    }

    pub fn with_sizes(self, views: u8, cameras: u8, reference: u8) -> Held
        ensures { result ≡ with_sizes self views cameras reference }
    {
        Held {
            views,
            cameras,
            reference,
            ..self
        }
    }

    pub fn with_masks(self, masks: [u64; MAX_CAMERAS]) -> Held
        ensures { result ≡ with_masks self masks }
    {
        Held { masks, ..self }
    }
}
