// Certificates under way.
use fm_asked::OpenLog;
use fm_places::{Goal, Place};

/// What a certificate is to show, and where its next line stands: in a place, or in a log.
#[derive(Drop)]
pub(crate) struct Certificate {
    pub goal: Goal,
    pub place: Place,
    pub log: Option<OpenLog>,
}
