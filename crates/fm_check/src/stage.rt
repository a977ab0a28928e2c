// Where the next line of a report stands.
use crate::certificate::Certificate;
use fm_asked::Asked;

/// Between queries, under a query, in its certificate, before `done`, and after the report.
#[derive(Drop)]
pub(crate) enum Stage {
    Between,
    Answer(Asked),
    Certificate(Asked, Certificate),
    Done(Asked),
    End,
}
