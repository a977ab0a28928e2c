// What a line claims.
use fm_conditions::Condition;
use fm_places::Place;

/// The conditions of a line, in their order, and the place after it.
#[derive(Drop)]
pub struct Claim {
    pub conditions: Vec<Condition>,
    pub next: Place,
}

/// What a line claims in its place: another line stands there, or its number is not the next; a part, a log, a member or a column does not exist; or
/// conditions.
#[derive(Drop)]
pub enum Claimed {
    Form,
    Reference,
    Claim(Claim),
}
