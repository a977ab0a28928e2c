// Which place comes after which.
ghost use Rattle.std.specs.Prelude.{List, true, ℕ, ◌≡◌};
ghost use Rattle.fm_problem.specs.declared.problem.Problem.{Problem as ProblemValue};
ghost use Rattle.fm_poly.specs.Polys.{PolyValue};
ghost use Rattle.fm_poly.specs.declared.ring.Ring.{Ring as RingValue};
ghost use Rattle.fm_report.specs.Parts.{Part};
ghost use Rattle.fm_parts.specs.Replays.{is_number};
ghost use Rattle.fm_judge.specs.Goals as goals;
ghost use Rattle.fm_judge.specs.Places as places;
ghost use Rattle.fm_pres.specs.Tables.{part_at};
ghost use Rattle.fm_places.specs.declared.aim.Aim.{Aim as AimValue};
ghost use Rattle.fm_places.specs.Meanings.{IsPlace, aim_of, goal_of, inverted, place_of};

use crate::{Aim, Goal, Place};
use std::alloc::Global;

/// Where a certificate begins.
pub fn first_place(aim: &Aim) -> Place
    ensures place { (q : ProblemValue) (ps : List Part) → place_of q.ring ps aim.now result ≡ places.first_place (aim_of q ps aim.now) }
    ensures there { (ps : List Part) → IsPlace ps result }
{
    match aim {
        Aim::Membership { .. } => Place::IdealRow,
        _ => Place::Datum,
    }
}

/// After the resolution.
pub fn after_resolution(aim: &Aim) -> Place
    ensures place { (q : ProblemValue) (ps : List Part) → place_of q.ring ps aim.now result ≡ places.after_resolution (aim_of q ps aim.now) }
    ensures there { (ps : List Part) → IsPlace ps result }
{
    match aim {
        Aim::Resolution { .. } => Place::End,
        _ => Place::Lift(0),
    }
}

/// After j lines `exact`.
pub fn after_exact(goal: &Goal, j: u64) -> Place
    ensures place { (q : ProblemValue) (ps : List Part) → place_of q.ring ps goal.now.aim result ≡ places.after_exact (goal_of q ps goal.now) j }
    ensures there { (ps : List Part) → IsPlace ps result }
{
    if j < u64::from(goal.degree) {
        return Place::Exactness(j);
    }
    after_resolution(&goal.aim)
}

/// After d_1 .. d_j.
pub fn after_differential(goal: &Goal, j: u64) -> Place
    ensures place { (q : ProblemValue) (ps : List Part) → place_of q.ring ps goal.now.aim result ≡ places.after_differential (goal_of q ps goal.now) j }
    ensures there { (ps : List Part) → IsPlace ps result }
{
    if j < u64::from(goal.degree) + 1 {
        return Place::Differential(j);
    }
    after_exact(goal, 0)
}

/// After theta_0 .. theta_(j-1).
pub fn after_lift(goal: &Goal, j: u64) -> Place
    ensures place { (q : ProblemValue) (ps : List Part) → place_of q.ring ps goal.now.aim result ≡ places.after_lift (goal_of q ps goal.now) j }
    ensures there { (ps : List Part) → IsPlace ps result }
{
    if j < u64::from(goal.degree) + 1 {
        return Place::Lift(j);
    }
    Place::Cocycles
}

/// After U, the generating morphism.
pub fn after_morphism(aim: &Aim) -> Place
    ensures place { (q : ProblemValue) (ps : List Part) → place_of q.ring ps aim.now result ≡ places.after_morphism (aim_of q ps aim.now) }
    ensures there { (ps : List Part) → IsPlace ps result }
{
    match aim {
        Aim::Ext { .. } => Place::End,
        _ => Place::Chain(0),
    }
}

/// After `stable t`.
pub fn after_stable(alloc: Global, aim: &Aim, t: u64) -> Place
    ensures place { (q : ProblemValue) (ps : List Part) → place_of q.ring ps aim.now result ≡ places.after_stable (aim_of q ps aim.now) t }
    ensures there { (ps : List Part) → IsPlace ps result }
{
    match aim {
        Aim::Vanishing { is_zero, .. } => after_repeat(*is_zero, t),
        Aim::Dying { .. } => Place::Coordinates { t },
        Aim::Living { .. } => Place::Coordinates { t },
        Aim::Inverting { power, .. } => before_power(alloc, *power, t),
        Aim::Support { .. } => Place::Annihilator { t },
        Aim::Outgoing { .. } => Place::DatumBeyond { t },
        Aim::Incoming { .. } => Place::Lambda {
            t,
            identity: Vec::new(alloc),
        },
        Aim::Membership { .. } => Place::End,
        Aim::Resolution { .. } => Place::End,
        Aim::Ext { .. } => Place::End,
        Aim::Root { .. } => Place::End,
    }
}

// The limit is zero, or not.
fn after_repeat(is_zero: bool, t: u64) -> Place
    ensures place { (r : RingValue) (ps : List Part) (aim : AimValue) (moves : ℕ)
        → place_of r ps aim result ≡ places.after_stable (goals.vanishing is_zero moves) t }
    ensures there { (ps : List Part) → IsPlace ps result }
{
    if is_zero {
        return Place::Whole { t };
    }
    Place::Proper { t }
}

// A power annihilates, or none does.
fn before_power(alloc: Global, power: Option<u64>, t: u64) -> Place
    ensures place { (r : RingValue) (ps : List Part) (aim : AimValue)
        → place_of r ps aim result ≡ places.after_stable (goals.inverting (inverted r aim) power) t }
    ensures there { (ps : List Part) → IsPlace ps result }
{
    match power {
        Some(k) => Place::Power { t, k },
        None => Place::Colon {
            t,
            found: Vec::new(alloc),
        },
    }
}

/// After the coordinates w: no fewer moves are to do than the answer says.
fn before_dying(w: u32, t: u64, moves: u64) -> Place
    ensures place { (r : RingValue) (ps : List Part) (aim : AimValue) → place_of r ps aim result ≡ places.before_dying (part_at ps w) t moves }
    ensures there { (ps : List Part) → is_number ps w ≡ true → IsPlace ps result }
{
    if moves == 0 {
        return Place::Dies { w, t, m: 0 };
    }
    Place::Lives { w, t, k: moves - 1 }
}

/// After the coordinates of a class, which part w gives.
pub fn after_coordinates(aim: &Aim, w: u32, t: u64) -> Place
    ensures place { (q : ProblemValue) (ps : List Part) → place_of q.ring ps aim.now result ≡ places.after_coordinates (aim_of q ps aim.now) (part_at ps w) t }
    ensures there { (ps : List Part) → is_number ps w ≡ true → IsPlace ps result }
{
    match aim {
        Aim::Dying { moves, .. } => before_dying(w, t, *moves),
        _ => Place::LivesOn { w, t },
    }
}

/// After the row d of generators.
pub fn after_row(aim: &Aim, d: u32) -> Place
    ensures place { (q : ProblemValue) (ps : List Part) → place_of q.ring ps aim.now result ≡ places.after_row (aim_of q ps aim.now) (part_at ps d) }
    ensures there { (ps : List Part) → is_number ps d ≡ true → IsPlace ps result }
{
    match aim {
        Aim::Membership { inside, .. } => after_ideal(*inside, d),
        _ => Place::Foreign { d },
    }
}

// The polynomial is in the ideal, or not.
fn after_ideal(inside: bool, d: u32) -> Place
    ensures place { (r : RingValue) (ps : List Part) (aim : AimValue) (f : PolyValue)
        → place_of r ps aim result ≡ places.after_row (goals.membership f inside) (part_at ps d) }
    ensures there { (ps : List Part) → is_number ps d ≡ true → IsPlace ps result }
{
    if inside {
        return Place::Cofactors { d };
    }
    Place::Foreign { d }
}
