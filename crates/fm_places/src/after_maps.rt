// Which place comes after which, of the lines on inverting and on maps.
ghost use Rattle.std.specs.Prelude.{IfOk, List, true, ◌≡◌};
ghost use Rattle.fm_poly.specs.Polys.{PolyValue};
ghost use Rattle.fm_poly.specs.declared.ring.Ring.{Ring as RingValue};
ghost use Rattle.fm_problem.specs.declared.problem.Problem.{Problem as ProblemValue};
ghost use Rattle.fm_report.specs.Parts.{Part};
ghost use Rattle.fm_parts.specs.Replays.{are_numbers, is_number};
ghost use Rattle.fm_judge.specs.Places as places;
ghost use Rattle.fm_pres.specs.Tables.{part_at};
ghost use Rattle.fm_places.specs.declared.aim.Aim.{Aim as AimValue};
ghost use Rattle.fm_pres.specs.Blocks.{parts_at};
ghost use Rattle.fm_places.specs.Meanings.{IsPlace, aim_of, goal_of, inverted, place_of};

use crate::{Aim, Goal, Place};

/// After `power`: no smaller power annihilates.
pub fn after_power(t: u64, k: u64) -> Place
    ensures place { (r : RingValue) (ps : List Part) (aim : AimValue) → place_of r ps aim result ≡ places.after_power (inverted r aim) t k }
    ensures there { (ps : List Part) → IsPlace ps result }
{
    if k == 0 {
        return Place::End;
    }
    Place::Least { t, k: k - 1 }
}

/// After lambda_0 .. lambda_(j-1).
pub fn after_lambda(goal: &Goal, t: u64, identity: Vec<u32>) -> Place
    ensures place { (q : ProblemValue) (ps : List Part)
        → place_of q.ring ps goal.now.aim result ≡ places.after_lambda (goal_of q ps goal.now) t (parts_at ps identity.items) }
    ensures there { (ps : List Part) → are_numbers ps identity.items ≡ true → IsPlace ps result }
{
    if (identity.len() as u64) < u64::from(goal.degree) + 1 {
        return Place::Lambda { t, identity };
    }
    Place::Phi { t, identity }
}

/// After `phi`: the map is zero, or not.
pub fn after_phi(aim: &Aim, t: u64, phi: u32) -> Place
    ensures place { (q : ProblemValue) (ps : List Part) → place_of q.ring ps aim.now result ≡ places.after_phi (aim_of q ps aim.now) t (part_at ps phi) }
    ensures there { (ps : List Part) → is_number ps phi ≡ true → IsPlace ps result }
{
    match aim {
        Aim::Incoming { is_zero: true, .. } => Place::Null { t, phi },
        _ => Place::NonNull { t, phi },
    }
}

/// After `fibre`: the map is one to one, or not.
pub fn after_fibre(aim: &Aim, t: u64, phi: u32, c: u32) -> Place
    ensures place { (q : ProblemValue) (ps : List Part)
        → place_of q.ring ps aim.now result ≡ places.after_fibre (aim_of q ps aim.now) t (part_at ps phi) (part_at ps c) }
    ensures there { (ps : List Part) → is_number ps phi ≡ true → is_number ps c ≡ true → IsPlace ps result }
{
    match aim {
        Aim::Incoming { is_one: true, .. } => Place::One { t, phi, c },
        _ => Place::NotOne { t, phi, c },
    }
}

/// After all links: no smaller number of them makes the map onto.
pub fn after_links(t: u64, phi: u32, found: Vec<u32>) -> Place
    ensures place { (r : RingValue) (ps : List Part) (aim : AimValue)
        → place_of r ps aim result ≡ places.after_links t (part_at ps phi) (parts_at ps found.items) }
    ensures there { (ps : List Part) → is_number ps phi ≡ true → are_numbers ps found.items ≡ true → IsPlace ps result }
{
    if found.is_empty() {
        return Place::Onto { t, phi, found };
    }
    Place::Short { t, phi, found }
}

/// After r links.
pub fn after_link(aim: &Aim, t: u64, phi: u32, found: Vec<u32>) -> Place
    ensures place { (q : ProblemValue) (ps : List Part)
        → place_of q.ring ps aim.now result ≡ places.after_link (aim_of q ps aim.now) t (part_at ps phi) (parts_at ps found.items) }
    ensures there { (ps : List Part) → is_number ps phi ≡ true → are_numbers ps found.items ≡ true → IsPlace ps result }
{
    let Aim::Incoming { onto: Some(s), .. } = aim else {
        return Place::OpenLink { t, phi, found };
    };
    if (found.len() as u64) < *s {
        return Place::Link { t, phi, found };
    }
    after_links(t, phi, found)
}
