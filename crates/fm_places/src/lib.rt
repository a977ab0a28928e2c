// The places of a certificate, one for each of its lines: what a certificate is to show, where it begins, and which place comes after which, each exactly
// as validity defines it. No call but `after_stable`, which begins empty lists, does more than a few steps.
#![tactic(auto)]

pub mod after;
pub mod after_maps;
pub mod aim;
pub mod goal;
pub mod goals;
pub mod place;

pub use after::{
    after_coordinates, after_differential, after_exact, after_lift, after_morphism,
    after_resolution, after_row, after_stable, first_place,
};
pub use after_maps::{after_fibre, after_lambda, after_link, after_links, after_phi, after_power};
pub use aim::Aim;
pub use goal::{Goal, MapSource};
pub use goals::beyond;
pub use place::Place;
