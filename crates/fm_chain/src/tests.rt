// Chains, coordinates and stages by hand, over GF(2) in one variable, for matrices of one row and one column.
ghost use Rattle.std.specs.Prelude.{IfOk, length, ◌≡◌};
ghost use Rattle.fm_vec.specs.Components.{AreOver};

use crate::{Killed, coordinates, kernel_chain, kill_stage};
use fm_gfp::Prime;
use fm_mat::{Column, Matrix};
use fm_mono::{EXPONENT_BOUND, Mono, Order};
use fm_poly::{Poly, Ring, Term};
use fm_run::{Side, Stop, Work};
use fm_syz::{Graph, graph_of};
use std::alloc::{AllocError, Global};
use std::test::Fail;

fn line() -> Ring
    ensures { result.vars ≡ 1 }
{
    Ring {
        prime: Prime::Two,
        vars: 1,
        order: Order::Grevlex,
    }
}

#[tactic(auto, using(fm_mono::proofs::Bounds::within_more))]
fn mono(exponent: u32) -> Mono
    ensures { length result ≡ 1 }
{
    Mono::of(&[exponent.min(EXPONENT_BOUND)])
}

// The one entry, this power of the variable.
fn power(alloc: Global, ring: Ring, exponent: u32) -> Result<Vec<Poly>, AllocError>
    requires { ring.vars ≡ 1 }
    ensures over { IfOk result (λ out. AreOver ring out.items) }
    ensures one { IfOk result (λ out. length out.items ≡ 1) }
{
    let term = Term {
        mono: mono(exponent),
        coeff: ring.prime.element(1),
    };
    let f = Poly::from_terms(alloc, ring, &[term])?;
    let mut entries = Vec::new(alloc);
    entries.push(f)?;
    Ok(entries)
}

fn matrix(alloc: Global, ring: Ring, exponent: u32) -> Result<Matrix, AllocError>
    requires { ring.vars ≡ 1 }
    ensures ring { IfOk result (λ m. m.ring ≡ ring) }
    ensures rows { IfOk result (λ m. m.rows ≡ 1) }
    ensures count { IfOk result (λ m. length m.columns ≡ 1) }
{
    let entries = power(alloc, ring, exponent)?;
    let mut columns = Vec::new(alloc);
    columns.push(Column::new(entries))?;
    Ok(Matrix::new(ring, 1, columns))
}

fn graph(alloc: Global, ring: Ring, exponent: u32) -> Result<Graph, Stop>
    requires { ring.vars ≡ 1 }
    ensures ring { IfOk result (λ g. g.matrix.ring ≡ ring) }
    ensures rows { IfOk result (λ g. g.matrix.rows ≡ 1) }
{
    let m = matrix(alloc, ring, exponent)?;
    graph_of(alloc, m, &mut Work::new(99))
}

// The stable index for these powers as the relations and the morphism, and how many graphs there are up to it.
fn stable(alloc: Global, relations: u32, u: u32, units: u32) -> Result<(usize, usize), Stop> {
    let ring = line();
    let relations = graph(alloc, ring, relations)?;
    let u = matrix(alloc, ring, u)?;
    match kernel_chain(alloc, Side::Alone, &u, &relations, &mut Work::new(units)) {
        Ok(chain) => {
            let graphs = chain.graphs(alloc, &relations)?;
            Ok((chain.stable(), graphs.len()))
        }
        Err(stopped) => Err(stopped.stop),
    }
}

#[test]
fn chains(rt: HostRuntime) -> Result<(), Fail> {
    let alloc = rt.alloc();
    assert!(rt; matches!(stable(alloc, 1, 1, 99), Ok((0, 1))));
    assert!(rt; matches!(stable(alloc, 2, 3, 99), Ok((2, 3))));
    assert!(rt; matches!(stable(alloc, 2, 3, 1), Err(Stop::Budget)));
    Ok(())
}

// After how many moves the power is killed, for one member, or none.
fn killed(alloc: Global, member: u32, e: u8, w: u32) -> Result<Option<u64>, Stop> {
    let ring = line();
    let member = graph(alloc, ring, member)?;
    let w = power(alloc, ring, w)?;
    match kill_stage(alloc, ring, e, &w, &[&member], &mut Work::new(99)) {
        Ok(Killed::At { moves, .. }) => Ok(Some(moves)),
        Ok(Killed::Never { .. }) => Ok(None),
        Err(stopped) => Err(stopped.stop),
    }
}

#[test]
fn stages(rt: HostRuntime) -> Result<(), Fail> {
    let alloc = rt.alloc();
    assert!(rt; matches!(killed(alloc, 2, 0, 2), Ok(Some(0))));
    assert!(rt; matches!(killed(alloc, 2, 0, 1), Ok(None)));
    assert!(rt; matches!(killed(alloc, 2, 1, 3), Ok(None)));
    assert!(rt; matches!(killed(alloc, 2, 1, 4), Ok(Some(0))));
    Ok(())
}

// How many coordinates the power has, through the twist by 2 of another.
fn coordinate_count(alloc: Global, cocycles: u32, z: u32) -> Result<usize, Stop> {
    let ring = line();
    let cocycles = graph(alloc, ring, cocycles)?;
    let z = power(alloc, ring, z)?;
    match coordinates(alloc, 1, &z, &cocycles, &mut Work::new(99)) {
        Ok(w) => Ok(w.len()),
        Err(stopped) => Err(stopped.stop),
    }
}

#[test]
fn coordinates_of_cocycles(rt: HostRuntime) -> Result<(), Fail> {
    let alloc = rt.alloc();
    assert!(rt; matches!(coordinate_count(alloc, 1, 3), Ok(1)));
    assert!(rt; matches!(coordinate_count(alloc, 1, 1), Ok(0)));
    Ok(())
}
