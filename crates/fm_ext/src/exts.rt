// Ext with its generating morphism.
ghost use Rattle.std.specs.Prelude.{◌≡◌};
ghost use Rattle.fm_ext.specs.Exts.{ExtValue, IsExt};

use fm_mat::Matrix;
use fm_poly::Ring;
use fm_resolve::Resolution;
use fm_syz::Preimage;
use std::marker::Model;

/// The module Ext^i(R/I, R) with its generating morphism, where i is the degree of the resolution of I: generators Z of the cocycles, and N
/// of all w with `Z * w` a coboundary, each with its completed graph; and U, with `flip(theta_i) * Z = Z^[p] * U`.
#[derive(Drop)]
pub struct Ext {
    resolution: Resolution,
    lift: Vec<Matrix>,
    cocycles: Preimage,
    relations: Preimage,
    u: Matrix,
}

impl Model for Ext {
    ghost use Rattle.fm_ext.specs.Exts.{ExtValue, IsExt};

    ghost Value = { ExtValue };

    ghost view = { λ y. record {
      resolution = y.resolution;
      lift = y.lift.items;
      cocycles = y.cocycles;
      relations = y.relations;
      u = y.u;
    } };

    ghost invariant = { λ y. IsExt (record {
      resolution = y.resolution;
      lift = y.lift.items;
      cocycles = y.cocycles;
      relations = y.relations;
      u = y.u;
    }) };
}

impl Ext {
    pub(crate) fn new(
        resolution: Resolution,
        lift: Vec<Matrix>,
        cocycles: Preimage,
        relations: Preimage,
        u: Matrix,
    ) -> Ext
        requires { IsExt (record { resolution = resolution; lift = lift.items; cocycles = cocycles; relations = relations; u = u }) }
        ensures { result ≡ record { resolution = resolution; lift = lift.items; cocycles = cocycles; relations = relations; u = u } }
    {
        Ext {
            resolution,
            lift,
            cocycles,
            relations,
            u,
        }
    }

    /// The matrices d_1 .. d_(i+1).
    pub fn resolution(&self) -> &Resolution
        ensures same { result.now ≡ self.now.resolution }
        ensures ext { IsExt self.now }
    {
        &self.resolution
    }

    /// The matrices theta_0 .. theta_i.
    pub fn lift(&self) -> &[Matrix]
        ensures same { result.now ≡ self.now.lift }
        ensures ext { IsExt self.now }
    {
        &self.lift
    }

    /// Z, as `found` of its generators.
    pub fn cocycles(&self) -> &Preimage
        ensures same { result.now ≡ self.now.cocycles }
        ensures ext { IsExt self.now }
    {
        &self.cocycles
    }

    /// N, as `found` of its generators.
    pub fn relations(&self) -> &Preimage
        ensures same { result.now ≡ self.now.relations }
        ensures ext { IsExt self.now }
    {
        &self.relations
    }

    /// U, the matrix of the generating morphism.
    pub fn u(&self) -> &Matrix
        ensures same { result.now ≡ self.now.u }
        ensures ext { IsExt self.now }
    {
        &self.u
    }

    pub fn ring(&self) -> Ring
        ensures { result ≡ self.now.resolution.first.matrix.ring }
    {
        self.resolution.ring()
    }
}
