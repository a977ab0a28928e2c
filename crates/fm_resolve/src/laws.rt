// The law of resolutions.
ghost use Rattle.std.specs.Prelude.{length, ◌≡◌};
ghost use Rattle.fm_limit.specs.ResolvedIdeal.{IsResolutionOf};
ghost use Rattle.fm_plan.specs.Results.{differentials_of};
ghost use Rattle.fm_poly.specs.declared.ring.Ring.{Ring};
ghost use Rattle.fm_resolve.specs.Resolutions.{IsResolution, ResolutionValue, generators_of, resolution_value};

/// A resolution resolves the ideal of the entries of d_1, through the degree that its number of matrices tells.
pub fn a_resolution_resolves_the_entries_of_its_row()
    ensures { (r : Ring) (x : ResolutionValue) → IsResolution x → x.first.matrix.ring ≡ r
        → IsResolutionOf r.prime r.vars (generators_of r x) (length x.next) (differentials_of r (resolution_value r x)) }
{}
