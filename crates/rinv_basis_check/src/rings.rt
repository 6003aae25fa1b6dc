//! The rings of a relation.

ghost use Rattle.std.specs.Prelude.{◌≡◌, ◌<◌, ◌+◌, ◌^◌};

use rinv_form::Sizes;
use rinv_poly::PolyRing;
use rinv_ring::Gf;

/// The ring of the space's variables, and that of the group's, Z and the space's.
#[derive(Drop)]
pub(crate) struct RelationRings {
    pub(crate) group: u32,
    pub(crate) space: PolyRing<Gf>,
    pub(crate) graph: PolyRing<Gf>,
    ghost field: { space.coeffs ≡ graph.coeffs },
    ghost vars: { graph.vars ≡ group + space.vars + space.vars },
    ghost few: { group + space.vars + space.vars < 2 ^ 32 },
}

/// The rings of a certificate with these sizes.
pub(crate) fn relation_rings(sizes: &Sizes) -> RelationRings
    requires { sizes.now.graph ≡ sizes.now.group + sizes.now.space + sizes.now.space }
    ensures group { result.group ≡ sizes.now.group }
    ensures field { result.graph.coeffs ≡ sizes.now.field }
    ensures space { result.space.vars ≡ sizes.now.space }
{
    RelationRings {
        group: sizes.group,
        space: PolyRing::new(sizes.field, sizes.space),
        graph: PolyRing::new(sizes.field, sizes.graph),
    }
}
