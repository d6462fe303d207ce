// What the rows of a soil by direction read of it and of a node, and their slacks.
ghost use Rattle.std.specs.Prelude.{◌+◌, ◌*◌};
ghost use Rattle.integer.specs.Bounds.{Within};
ghost use Rattle.scope.specs.Bounds.{most_plane_radius, plane_square};
ghost use Rattle.scope.specs.Mesh.{most_friction, most_cohesion};
ghost use Rattle.scope.specs.Claim.{most_scale, most_stress};

// A soil by r, p, q, ch and cv - ch: "each ≤ q·n·(r²·ch + (cv-ch)·a²)".
#[derive(Clone, Copy)]
pub struct Bed {
    pub radius: i64,
    pub p: i64,
    pub q: i64,
    pub along: i64,
    pub excess: i64,
    pub ghost radius_fits: { Within most_plane_radius radius },
    pub ghost p_fits: { Within most_friction p },
    pub ghost q_fits: { Within most_friction q },
    pub ghost along_fits: { Within most_cohesion along },
    pub ghost excess_fits: { Within most_cohesion excess },
}

// The stresses of a node, and n.
#[derive(Clone, Copy)]
pub struct Stresses {
    pub sx: i64,
    pub sy: i64,
    pub t: i64,
    pub n: i64,
    pub ghost sx_fits: { Within most_stress sx },
    pub ghost sy_fits: { Within most_stress sy },
    pub ghost t_fits: { Within most_stress t },
    pub ghost n_fits: { Within most_scale n },
}

// A soil at the stresses of a node. Of the plane with the normal (a, b)/r the right side less pN is `base` and so many
// times a², b² and ab; qT is so many times ab and a² - b².
#[derive(Clone, Copy)]
pub struct PlaneNumbers {
    pub base: i64,
    pub aa: i64,
    pub bb: i64,
    pub ab: i64,
    pub shear_ab: i64,
    pub shear_squares: i64,
    pub ghost base_fits: { Within (most_friction * most_scale * (plane_square * most_cohesion)) base },
    pub ghost aa_fits: { Within (most_friction * most_scale * most_cohesion + most_friction * most_stress) aa },
    pub ghost bb_fits: { Within (most_friction * most_scale * most_cohesion + most_friction * most_stress) bb },
    pub ghost ab_fits: { Within (2 * most_friction * most_stress) ab },
    pub ghost shear_ab_fits: { Within (2 * most_friction * most_stress) shear_ab },
    pub ghost shear_squares_fits: { Within (most_friction * most_stress) shear_squares },
}

// The right side less the left of a plane's two rows: of pN + qT, and of pN - qT.
#[derive(Clone, Copy)]
pub struct Slacks {
    pub plus: i64,
    pub minus: i64,
}
