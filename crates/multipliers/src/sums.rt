// What is summed over rows, each times its multiplier.
ghost use Rattle.std.specs.Prelude.{◌*◌};
ghost use Rattle.integer.specs.Bounds.{Within};
ghost use Rattle.scope.specs.Bounds.{strength_sum, pair_column};
ghost use Rattle.scope.specs.Mesh.{most_sides};

// W and m, so far.
#[derive(Clone, Copy, Default)]
pub struct Sums {
    pub w: i64,
    pub m: i64,
}

// What the multipliers of a pair's sides add up to, each times what a strength row reads of its side.
#[derive(Clone, Copy, Default)]
pub struct SideSums {
    pub run: i64,
    pub rise: i64,
    pub cross: i64,
}

// What the multipliers of a pair's planes add up to (document 02, N14). Of the two rows of the plane with the normal
// (a, b)/r: both multipliers together, by themselves and times a², ab and b²; that of pN + qT less that of pN - qT,
// times ab and a² - b².
#[derive(Clone, Copy, Default)]
pub struct PlaneSums {
    pub whole: i64,
    pub aa: i64,
    pub ab: i64,
    pub bb: i64,
    pub shear_ab: i64,
    pub shear_squares: i64,
}

// What a pair's strength rows add up to, each times its multiplier: for the columns of its node's sx, sy and t, and
// for W. They add nothing to m.
#[derive(Clone, Copy)]
pub struct PairSums {
    pub sx: i64,
    pub sy: i64,
    pub t: i64,
    pub right: i64,
    pub ghost sx_fits: { Within pair_column sx },
    pub ghost sy_fits: { Within pair_column sy },
    pub ghost t_fits: { Within pair_column t },
    pub ghost right_fits: { Within (most_sides * strength_sum) right },
}
