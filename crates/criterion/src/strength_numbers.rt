// What the strength rows of a pair of a node and a soil read: of the soil, and of the node's stresses with it.
ghost use Rattle.integer.specs.Bounds.{Within};
ghost use Rattle.scope.specs.Bounds.{most_lever, twice_strength, most_spread, most_reserve};
ghost use Rattle.scope.specs.Mesh.{most_friction};

// Of a soil: r·h, p and 2qC.
#[derive(Clone, Copy)]
pub struct SoilNumbers {
    pub lever: i64,
    pub friction: i64,
    pub right: i64,
    pub ghost lever_fits: { Within most_lever lever },
    pub ghost friction_fits: { Within most_friction friction },
    pub ghost right_fits: { Within twice_strength right },
}

// Of a pair at a field: r·h, sx - sy, 2t and 2qCn - p(sx + sy).
#[derive(Clone, Copy)]
pub struct PairNumbers {
    pub lever: i64,
    pub spread: i64,
    pub twist: i64,
    pub reserve: i64,
    pub ghost lever_fits: { Within most_lever lever },
    pub ghost spread_fits: { Within most_spread spread },
    pub ghost twist_fits: { Within most_spread twist },
    pub ghost reserve_fits: { Within most_reserve reserve },
}
