// What the lines of a soil, an edge and a jump say.
ghost use Rattle.integer.specs.Bounds.{Within};

// The dead force of a soil, or its live force.
#[derive(Clone, Copy)]
pub struct Force {
    pub x: i64,
    pub y: i64,
    pub ghost x_fits: { Within 10000 x },
    pub ghost y_fits: { Within 10000 y },
}

// "a kind (0 as before, 1 by direction)" (document 02, N14).
#[derive(Clone, Copy)]
pub enum SoilKind {
    AsBefore,
    ByDirection,
}

// A soil: p, q and h ("The friction angle has sine p/h and cosine q/h"), its cohesion, its dead and its live force, and
// its cohesion across the beds, which a soil by direction has (document 02, N14).
#[derive(Clone, Copy)]
pub struct Soil {
    pub p: i64,
    pub q: i64,
    pub h: i64,
    pub cohesion: i64,
    pub dead: Force,
    pub live: Force,
    pub across: i64,
    pub ghost p_fits: { Within 10000 p },
    pub ghost q_fits: { Within 10000 q },
    pub ghost h_fits: { Within 10000 h },
    pub ghost cohesion_fits: { Within 10000 cohesion },
    pub ghost across_fits: { Within 10000 across },
}

// An edge: its nodes, "what is fixed (1 normal, 2 shear, 3 both)", and its dead and live numbers.
#[derive(Clone, Copy)]
pub struct Edge {
    pub from: usize,
    pub to: usize,
    pub fixed: i64,
    pub dead_normal: i64,
    pub dead_shear: i64,
    pub live_normal: i64,
    pub live_shear: i64,
    pub ghost fixed_fits: { Within 10000 fixed },
    pub ghost dead_normal_fits: { Within 10000 dead_normal },
    pub ghost dead_shear_fits: { Within 10000 dead_shear },
    pub ghost live_normal_fits: { Within 10000 live_normal },
    pub ghost live_shear_fits: { Within 10000 live_shear },
}

// A jump: "from and to on one side, then the two facing nodes in the same order" (document 02, N6).
#[derive(Clone, Copy)]
pub struct Jump {
    pub from: usize,
    pub to: usize,
    pub facing_from: usize,
    pub facing_to: usize,
}
