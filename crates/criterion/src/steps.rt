// A side of a polygon by what its strength row reads.
ghost use Rattle.integer.specs.Bounds.{Is, Within};
ghost use Rattle.scope.specs.Bounds.{most_step, most_cross};

// Of the side from (a, b) to (c, d): c - a, d - b, and ad - bc, in 32 bits: a polygon's room is cleared at each check.
#[derive(Clone, Copy)]
pub struct Step {
    pub run: i32,
    pub rise: i32,
    pub cross: i32,
    pub ghost run_fits: { Within most_step run },
    pub ghost rise_fits: { Within most_step rise },
    pub ghost cross_fits: { Within most_cross cross },
}

impl Step {
    // c - a
    pub fn run(&self) -> i64
        ensures { Is result self.now.run most_step }
    {
        i64::from(self.run)
    }

    // d - b
    pub fn rise(&self) -> i64
        ensures { Is result self.now.rise most_step }
    {
        i64::from(self.rise)
    }

    // ad - bc
    pub fn cross(&self) -> i64
        ensures { Is result self.now.cross most_cross }
    {
        i64::from(self.cross)
    }
}

// What stands past a polygon's last side.
impl Default for Step {
    fn default() -> Step {
        Step {
            run: 0,
            rise: 0,
            cross: 0,
        }
    }
}
