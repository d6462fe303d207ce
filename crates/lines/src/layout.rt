// The lines of a mesh, of a claim and of a borehole table, as one table: the limits of the headers, then groups of
// lines, and of each its kind, how many lines it has and how many columns each.
// Whatever goes through a file's lines goes through this table: the reader, the checks of lines, the bytes of a claim.
ghost use Rattle.std.specs.Prelude.{◌≡◌, cond, pos};
ghost use Rattle.integer.specs.Tests.{eq_z};
ghost use Rattle.scope.specs.Columns.{at};
ghost use Rattle.scope.specs.Mesh.{strength_multiplier, kind_with};
ghost use Rattle.scope.specs.Claim.{if_there};
ghost use Rattle.lines.specs.Table.{Known, Tabled, mesh_body, claim_body, soil_most};

use mesh::limits::{
    EDGE_COLUMNS, EDGE_ROWS, ELEMENT_COLUMNS, ELEMENT_ROWS, JUMP_COLUMNS, JUMP_ROWS, LAYER_COLUMNS,
    MESH_HEADER, MOST_EDGES, MOST_ELEMENTS, MOST_JUMPS, MOST_NODES, MOST_SIDES, MOST_SOILS,
    NODE_COLUMNS, NODES_FOR_108, SOIL_COLUMNS,
};
use mesh::pairs::ClaimSizes;
use mesh::sizes::Sizes;
use scope::Reason;

// The groups of lines after a header: in a mesh soils, nodes, elements, edges, jumps; in a claim stresses, and
// multipliers of elements, of edges, of jumps and of node-and-soil pairs.
pub const GROUPS: usize = 5;

// The columns of a claim's header, and of a node's stresses.
pub const CLAIM_HEADER: usize = 4;

pub const STRESS_COLUMNS: usize = 3;

// The limits of the counts of a mesh's header, which stand before its sides and its jumps.
pub const COUNTS: usize = MESH_HEADER - 2;

pub const JUMPS_AT: usize = MESH_HEADER - 1;

pub const MESH_LEAST: [i64; COUNTS] = [4, 1, 1, 0];

pub const MESH_MOST: [i64; COUNTS] = [
    MOST_NODES as i64,
    MOST_ELEMENTS as i64,
    MOST_SOILS as i64,
    MOST_EDGES as i64,
];

// The most sides, and the most nodes with so many, as numbers of the header.
pub const SIDES_MOST: i64 = MOST_SIDES as i64;

pub const NODES_MOST: i64 = NODES_FOR_108 as i64;

// The most jumps, as a number of the header.
pub const JUMPS_MOST: i64 = MOST_JUMPS as i64;

// The limits of a claim's header.
pub const CLAIM_LEAST: [i64; CLAIM_HEADER] = [0, 0, 0, -100000000];

pub const CLAIM_MOST: [i64; CLAIM_HEADER] = [1, 1, 100000, 100000000];

// The largest multiplier of a strength row, and "its strength multipliers are at most 300" (document 02, N9), with the
// most sides.
const STRENGTH_MOST: i64 = 10000;

const STRENGTH_FOR_108: i64 = 300;

// The least of a soil's columns.
pub const SOIL_LEAST: [i64; SOIL_COLUMNS] = [0, 1, 1, 0, -1000, -1000, -1000, -1000, 0, 0];

// The largest kind of a soil, and "Kind 1 with 108 sides gets 2" (document 02, N14).
const KIND_MOST: i64 = 1;

const KIND_FOR_108: i64 = 0;

// The nodes that an edge names, and the limits of its columns after them.
pub const EDGE_ENDS: usize = 2;

pub const EDGE_LIMITS: usize = EDGE_COLUMNS - EDGE_ENDS;

pub const EDGE_LEAST: [i64; EDGE_LIMITS] = [1, -10000, -10000, -10000, -10000];

pub const EDGE_MOST: [i64; EDGE_LIMITS] = [3, 10000, 10000, 10000, 10000];

// The limits of a layer's columns before its soil.
pub const LAYER_LIMITS: usize = LAYER_COLUMNS - 1;

pub const LAYER_LEAST: [i64; LAYER_LIMITS] = [-1000, -1000];

pub const LAYER_MOST: [i64; LAYER_LIMITS] = [2000, 2000];

// "its lines are numbered from 1,001" (document 02, N8).
pub const FIRST_LAYER: usize = 1001;

// The numbers that a file's refusals have: of a line that lacks a number, or of a number that no line takes, and of a
// number outside its limits.
#[derive(Clone, Copy)]
pub struct FileNumbers {
    pub form: u32,
    pub limit: u32,
}

// Those of a mesh and its table: 1 and 2.
pub const MESH_FILE: FileNumbers = FileNumbers {
    form: Reason::MeshForm as u32,
    limit: Reason::MeshLimit as u32,
};

// Those of a claim: 11 and 12.
pub const CLAIM_FILE: FileNumbers = FileNumbers {
    form: Reason::ClaimForm as u32,
    limit: Reason::ClaimLimit as u32,
};

// The lines that have rules of their own: a soil its limits and a right angle, an element the names of its nodes and
// its soil, and so where there is a table but that the soil may be 0, an edge its limits and the names of its nodes, a
// jump the names of its nodes, a layer its limits and the name of its soil.
#[derive(Clone, Copy)]
pub enum Rule {
    Soil,
    Element,
    Tabled,
    Edge,
    Jump,
    Layer,
}

// What is asked of a line: rules of its own, or that each of its numbers is from lo to hi.
#[derive(Clone, Copy)]
pub enum Kind {
    Ruled(Rule),
    Even { lo: i64, hi: i64 },
}

// Lines of one kind.
#[derive(Clone, Copy)]
pub struct Group {
    pub kind: Kind,
    pub lines: usize,
    pub columns: usize,
}

// The groups of lines after a header, in their order: each has few lines, and few columns.
#[derive(Clone, Copy)]
pub struct Groups {
    pub of: [Group; GROUPS],
    pub ghost known: { Known of },
}

// Lines with rules of their own.
fn ruled(rule: Rule, lines: usize, columns: usize) -> Group
    ensures { result ≡ record { kind = Kind.Ruled rule; lines = lines; columns = columns } }
{
    Group {
        kind: Kind::Ruled(rule),
        lines,
        columns,
    }
}

// Lines whose numbers are from lo to hi.
fn even(lo: i64, hi: i64, lines: usize, columns: usize) -> Group
    ensures { result ≡ record { kind = Kind.Even lo hi; lines = lines; columns = columns } }
{
    Group {
        kind: Kind::Even { lo, hi },
        lines,
        columns,
    }
}

// The lines of elements, where there is a table and where there is none.
fn element_rule(tabled: bool) -> Rule
    ensures { result ≡ cond tabled Rule.Tabled Rule.Element }
{
    if tabled { Rule::Tabled } else { Rule::Element }
}

// The largest kind of a soil, of a mesh with so many sides.
#[tactic(auto, unfolding(scope::specs::Mesh::kind_with))]
fn kind_most(sides: usize) -> i64
    ensures { result ≡ pos (kind_with sides) }
{
    if sides == MOST_SIDES {
        KIND_FOR_108
    } else {
        KIND_MOST
    }
}

// The most of a soil's columns, of a mesh with so many sides.
pub fn soil_most(sides: usize) -> [i64; SOIL_COLUMNS]
    ensures { result ≡ soil_most sides }
{
    [
        1000,
        1000,
        1000,
        10000,
        1000,
        1000,
        1000,
        1000,
        kind_most(sides),
        10000,
    ]
}

// The groups of a mesh with these sizes, that has a table or has none.
pub fn mesh_groups(s: Sizes, tabled: bool) -> Groups
    ensures { Tabled s result.of (mesh_body s tabled) }
{
    let of = [
        ruled(Rule::Soil, s.soils, SOIL_COLUMNS),
        even(0, 1000, s.nodes, NODE_COLUMNS),
        ruled(element_rule(tabled), s.elements, ELEMENT_COLUMNS),
        ruled(Rule::Edge, s.edges, EDGE_COLUMNS),
        ruled(Rule::Jump, s.jumps, JUMP_COLUMNS),
    ];
    Groups { of }
}

// Whether number k of a claim's header says that its part is there.
pub fn has_part(c: &[i64], k: usize) -> bool
    ensures { result ≡ eq_z (at c.now k) (pos 1) }
{
    c.get(k) == Some(&1)
}

// k where the part is there.
#[tactic(auto, unfolding(scope::specs::Claim::if_there))]
pub fn if_there(there: bool, k: usize) -> usize
    ensures { result ≡ if_there there k }
{
    if there { k } else { 0 }
}

// The largest multiplier of a strength row, of a mesh with so many sides.
#[tactic(auto, unfolding(scope::specs::Mesh::strength_multiplier))]
fn strength_most(sides: usize) -> i64
    ensures { result ≡ pos (strength_multiplier sides) }
{
    if sides == MOST_SIDES {
        STRENGTH_FOR_108
    } else {
        STRENGTH_MOST
    }
}

// The groups of a claim on a mesh with these sizes and so many pairs, with a field and with multipliers or without.
pub fn claim_groups(s: ClaimSizes, field: bool, multipliers: bool) -> Groups
    ensures { Tabled s.sizes result.of (claim_body s.sizes s.pairs field multipliers) }
{
    let of = [
        even(
            -1000000000,
            1000000000,
            if_there(field, s.sizes.nodes),
            STRESS_COLUMNS,
        ),
        even(
            -100000,
            100000,
            if_there(multipliers, s.sizes.elements),
            ELEMENT_ROWS,
        ),
        even(
            -100000,
            100000,
            if_there(multipliers, s.sizes.edges),
            EDGE_ROWS,
        ),
        even(
            -100000,
            100000,
            if_there(multipliers, s.sizes.jumps),
            JUMP_ROWS,
        ),
        even(
            0,
            strength_most(s.sizes.sides),
            if_there(multipliers, s.pairs),
            s.sizes.sides,
        ),
    ];
    Groups { of }
}
