// The limits of a mesh's header and the columns of its lines have their names here; whatever follows from them is an
// expression over these names.

// The most that a header may count.
pub const MOST_NODES: usize = 100;

pub const MOST_ELEMENTS: usize = 100;

pub const MOST_SOILS: usize = 16;

pub const MOST_EDGES: usize = 60;

pub const MOST_SIDES: usize = 108;

// "jumps 0 to 60" (document 02, N6).
pub const MOST_JUMPS: usize = 60;

// "Pairs are at most 100" (document 02, N2).
pub const MOST_PAIRS: usize = 100;

// "Such a mesh has at most 40 nodes and 40 node-and-soil pairs" (document 02, N9): with the most sides.
pub const NODES_FOR_108: usize = 40;

pub const PAIRS_FOR_108: usize = 40;

// The columns of each line: of the header, of a soil, of a node, of an element, of an edge, of a jump.
pub const MESH_HEADER: usize = 6;

pub const SOIL_COLUMNS: usize = 10;

pub const NODE_COLUMNS: usize = 2;

pub const ELEMENT_COLUMNS: usize = 5;

pub const EDGE_COLUMNS: usize = 7;

pub const JUMP_COLUMNS: usize = 4;

// The most numbers that a mesh has.
pub const MESH_NUMBERS: usize = MESH_HEADER
    + MOST_SOILS * SOIL_COLUMNS
    + MOST_NODES * NODE_COLUMNS
    + MOST_ELEMENTS * ELEMENT_COLUMNS
    + MOST_EDGES * EDGE_COLUMNS
    + MOST_JUMPS * JUMP_COLUMNS;

// "1 to 32 lines", "bottom, top .., soil" (document 02, N8): the lines of a borehole table and their columns.
pub const MOST_LAYERS: usize = 32;

pub const LAYER_COLUMNS: usize = 3;

// The equality rows of an element, of an edge, and of a jump.
pub const ELEMENT_ROWS: usize = 2;

pub const EDGE_ROWS: usize = 4;

pub const JUMP_ROWS: usize = 4;
