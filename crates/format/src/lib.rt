// The text file: the types that definitions and code share, its marks, what its fields and lines are to the reader, and the reader's state.
// The definitions stand in specs/, what is proved of them in proofs/Theorems.antt; reading is the room text, writing the room writing.
#![tactic(auto)]

// The mark of a line, by the page's name; `Unknown` is any other, and that of a line too short for one.
// `Unknown` is a variant and no `None`: code and definitions share these types, and an unknown mark is one of the page's cases.
#[derive(Clone, Copy, Debug, PartialEq, Eq)]
pub enum Mark {
    Vx,
    Te,
    Py,
    Pz,
    Pr,
    Hx,
    En,
    Unknown,
}

// What a line is, by its mark; `UnknownLine` is a variant as `Unknown` is.
#[derive(Clone, Copy, Debug, PartialEq, Eq)]
pub enum Role {
    VertexLine,
    ElementLine,
    EndLine,
    UnknownLine,
}

// What the lines so far tell about the next one: how many vertices and elements they gave, and whether EN was among them.
#[derive(Clone, Copy, Debug, PartialEq, Eq)]
pub struct ReaderState {
    pub vertices: usize,
    pub elements: usize,
    pub ended: bool,
}

// How many numbers the two lent tables hold.
#[derive(Clone, Copy, Debug, PartialEq, Eq)]
pub struct Rooms {
    pub vertices: usize,
    pub elements: usize,
}
