// Solids, their cut and how they fit: the types that definitions and code share. The definitions stand in specs/, what is proved of them in
// proofs/Theorems.antt; the tables that code reads stand in the room places.
#![tactic(auto)]

// A local corner number, from 1; 0 is none, as the page has it: the definition `at` gives 0 there.
#[derive(Clone, Copy, Debug, PartialEq, Eq, PartialOrd, Ord)]
pub struct Place(pub u8);

// A global vertex number, from 1.
#[derive(Clone, Copy, Debug, PartialEq, Eq, PartialOrd, Ord)]
pub struct Vertex(pub u16);

// The page's four solids.
#[derive(Clone, Copy, Debug, PartialEq, Eq)]
pub enum Solid {
    Tetrahedron,
    Pyramid,
    Prism,
    Hexahedron,
}
