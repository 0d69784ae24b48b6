// A tetrahedron in vertex numbers: its written form, and its key, one number that compares as the tetrahedron does.
#![tactic(auto)]

ghost use Rattle.std.specs.Prelude.{◌≡◌};
ghost use Rattle.solids.specs.Cut.{second_lowest, written};
ghost use Rattle.tets.specs.Tets.{tet_of, keyed};

use faces::{lowest_of_four, lowest_of_three};
use solids::Vertex;

// A tetrahedron in vertex numbers.
#[derive(Clone, Copy, Debug, PartialEq, Eq, PartialOrd, Ord)]
pub struct Tet(pub Vertex, pub Vertex, pub Vertex, pub Vertex);

// The base in which the four numbers of a tetrahedron are the digits of its key.
const BASE: u64 = 65536;

// The lowest of the last three second, by turning those three.
fn second_lowest(t: Tet) -> Tet
    ensures { tet_of result ≡ second_lowest (tet_of t) }
{
    let Tet(a, b, c, d) = t;
    let lowest = lowest_of_three(b, c, d);
    if b == lowest {
        t
    } else if c == lowest {
        Tet(a, c, d, b)
    } else {
        Tet(a, d, b, c)
    }
}

// The lowest number first, by an exchange of two pairs, and then the lowest of the other three.
pub fn written_form(t: Tet) -> Tet
    ensures { tet_of result ≡ written (tet_of t) }
{
    let Tet(a, b, c, d) = t;
    let lowest = lowest_of_four(a, b, c, d);
    let lowest_first = if a == lowest {
        t
    } else if b == lowest {
        Tet(b, a, d, c)
    } else if c == lowest {
        Tet(c, d, a, b)
    } else {
        Tet(d, c, b, a)
    };
    second_lowest(lowest_first)
}

// The key of a tetrahedron: its four numbers are the digits, so the key tells them.
impl From<Tet> for u64 {
    ghost from_gives = { λ t key. keyed key ≡ tet_of t };

    #[tactic(auto, using(crate::proofs::KeyLaws::keyed_packed))]
    fn from(t: Tet) -> u64 {
        let Tet(a, b, c, d) = t;
        ((u64::from(a.0) * BASE + u64::from(b.0)) * BASE + u64::from(c.0)) * BASE + u64::from(d.0)
    }
}

// The tetrahedron of a key.
impl From<u64> for Tet {
    ghost from_gives = { λ key t. tet_of t ≡ keyed key };

    #[tactic(auto, unfolding(crate::specs::Tets::keyed))]
    fn from(key: u64) -> Tet {
        let c = key / BASE;
        let b = c / BASE;
        let a = b / BASE;
        Tet(
            Vertex(a as u16),
            Vertex((b % BASE) as u16),
            Vertex((c % BASE) as u16),
            Vertex((key % BASE) as u16),
        )
    }
}
