// Answers of the entries as the page's numbers, and the array that they are written to.
ghost use Rattle.std.proofs.Common.{arith};
ghost use Rattle.std.specs.Prelude.{◌≡◌, ◌+◌, ◌≤◌, ℕ, List, [], ◌∷◌, length, take};
ghost use Rattle.brine.specs.Front.{FrontAnswer};
ghost use Rattle.brine.specs.FrontLoops.{verdict_by, Tells};

use faults::Refusal;
use mesh::CutCounts;
use signs::SignCounts;
use text::ReadCounts;

// What an entry says where it accepts: its own numbers, at most four.
pub trait Values: Copy {
    // How many they are, and which.
    ghost count: { ℕ };

    ghost values: { Self → List ℕ };

    // They, then zeros.
    fn numbers(&self) -> [u64; 4]
        ensures { take count result ≡ values self.now };

    ghost few: { count ≤ 4 };
}

// Judging has no values.
impl Values for () {
    ghost count = { 0 };

    ghost values = { λ _. [] };

    ghost few = { Prim.omega arith };

    fn numbers(&self) -> [u64; 4] {
        [0; 4]
    }
}

// Writing and converting: the length of the text.
impl Values for usize {
    ghost count = { 1 };

    ghost values = { λ length. length ∷ [] };

    ghost few = { Prim.omega arith };

    fn numbers(&self) -> [u64; 4] {
        [*self as u64, 0, 0, 0]
    }
}

// Cutting: how many tetrahedra.
impl Values for CutCounts {
    ghost count = { 1 };

    ghost values = { λ counts. counts.tetrahedra ∷ [] };

    ghost few = { Prim.omega arith };

    fn numbers(&self) -> [u64; 4] {
        [self.tetrahedra as u64, 0, 0, 0]
    }
}

// Reading: two counts.
impl Values for ReadCounts {
    ghost count = { 2 };

    ghost values = { λ counts. counts.vertices ∷ counts.elements ∷ [] };

    ghost few = { Prim.omega arith };

    fn numbers(&self) -> [u64; 4] {
        [self.vertices as u64, self.elements as u64, 0, 0]
    }
}

// The sign report: four counts.
impl Values for SignCounts {
    ghost count = { 4 };

    ghost values = { λ counts. counts.positive ∷ counts.zero ∷ counts.negative ∷ counts.unsound ∷ [] };

    ghost few = { Prim.omega arith };

    fn numbers(&self) -> [u64; 4] {
        [
            self.positive as u64,
            self.zero as u64,
            self.negative as u64,
            self.unsound as u64,
        ]
    }
}

// An answer in the page's numbers, with room for the four values of the sign report; zeros stand behind the values of an entry with fewer.
#[derive(Clone, Copy)]
struct Told {
    number: u32,
    numbers: [u64; 7],
}

impl Told {
    // DONE, and the entry's own values; or a refusal: its number, its place, its second number, and zeros.
    fn of<V: Values>(said: Result<V, Refusal>) -> Told
        ensures { Tells V.count (verdict_by V.values said) result }
    {
        match said {
            Ok(values) => {
                let mut numbers = [0; 7];
                numbers[3..].copy_from_slice(&values.numbers());
                Told { number: 0, numbers }
            }
            Err(refusal) => {
                let number = u32::from(refusal.fault);
                let (place, second) = (refusal.place as u64, refusal.second as u64);
                Told {
                    number,
                    numbers: [u64::from(number), place, second, 0, 0, 0, 0],
                }
            }
        }
    }
}

// Writes what an entry says over the whole array, whatever stood there, and gives the number to return.
pub fn tell<V: Values>(said: Result<V, Refusal>, answer: &mut [u64]) -> u32
    requires { length answer.old ≡ 3 + V.count }
    ensures { FrontAnswer V.count (verdict_by V.values said) result answer.new }
{
    let told = Told::of(said);
    answer.copy_from_slice(&told.numbers[..answer.len()]);
    told.number
}
