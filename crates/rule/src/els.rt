// Lists of elements, as they stand in the record: two bytes for each.
ghost use Rattle.std.specs.Prelude.{◌≡◌, ◌≤◌, ◌<◌, length, get_or, take, drop};
ghost use Rattle.definition.specs.Base.{less};
ghost use Rattle.rule.specs.Els.{els_in};

use crate::ids::ElId;
use records::fields::num;

#[derive(Clone, Copy)]
pub struct Els<'a> {
    pub bytes: &'a [u8],
}

impl<'a> Els<'a> {
    // How many there are.
    #[tactic(auto, using(laws::proofs::Numbers::length_numbers))]
    pub fn count(self) -> usize
        ensures { result ≡ length (els_in self.entry) }
    {
        self.bytes.len() >> 1
    }

    // The one at a place.
    #[tactic(auto, using(crate::proofs::ElsLaws::el_is, laws::proofs::Numbers::length_numbers))]
    pub fn at(self, i: usize) -> ElId
        requires { i < length (els_in self) }
        ensures { result.0 ≡ get_or (els_in self.entry) i 0 }
    {
        ElId(num(self.bytes, 2 * i))
    }

    // Those behind the first n.
    #[tactic(auto, using(crate::proofs::ElsLaws::els_behind, laws::proofs::Numbers::length_numbers))]
    pub fn behind(self, n: usize) -> Els<'a>
        requires { n ≤ length (els_in self) }
        ensures { els_in result ≡ drop n (els_in self.entry) }
    {
        let (_, bytes) = self.bytes.split_at(2 * n);
        Els { bytes }
    }

    // The first n.
    #[tactic(auto, using(crate::proofs::ElsLaws::els_first, laws::proofs::Numbers::length_numbers))]
    pub fn first(self, n: usize) -> Els<'a>
        requires { n ≤ length (els_in self) }
        ensures { els_in result ≡ take n (els_in self.entry) }
    {
        let (bytes, _) = self.bytes.split_at(2 * n);
        Els { bytes }
    }
}
