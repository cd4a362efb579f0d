// Maps: pairs of a key, which is an element of the source, and its image in the target.
ghost use Rattle.std.specs.Prelude.{◌≡◌, ◌<◌, length, get_or};
ghost use Rattle.definition.specs.Rows.{image_of};
ghost use Rattle.rule.specs.Pairs.{pairs_in_bytes, FewAscending, no_pair, image_is};

use crate::ids::ElId;
use crate::search::search;
use records::fields::num;

// A map of an accepted rule: its pairs, two bytes for a key and two for its image; they are at most as many as a structure has elements, and
// their keys ascend. In contracts `pairs_from` is the list of its pairs.
#[derive(Clone, Copy)]
pub struct Map<'a> {
    pub pairs: &'a [u8],
    pub ghost sound: { FewAscending (pairs_in_bytes pairs.now) },
}

impl<'a> Map<'a> {
    ghost use Rattle.rule.specs.Map.{pairs_from};

    // How many pairs it has.
    pub fn count(&self) -> usize
        ensures count_value { result ≡ length (pairs_from self.now) }
        ensures few { FewAscending (pairs_from self.now) }
    {
        self.pairs.len() >> 2
    }

    // The key of a pair.
    pub fn key(&self, p: usize) -> ElId
        requires { p < length (pairs_from self.now) }
        ensures { result.0 ≡ (get_or (pairs_from self.now) p no_pair).key }
    {
        ElId(num(self.pairs, 4 * p))
    }

    // Its image.
    pub fn image(&self, p: usize) -> ElId
        requires { p < length (pairs_from self.now) }
        ensures { result.0 ≡ (get_or (pairs_from self.now) p no_pair).image }
    {
        ElId(num(self.pairs, 4 * p + 2))
    }

    // The image of an element of the source.
    pub fn image_of(&self, e: ElId) -> Option<ElId>
        ensures { image_is result ≡ image_of (pairs_from self.now) e.0 }
    {
        let p = search(self.count(), e.0, |p| self.key(p).0)?;
        Some(self.image(p))
    }
}
