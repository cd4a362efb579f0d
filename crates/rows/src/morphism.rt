// A map between two structures of a rule.
ghost use Rattle.std.specs.Prelude.{◌<◌, length};
ghost use Rattle.rule.specs.Map.{pairs_from};
ghost use Rattle.rows.specs.Morphisms.{Between, morphism_of};

use crate::link::Link;
use flags::Mask;
use rule::map::Map;
use rule::views::{Rule, Structure};

// The rule, the numbers of the two structures, the map's pairs, and a flag for each element of the target that is the image of several keys.
// The keys are elements of the source, the images elements of the target. In contracts `morphism_from` has the definition's structures and
// pairs, with the signature and the flags.
#[derive(Clone, Copy)]
pub struct Morphism<'a> {
    rule: &'a Rule<'a>,
    pub source: usize,
    pub target: usize,
    pub map: Map<'a>,
    pub merged: Mask,
    ghost source_in: { source < length rule.now.rule.structures },
    ghost target_in: { target < length rule.now.rule.structures },
    ghost between: { ∥ Between (morphism_of rule.now source target (pairs_from map) merged) ∥₁ },
}

impl<'a> Morphism<'a> {
    ghost use Rattle.std.specs.Prelude.{◌≡◌};
    ghost use Rattle.definition.specs.Names.{numbers_of};
    ghost use Rattle.definition.specs.Walk.{structure_at};
    ghost use Rattle.rule.specs.MapFields.{KeysIn, ImagesIn};
    ghost use Rattle.rule.specs.Views.{Sound};
    ghost use Rattle.rows.specs.Kernel.{Merged};
    ghost use Rattle.rows.specs.Links.{link_of};
    ghost use Rattle.rows.specs.Morphism.{morphism_from};

    // A map, by the numbers of its structures, its pairs and the flags.
    pub fn new(
        rule: &'a Rule<'a>,
        source: usize,
        target: usize,
        map: Map<'a>,
        merged: Mask,
    ) -> Morphism<'a>
        requires source_in { source < length rule.now.rule.structures }
        requires target_in { target < length rule.now.rule.structures }
        requires keys { KeysIn (numbers_of (structure_at rule.now.rule source)) (pairs_from map) }
        requires images { ImagesIn (structure_at rule.now.rule target) (pairs_from map) }
        requires merged { Merged merged (structure_at rule.now.rule target) (pairs_from map) }
        ensures { morphism_from result ≡ morphism_of rule.now source target (pairs_from map.entry) merged }
    {
        Morphism {
            rule,
            source,
            target,
            map,
            merged,
        }
    }

    // The structure that it comes from.
    pub fn source(&self) -> Structure<'a>
        ensures value { result ≡ record { sig = (morphism_from self.now).sig; structure = (morphism_from self.now).source } }
        ensures sound { Sound result }
        ensures between { Between (morphism_from self.now) }
    {
        let source = self.rule.structure(self.source);
        let _ = &source.sig;
        source
    }

    // The structure that it goes to.
    pub fn target(&self) -> Structure<'a>
        ensures value { result ≡ record { sig = (morphism_from self.now).sig; structure = (morphism_from self.now).target } }
        ensures sound { Sound result }
        ensures between { Between (morphism_from self.now) }
    {
        let target = self.rule.structure(self.target);
        let _ = &target.sig;
        target
    }

    // Its pairs.
    pub fn map(&self) -> &Map<'a>
        ensures value { pairs_from result.now ≡ (morphism_from self.now).pairs }
        ensures between { Between (morphism_from self.now) }
    {
        &self.map
    }

    // A flag for each element of the target that is the image of several keys.
    pub fn merged(&self) -> Mask
        ensures value { result ≡ (morphism_from self.now).merged }
        ensures between { Between (morphism_from self.now) }
    {
        self.merged
    }

    // The map without the signature.
    pub fn link(&self) -> Link<'a>
        ensures value { result ≡ link_of (morphism_from self.now) }
        ensures source_sound { Sound (record { sig = (morphism_from self.now).sig; structure = (morphism_from self.now).source }) }
        ensures target_sound { Sound (record { sig = (morphism_from self.now).sig; structure = (morphism_from self.now).target }) }
        ensures between { Between (morphism_from self.now) }
    {
        Link::new(
            self.source().body,
            self.target().body,
            self.map,
            self.merged,
        )
    }
}
