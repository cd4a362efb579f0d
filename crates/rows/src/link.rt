// A map between two structures by themselves, whatever signature their rule was read by.
ghost use Rattle.rule.specs.Map.{pairs_from};
ghost use Rattle.rows.specs.Links.{LinkBy, Linked};

use flags::Mask;
use rule::map::Map;
use rule::views::Body;
use std::marker::Model;

// The two structures, the map's pairs, and a flag for each element of the target that is the image of several keys. In contracts it has the
// definition's structures and pairs, with the flags.
#[derive(Drop)]
pub struct Link<'a> {
    pub source: Body<'a>,
    pub target: Body<'a>,
    pub map: Map<'a>,
    pub merged: Mask,
}

impl<'a> Model for Link<'a> {
    ghost Value = { LinkBy };

    ghost view = { λ x. record { source = x.source; target = x.target; pairs = pairs_from x.map; merged = x.merged } };

    ghost invariant = { λ x. Linked (record { source = x.source; target = x.target; pairs = pairs_from x.map; merged = x.merged }) };
}

impl<'a> Link<'a> {
    ghost use Rattle.std.specs.Prelude.{◌≡◌};
    ghost use Rattle.definition.specs.Names.{numbers_of};
    ghost use Rattle.rule.specs.MapFields.{KeysIn, ImagesIn};
    ghost use Rattle.rows.specs.Kernel.{Merged};
    ghost use Rattle.rows.specs.Links.{BothAlike};

    // A map, by its structures, its pairs and the flags.
    pub fn new(source: Body<'a>, target: Body<'a>, map: Map<'a>, merged: Mask) -> Link<'a>
        requires keys { KeysIn (numbers_of source) (pairs_from map) }
        requires images { ImagesIn target (pairs_from map) }
        requires merged { Merged merged target (pairs_from map) }
        requires alike { BothAlike source target }
        ensures { result ≡ record { source = source.entry; target = target.entry; pairs = pairs_from map.entry; merged = merged } }
    {
        Link {
            source,
            target,
            map,
            merged,
        }
    }

    // The structure that it comes from.
    pub fn source(&self) -> &Body<'a>
        ensures value { result.now ≡ self.now.source }
        ensures linked { Linked self.now }
    {
        &self.source
    }

    // The structure that it goes to.
    pub fn target(&self) -> &Body<'a>
        ensures value { result.now ≡ self.now.target }
        ensures linked { Linked self.now }
    {
        &self.target
    }

    // Its pairs.
    pub fn map(&self) -> &Map<'a>
        ensures value { pairs_from result.now ≡ self.now.pairs }
        ensures linked { Linked self.now }
    {
        &self.map
    }

    // A flag for each element of the target that is the image of several keys.
    pub fn merged(&self) -> Mask
        ensures value { result ≡ self.now.merged }
        ensures linked { Linked self.now }
    {
        self.merged
    }
}
