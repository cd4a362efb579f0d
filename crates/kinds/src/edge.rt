// A map from a reached structure to one that is not, with the variables of both, whatever the signature of their rule.
ghost use Rattle.std.specs.Prelude.{Bool, ◌≡◌, ℕ, length, take};
ghost use Rattle.definition.specs.Base.{each};
ghost use Rattle.definition.specs.Names.{numbers_of};

use crate::elements::{New, free_among, new_among};
use flags::{Mask, PLACES, none_set};
use naming::variables::images_in;
use rows::kernel::{kernel_clash, key_vars_among};
use rows::link::Link;
use rule::ids::FIELDS;
use rule::views::Body;
use std::marker::Model;

// The map, the rows of the variables of its structures, the target's numbered from `first` on, and the types of the variables given out
// before. In contracts it is the definition's two sides with the map's pairs and the types; the source's variables are among those given
// out, and the elements of the target with a variable below `first` are the images.
#[derive(Drop)]
pub struct Edge<'a> {
    pub link: Link<'a>,
    pub sourcevars: &'a [u16; FIELDS],
    pub targetvars: &'a [u16; FIELDS],
    pub first: u16,
    pub types: &'a [u8],
}

impl<'a> Model for Edge<'a> {
    ghost use Rattle.std.specs.Prelude.{length};
    ghost use Rattle.kinds.specs.Edges.{EdgeBy, edge_by, Reached};

    ghost Value = { EdgeBy };

    ghost view = { λ x. edge_by x.link x.sourcevars.now x.targetvars.now x.types.now };

    ghost invariant = { λ x. Reached x.link x.sourcevars.now x.targetvars.now x.first (length x.types.now) };
}

impl<'a> Edge<'a> {
    ghost use Rattle.std.specs.Prelude.{List, length};
    ghost use Rattle.definition.specs.Group.{Variable};
    ghost use Rattle.definition.specs.Kinds.{kernel_clashes};
    ghost use Rattle.definition.specs.Rows.{in_image};
    ghost use Rattle.rule.specs.Views.{WellFormed};
    ghost use Rattle.rows.specs.Kernel.{TypesOf};
    ghost use Rattle.rows.specs.Links.{LinkBy};
    ghost use Rattle.kinds.specs.Elements.{FreeOf, News};
    ghost use Rattle.kinds.specs.Edges.{Spans, edge_by, Reached};

    // An edge, by its parts.
    pub fn new(
        link: Link<'a>,
        sourcevars: &'a [u16; FIELDS],
        targetvars: &'a [u16; FIELDS],
        first: u16,
        types: &'a [u8],
    ) -> Edge<'a>
        requires { Reached link sourcevars.now targetvars.now first (length types.now) }
        ensures { result ≡ edge_by link.entry sourcevars.now targetvars.now types.now }
    {
        Edge {
            link,
            sourcevars,
            targetvars,
            first,
            types,
        }
    }

    // The map.
    pub fn link(&self) -> &Link<'a>
        ensures { Spans result.now self.now }
    {
        &self.link
    }

    // The structure that it goes to.
    pub fn target(&self) -> &Body<'a>
        ensures { result.now ≡ self.now.target.structure }
    {
        self.link.target()
    }

    // Do two variables of a kernel pair differ in type? Most maps have no kernel pairs: no image of several keys is flagged, and no
    // variable is looked up.
    pub fn clashes(&self) -> bool
        ensures value { (table : List Variable) → TypesOf table self.now.types
            → result ≡ kernel_clashes table self.now.source self.now.target self.now.pairs }
        ensures formed { WellFormed self.now.source.structure }
    {
        let source = self.link.source().elements();
        if none_set(self.link.merged()) {
            return false;
        }
        let m = self.link.map();
        let vars = key_vars_among(&source, self.sourcevars, m);
        kernel_clash(m, &vars, self.types)
    }

    // Which elements of the target are new.
    pub fn new_elements(&self) -> New
        ensures value { News result (in_image self.now.pairs) (numbers_of self.now.target.structure) }
        ensures formed { WellFormed self.now.target.structure }
    {
        new_among(&self.link.target().elements(), self.targetvars, self.first)
    }

    // Those that are new and have no mark.
    pub fn free_els(&self, marks: &[bool; PLACES]) -> Mask
        ensures { (marked : ℕ → Bool)
            → take (length self.now.target.structure.elements) marks.now ≡ each marked (numbers_of self.now.target.structure)
            → FreeOf result (in_image self.now.pairs) marked (numbers_of self.now.target.structure) }
    {
        let els = self.link.target().elements();
        free_among(&els, self.targetvars, self.first, marks)
    }

    // Those that are images.
    pub fn image_els(&self) -> [bool; FIELDS]
        ensures { take (length self.now.target.structure.elements) result
            ≡ each (in_image self.now.pairs) (numbers_of self.now.target.structure) }
    {
        let count = self.link.target().element_count();
        images_in(self.targetvars, count, self.first)
    }
}
