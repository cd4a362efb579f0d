// A map from a reached structure to one that is not, with the variables of both.
ghost use Rattle.std.specs.Prelude.{Bool, ◌≡◌, ℕ, length, take};
ghost use Rattle.definition.specs.Base.{each};
ghost use Rattle.definition.specs.Names.{numbers_of};

use crate::edge::Edge;
use crate::elements::New;
use flags::{Mask, PLACES};
use rows::morphism::Morphism;
use rule::ids::FIELDS;
use rule::views::Structure;
use std::marker::Model;

// The map, the rows of the variables of its structures, the target's numbered from `first` on, and the types of the variables given out
// before. In contracts it is the definition's two sides with the map's pairs, the signature and the types; the source's variables are among
// those given out, and the elements of the target with a variable below `first` are the images.
#[derive(Drop)]
pub struct Step<'a> {
    morphism: &'a Morphism<'a>,
    sourcevars: &'a [u16; FIELDS],
    targetvars: &'a [u16; FIELDS],
    first: u16,
    types: &'a [u8],
}

impl<'a> Model for Step<'a> {
    ghost use Rattle.std.specs.Prelude.{length};
    ghost use Rattle.rows.specs.Morphism.{morphism_from};
    ghost use Rattle.kinds.specs.Steps.{StepBy, step_by, Reaches};

    ghost Value = { StepBy };

    ghost view = { λ x. step_by (morphism_from x.morphism.now) x.sourcevars.now x.targetvars.now x.types.now };

    ghost invariant = { λ x. Reaches (morphism_from x.morphism.now) x.sourcevars.now x.targetvars.now x.first (length x.types.now) };
}

impl<'a> Step<'a> {
    ghost use Rattle.std.specs.Prelude.{List, length};
    ghost use Rattle.definition.specs.Group.{Variable};
    ghost use Rattle.definition.specs.Kinds.{kernel_clashes};
    ghost use Rattle.definition.specs.Rows.{in_image};
    ghost use Rattle.rows.specs.Kernel.{TypesOf};
    ghost use Rattle.rows.specs.Morphism.{morphism_from};
    ghost use Rattle.kinds.specs.Elements.{FreeOf, News};
    ghost use Rattle.rule.specs.Views.{Sound};
    ghost use Rattle.kinds.specs.Edges.{edge_in};
    ghost use Rattle.kinds.specs.Steps.{Along, from_in, to_in, step_by, Reaches};

    // A step, by its parts.
    pub fn new(
        morphism: &'a Morphism<'a>,
        sourcevars: &'a [u16; FIELDS],
        targetvars: &'a [u16; FIELDS],
        first: u16,
        types: &'a [u8],
    ) -> Step<'a>
        requires { Reaches (morphism_from morphism.now) sourcevars.now targetvars.now first (length types.now) }
        ensures { result ≡ step_by (morphism_from morphism.now) sourcevars.now targetvars.now types.now }
    {
        Step {
            morphism,
            sourcevars,
            targetvars,
            first,
            types,
        }
    }

    // The map.
    pub fn morphism(&self) -> &'a Morphism<'a>
        ensures { Along (morphism_from result.now) self.now }
    {
        self.morphism
    }

    // The structure that it goes to.
    pub fn target(&self) -> Structure<'a>
        ensures value { result ≡ to_in self.now }
        ensures sound { Sound result }
    {
        let m = self.morphism;
        m.target()
    }

    // The step without the signature.
    pub fn edge(&self) -> Edge<'a>
        ensures value { result ≡ edge_in self.now }
        ensures source_sound { Sound (from_in self.now) }
        ensures target_sound { Sound (to_in self.now) }
    {
        let m = self.morphism;
        Edge::new(
            m.link(),
            self.sourcevars,
            self.targetvars,
            self.first,
            self.types,
        )
    }

    // Do two variables of a kernel pair differ in type?
    pub fn clashes(&self) -> bool
        ensures value { (table : List Variable) → TypesOf table self.now.types
            → result ≡ kernel_clashes table self.now.source self.now.target self.now.pairs }
        ensures sound { Sound (from_in self.now) }
    {
        self.edge().clashes()
    }

    // Which elements of the target are new.
    pub fn new_elements(&self) -> New
        ensures value { News result (in_image self.now.pairs) (numbers_of self.now.target.structure) }
        ensures sound { Sound (to_in self.now) }
    {
        self.edge().new_elements()
    }

    // Those that are new and have no mark.
    pub fn free_els(&self, marks: &[bool; PLACES]) -> Mask
        ensures { (marked : ℕ → Bool)
            → take (length self.now.target.structure.elements) marks.now ≡ each marked (numbers_of self.now.target.structure)
            → FreeOf result (in_image self.now.pairs) marked (numbers_of self.now.target.structure) }
    {
        self.edge().free_els(marks)
    }

    // Those that are images.
    pub fn image_els(&self) -> [bool; FIELDS]
        ensures { take (length self.now.target.structure.elements) result
            ≡ each (in_image self.now.pairs) (numbers_of self.now.target.structure) }
    {
        self.edge().image_els()
    }
}
