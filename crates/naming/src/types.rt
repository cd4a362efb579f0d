// The types of the variables, by their numbers. A signature has few types, so each is kept in a byte.
ghost use Rattle.std.specs.Prelude.{◌≡◌, ◌+◌, ◌≤◌, ◌<◌, length};
ghost use Rattle.std.proofs.lemmas.List.Edits.{sets};
ghost use Rattle.definition.specs.Base.{each};
ghost use Rattle.definition.specs.Group as definition;
ghost use Rattle.definition.specs.Limits.{field_limit};
ghost use Rattle.naming.specs.Variables.{bare, new_in};
ghost use Rattle.rule.specs.Structures.{ByteTypes};

use rule::element_list::ElementList;
use rule::ids::FIELDS;
use rule::views::Structure;

// The new variables of a numbered row, those from `first` on, get the types of their elements. Of the structure its elements alone are asked for.
pub fn type_listed_variables(
    types: &mut [u8],
    elements: &ElementList<'_>,
    row: &[u16; FIELDS],
    first: u16,
)
    requires byte_types { ByteTypes (bare elements.now) }
    requires room { first + field_limit ≤ length types.old }
    ensures { types.new ≡ sets types.old first (each (λ (v : definition.Variable). v.type) (new_in (bare elements.now) first row.now)) }
{
    let mut number = usize::from(first);
    for (i, &var) in row[..elements.count()].iter().enumerate() {
        if first <= var {
            types[number] = elements.element(i).ty.0 as u8;
            number += 1;
        }
    }
}

// The same, by the structure.
pub fn type_variables(types: &mut [u8], st: &Structure<'_>, row: &[u16; FIELDS], first: u16)
    requires { first + field_limit ≤ length types.old }
    ensures { types.new ≡ sets types.old first (each (λ (v : definition.Variable). v.type) (new_in st.now.structure first row.now)) }
{
    type_listed_variables(types, &st.elements(), row, first);
}
