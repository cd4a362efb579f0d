// The bases of the variables' names.
ghost use Rattle.std.specs.Prelude.{◌≡◌, ◌≤◌, length};
ghost use Rattle.definition.specs.Base.{first_of};
ghost use Rattle.definition.specs.Limits.{name_bytes};
ghost use Rattle.definition.specs.Names.{base_name, name_for};
ghost use Rattle.rule.specs.Name.{names_left};
ghost use Rattle.naming.specs.Bases.{name_is, base_in, Short};

use rule::ids::ElId;
use rule::name::{NameKind, Names};
use rule::views::Structure;

// The first V name of an element, else its first I name, else `el`.
#[tactic(auto, unfolding(definition::specs::Names::base_name))]
pub fn el_base_name<'a>(st: &Structure<'a>, e: ElId) -> &'a [u8]
    ensures value { result.now ≡ base_name st.now.structure e.0 }
    ensures short { length result.now ≤ name_bytes }
{
    // Looking into the structure tells the proof that its names are short.
    let _ = &st.sig;
    let variables = st.names(NameKind::Variable);
    let identifiers = st.names(NameKind::Identifier);
    listed_base_name(variables, identifiers, e)
}

// The same, by the names of both kinds. It is as short as they are.
pub fn listed_base_name<'a>(variables: Names<'a>, identifiers: Names<'a>, e: ElId) -> &'a [u8]
    ensures value { result.now ≡ base_in (names_left variables.entry) (names_left identifiers.entry) e.0 }
    ensures short { Short (names_left variables.entry) → Short (names_left identifiers.entry) → length result.now ≤ name_bytes }
{
    if let Some(name) = first_name(variables, e) {
        return name;
    }
    first_name(identifiers, e).unwrap_or(b"el")
}

// The first name of an element among some.
#[tactic(auto, unfolding(definition::specs::Base::first_of))]
fn first_name<'a>(names: Names<'a>, e: ElId) -> Option<&'a [u8]>
    ensures { name_is result ≡ first_of (name_for e.0) (names_left names.entry) }
{
    for named in names {
        if named.element == e {
            return Some(named.name);
        }
    }
    None
}
