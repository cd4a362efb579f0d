// Names as bytes: the W fields of new variables, the group's name, the rules' names.
ghost use Rattle.std.specs.Prelude.{[], ◌∷◌, ◌++◌, ◌≡◌, ◌+◌, ◌≤◌, ◌<◌, length};
ghost use Rattle.definition.specs.Base.{each};
ghost use Rattle.definition.specs.Letters.{underscore};
ghost use Rattle.definition.specs.Limits.{field_limit, name_bytes, variable_limit};
ghost use Rattle.definition.specs.Names.{decimal, new_variable};
ghost use Rattle.definition.specs.Rule as definition;
ghost use Rattle.definition.specs.Walk.{group_name};
ghost use Rattle.definition.specs.Writer.{variable_field, field_bytes, record_bytes};
ghost use Rattle.records.specs.Buffer.{Put, count_limit};
ghost use Rattle.rule.specs.Element.{element_from};
ghost use Rattle.rule.specs.Name.{names_left};
ghost use Rattle.naming.specs.Bases.{Short};
ghost use Rattle.naming.specs.Variables.{new_in, spare};

use crate::bases::listed_base_name;
use group::ids::BEFORE_NAME;
use group::write::put_variable_head;
use records::decimal::{digits, put_decimal};
use records::write::{past, put_byte, put_bytes};
use rule::element_list::ElementList;
use rule::ids::FIELDS;
use rule::name::{NameKind, Names};
use rule::views::{Element, Rule, Structure};
use signature::ids::TypeId;

// What stands before the index of an unnamed rule.
const ANONYMOUS: &[u8] = b"anonymous_rule_";

// The name of a new variable: a base followed by its number.
fn put_name(out: &mut [u8], from: usize, base: &[u8], number: u16) -> usize
    requires { from ≤ count_limit }
    ensures { Put out.old out.new (base.now ++ decimal number) from result }
{
    let at = put_bytes(out, from, base, 0, base.len());
    put_decimal(out, at, number)
}

// How many bytes such a name has.
fn name_length(base: &[u8], number: u16) -> u16
    requires { length base.now ≤ name_bytes }
    ensures { (result ≡ length (base.now ++ decimal number)) × (result < 256) }
{
    (base.len() + digits(number)) as u16
}

// A W field at the front of a buffer: letter, length, type, name.
fn put_variable(out: &mut [u8], t: TypeId, base: &[u8], number: u16) -> usize
    requires { length base.now ≤ name_bytes }
    ensures { Put out.old out.new (field_bytes (variable_field (record { type = t.0; name = base.now ++ decimal number }))) 0 result }
{
    let at = put_variable_head(out, 0, t, name_length(base, number));
    put_name(out, at, base, number)
}

// The W field of an element's new variable, written into the rest of the buffer from its own start. Where nothing of it fits it is
// only counted.
fn put_new_variable(
    out: &mut [u8],
    at: usize,
    e: Element<'_>,
    variables: Names<'_>,
    identifiers: Names<'_>,
    number: u16,
) -> usize
    requires at_le_count_limit { at ≤ count_limit }
    requires short { Short (names_left variables) × Short (names_left identifiers) }
    ensures { Put out.old out.new
        (field_bytes (variable_field (new_variable (spare [] (names_left variables.entry) (names_left identifiers.entry)) number
        (element_from e.entry)))) at result }
{
    let base = listed_base_name(variables, identifiers, e.number);
    if out.len() <= at {
        return past(at, BEFORE_NAME + usize::from(name_length(base, number)));
    }
    let len = put_variable(&mut out[at..], e.ty, base, number);
    past(at, len)
}

// The W fields of the new variables of some elements, by the names of their structure: those of its row from `next` on, which is then the number
// behind the last of them.
pub fn put_listed_variables(
    out: &mut [u8],
    from: usize,
    elements: &ElementList<'_>,
    variables: Names<'_>,
    identifiers: Names<'_>,
    row: &[u16; FIELDS],
    next: &mut u16,
) -> usize
    requires from_le_count_limit { from ≤ count_limit }
    requires field_limit_bound { next.old + field_limit ≤ variable_limit }
    requires short { Short (names_left variables) × Short (names_left identifiers) }
    ensures put { Put out.old out.new (record_bytes (each variable_field
        (new_in (spare elements.now (names_left variables.entry) (names_left identifiers.entry)) next.old row.now))) from result }
    ensures next_after { next.new ≡ next.old
        + length (new_in (spare elements.now (names_left variables.entry) (names_left identifiers.entry)) next.old row.now) }
{
    let first = *next;
    let mut at = from;
    let mut number = first;
    for (i, &var) in row[..elements.count()].iter().enumerate() {
        if first <= var {
            at = put_new_variable(out, at, elements.element(i), variables, identifiers, number);
            number += 1;
        }
    }
    *next = number;
    at
}

// The same of an accepted structure.
pub fn put_variables(
    out: &mut [u8],
    from: usize,
    st: &Structure<'_>,
    row: &[u16; FIELDS],
    next: &mut u16,
) -> usize
    requires from_le_count_limit { from ≤ count_limit }
    requires field_limit_bound { next.old + field_limit ≤ variable_limit }
    ensures put { Put out.old out.new (record_bytes (each variable_field (new_in st.now.structure next.old row.now))) from result }
    ensures next_after { next.new ≡ next.old + length (new_in st.now.structure next.old row.now) }
{
    let elements = st.elements();
    let variables = st.names(NameKind::Variable);
    let identifiers = st.names(NameKind::Identifier);
    put_listed_variables(out, from, &elements, variables, identifiers, row, next)
}

// The name of a group, by its rule's: the rule's name, or for an unnamed rule `anonymous_rule_` and its index.
pub fn put_group_name_of(out: &mut [u8], from: usize, name: &[u8], index: u16) -> usize
    requires { from ≤ count_limit }
    ensures put { (rule : definition.Rule) → rule.name ≡ name.now → rule.index ≡ index → Put out.old out.new (group_name rule) from result }
    ensures upper_bound { result ≤ count_limit }
{
    if name.is_empty() {
        let at = put_bytes(out, from, ANONYMOUS, 0, ANONYMOUS.len());
        return put_decimal(out, at, index);
    }
    put_bytes(out, from, name, 0, name.len())
}

// The same of an accepted rule.
pub fn put_group_name(out: &mut [u8], from: usize, rule: &Rule<'_>) -> usize
    requires { from ≤ count_limit }
    ensures { Put out.old out.new (group_name rule.now.rule) from result }
{
    put_group_name_of(out, from, rule.name(), rule.unnamed_index())
}

// A flat rule's name: the group's, `_`, and the count of rules before it.
pub fn put_rule_name_of(out: &mut [u8], from: usize, name: &[u8], index: u16, count: u16) -> usize
    requires { from ≤ count_limit }
    ensures { (rule : definition.Rule) → rule.name ≡ name.now → rule.index ≡ index
        → Put out.old out.new (group_name rule ++ (underscore ∷ decimal count)) from result }
{
    let group = put_group_name_of(out, from, name, index);
    let at = put_byte(out, group, b'_');
    put_decimal(out, at, count)
}

// The same of an accepted rule.
pub fn put_rule_name(out: &mut [u8], from: usize, rule: &Rule<'_>, count: u16) -> usize
    requires { from ≤ count_limit }
    ensures { Put out.old out.new (group_name rule.now.rule ++ (underscore ∷ decimal count)) from result }
{
    put_rule_name_of(out, from, rule.name(), rule.unnamed_index(), count)
}

// How many bytes the group's name has, by that of its rule.
pub fn group_name_length_of(name: &[u8], index: u16) -> u16
    requires { length name.now ≤ name_bytes }
    ensures value { (rule : definition.Rule) → rule.name ≡ name.now → rule.index ≡ index → result ≡ length (group_name rule) }
    ensures small { result ≤ name_bytes }
{
    if name.is_empty() {
        return (ANONYMOUS.len() + digits(index)) as u16;
    }
    name.len() as u16
}

// The same of an accepted rule.
pub fn group_name_length(rule: &Rule<'_>) -> u16
    ensures { (result ≡ length (group_name rule.now.rule)) × (result ≤ name_bytes) }
{
    group_name_length_of(rule.name(), rule.unnamed_index())
}

// How many bytes a flat rule's name has, by that of its rule.
pub fn rule_name_length_of(name: &[u8], index: u16, count: u16) -> u16
    requires { length name.now ≤ name_bytes }
    ensures value { (rule : definition.Rule) → rule.name ≡ name.now → rule.index ≡ index
        → result ≡ length (group_name rule ++ (underscore ∷ decimal count)) }
    ensures small { result < 256 }
{
    group_name_length_of(name, index) + 1 + digits(count) as u16
}

// The same of an accepted rule.
pub fn rule_name_length(rule: &Rule<'_>, count: u16) -> u16
    ensures { (result ≡ length (group_name rule.now.rule ++ (underscore ∷ decimal count))) × (result < 256) }
{
    rule_name_length_of(rule.name(), rule.unnamed_index(), count)
}
