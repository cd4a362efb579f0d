// A group that was accepted, and what it says: its variables, and its rules.
ghost use Rattle.std.specs.Prelude.{◌≡◌, ◌<◌, length};
ghost use Rattle.definition.specs.Records.{numbers};
ghost use Rattle.definition.specs.Scope.{variable_numbered, same_variable, same_variables};
ghost use Rattle.group.specs.Index.{Indexed};
ghost use Rattle.group.specs.Lookups.{table, Accepted, content, Listed, Named};

use crate::ids::{BEFORE_NAME, FIELD_HEAD, GROUP_INDEX, GroupCounts, VARIABLES_FROM, VarId};
use records::contents::{number, same_bytes};
use records::fields::{num, two};
use signature::ids::TypeId;
use signature::lookup::Signature;
use std::marker::Model;

// The variables of a group's bytes: an index that begins with the positions of its W fields, and how many there are. Nothing is asked
// of the other fields.
#[derive(Clone, Copy)]
pub struct VariableTable<'a> {
    pub bytes: &'a [u8],
    pub index: &'a [u16; GROUP_INDEX],
    pub count: usize,
    pub ghost listed: { Listed bytes.now index.now count },
}

impl<'a> VariableTable<'a> {
    ghost use Rattle.definition.specs.Group.{variable_of};
    ghost use Rattle.records.specs.Held.{field_in};
    ghost use Rattle.group.specs.Index.{VariableAt};

    // How many there are.
    pub fn count(&self) -> usize
        ensures { result ≡ length (table self.now.bytes.now) }
    {
        self.count
    }

    // Where the field of a variable stands.
    fn field_of(&self, v: VarId) -> usize
        requires { v.0 < length (table self.now.bytes.now) }
        ensures stands { VariableAt self.now.bytes.now result }
        ensures says { variable_of (field_in self.now.bytes.now result) ≡ variable_numbered (table self.now.bytes.now) v.0 }
    {
        usize::from(self.index[VARIABLES_FROM + usize::from(v.0)])
    }

    // The type of a variable.
    pub fn variable_type(&self, v: VarId) -> TypeId
        requires { v.0 < length (table self.now.bytes.now) }
        ensures { result.0 ≡ (variable_numbered (table self.now.bytes.now) v.0).type }
    {
        let at = self.field_of(v);
        TypeId(num(self.bytes, at + FIELD_HEAD))
    }

    // The name of a variable.
    pub fn variable_name(&self, v: VarId) -> &'a [u8]
        requires { v.0 < length (table self.now.bytes.now) }
        ensures { result.now ≡ (variable_numbered (table self.now.bytes.now) v.0).name }
    {
        let at = self.field_of(v);
        let len = two(self.bytes, at + 1);
        &self.bytes[at + BEFORE_NAME..at + FIELD_HEAD + len]
    }

    // Are two variables the same, by name and type? Their numbers say nothing: `a1` at 2 and `a` at 12 both print `a12`.
    #[tactic(auto, unfolding(definition::specs::Scope::same_variable))]
    pub fn same_variable(&self, v: VarId, w: VarId) -> bool
        requires { (v.0 < length (table self.now.bytes.now)) × (w.0 < length (table self.now.bytes.now)) }
        ensures { result ≡ same_variable (table self.now.bytes.now) v.0 w.0 }
    {
        self.variable_type(v) == self.variable_type(w)
            && same_bytes(self.variable_name(v), self.variable_name(w))
    }

    // Are the variables of two lists the same? Each is of two bytes.
    #[tactic(auto, using(crate::proofs::Values::same_steps))]
    pub fn same_variables(&self, a: &[u8], b: &[u8]) -> bool
        requires same_length { length a.now ≡ length b.now }
        requires named { Named self.now.bytes.now (numbers a.now) × Named self.now.bytes.now (numbers b.now) }
        ensures { result ≡ same_variables (table self.now.bytes.now) (numbers a.now) (numbers b.now) }
    {
        for i in 0..a.len() >> 1 {
            let v = VarId(number(a, i));
            let w = VarId(number(b, i));
            if !self.same_variable(v, w) {
                return false;
            }
        }
        true
    }
}

// A group that was accepted: the signature that it was read by, its variables with its bytes and the index of its fields, and how many
// rules there are. In contracts it is that signature and those bytes.
#[derive(Drop)]
pub struct Group<'a> {
    pub(crate) signature: &'a Signature<'a>,
    pub(crate) table: VariableTable<'a>,
    pub(crate) rules: usize,
}

impl<'a> Model for Group<'a> {
    ghost Value = { Accepted };

    ghost view = { λ g. record { signature = g.signature.now; bytes = g.table.bytes.now } };

    ghost invariant = { λ g. Indexed g.signature.now g.table.bytes.now g.table.index.now g.table.count g.rules };
}

impl<'a> Group<'a> {
    // That of some bytes, by an index that holds its fields, and how many variables and rules there are.
    pub fn of(
        signature: &'a Signature<'a>,
        bytes: &'a [u8],
        index: &'a [u16; GROUP_INDEX],
        counts: GroupCounts,
    ) -> Group<'a>
        requires { Indexed signature.now bytes.now index.now counts.variables counts.rules }
        ensures { result ≡ record { signature = signature.now; bytes = bytes.now } }
    {
        let table = VariableTable {
            bytes,
            index,
            count: counts.variables,
        };
        Group {
            signature,
            table,
            rules: counts.rules,
        }
    }

    // The signature that it was read by.
    pub fn signature(&self) -> &'a Signature<'a>
        ensures { result.now ≡ self.now.signature }
    {
        self.signature
    }

    // Its variables by themselves, with its bytes and the index.
    pub fn table(&self) -> &VariableTable<'a>
        ensures { result.now.bytes.now ≡ self.now.bytes }
    {
        &self.table
    }

    // How many variables it has.
    pub fn variables(&self) -> usize
        ensures { result ≡ length (content self.now).variables }
    {
        self.table.count
    }

    // How many rules it has.
    #[tactic(auto, using(crate::proofs::Values::rules_length))]
    pub fn rules(&self) -> usize
        ensures { result ≡ length (content self.now).rules }
    {
        self.rules
    }

    // The type of a variable.
    pub fn variable_type(&self, v: VarId) -> TypeId
        requires { v.0 < length (content self.now).variables }
        ensures { result.0 ≡ (variable_numbered (content self.now).variables v.0).type }
    {
        self.table.variable_type(v)
    }

    // The name of a variable.
    pub fn variable_name(&self, v: VarId) -> &'a [u8]
        requires { v.0 < length (content self.now).variables }
        ensures { result.now ≡ (variable_numbered (content self.now).variables v.0).name }
    {
        self.table.variable_name(v)
    }

    // Are two variables the same, by name and type?
    pub fn same_variable(&self, v: VarId, w: VarId) -> bool
        requires { (v.0 < length (content self.now).variables) × (w.0 < length (content self.now).variables) }
        ensures { result ≡ same_variable (content self.now).variables v.0 w.0 }
    {
        self.table.same_variable(v, w)
    }

    // Are the variables of two lists the same? Each is of two bytes.
    pub fn same_variables(&self, a: &[u8], b: &[u8]) -> bool
        requires same_length { length a.now ≡ length b.now }
        requires named { Named self.now.bytes (numbers a.now) × Named self.now.bytes (numbers b.now) }
        ensures { result ≡ same_variables (content self.now).variables (numbers a.now) (numbers b.now) }
    {
        self.table.same_variables(a, b)
    }
}

#[cfg(test)]
mod tests {
    use super::*;
    use crate::reader::read_group;
    use signature::ids::INDEX;
    use signature::reader::read_signature;

    // A group of two variables without a rule, by a signature of one type: its variables, by their table alone.
    #[test]
    fn table_stands_without_rules(rt: HostRuntime) {
        let mut symbols = [0u16; INDEX];
        let mut index = [0u16; GROUP_INDEX];
        let sig = read_signature(b"T\0\0", &mut symbols);
        assert!(rt; sig.is_ok());
        if let Ok(sig) = sig {
            let group = read_group(&sig, b"G\0\x01gW\0\x03\0\0aW\0\x04\0\0b1", &mut index);
            assert!(rt; group.is_ok());
            if let Ok(group) = group {
                let table = group.table();
                assert_eq!(rt; group.rules(), 0);
                assert_eq!(rt; table.count(), 2);
            }
        }
    }
}
