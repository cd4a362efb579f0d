// A signature that was accepted, and what it says.
ghost use Rattle.std.specs.Prelude.{true, not, ◌≡◌, ℕ, ◌-◌, ◌≤◌, ◌<◌, ltb, length, get_or};
ghost use Rattle.definition.specs.Base.{empty, last_of};
ghost use Rattle.definition.specs.Letters.{func_domain};
ghost use Rattle.definition.specs.Signature as definition;
ghost use Rattle.definition.specs.Signature.{type_parents, pred_of, func_of, column_count, symbol_count, parent_model, named};
ghost use Rattle.definition.specs.Records.{numbers};
ghost use Rattle.records.specs.Held.{field_in};
ghost use Rattle.signature.specs.Index.{index_size, signature_at, Indexed, SmallArities};
ghost use Rattle.signature.specs.Entries.{Sits, Columned, AllNamed, symbol_in, model_of, Named};
ghost use Rattle.signature.specs.Relations.{kind_of, number_of};

use crate::ids::{
    Counts, EQUALITY, FUNCS_FROM, FUNCTION, FuncId, INDEX, MEMBER, PREDICATE, PREDS_FROM, PredId,
    Relation, TYPE_SET, TYPES_FROM, TypeId,
};
use records::contents::number;
use records::fields::two;
use std::marker::Model;

// A signature that was accepted: its bytes, the index of its fields, and how many there are of each letter. In contracts it is the
// definition's signature.
#[derive(Drop)]
pub struct Signature<'a> {
    pub(crate) bytes: &'a [u8],
    pub(crate) index: &'a [u16; INDEX],
    pub(crate) counts: Counts,
}

impl<'a> Model for Signature<'a> {
    ghost Value = { definition.Signature };

    ghost view = { λ s. signature_at s.bytes.now s.index.now s.counts };

    ghost invariant = { λ s. Indexed s.bytes.now s.index.now s.counts };
}

// The content of the field at an entry of the index.
#[tactic(auto, unfolding(records::specs::Held::field_in, records::specs::Places::stretch))]
fn content_at<'a>(s: &'a [u8], index: &[u16; INDEX], entry: usize) -> &'a [u8]
    requires lt_index_size { entry < index_size }
    requires sits { Sits s.now (get_or index.now entry 0) }
    ensures value { result.now ≡ (field_in s.now (get_or index.now entry 0)).content }
    ensures len_bound { length result.now < 65536 }
{
    let at = usize::from(index[entry]);
    let start = at + 3;
    &s[start..start + two(s, at + 1)]
}

// The content of a P or F field without a fault: a byte that counts the parents, then the columns.
#[derive(Clone, Copy)]
struct SymbolContent<'a> {
    bytes: &'a [u8],
    ghost shaped: { Columned bytes.now },
}

impl<'a> SymbolContent<'a> {
    // How many columns the symbol has in all.
    #[tactic(auto, using(crate::proofs::Symbols::columns_counted))]
    fn columns(self) -> usize
        ensures { result ≡ column_count (symbol_in self.entry.bytes.now) }
    {
        self.bytes.len() >> 1
    }

    // How many of them are parents.
    #[tactic(auto, using(crate::proofs::Symbols::parents_counted))]
    fn parents(self) -> usize
        ensures { result ≡ length (symbol_in self.entry.bytes.now).parents }
    {
        usize::from(self.bytes[0])
    }

    // One of the parents.
    fn parent(self, i: usize) -> TypeId
        requires { i < length (symbol_in self.bytes.now).parents }
        ensures value { result.0 ≡ get_or (symbol_in self.entry.bytes.now).parents i 0 }
        ensures by_index { (types : ℕ) → AllNamed types self.entry.bytes.now → result.0 < types }
    {
        TypeId(number(&self.bytes[1..], i))
    }

    // The last of the parents.
    fn model(self) -> Option<TypeId>
        ensures value { model_of result ≡ last_of (symbol_in self.entry.bytes.now).parents }
        ensures by_index { (types : ℕ) → AllNamed types self.entry.bytes.now → Named result types }
    {
        let n = self.parents();
        if n == 0 {
            return None;
        }
        Some(self.parent(n - 1))
    }
}

// What a statement is about. Only here does a number become an id by a kind.
pub fn relation(kind: u8, number: u16) -> Relation
    requires { kind ≤ func_domain }
    ensures { (kind_of result ≡ kind) × (number_of result ≡ number) }
{
    match kind {
        PREDICATE => Relation::Predicate(PredId(number)),
        FUNCTION => Relation::Function(FuncId(number)),
        MEMBER => Relation::Member(TypeId(number)),
        EQUALITY => Relation::Equality(TypeId(number)),
        TYPE_SET => Relation::TypeSet(TypeId(number)),
        _ => Relation::FuncDomain(FuncId(number)),
    }
}

impl<'a> Signature<'a> {
    // That of some bytes, by an index that holds its fields, and how many there are of each letter.
    pub fn of(bytes: &'a [u8], index: &'a [u16; INDEX], counts: Counts) -> Signature<'a>
        requires { Indexed bytes.now index.now counts }
        ensures { result ≡ signature_at bytes.now index.now counts }
    {
        Signature {
            bytes,
            index,
            counts,
        }
    }

    // Its types are few and its arities small. This is said to proofs; nothing runs.
    pub fn small_arities(&self)
        ensures { SmallArities self.now }
    {
        let _ = &self.bytes;
    }

    // How many types it has.
    pub fn types(&self) -> usize
        ensures { result ≡ length self.now.types }
    {
        self.counts.types
    }

    // How many predicates it has.
    pub fn preds(&self) -> usize
        ensures { result ≡ length self.now.preds }
    {
        self.counts.preds
    }

    // How many functions it has.
    pub fn funcs(&self) -> usize
        ensures { result ≡ length self.now.funcs }
    {
        self.counts.funcs
    }

    // The content of a type's field: its parents.
    fn type_content(&self, t: TypeId) -> &'a [u8]
        requires { t.0 < length self.now.types }
        ensures value { numbers result.now ≡ type_parents self.now t.0 }
        ensures len_bound { length result.now < 65536 }
        ensures all_named { named (length self.now.types) (numbers result.now) ≡ true }
    {
        content_at(self.bytes, self.index, TYPES_FROM + usize::from(t.0))
    }

    // The content of a predicate's field.
    fn pred_content(&self, p: PredId) -> SymbolContent<'a>
        requires { p.0 < length self.now.preds }
        ensures value { symbol_in result.bytes.now ≡ pred_of self.now p.0 }
        ensures all_named { AllNamed (length self.now.types) result.bytes.now }
    {
        SymbolContent {
            bytes: content_at(self.bytes, self.index, PREDS_FROM + usize::from(p.0)),
        }
    }

    // The content of a function's field.
    fn func_content(&self, f: FuncId) -> SymbolContent<'a>
        requires { f.0 < length self.now.funcs }
        ensures value { symbol_in result.bytes.now ≡ func_of self.now f.0 }
        ensures all_named { AllNamed (length self.now.types) result.bytes.now }
        ensures has_result { 1 ≤ column_count (symbol_in result.bytes.now) }
    {
        SymbolContent {
            bytes: content_at(self.bytes, self.index, FUNCS_FROM + usize::from(f.0)),
        }
    }

    // How many parents a type has.
    #[tactic(auto, using(laws::proofs::Numbers::length_numbers))]
    pub fn type_parents(&self, t: TypeId) -> usize
        requires { t.0 < length self.now.types }
        ensures value { result ≡ length (type_parents self.now t.0) }
        ensures upper_bound { result < 65536 }
    {
        self.type_content(t).len() >> 1
    }

    // One of them.
    #[tactic(auto, unfolding(definition::specs::Records::number_at), using(laws::proofs::Numbers::length_numbers, crate::proofs::Symbols::named_below))]
    pub fn type_parent(&self, t: TypeId, i: usize) -> TypeId
        requires { (t.0 < length self.now.types) × (i < length (type_parents self.now t.0)) }
        ensures result_value { result.0 ≡ get_or (type_parents self.now t.0) i 0 }
        ensures result_lt_types { result.0 < length self.now.types }
    {
        TypeId(number(self.type_content(t), i))
    }

    // Only a type with parents has a member relation.
    pub fn has_members(&self, t: TypeId) -> bool
        requires { t.0 < length self.now.types }
        ensures { result ≡ not (empty (type_parents self.now t.0)) }
    {
        0 < self.type_parents(t)
    }

    // The last of the parents.
    fn type_model(&self, t: TypeId) -> Option<TypeId>
        requires { t.0 < length self.now.types }
        ensures result_value { model_of result ≡ last_of (type_parents self.now t.0) }
        ensures named { Named result (length self.now.types) }
    {
        let n = self.type_parents(t);
        if n == 0 {
            return None;
        }
        Some(self.type_parent(t, n - 1))
    }

    // How many columns a predicate has.
    pub fn pred_columns(&self, p: PredId) -> usize
        requires { p.0 < length self.now.preds }
        ensures { result ≡ column_count (pred_of self.now p.0) }
    {
        self.pred_content(p).columns()
    }

    // How many of them are parents.
    pub fn pred_parents(&self, p: PredId) -> usize
        requires { p.0 < length self.now.preds }
        ensures { result ≡ length (pred_of self.now p.0).parents }
    {
        self.pred_content(p).parents()
    }

    // The last of the parents.
    fn pred_model(&self, p: PredId) -> Option<TypeId>
        requires { p.0 < length self.now.preds }
        ensures result_value { model_of result ≡ last_of (pred_of self.now p.0).parents }
        ensures named { Named result (length self.now.types) }
    {
        self.pred_content(p).model()
    }

    // How many columns a function has; the last is its result.
    pub fn func_columns(&self, f: FuncId) -> usize
        requires { f.0 < length self.now.funcs }
        ensures value { result ≡ column_count (func_of self.now f.0) }
        ensures has_result { 1 ≤ result }
    {
        self.func_content(f).columns()
    }

    // How many of them are parents.
    pub fn func_parents(&self, f: FuncId) -> usize
        requires { f.0 < length self.now.funcs }
        ensures { result ≡ length (func_of self.now f.0).parents }
    {
        self.func_content(f).parents()
    }

    // The columns without the result.
    pub fn flat_domain(&self, f: FuncId) -> usize
        requires { f.0 < length self.now.funcs }
        ensures { result ≡ column_count (func_of self.now f.0) - 1 }
    {
        self.func_columns(f) - 1
    }

    // The last of the parents.
    fn func_model(&self, f: FuncId) -> Option<TypeId>
        requires { f.0 < length self.now.funcs }
        ensures result_value { model_of result ≡ last_of (func_of self.now f.0).parents }
        ensures named { Named result (length self.now.types) }
    {
        self.func_content(f).model()
    }

    // Does it have what a statement is about?
    #[tactic(auto, unfolding(definition::specs::Signature::symbol_count), using(crate::proofs::Views::counted))]
    pub fn declares(&self, rel: Relation) -> bool
        ensures { result ≡ ltb (number_of rel) (symbol_count self.now (kind_of rel)) }
    {
        match rel {
            Relation::Predicate(p) => usize::from(p.0) < self.counts.preds,
            Relation::Function(f) | Relation::FuncDomain(f) => usize::from(f.0) < self.counts.funcs,
            Relation::Member(t) | Relation::Equality(t) | Relation::TypeSet(t) => {
                usize::from(t.0) < self.counts.types
            }
        }
    }

    // The columns of a statement.
    #[tactic(auto, unfolding(definition::specs::Signature::arity, definition::specs::Signature::symbol_count))]
    pub fn arity(&self, rel: Relation) -> usize
        requires { number_of rel < symbol_count self.now (kind_of rel) }
        ensures { result ≡ definition.arity self.now (kind_of rel) (number_of rel) }
    {
        match rel {
            Relation::Predicate(p) => self.pred_columns(p),
            Relation::Function(f) => self.func_columns(f),
            Relation::Member(t) => self.type_parents(t) + 1,
            Relation::Equality(_) => 2,
            Relation::TypeSet(_) => 1,
            Relation::FuncDomain(f) => self.flat_domain(f),
        }
    }

    // The parent model of what a statement is about; an Equality and a TypeSet have none.
    #[tactic(auto, unfolding(definition::specs::Signature::parent_model, definition::specs::Signature::symbol_count))]
    pub fn parent_model(&self, rel: Relation) -> Option<TypeId>
        requires { number_of rel < symbol_count self.now (kind_of rel) }
        ensures result_value { model_of result ≡ parent_model self.now (kind_of rel) (number_of rel) }
        ensures named { Named result (length self.now.types) }
    {
        match rel {
            Relation::Predicate(p) => self.pred_model(p),
            Relation::Function(f) | Relation::FuncDomain(f) => self.func_model(f),
            Relation::Member(t) => self.type_model(t),
            Relation::Equality(_) | Relation::TypeSet(_) => None,
        }
    }
}
