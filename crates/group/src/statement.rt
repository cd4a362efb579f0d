// A statement by value, as the group's writer takes it.
use signature::ids::{COLUMNS, Relation};

// What it is about and the numbers of its variables, the first `count` of `vars`. None has more than a symbol has columns.
#[derive(Clone, Copy)]
pub struct Statement {
    pub relation: Relation,
    pub vars: [u16; COLUMNS],
    pub count: usize,
}
