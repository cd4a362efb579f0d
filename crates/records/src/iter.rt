// The fields of a record, one after the other.
ghost use Rattle.std.specs.Prelude.{◌≡◌};

use crate::fields::two;

// A field of a record: its letter and its content.
#[derive(Clone, Copy)]
pub struct Field<'a> {
    pub letter: u8,
    pub content: &'a [u8],
}

// The fields of a part of a record, front to back, up to its end or to the first that passes it.
#[derive(Clone, Copy)]
pub struct Fields<'a> {
    pub(crate) rest: &'a [u8],
}

impl<'a> Fields<'a> {
    ghost use Rattle.records.specs.Iter.{rest_of};

    // Those of a part.
    pub fn new(part: &'a [u8]) -> Fields<'a>
        ensures { rest_of result ≡ part.now }
    {
        Fields { rest: part }
    }

    // What is left: the bytes behind the last field given. Behind the last whole field that is nothing, or what passes the end.
    pub fn rest(&self) -> &'a [u8]
        ensures { result.now ≡ rest_of self.now }
    {
        self.rest
    }
}

impl<'a> Iterator for Fields<'a> {
    ghost use Rattle.std.specs.Iterator.{item_count};
    ghost use Rattle.records.specs.Iter.{fields_left, GivesField};

    type Item = Field<'a>;

    ghost next_gives = { GivesField };

    ghost remaining = { item_count fields_left };

    #[inline]
    fn next(&mut self) -> Option<Field<'a>> {
        let rest = self.rest;
        if rest.len() < 3 {
            return None;
        }
        let letter = rest[0];
        let len = two(rest, 1);
        let (_, behind) = rest.split_at(3);
        if behind.len() < len {
            return None;
        }
        let (content, next) = behind.split_at(len);
        self.rest = next;
        Some(Field { letter, content })
    }
}
