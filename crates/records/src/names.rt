// Names: their bytes.
ghost use Rattle.std.specs.Prelude.{◌≡◌};
ghost use Rattle.std.specs.List.{list_all};
ghost use Rattle.definition.specs.Records.{name_byte};

// The bytes that a name may have.
pub const FIRST_NAME_BYTE: u8 = 33;

pub const LAST_NAME_BYTE: u8 = 126;

// May a name have all of these bytes?
pub(crate) fn all_name_bytes(name: &[u8]) -> bool
    ensures { result ≡ list_all name_byte name.now }
{
    name.iter()
        .all(|b| FIRST_NAME_BYTE <= *b && *b <= LAST_NAME_BYTE)
}
