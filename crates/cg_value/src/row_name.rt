//! The size in the name of a file of huge pages, for which `*` stands in its row's name.
ghost use Rattle.std.specs.Prelude.{◌≡◌, ◌++◌, Some, None, MatchOption, codes, take};
ghost use Rattle.std.specs.Str.{bytes_eq};
ghost use Rattle.cg_value.specs.RowName.{behind_number, behind_size, behind_unit, is_unit};

/// What is behind a number from 1 to 1023.
fn behind_number(text: &[u8]) -> Option<&[u8]>
    ensures { MatchOption result (behind_number 0 text.now ≡ None) (λ rest. behind_number 0 text.now ≡ Some rest.now) }
{
    let mut number: u32 = 0;
    for (place, byte) in text.iter().enumerate() {
        if !byte.is_ascii_digit() {
            return if number == 0 {
                None
            } else {
                Some(&text[place..])
            };
        }
        number = 10 * number + (*byte - b'0') as u32;
        if number < 1 || number > 1023 {
            return None;
        }
    }
    None
}

/// Whether it is a unit.
fn is_unit(text: &[u8]) -> bool
    ensures { result ≡ is_unit text.now }
{
    text == b"KB".as_slice() || text == b"MB".as_slice() || text == b"GB".as_slice()
}

/// What is behind a unit.
fn behind_unit(text: &[u8]) -> Option<&[u8]>
    ensures { MatchOption result (behind_unit text.now ≡ None) (λ rest. behind_unit text.now ≡ Some rest.now) }
{
    if text.len() < 2 {
        return None;
    }
    let (unit, rest) = text.split_at(2);
    if is_unit(unit) { Some(rest) } else { None }
}

/// What is behind a size: a number from 1 to 1023, and `KB`, `MB` or `GB`.
pub(crate) fn behind_size(text: &[u8]) -> Option<&[u8]>
    ensures { MatchOption result (behind_size text.now ≡ None) (λ rest. behind_size text.now ≡ Some rest.now) }
{
    match behind_number(text) {
        Some(rest) => behind_unit(rest),
        None => None,
    }
}

/// Whether the row's name is `hugetlb.*` and this.
pub(crate) fn is_sized(row: &[u8], rest: &[u8]) -> bool
    ensures { result ≡ bytes_eq row.now (codes "hugetlb.*" ++ rest.now) }
{
    // Most rows have another length.
    if row.len() != rest.len() + 9 {
        return false;
    }
    match row.strip_prefix(b"hugetlb.*") {
        Some(part) => part == rest,
        None => false,
    }
}
