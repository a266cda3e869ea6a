//! Where a byte or a name stands in a table.
ghost use Rattle.std.specs.Prelude.{◌≡◌, ◌==◌, ◌<◌, length, position, IfSome};
ghost use Rattle.std.specs.List.{list_any};
ghost use Rattle.byte_tables.specs.Cases.{row_of, rows_of, has_name, has_name_folded};

use crate::Case;

/// Whether a byte stands in the list.
pub fn has<const N: usize>(table: &[u8; N], byte: u8) -> bool
    ensures { result ≡ list_any (λ b. b == byte) table.now }
{
    table.contains(&byte)
}

/// Which row, from 0, is the first of this name.
pub fn find<const N: usize>(table: &[Case; N], name: &[u8]) -> Option<usize>
    ensures first { result ≡ position (has_name name.now) (rows_of table.now) }
    ensures within { IfSome result (λ place. place < N) }
{
    place_of(table, name)
}

/// Which row, from 0, is the first of this name, where ASCII letters of either case are equal.
pub fn find_folded<const N: usize>(table: &[Case; N], name: &[u8]) -> Option<usize>
    ensures first { result ≡ position (has_name_folded name.now) (rows_of table.now) }
    ensures within { IfSome result (λ place. place < N) }
{
    place_of_folded(table, name)
}

// The code of these two stands once, and not once for each length.
fn place_of(table: &[Case], name: &[u8]) -> Option<usize>
    ensures first { result ≡ position (λ case. has_name name.now (row_of case)) table.now }
    ensures within { IfSome result (λ place. place < length table.now) }
{
    table.iter().position(|case| case.name() == name)
}

fn place_of_folded(table: &[Case], name: &[u8]) -> Option<usize>
    ensures first { result ≡ position (λ case. has_name_folded name.now (row_of case)) table.now }
    ensures within { IfSome result (λ place. place < length table.now) }
{
    table
        .iter()
        .position(|case| case.name().eq_ignore_ascii_case(name))
}
