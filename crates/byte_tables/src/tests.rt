//! The classes beside the lists of the standards, and rows that are found.
ghost use Rattle.std.specs.Prelude.{◌≡◌, codes, [], ◌∷◌};
ghost use Rattle.byte_tables.specs.Cases.{rows_of};

use crate::{Case, cases, find, find_folded, has, is_digit, is_field, is_hex, is_target, is_token};
use std::rt::HostRuntime;

#[test]
fn classes_are_those_of_the_standards(rt: HostRuntime) {
    for byte in 0..=255u8 {
        let digit = has(b"0123456789", byte);
        let hex = digit || has(b"abcdefABCDEF", byte);
        let letter = has(
            b"abcdefghijklmnopqrstuvwxyzABCDEFGHIJKLMNOPQRSTUVWXYZ",
            byte,
        );
        let token = letter || digit || has(b"!#$%&'*+-.^_`|~", byte);
        let visible = token || has(b"\"(),/:;<=>?@[\\]{}", byte);
        let field = visible || has(b" \t", byte) || byte >= 0x80;
        assert_eq!(rt; is_token(byte), token, "{byte} in a token");
        assert_eq!(rt; is_field(byte), field, "{byte} in a field's value");
        assert_eq!(rt; is_target(byte), visible, "{byte} in a target");
        assert_eq!(rt; is_digit(byte), digit, "{byte} as a digit");
        assert_eq!(rt; is_hex(byte), hex, "{byte} as a hexadecimal digit");
    }
}

fn codings() -> [Case; 4]
    ensures { rows_of result ≡ (codes "chunked", 1) ∷ (codes "gzip", 2) ∷ (codes "x-gzip", 2)
        ∷ (codes "chunked", 3) ∷ [] }
{
    cases!["chunked" => 1, "gzip" => 2, "x-gzip" => 2, "chunked" => 3]
}

#[test]
fn first_rows_are_found(rt: HostRuntime) {
    let table = codings();
    for (name, exact, folded) in [
        (&b"chunked"[..], Some(0), Some(0)),
        (b"Chunked", None, Some(0)),
        (b"x-gzip", Some(2), Some(2)),
        (b"X-GZIP", None, Some(2)),
        (b"gzi", None, None),
        (b"gzip ", None, None),
        (b"", None, None),
    ] {
        assert_eq!(rt; find(&table, name), exact);
        assert_eq!(rt; find_folded(&table, name), folded);
    }
}
