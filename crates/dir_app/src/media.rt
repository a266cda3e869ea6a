//! The media types of files, by the ends of their names.
ghost use Rattle.std.specs.Prelude.{◌≡◌, ◌<◌, Some, option_map, slice_get};
ghost use Rattle.byte_tables.specs.Cases.{rows_of};
ghost use Rattle.dir_app.specs.Media as spec;
ghost use Rattle.dir_app.specs.MediaTable as table;

use crate::names::behind_last;
use byte_tables::{Case, cases, find_folded};

/// The media type of a file of this name.
#[tactic(auto, unfolding(crate::specs::Media::media_type), using(crate::proofs::MediaLemmas::type_found, crate::proofs::MediaLemmas::none_found))]
pub(crate) fn media_type(name: &[u8]) -> &'static str
    ensures { result.now ≡ spec.media_type name.now }
{
    let rows = suffixes();
    match find_folded(&rows, suffix(name)) {
        Some(place) => type_at(number_of(&rows, place)),
        None => "application/octet-stream",
    }
}

fn suffix(name: &[u8]) -> &[u8]
    ensures { result.now ≡ spec.suffix name.now }
{
    if name.contains(&b'.') {
        behind_last(name, b'.')
    } else {
        b""
    }
}

fn number_of(rows: &[Case; 18], place: usize) -> u16
    requires { place < 18 }
    ensures { option_map (λ row. row.1) (slice_get (rows_of rows.now) place) ≡ Some result }
{
    rows[place].value
}

// The suffixes, each with the number of its type.
fn suffixes() -> [Case; 18]
    ensures { rows_of result ≡ table.suffix_rows }
{
    cases![
        "html" => 0,
        "htm" => 0,
        "css" => 1,
        "js" => 2,
        "mjs" => 2,
        "txt" => 3,
        "csv" => 4,
        "json" => 5,
        "xml" => 6,
        "pdf" => 7,
        "wasm" => 8,
        "svg" => 9,
        "png" => 10,
        "jpg" => 11,
        "jpeg" => 11,
        "gif" => 12,
        "webp" => 13,
        "woff2" => 14,
    ]
}

#[tactic(auto, unfolding(crate::specs::MediaTable::type_at))]
fn type_at(number: u16) -> &'static str
    ensures { result.now ≡ table.type_at number }
{
    match number {
        0 => "text/html; charset=utf-8",
        1 => "text/css; charset=utf-8",
        2 => "text/javascript; charset=utf-8",
        3 => "text/plain; charset=utf-8",
        4 => "text/csv; charset=utf-8",
        5 => "application/json",
        6 => "application/xml",
        7 => "application/pdf",
        8 => "application/wasm",
        9 => "image/svg+xml",
        10 => "image/png",
        11 => "image/jpeg",
        12 => "image/gif",
        13 => "image/webp",
        14 => "font/woff2",
        _ => "application/octet-stream",
    }
}
