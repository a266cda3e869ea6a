//! The date of a moment, as HTTP writes it: IMF-fixdate (RFC 9110, section 5.6.7).
//!
//! `httpdate` writes it. What it writes is stated by the calendar: by the lengths of the years and
//! of the months.
#![tactic(auto)]

ghost use Rattle.std.specs.Prelude.{◌≡◌, ◌<◌, ◌↔◌, IsSome, IfSome};
ghost use Rattle.imf_fixdate.specs.Date.{year_10000, imf_fixdate};

use httpdate::HttpDate;

/// The date of a moment in Unix seconds. Its year has four digits, so there is none from the year
/// 10000 on.
pub fn date_text(moment: u64) -> Option<[u8; 29]>
    ensures before_year_10000 { IsSome result ↔ (moment < year_10000) }
    ensures text { IfSome result (λ text. text ≡ imf_fixdate moment) }
{
    match HttpDate::from_unix_secs(moment) {
        Ok(date) => Some(date.to_bytes()),
        Err(_) => None,
    }
}

#[cfg(test)]
mod tests;
