//! What is wrong with the values that are given.
ghost use Rattle.std.specs.Prelude.{◌≡◌};
ghost use Rattle.adjust.specs.Command as spec;
ghost use Rattle.adjust.specs.Options.{row_of};

use crate::UsageFault;
use crate::addresses::bad_entry;
use crate::classes::{is_field_text, is_proxy, is_scheme, is_visible_text};
use crate::given::{Given, place_of};
use crate::kinds::are_kinds;
use crate::options::{Form, OptionRow, rows};
use crate::values::{read_host, read_number};

fn fits(form: Form, value: &[u8]) -> bool
    ensures { result ≡ spec.fits form value.now }
{
    match form {
        Form::Host => read_host(value).is_some(),
        Form::Proxy => is_proxy(value),
        Form::Kinds => are_kinds(value),
        Form::Scheme => is_scheme(value),
        Form::Path => is_visible_text(value),
        Form::Name => is_visible_text(value),
        Form::FieldText => is_field_text(value),
        _ => true,
    }
}

fn range_fault(place: usize, low: u64, high: u64, number: Option<u64>) -> Option<UsageFault>
    ensures { result ≡ spec.range_fault place low high number }
{
    match number {
        None => Some(UsageFault::BadNumber(place)),
        Some(number) => {
            if low <= number && number <= high {
                None
            } else {
                Some(UsageFault::OutOfRange(place))
            }
        }
    }
}

fn fit_fault(place: usize, form: Form, value: &[u8]) -> Option<UsageFault>
    ensures { result ≡ spec.fit_fault place form value.now }
{
    if fits(form, value) {
        None
    } else {
        Some(UsageFault::BadValue(place))
    }
}

fn form_fault(place: usize, form: Form, value: &[u8]) -> Option<UsageFault>
    ensures { result ≡ spec.form_fault place form value.now }
{
    match form {
        Form::Number { low, high } => range_fault(place, low, high, read_number(value)),
        Form::Addresses => match bad_entry(value) {
            Some(entry) => Some(UsageFault::BadListen(entry)),
            None => None,
        },
        _ => fit_fault(place, form, value),
    }
}

fn value_fault(place: usize, form: Form, value: &[u8]) -> Option<UsageFault>
    ensures { result ≡ spec.value_fault place form value.now }
{
    match value.is_empty() {
        true => Some(UsageFault::BadValue(place)),
        false => form_fault(place, form, value),
    }
}

fn row_fault(given: &Given<'_>, row: &OptionRow) -> Option<UsageFault>
    ensures { result ≡ spec.row_fault given.now (row_of row.now) }
{
    let value = given.value(row.name)?;
    value_fault(place_of(row.name), row.form, value)
}

// The first fault of a value, in the order of the table.
fn first_value_fault(given: &Given<'_>) -> Option<UsageFault>
    ensures { result ≡ spec.first_value_fault given.now }
{
    for row in rows() {
        match row_fault(given, row) {
            Some(fault) => return Some(fault),
            None => {}
        }
    }
    None
}

fn listen_both_ways(given: &Given<'_>) -> Option<UsageFault>
    ensures { result ≡ spec.listen_both_ways given.now }
{
    if given.is_given("listen") && (given.is_given("host") || given.is_given("port")) {
        Some(UsageFault::BothWays(place_of("listen")))
    } else {
        None
    }
}

fn clear_both_ways(given: &Given<'_>) -> Option<UsageFault>
    ensures { result ≡ spec.clear_both_ways given.now }
{
    if given.is_on("clear-untrusted-proxy-headers")
        && given.is_on("no-clear-untrusted-proxy-headers")
    {
        Some(UsageFault::BothWays(place_of("clear-untrusted-proxy-headers")))
    } else {
        None
    }
}

fn proxy_alone(given: &Given<'_>, name: &str) -> Option<UsageFault>
    ensures { result ≡ spec.proxy_alone given.now name.now }
{
    if given.is_given(name) && !given.is_given("trusted-proxy") {
        Some(UsageFault::ProxyAlone(place_of(name)))
    } else {
        None
    }
}

/// The first fault of the options: of their values, and then of options that do not go together.
#[tactic(auto, unfolding(crate::specs::Command::first_fault))]
pub(crate) fn first_fault(given: &Given<'_>) -> Option<UsageFault>
    ensures { result ≡ spec.first_fault given.now }
{
    first_value_fault(given)
        .or(listen_both_ways(given))
        .or(clear_both_ways(given))
        .or(proxy_alone(given, "trusted-proxy-count"))
        .or(proxy_alone(given, "trusted-proxy-headers"))
}
