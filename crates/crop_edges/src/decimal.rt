// An edge in decimal: a minus sign or none, then 1 to 15 digits with a point among them or none.
ghost use Rattle.std.specs.Prelude.{◌≡◌, ◌^◌, ◌≤◌, true};
ghost use Rattle.std.specs.Float.{binary64};
ghost use Rattle.std.specs.Float.Ieee.{round};
ghost use Rattle.crop_edges.specs.Edge.{minus, whole_at, point_at_value, fraction_at_value, before_of_value, places_of_value, is_decimal_value, whole_of_value};

use crate::digits::continued;
use numerals::all_digits;
use std::num::nearest_u64_to_f64;

// Whether the text begins with a minus sign.
fn minus(text: &[u8]) -> bool
    ensures answer { result ≡ minus text.now }
{
    !text.is_empty() && text[0] == b'-'
}

// Where the digits before the point begin.
fn whole_at(text: &[u8]) -> usize
    ensures answer { result ≡ whole_at text.now }
{
    if minus(text) { 1 } else { 0 }
}

// The place of the point, the end where there is none.
fn point_at(text: &[u8]) -> usize
    ensures answer { result ≡ point_at_value text.now }
{
    for k in whole_at(text)..text.len() {
        if text[k] == b'.' {
            return k;
        }
    }
    text.len()
}

// Where the digits after the point begin, the end where there is no point.
fn fraction_at(text: &[u8]) -> usize
    ensures answer { result ≡ fraction_at_value text.now }
{
    let p = point_at(text);
    if p < text.len() { p + 1 } else { p }
}

// How many places there are before the point.
fn before_of(text: &[u8]) -> usize
    ensures answer { result ≡ before_of_value text.now }
{
    point_at(text) - whole_at(text)
}

// How many places there are after it.
fn places_of(text: &[u8]) -> usize
    ensures answer { result ≡ places_of_value text.now }
{
    text.len() - fraction_at(text)
}

// Whether the text has the form of a decimal.
pub(crate) fn is_decimal(text: &[u8]) -> bool
    ensures answer { result ≡ is_decimal_value text.now }
{
    let before = before_of(text);
    let places = places_of(text);
    if before + places < 1 {
        return false;
    }
    if 15 < before + places {
        return false;
    }
    if !all_digits(10, text, whole_at(text), before) {
        return false;
    }
    all_digits(10, text, fraction_at(text), places)
}

// The whole number that all the digits write, the point left out.
fn whole_of(text: &[u8]) -> u64
    requires { is_decimal_value text.now ≡ true }
    ensures answer { result ≡ whole_of_value text.now }
{
    let upper = continued(10, text, whole_at(text), before_of(text), 0);
    continued(10, text, fraction_at(text), places_of(text), upper)
}

// 10 to the power k.
fn power(k: usize) -> u64
    requires { k ≤ 15 }
    ensures answer { result ≡ 10 ^ k }
{
    10u64.pow(k as u32)
}

// The digits' whole number over the power of ten of the places after the point: both are exact, so the quotient is rounded once.
pub(crate) fn of_decimal(text: &[u8]) -> f64
    requires { is_decimal_value text.now ≡ true }
    ensures answer { result ≡ round binary64 (minus text.now) (whole_of_value text.now) (10 ^ places_of_value text.now) }
{
    let places = places_of(text);
    let whole = whole_of(text);
    let size = nearest_u64_to_f64(whole) / nearest_u64_to_f64(power(places));
    if minus(text) { -size } else { size }
}
