//! The number that a token writes.
ghost use Rattle.std.specs.Prelude.{◌≡◌, ◌==◌, true, false, option_map, slice_index};
ghost use Rattle.serde_json.specs.View.{number_view};
ghost use Rattle.serde_json.specs.Read.{number_of, number_from, float_of};

use fast_float::Numeral;
use serde_json::Number;

fn has_minus(text: &[u8]) -> bool
    ensures { result ≡ (slice_index text.now 0 == 45) }
{
    text.first() == Some(&b'-')
}

fn nearest(negative: bool, numeral: &Numeral<'_>) -> Option<Number>
    ensures { option_map number_view result ≡ float_of negative numeral.now }
{
    Number::from_f64(numeral.to_float::<f64>(negative))
}

fn unsigned(numeral: &Numeral<'_>) -> Option<Number>
    ensures { option_map number_view result ≡ number_from false numeral.now }
{
    match numeral.to_u64() {
        Some(whole) => Some(Number::from(whole)),
        None => nearest(false, numeral),
    }
}

fn negative(numeral: &Numeral<'_>) -> Option<Number>
    ensures { option_map number_view result ≡ number_from true numeral.now }
{
    match numeral.to_i64(true) {
        Some(whole) if whole < 0 => Some(Number::from(whole)),
        _ => nearest(true, numeral),
    }
}

/// The number that a token of JSON writes: an integer of 64 bits, or the nearest 64-bit float, where one is near.
pub(crate) fn number_in(text: &str) -> Option<Number>
    ensures { option_map number_view result ≡ number_of text.now }
{
    let text = text.as_bytes();
    if has_minus(text) {
        negative(&Numeral::scan(&text[1..]))
    } else {
        unsigned(&Numeral::scan(text))
    }
}
