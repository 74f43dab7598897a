//! The number that a text is.
ghost use Rattle.std.specs.Prelude.{◌≡◌, ◌≤◌, ◌&&◌, IfSome, nat_le, slice_index_or};
ghost use Rattle.whips_plan_reading.specs.Events.{decimal_within};

/// Whether the first byte is a digit from 1 to 9.
fn begins_number(bytes: &[u8]) -> bool
    ensures { result ≡ (nat_le 49 (slice_index_or bytes.now 0 0)
        && nat_le (slice_index_or bytes.now 0 0) 57) }
{
    match bytes {
        [] => false,
        [first, ..] => b'1' <= *first && *first <= b'9',
    }
}

/// The number from `least`, which is above 0, to `most` that the text is, in decimal and with no zero in front.
pub fn decimal_within(text: &str, least: u32, most: u32) -> Option<u32>
    requires { 1 ≤ least }
    ensures number { result ≡ decimal_within least most text.now }
    ensures within { IfSome result (λ n. (least ≤ n) × (n ≤ most)) }
{
    if !begins_number(text.as_bytes()) {
        return None;
    }
    match text.parse::<u32>() {
        Ok(number) => {
            if least <= number && number <= most {
                return Some(number);
            }
            None
        }
        Err(_) => None,
    }
}
