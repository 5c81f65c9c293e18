//! Numbers in the words of a command.

ghost use Rattle.std.specs.Prelude.{◌≡◌, ◌<◌, ◌≤◌, ◌^◌, IfSome, length, true};
ghost use Rattle.std.specs.List.{list_all};
ghost use Rattle.std.specs.Char.{is_digit};
ghost use Rattle.std.specs.Str.Parse.{digits_value};
ghost use Rattle.std.specs.Option.{SomeIff};
ghost use Rattle.watchtree_script.specs.Words.{number_spelled};

/// The number that digits of a radix spell, if there are at most `most` of them and it is at most `greatest`.
#[tactic(auto, unfolding(crate::specs::Words::number_spelled))]
#[inline(always)]
pub(crate) fn number_spelled(radix: u32, most: usize, greatest: u64, digits: &[u8]) -> Option<u64>
    requires least { 2 ≤ radix }
    requires largest { radix ≤ 36 }
    ensures value { result ≡ number_spelled radix most greatest digits.now }
    ensures within { IfSome result (λ number. number ≤ greatest) }
{
    if most < digits.len() {
        return None;
    }
    match value_of(radix, digits) {
        Some(number) if number <= greatest => Some(number),
        _ => None,
    }
}

/// The number of digits, if there are any, all are of the radix, and it fits.
#[inline(always)]
fn value_of(radix: u32, digits: &[u8]) -> Option<u64>
    requires least { 2 ≤ radix }
    requires largest { radix ≤ 36 }
    ensures { SomeIff result ((0 < length digits.now) × (list_all (λ c. is_digit c radix) digits.now ≡ true)
        × (digits_value radix digits.now < 2 ^ 64)) (digits_value radix digits.now) }
{
    if digits.is_empty() {
        return None;
    }
    let mut number: u64 = 0;
    for byte in digits {
        let Some(digit) = char::from(*byte).to_digit(radix) else {
            return None;
        };
        let Some(shifted) = number.checked_mul(u64::from(radix)) else {
            return None;
        };
        let Some(next) = shifted.checked_add(u64::from(digit)) else {
            return None;
        };
        number = next;
    }
    Some(number)
}
