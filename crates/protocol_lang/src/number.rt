//! Numbers as every text of bgsim writes them.
ghost use Rattle.std.specs.Prelude.{◌≡◌, ◌↔◌, ◌^◌, ◌≤◌, ℕ, min, Some, None, if◌then◌else◌};
ghost use Rattle.std.specs.List.{list_all};
ghost use Rattle.std.specs.Option.{option_map};
ghost use Rattle.std.specs.Fmt.{decimal};
ghost use Rattle.protocol_lang.specs.Numbers.{greatest, is_digit, number_of, value_of_digits};

/// What stands for every number above `u32::MAX`.
const TOO_LARGE: u64 = 4294967296;

/// The number that `text` writes in decimal digits, with no sign and no leading zero, or `None`
/// where it writes none. Every number above `u32::MAX` is given as `u32::MAX + 1`.
pub fn read_number(text: &[u8]) -> Option<u64>
    ensures value { result ≡ option_map (λ n. min n (2 ^ 32)) (number_of text.now) }
    // A text is a number exactly if it is the number's decimal spelling.
    ensures spelled { (n : ℕ) → n ≤ greatest → (result ≡ Some n) ↔ (text.now ≡ decimal n) }
{
    match text {
        [] | [b'0', _, ..] => None,
        _ => read_digits(text),
    }
}

fn read_digits(text: &[u8]) -> Option<u64>
    ensures { result ≡ (if list_all is_digit text.now then Some (min (value_of_digits text.now) (2 ^ 32)) else None) }
{
    let mut value = 0;
    for byte in text {
        if !byte.is_ascii_digit() {
            return None;
        }
        value = (value * 10 + u64::from(*byte - b'0')).min(TOO_LARGE);
    }
    Some(value)
}
