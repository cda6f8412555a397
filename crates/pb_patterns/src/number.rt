ghost use Rattle.std.specs.Prelude.{◌≡◌, ◌≤◌, length, fold, true};
ghost use Rattle.std.specs.List.{list_all};
ghost use Rattle.std.specs.Char.{is_ascii_digit};
ghost use Rattle.pb_patterns.specs.Subscripts.{is_number, number, with_digit};

fn are_digits(bytes: &[u8]) -> bool
    ensures { result ≡ list_all is_ascii_digit bytes.now }
{
    bytes.iter().all(|byte| byte.is_ascii_digit())
}

fn is_number(digits: &[u8]) -> bool
    ensures { result ≡ is_number digits.now }
{
    1 <= digits.len() && digits.len() <= 9 && are_digits(digits)
}

fn value(digits: &[u8]) -> u32
    requires few { length digits.now ≤ 9 }
    requires digits { list_all is_ascii_digit digits.now ≡ true }
    ensures { result ≡ fold with_digit 0 digits.now }
{
    let mut value = 0;
    for digit in digits {
        value = value * 10 + (*digit - b'0') as u32;
    }
    value
}

/// The number that one to nine digits write.
pub fn number(digits: &[u8]) -> Option<u32>
    ensures { result ≡ number digits.now }
{
    if is_number(digits) {
        Some(value(digits))
    } else {
        None
    }
}
