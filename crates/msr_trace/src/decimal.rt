// Numbers in decimal digits.
ghost use Rattle.msr_trace.specs.Numbers.{number_of, value_after, with_digit};
ghost use Rattle.std.specs.Char.{is_digit, digit_value};
ghost use Rattle.std.specs.List.{list_all};
ghost use Rattle.std.specs.Prelude.{◌≡◌, ◌+◌, ◌-◌, ◌*◌, ◌^◌, ◌<◌, ◌≤◌, true, length, IfSome};
ghost use Rattle.std.specs.Str.Parse.{digits_value_after};

/// The number that one to 20 digits from 0 to 9 write, if it is below 2^64. Leading zeros are allowed.
#[inline(always)]
#[tactic(auto, unfolding(crate::specs::Numbers::number_of))]
pub fn number(field: &[u8]) -> Option<u64>
    ensures { result ≡ number_of field.now }
{
    if field.is_empty() || field.len() > 20 {
        return None;
    }
    if field.len() < 20 {
        few(field)
    } else {
        digit_by_digit(0, field)
    }
}

// The number that fewer than 20 digits write, which is always below 2^64.
#[inline(always)]
fn few(field: &[u8]) -> Option<u64>
    requires { length field.now < 20 }
    ensures { result ≡ value_after 0 field.now }
{
    let mut value = 0u64;
    let mut rest = field;
    while rest.len() >= 8 {
        let (run, behind) = rest.split_at(8);
        if !are_digits(run) {
            return None;
        }
        value = with_run(value, run);
        rest = behind;
    }
    few_after(value, rest)
}

// The number that digits write behind those of a number, of which there are fewer than 20 in all.
#[inline(always)]
fn few_after(value: u64, digits: &[u8]) -> Option<u64>
    requires short { length digits.now < 20 }
    requires small { value < 10 ^ (19 - length digits.now) }
    ensures { result ≡ value_after value digits.now }
{
    if digits.len() < 4 {
        return last_after(value, digits);
    }
    let (run, behind) = digits.split_at(4);
    if !are_digits(run) {
        return None;
    }
    last_after(with_run(value, run), behind)
}

// The same, one digit after another.
#[inline(always)]
fn last_after(value: u64, digits: &[u8]) -> Option<u64>
    requires short { length digits.now < 20 }
    requires small { value < 10 ^ (19 - length digits.now) }
    ensures { result ≡ value_after value digits.now }
{
    let mut number = value;
    for byte in digits {
        if !byte.is_ascii_digit() {
            return None;
        }
        number = number * 10 + value_of(*byte);
    }
    Some(number)
}

// The number that any number of digits write behind those of a number, if it is below 2^64. Few numbers have 20 digits.
#[cold]
#[inline(never)]
fn digit_by_digit(value: u64, digits: &[u8]) -> Option<u64>
    ensures { result ≡ value_after value digits.now }
{
    let mut number = value;
    for byte in digits {
        number = with_digit(number, *byte)?;
    }
    Some(number)
}

// Whether all bytes are digits. All are looked at, so that a run of a known length is one comparison.
#[inline(always)]
fn are_digits(bytes: &[u8]) -> bool
    ensures { result ≡ list_all (λ b. is_digit b 10) bytes.now }
{
    let mut all = true;
    for byte in bytes {
        all &= byte.is_ascii_digit();
    }
    all
}

// A number with digits more.
#[inline(always)]
fn with_run(value: u64, digits: &[u8]) -> u64
    requires digits { list_all (λ b. is_digit b 10) digits.now ≡ true }
    requires small { digits_value_after 10 value digits.now < 2 ^ 64 }
    ensures { result ≡ digits_value_after 10 value digits.now }
{
    let mut number = value;
    for byte in digits {
        number = number * 10 + value_of(*byte);
    }
    number
}

fn value_of(digit: u8) -> u64
    requires { is_digit digit 10 ≡ true }
    ensures { result ≡ digit_value digit }
{
    u64::from(digit - b'0')
}

// A number with one more digit.
fn with_digit(value: u64, byte: u8) -> Option<u64>
    ensures { result ≡ with_digit value byte }
{
    if !byte.is_ascii_digit() {
        return None;
    }
    value.checked_mul(10)?.checked_add(u64::from(byte - b'0'))
}
