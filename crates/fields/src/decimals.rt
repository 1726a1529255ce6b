// A number, as a field writes it in decimal digits.
ghost use Rattle.std.specs.Prelude.{◌≡◌, ◌≤◌, length};
ghost use Rattle.std.specs.Option.{option_map};
ghost use Rattle.fields.specs.Decimals.{digit_of, digits_of, number_of, decimal_of};

// The largest u32, 4,294,967,295, has ten digits.
const MOST_DIGITS: usize = 10;

const BASE: u64 = 10;

fn decimal_digit(c: u8) -> Option<u32>
    ensures answer { result ≡ digit_of c }
{
    char::from(c).to_digit(10)
}

// The number that few enough digits write: ten stay below 10 ^ 10, far within a u64. A `for`, since the closure of a
// `try_fold` does not know that the sum so far is as small.
fn number(digits: &[u8]) -> Option<u64>
    requires { length digits.now ≤ 10 }
    ensures answer { result ≡ option_map number_of (digits_of digits.now) }
{
    let mut sum: u64 = 0;
    for c in digits {
        sum = sum * BASE + u64::from(decimal_digit(*c)?);
    }
    Some(sum)
}

// The number that 1 to 10 digits write, where it is at most 4,294,967,295. `parse` would take a sign too, and more
// digits than ten where zeros come first.
pub fn decimal(digits: &[u8]) -> Option<u32>
    ensures answer { result ≡ decimal_of digits.now }
{
    if digits.is_empty() || digits.len() > MOST_DIGITS {
        return None;
    }
    u32::try_from(number(digits)?).ok()
}
