// Upper-case hexadecimal digits.
ghost use Rattle.std.specs.Prelude.{◌≡◌, ◌<◌};
ghost use Rattle.log_digits.specs.Digits.{digit_of, is_digit, all_digits, value_of};

// The digit of a value.
pub fn digit_of(value: u8) -> u8
    requires { value < 16 }
    ensures { result ≡ digit_of value }
{
    if value < 10 {
        return 48 + value;
    }
    55 + value
}

// Whether a character is a digit.
fn is_digit(char: u8) -> bool
    ensures { result ≡ is_digit char }
{
    match char {
        48..=57 => true,
        65..=70 => true,
        _ => false,
    }
}

// Whether every character of a line is a digit.
pub fn all_digits(line: &[u8]) -> bool
    ensures { result ≡ all_digits line.now }
{
    for char in line {
        if !is_digit(*char) {
            return false;
        }
    }
    true
}

// The value of a digit; a character that is none reads as 0.
pub fn value_of(char: u8) -> u8
    ensures { result ≡ value_of char }
{
    match char {
        48..=57 => char - 48,
        65..=70 => char - 55,
        _ => 0,
    }
}
