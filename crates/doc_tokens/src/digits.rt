//! Reads a number of a few digits.
ghost use Rattle.std.specs.Prelude.{length, ◌≤◌};
ghost use Rattle.std.specs.Option.{SomeIff};
ghost use Rattle.std.specs.Str.Parse.{AllDigits, digits_value};
ghost use Rattle.doc_tokens.specs.declared.digits.TheConstants.{FEW_DIGITS};

/// How many digits write a number that always fits.
pub(crate) const FEW_DIGITS: usize = 19;

/// The number that a few digits write, or `None` where a byte is no digit.
pub(crate) fn few_digits(bytes: &[u8]) -> Option<u64>
    requires { length bytes.now ≤ FEW_DIGITS }
    ensures { SomeIff result (AllDigits 10 bytes.now) (digits_value 10 bytes.now) }
{
    let mut number = 0u64;
    for byte in bytes {
        if !byte.is_ascii_digit() {
            return None;
        }
        number = number * 10 + u64::from(byte - b'0');
    }
    Some(number)
}
