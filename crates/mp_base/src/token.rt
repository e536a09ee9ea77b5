//! The bytes of names and numerals.

ghost use Rattle.std.specs.Prelude.{◌≡◌};
ghost use Rattle.mp_base.specs.Token.{is_token, is_letter, is_digit};

/// Whether numerals may have this byte.
pub fn is_digit(byte: u8) -> bool
    ensures { result ≡ is_digit byte }
{
    matches!(byte, b'0'..=b'9')
}

fn is_letter(byte: u8) -> bool
    ensures { result ≡ is_letter byte }
{
    matches!(byte, b'A'..=b'Z' | b'a'..=b'z')
}

/// Whether names and numerals may have this byte.
pub fn is_token(byte: u8) -> bool
    ensures { result ≡ is_token byte }
{
    is_letter(byte) || is_digit(byte) || b"-_+*/<=>".contains(&byte)
}
