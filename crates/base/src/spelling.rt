ghost use Rattle.std.specs.Prelude.{◌≡◌};
ghost use Rattle.base.specs.Names.{letter, name_byte, name_bytes, begins_name, is_name};

use crate::name::LONGEST_NAME;

/// Whether a byte is a lower-case letter.
pub fn is_letter(byte: u8) -> bool
    ensures { result ≡ letter byte }
{
    byte.is_ascii_lowercase()
}

/// Whether a byte may stand in a name.
pub fn is_name_byte(byte: u8) -> bool
    ensures { result ≡ name_byte byte }
{
    matches!(byte, b'a'..=b'z' | b'0'..=b'9' | b'_')
}

// Whether a text begins with a lower-case letter.
fn begins_with_letter(text: &[u8]) -> bool
    ensures { result ≡ begins_name text.now }
{
    text.first().is_some_and(|first| is_letter(*first))
}

// Whether each byte of a text may stand in a name.
fn has_name_bytes(text: &[u8]) -> bool
    ensures { result ≡ name_bytes text.now }
{
    text.iter().all(|byte| is_name_byte(*byte))
}

/// Whether a text is a name.
pub fn is_name(text: &[u8]) -> bool
    ensures { result ≡ is_name text.now }
{
    text.len() <= LONGEST_NAME && (begins_with_letter(text) && has_name_bytes(text))
}
