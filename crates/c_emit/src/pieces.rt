//! Strings and numbers.

ghost use Rattle.std.specs.Prelude.{◌≡◌, ◌++◌, OnOk, codes, decimal, string_bytes};
ghost use Rattle.nu_text.specs.Strings.{stands_plain, string_byte, string_text};

use std::alloc::AllocError;

/// A string between quotation marks.
pub fn push_string(text: &mut String, bytes: &[u8]) -> Result<(), AllocError>
    ensures { OnOk result (string_bytes text.new ≡ string_bytes text.old ++ string_text bytes.now) }
{
    text.push_str("\"")?;
    for byte in bytes {
        push_byte(text, *byte)?;
    }
    text.push_str("\"")
}

// A byte of a string: itself, or a backslash and three octal digits.
fn push_byte(text: &mut String, byte: u8) -> Result<(), AllocError>
    ensures { OnOk result (string_bytes text.new ≡ string_bytes text.old ++ string_byte byte) }
{
    if is_plain(byte) {
        return text.push(byte as char);
    }
    let (high, middle, low) = (byte / 64, byte / 8 % 8, byte % 8);
    write!(text, "\\{high}{middle}{low}")
}

// Whether a byte stands for itself in a string.
fn is_plain(byte: u8) -> bool
    ensures { result ≡ stands_plain byte }
{
    byte >= 32 && byte <= 126 && byte != b'"' && byte != b'\\' && byte != b'?'
}

/// A form without parts.
pub fn push_form(text: &mut String, form: &str) -> Result<(), AllocError>
    ensures { OnOk result (string_bytes text.new ≡ string_bytes text.old ++ form.now) }
{
    text.push_str(form)
}
