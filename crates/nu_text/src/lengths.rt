//! How long texts are.

ghost use Rattle.std.specs.Prelude.{◌≡◌};
ghost use Rattle.nu_text.specs.Characters as spec;

/// How many characters a text in UTF-8 has.
pub fn characters(text: &[u8]) -> usize
    ensures { result ≡ spec.characters text.now }
{
    let mut count: usize = 0;
    for byte in text {
        if *byte < 128 || 192 <= *byte {
            count += 1;
        }
    }
    count
}
