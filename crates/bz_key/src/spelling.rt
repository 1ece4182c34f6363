//! The one spelling of keys and payloads, for scripts and reports.
ghost use Rattle.std.specs.Prelude.{◌≡◌, ◌≤◌, ◌<◌, ◌+◌, ◌*◌, ◌++◌, length, take, drop};
ghost use Rattle.bz_key.specs.Spelling.{is_plain, hex_digit, spelled_byte, spelled};

// Whether a byte stands for itself.
fn is_plain_byte(byte: u8) -> bool
    ensures { result ≡ is_plain byte }
{
    matches!(
        byte,
        b'a'..=b'z' | b'A'..=b'Z' | b'0'..=b'9' | b'.' | b'_' | b':' | b'/' | b'-'
    )
}

// The hexadecimal digit of a number, with capitals.
fn digit_of(n: u8) -> u8
    requires { n < 16 }
    ensures { result ≡ hex_digit n }
{
    if n < 10 { n + b'0' } else { n - 10 + b'A' }
}

// Puts the spelling of a byte at a place, and answers the place behind it.
#[tactic(auto, unfolding(crate::specs::Spelling::spelled_byte))]
fn spell_byte(byte: u8, out: &mut [u8], at: usize) -> usize
    requires { at + 3 ≤ length out.old }
    ensures end { result ≡ at + length (spelled_byte byte) }
    ensures text { out.new ≡ take at out.old ++ (spelled_byte byte ++ drop result out.old) }
{
    if is_plain_byte(byte) {
        out[at] = byte;
        return at + 1;
    }
    let escape = [b'%', digit_of(byte / 16), digit_of(byte % 16)];
    out[at..at + 3].copy_from_slice(&escape);
    at + 3
}

/// Puts the spelling of the bytes at the front of `out`, and answers its length in bytes.
///
/// No bytes are spelled `%`, and so take one place.
pub fn spell(bytes: &[u8], out: &mut [u8]) -> usize
    requires room { 3 * length bytes.now ≤ length out.old }
    requires some { 0 < length out.old }
    ensures len { result ≡ length (spelled bytes.now) }
    ensures text { out.new ≡ spelled bytes.now ++ drop result out.old }
{
    if bytes.is_empty() {
        out[0] = b'%';
        return 1;
    }
    let mut end = 0;
    for byte in bytes {
        end = spell_byte(*byte, out, end);
    }
    end
}
