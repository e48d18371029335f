// Bytes and 32-bit numbers in lower-case hex, as ASCII text, written at the start of a lent slice.
#![tactic(auto)]

ghost use Rattle.std.specs.Prelude.{◌≡◌, ◌++◌, ◌*◌, ◌≤◌, ◌<◌, length, drop};
ghost use Rattle.hex_text.specs.Hex.{hex_digit, hex_byte, hex_bytes, hex_word};

// A digit of lower-case hex.
fn hex_digit(d: u8) -> u8
    requires { d < 16 }
    ensures { result ≡ hex_digit d }
{
    if d < 10 { 48 + d } else { 87 + d }
}

// Writes a byte in two digits.
fn put_hex_byte(out: &mut [u8], b: u8)
    requires { 2 ≤ length out.old }
    ensures { out.new ≡ hex_byte b ++ drop 2 out.old }
{
    out[0] = hex_digit(b / 16);
    out[1] = hex_digit(b % 16);
}

// Writes each byte of `s` in two digits.
pub fn put_hex(out: &mut [u8], s: &[u8])
    requires { 2 * length s.now ≤ length out.old }
    ensures { out.new ≡ hex_bytes s.now ++ drop (2 * length s.now) out.old }
{
    for (i, byte) in s.iter().enumerate() {
        put_hex_byte(&mut out[2 * i..], *byte);
    }
}

// Writes 32 bits in eight digits.
pub fn put_hex_word(out: &mut [u8], x: u32)
    requires { 8 ≤ length out.old }
    ensures { out.new ≡ hex_word x ++ drop 8 out.old }
{
    put_hex_byte(out, (x / 16777216 % 256) as u8);
    put_hex_byte(&mut out[2..], (x / 65536 % 256) as u8);
    put_hex_byte(&mut out[4..], (x / 256 % 256) as u8);
    put_hex_byte(&mut out[6..], (x % 256) as u8);
}
