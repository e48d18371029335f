// Numbers of 64 bits in decimal, as ASCII text, written at the start of a lent slice.
#![tactic(auto)]

ghost use Rattle.std.specs.Prelude.{◌≡◌, ◌++◌, ◌≤◌, length, drop};
ghost use Rattle.decimal.specs.Decimal.{decimal, signed};

// Writes a number in decimal and returns how many digits it has.
pub fn put_decimal(out: &mut [u8], value: u64) -> usize
    requires { 20 ≤ length out.old }
    ensures { (result ≡ length (decimal value)) × (result ≤ 20) × (out.new ≡ decimal value ++ drop result out.old) }
{
    let mut digits = [0u8; 20];
    let mut i = 20;
    let mut rest = value;
    let start = loop {
        i -= 1;
        digits[i] = (48 + rest % 10) as u8;
        if rest < 10 {
            break i;
        }
        rest = rest / 10;
    };
    le::copy(out, &digits[start..]);
    20 - start
}

// Writes a number of 64 bits as a signed one and returns how many bytes that takes.
pub fn put_signed(out: &mut [u8], value: u64) -> usize
    requires { 21 ≤ length out.old }
    ensures { (result ≡ length (signed value)) × (result ≤ 21) × (out.new ≡ signed value ++ drop result out.old) }
{
    if value < 0x8000_0000_0000_0000 {
        return put_decimal(out, value);
    }
    out[0] = b'-';
    let magnitude = 0xFFFF_FFFF_FFFF_FFFF - value + 1;
    1 + put_decimal(&mut out[1..], magnitude)
}
