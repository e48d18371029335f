// A path as text, written at the start of a lent slice: UTF-8, with an escape for each code unit that cannot be shown as it is.
ghost use Rattle.std.specs.Prelude.{◌≡◌, true, ◌++◌, ◌+◌, ◌-◌, ◌*◌, ◌≤◌, ◌<◌, length, take, drop};
ghost use Rattle.path_listing.specs.Text.{within, is_pair, is_control, is_shown, utf8, escape, unit_text, pair_text, text};

// How many bytes of a path were read, and how many of its text that made.
#[derive(Clone, Copy)]
struct Extent {
    read: usize,
    written: usize,
}

// ---- Characters.

// Whether n is from a to b.
fn is_within(n: u64, a: u64, b: u64) -> bool
    ensures { result ≡ within a b n }
{
    if n < a {
        return false;
    }
    n <= b
}

// Whether two code units are one character.
fn is_pair(u: u64, v: u64) -> bool
    ensures { result ≡ is_pair u v }
{
    if !is_within(u, 0xD800, 0xDBFF) {
        return false;
    }
    is_within(v, 0xDC00, 0xDFFF)
}

// Whether a character could end a line or turn its direction.
fn is_control(c: u64) -> bool
    ensures { result ≡ is_control c }
{
    if c < 0x20 {
        return true;
    }
    if is_within(c, 0x7F, 0x9F) {
        return true;
    }
    if is_within(c, 0x2028, 0x202E) {
        return true;
    }
    is_within(c, 0x2066, 0x2069)
}

// Whether a character is shown as it is. A control character, half of a pair, a code point that stands for none and '<' are not.
fn is_shown(c: u64) -> bool
    ensures { result ≡ is_shown c }
{
    if is_control(c) {
        return false;
    }
    if is_within(c, 0xD800, 0xDFFF) {
        return false;
    }
    if is_within(c, 0xFDD0, 0xFDEF) {
        return false;
    }
    if 0xFFFE <= c % 0x10000 {
        return false;
    }
    c != 0x3C
}

// ---- How they are shown.

// Writes a character in UTF-8 and returns how many bytes that takes.
fn put_utf8(out: &mut [u8], c: u64) -> usize
    requires { (c < 0x110000) × (4 ≤ length out.old) }
    ensures { (result ≡ length (utf8 c)) × (result ≤ 4) × (out.new ≡ utf8 c ++ drop result out.old) }
{
    if c < 0x80 {
        out[0] = c as u8;
        return 1;
    }
    if c < 0x800 {
        out[0] = (0xC0 + c / 0x40) as u8;
        out[1] = (0x80 + c % 0x40) as u8;
        return 2;
    }
    if c < 0x10000 {
        out[0] = (0xE0 + c / 0x1000) as u8;
        out[1] = (0x80 + c / 0x40 % 0x40) as u8;
        out[2] = (0x80 + c % 0x40) as u8;
        return 3;
    }
    out[0] = (0xF0 + c / 0x40000) as u8;
    out[1] = (0x80 + c / 0x1000 % 0x40) as u8;
    out[2] = (0x80 + c / 0x40 % 0x40) as u8;
    out[3] = (0x80 + c % 0x40) as u8;
    4
}

// Writes a code unit as an escape: six bytes.
fn put_escape(out: &mut [u8], u: u64)
    requires { (u < 65536) × (6 ≤ length out.old) }
    ensures { out.new ≡ escape u ++ drop 6 out.old }
{
    let bytes = [(u / 256) as u8, (u % 256) as u8];
    out[0] = b'<';
    hex_text::put_hex(&mut out[1..], &bytes);
    out[5] = b'>';
}

// Writes a code unit that is not in a pair and returns how many bytes that takes.
fn put_unit(out: &mut [u8], u: u64) -> usize
    requires { (u < 65536) × (6 ≤ length out.old) }
    ensures { (result ≡ length (unit_text u)) × (result ≤ 6) × (out.new ≡ unit_text u ++ drop result out.old) }
{
    if is_shown(u) {
        return put_utf8(out, u);
    }
    put_escape(out, u);
    6
}

// Writes a pair and returns how many bytes that takes.
fn put_pair(out: &mut [u8], u: u64, v: u64) -> usize
    requires { (is_pair u v ≡ true) × (12 ≤ length out.old) }
    ensures { (result ≡ length (pair_text u v)) × (result ≤ 12) × (out.new ≡ pair_text u v ++ drop result out.old) }
{
    let c = 0x10000 + 0x400 * (u - 0xD800) + (v - 0xDC00);
    if is_shown(c) {
        return put_utf8(out, c);
    }
    put_escape(out, u);
    put_escape(&mut out[6..], v);
    12
}

// ---- A run of them.

// Writes what stands at `at`, a pair or a code unit.
fn put_next(out: &mut [u8], path: &[u8], at: usize) -> Extent
    requires { (at + 2 ≤ length path.now) × (3 * (length path.now - at) ≤ length out.old) }
    ensures { (2 ≤ result.read) × (at + result.read ≤ length path.now) × (result.written ≤ 3 * result.read) × (text (drop at path.now) ≡ take result.written out.new ++ text (drop (at + result.read) path.now)) × (out.new ≡ take result.written out.new ++ drop result.written out.old) }
{
    let u = le::get(path, at, 2);
    if path.len() - at < 4 {
        return Extent {
            read: 2,
            written: put_unit(out, u),
        };
    }
    let v = le::get(path, at + 2, 2);
    if !is_pair(u, v) {
        return Extent {
            read: 2,
            written: put_unit(out, u),
        };
    }
    Extent {
        read: 4,
        written: put_pair(out, u, v),
    }
}

// Writes a path as text and returns how many bytes that takes.
pub fn put_text(out: &mut [u8], path: &[u8]) -> usize
    requires { 3 * length path.now ≤ length out.old }
    ensures { (result ≡ length (text path.now)) × (result ≤ 3 * length path.now) × (out.new ≡ text path.now ++ drop result out.old) }
{
    let mut done = 0;
    let mut at = 0;
    while 2 <= path.len() - at {
        let next = put_next(&mut out[done..], path, at);
        done += next.written;
        at += next.read;
    }
    done
}
