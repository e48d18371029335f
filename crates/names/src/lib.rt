// The rule for a name: even, at most 510 bytes, and no code unit 0, 0x2F or 0x5C. A code unit is two bytes, the lower first.
#![tactic(auto)]

ghost use Rattle.std.specs.Prelude.{◌≡◌, ◌++◌, ◌+◌, ◌%◌, length};
ghost use Rattle.std.specs.Int.Bits.{bit_and};
ghost use Rattle.names.specs.Names.{good_unit, good_units, good_name, good_in};

// Bit 15 of each of the four code units of a word.
const TOPS: u64 = 0x8000_8000_8000_8000;

// The bits below it.
const LOWS: u64 = 0x7FFF_7FFF_7FFF_7FFF;

// 0x2F in each.
const SLASHES: u64 = 0x002F_002F_002F_002F;

// 0x5C in each.
const BACKSLASHES: u64 = 0x005C_005C_005C_005C;

// ---- Code units.

// Whether a name may hold a code unit.
fn good_unit(u: u64) -> bool
    ensures { result ≡ good_unit u }
{
    if u == 0 {
        return false;
    }
    if u == 0x2F {
        return false;
    }
    u != 0x5C
}

// Whether a name may hold each code unit of `s`: one at a time.
fn each_good(s: &[u8]) -> bool
    ensures { result ≡ good_units s.now }
{
    for unit in s.chunks_exact(2) {
        if !good_unit(le::get(unit, 0, 2)) {
            return false;
        }
    }
    true
}

// Of each code unit of a word: bit 15 is set where one of the bits below it is set in z. No code unit carries into the next.
fn nonzero(z: u64) -> u64
    ensures { result ≡ bit_and z 0x7FFF_7FFF_7FFF_7FFF + 0x7FFF_7FFF_7FFF_7FFF }
{
    (z & LOWS) + LOWS
}

// Whether a name may hold each code unit of `s`: four at a time. The loop has no exit, so that it is compiled to one over wider
// words: bit 15 of each code unit of `seen` stays set as long as only good ones came by there. Where a bit is lost, each code unit is
// looked at.
fn good_units(s: &[u8]) -> bool
    ensures { result ≡ good_units s.now }
{
    let mut seen = TOPS;
    let words = s.chunks_exact(8);
    let rest = words.remainder();
    for word in words {
        let w = le::get(word, 0, 8);
        // a code unit with bit 15 is good, whatever it is else
        seen &= (nonzero(w) & nonzero(w ^ SLASHES) & nonzero(w ^ BACKSLASHES)) | w;
    }
    if seen & TOPS == TOPS {
        return each_good(rest);
    }
    each_good(s)
}

// ---- Names.

// Whether there may be this name.
pub fn good_name(name: &[u8]) -> bool
    ensures { result ≡ good_name name.now }
{
    if 510 < name.len() {
        return false;
    }
    if name.len() % 2 != 0 {
        return false;
    }
    // Lent anew: a slice that a function hands on as it came is passed to that function in memory, one that it only looks into in
    // registers, and a walk over records calls this for each of them.
    let whole = &name[0..];
    // less than a word: the loop over words would do nothing
    if name.len() < 8 {
        return each_good(whole);
    }
    good_units(whole)
}

// Whether the `length` bytes from `place` on lie inside the pool and may be a name.
pub fn good_in(pool: &[u8], place: u64, length: u32) -> bool
    ensures { result ≡ good_in pool.now place length }
{
    let n = length as usize;
    if pool.len() < n {
        return false;
    }
    // place and length together may overflow; the pool's length less the name's does not
    if pool.len() - n < place as usize {
        return false;
    }
    let from = place as usize;
    let to = from + n;
    good_name(&pool[from..to])
}

// Whether there may be a name of these two parts, the first of which has whole code units.
pub fn good_parts(head: &[u8], tail: &[u8]) -> bool
    requires { length head.now % 2 ≡ 0 }
    ensures { result ≡ good_name (head.now ++ tail.now) }
{
    if !good_name(head) {
        return false;
    }
    if !good_name(tail) {
        return false;
    }
    head.len() + tail.len() <= 510
}
