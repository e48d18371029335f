// An id as a word in hex.
ghost use Rattle.std.specs.Prelude.{◌≡◌, ◌≤◌, length};
ghost use Rattle.usnpaths.specs.Root.{digit_of, digits_from, start_of, id_of};

// The value of a digit in either case.
#[tactic(auto, unfolding(crate::specs::Root::digit_of))]
fn digit(b: u8) -> Option<u8>
    ensures { result ≡ digit_of b }
{
    match b {
        b'0'..=b'9' => Some(b - b'0'),
        b'A'..=b'F' => Some(b - 55),
        b'a'..=b'f' => Some(b - 87),
        _ => None,
    }
}

// The id of at most 32 digits.
fn read_digits(s: &[u8]) -> Option<u128>
    requires { length s.now ≤ 32 }
    ensures { result ≡ digits_from 0 s.now }
{
    let mut id: u128 = 0;
    for b in s {
        id = 16 * id + digit(*b)? as u128;
    }
    Some(id)
}

// Where a word's digits start: behind "0x", if it has that in front.
fn digits_from(word: &[u8]) -> usize
    ensures { (result ≡ start_of word.now) × (result ≤ length word.now) }
{
    if word.len() < 2 {
        return 0;
    }
    if word[0] != b'0' {
        return 0;
    }
    if word[1] != b'x' {
        return 0;
    }
    2
}

// The id that a word says, in 1 to 32 digits.
pub fn read_root(word: &[u8]) -> Option<u128>
    ensures { result ≡ id_of word.now }
{
    let from = digits_from(word);
    let count = word.len() - from;
    if count < 1 {
        return None;
    }
    if 32 < count {
        return None;
    }
    read_digits(&word[from..])
}
