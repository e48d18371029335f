// File ids as sixteen bytes by value, the lowest first. In contracts an id is the list of its bytes; `id_number` and `id_bytes` go between
// that and the one number that a record's layout has for it.
#![tactic(auto)]

ghost use Rattle.std.specs.Prelude.{◌≡◌, ◌+◌, ◌*◌, ◌^◌, ◌≤◌, length};
ghost use Rattle.le.specs.Numbers.{unle, number_at};
ghost use Rattle.file_ids.specs.Ids.{wide, id_number, id_bytes};

pub type FileId = [u8; 16];

// Whether an id's upper eight bytes are not all zero, so that version 2 cannot show it.
pub fn is_wide(id: FileId) -> bool
    ensures { result ≡ wide id }
{
    le::get(&id, 8, 8) != 0
}

// The eight bytes of an id from `at` on as one number: its lower half at 0, its upper at 8.
pub fn half(id: FileId, at: usize) -> u64
    requires { at ≤ 8 }
    ensures { result ≡ number_at id at 8 }
{
    le::get(&id, at, 8)
}

// An id as one number.
pub fn id_number(id: FileId) -> u128
    ensures { result ≡ id_number id }
{
    u128::from_le_bytes(id)
}

// The id whose lowest bytes are those of `s`, at most sixteen; the others are zero. A slice whose length is a constant becomes one load.
pub fn id_from(s: &[u8]) -> FileId
    requires { length s.now ≤ 16 }
    ensures { result ≡ id_bytes (unle s.now) }
{
    let mut id = [0u8; 16];
    le::copy(&mut id, s);
    id
}

// The id of a number of eight bytes.
pub fn id_of(low: u64) -> FileId
    ensures { result ≡ id_bytes low }
{
    let mut id = [0u8; 16];
    le::put(&mut id, 8, low);
    id
}

// The id of two halves.
pub fn id_of_halves(low: u64, high: u64) -> FileId
    ensures { result ≡ id_bytes (low + 2 ^ 64 * high) }
{
    let mut id = [0u8; 16];
    le::put_two(&mut id, 8, low, high);
    id
}
