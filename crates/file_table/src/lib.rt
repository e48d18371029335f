// A table of a volume's files, lent as rows of 56 bytes: id and parent of 16 bytes each, Usn u64, attributes u32, and the length u32
// and place u64 of the name in a pool. A table in rising order of ids is judged in two passes, and a row of it is found by halving; in any
// other order each id is looked for in the rows behind it, and a row is found by a pass.
#![tactic(auto)]

ghost use Rattle.std.specs.Prelude.{◌≡◌, true, not, ◌+◌, ◌%◌, ◌≤◌, ltb, eqb, length, drop, option_map, IfSome};
ghost use Rattle.le.specs.Numbers.{number_at};
ghost use Rattle.file_table.specs.declared.Order.TheVariants.{Rising};
ghost use Rattle.file_table.specs.Table.{rows, good_row, good_rows, has_id, distinct, right_table, rising, order_of, Stands};
ghost use Rattle.file_table.specs.Steps.{row_at, id_at, Parts};

use names::good_in;

// The bytes of a row, and where its parts stand in it.
pub const ROW: usize = 56;

pub const PARENT: usize = 16;

pub const USN: usize = 32;

pub const ATTRIBUTES: usize = 40;

pub const LENGTH: usize = 44;

pub const PLACE: usize = 48;

// The order of ids in a table.
#[derive(Clone, Copy, Debug, PartialEq, Eq)]
pub enum Order {
    Rising,
    Mixed,
}

// A table that is right, with the pool of its names.
#[derive(Clone, Copy)]
pub struct Table<'a> {
    pub bytes: &'a [u8],
    pub pool: &'a [u8],
    pub order: Order,
    pub ghost right: { right_table pool.now bytes.now ≡ true },
    pub ghost rises: { order ≡ Rising → rising (rows bytes.now) ≡ true },
}

// ---- Ids.

// The id in the sixteen bytes from `at` on, as one number.
pub fn key_at(table: &[u8], at: usize) -> u128
    requires { at + 16 ≤ length table.now }
    ensures { result ≡ number_at table.now at 16 }
{
    let low = le::get(table, at, 8);
    let high = le::get(table, at + 8, 8);
    low as u128 + 0x1_0000_0000_0000_0000 * high as u128
}

// Whether the row at `a` has a lower id than the one at `b`.
pub fn is_below(table: &[u8], a: usize, b: usize) -> bool
    requires { (a + 56 ≤ length table.now) × (b + 56 ≤ length table.now) }
    ensures { result ≡ ltb (id_at table.now a) (id_at table.now b) }
{
    key_at(table, a) < key_at(table, b)
}

// Whether each id is above the one before it.
fn rises(table: &[u8]) -> bool
    ensures { result ≡ rising (rows table.now) }
{
    let mut at = 0;
    while ROW + ROW <= table.len() - at {
        let next = at + ROW;
        if !is_below(table, at, next) {
            return false;
        }
        at = next;
    }
    true
}

// Whether the row at `at` has this id. Most ids differ in their lower halves, so these are read alone first: where each two rows are compared, that
// is one load for a pair. The upper halves are read alone too, since the compiler compares whole ids in more steps.
fn is_at(table: &[u8], at: usize, id: u128) -> bool
    requires { at + 56 ≤ length table.now }
    ensures { result ≡ eqb (id_at table.now at) id }
{
    if le::get(table, at, 8) as u128 != id % 0x1_0000_0000_0000_0000 {
        return false;
    }
    le::get(table, at + 8, 8) as u128 == id / 0x1_0000_0000_0000_0000
}

// Whether the id of the row at `at` stands in a row behind it too.
fn has_duplicate(table: &[u8], at: usize) -> bool
    requires { at + 56 ≤ length table.now }
    ensures { result ≡ has_id (id_at table.now at) (rows (drop (at + 56) table.now)) }
{
    let id = key_at(table, at);
    let mut next = at + ROW;
    while ROW <= table.len() - next {
        if is_at(table, next, id) {
            return true;
        }
        next += ROW;
    }
    false
}

// Whether an id stands twice: each is looked for in all rows behind it.
fn has_duplicates(table: &[u8]) -> bool
    ensures { not result ≡ distinct (rows table.now) }
{
    let mut at = 0;
    while ROW <= table.len() - at {
        if has_duplicate(table, at) {
            return true;
        }
        at += ROW;
    }
    false
}

// ---- The judgement.

// Whether the id of the row at `at` is the number 2^64-1.
fn is_last(table: &[u8], at: usize) -> bool
    requires { at + 56 ≤ length table.now }
    ensures { result ≡ eqb (id_at table.now at) 0xFFFF_FFFF_FFFF_FFFF }
{
    key_at(table, at) == 0xFFFF_FFFF_FFFF_FFFF
}

// Whether the row at `at` has a good name, a Usn that is not negative, and an id other than 2^64-1.
fn good_row(pool: &[u8], table: &[u8], at: usize) -> bool
    requires { at + 56 ≤ length table.now }
    ensures { result ≡ good_row pool.now (row_at table.now at) }
{
    if 0x8000_0000_0000_0000 <= le::get(table, at + USN, 8) {
        return false;
    }
    if is_last(table, at) {
        return false;
    }
    let place = le::get(table, at + PLACE, 8);
    let length = le::get(table, at + LENGTH, 4);
    good_in(pool, place, length as u32)
}

// Whether every row is good.
fn good_rows(pool: &[u8], table: &[u8]) -> bool
    ensures { result ≡ good_rows pool.now (rows table.now) }
{
    let mut at = 0;
    while ROW <= table.len() - at {
        if !good_row(pool, table, at) {
            return false;
        }
        at += ROW;
    }
    true
}

// ---- The row of an id.

// The place of the first row of a table by rising id that has no lower id than this one, or the table's end: by halving.
fn first_from(table: &[u8], id: u128) -> usize
    requires { (length table.now % 56 ≡ 0) × (rising (rows table.now) ≡ true) }
    ensures { Parts id table.now result }
{
    let mut low = 0;
    let mut high = table.len() / ROW;
    while low < high {
        let middle = low + (high - low) / 2;
        if key_at(table, middle * ROW) < id {
            low = middle + 1;
        } else {
            high = middle;
        }
    }
    low * ROW
}

// Where the row of an id stands in a table by rising id.
fn find_rising(table: &[u8], id: u128) -> Option<usize>
    requires { (length table.now % 56 ≡ 0) × (rising (rows table.now) ≡ true) }
    ensures { Stands id table.now result }
{
    let at = first_from(table, id);
    if at == table.len() {
        return None;
    }
    if key_at(table, at) != id {
        return None;
    }
    Some(at)
}

// The same in a table in any order: by a pass.
fn find_any(table: &[u8], id: u128) -> Option<usize>
    requires { length table.now % 56 ≡ 0 }
    ensures { Stands id table.now result }
{
    let mut at = 0;
    while at < table.len() {
        if is_at(table, at, id) {
            return Some(at);
        }
        at += ROW;
    }
    None
}

// Where the row of an id stands in a table of whole rows, in this order.
pub fn find_row(table: &[u8], order: Order, id: u128) -> Option<usize>
    requires { (length table.now % 56 ≡ 0) × (order ≡ Rising → rising (rows table.now) ≡ true) }
    ensures { Stands id table.now result }
{
    match order {
        Order::Rising => find_rising(table, id),
        Order::Mixed => find_any(table, id),
    }
}

impl<'a> Table<'a> {
    // The table in these bytes, if it is right. Where ids rise, none stands twice.
    pub fn judge(bytes: &'a [u8], pool: &'a [u8]) -> Option<Table<'a>>
        ensures { (option_map (λ t. t.order) result ≡ order_of pool.now bytes.now) × IfSome result (λ t. (t.bytes.now ≡ bytes.now) × (t.pool.now ≡ pool.now)) }
    {
        if bytes.len() % ROW != 0 {
            return None;
        }
        if !good_rows(pool, bytes) {
            return None;
        }
        if rises(bytes) {
            return Some(Table {
                bytes,
                pool,
                order: Order::Rising,
            });
        }
        if has_duplicates(bytes) {
            return None;
        }
        Some(Table {
            bytes,
            pool,
            order: Order::Mixed,
        })
    }

    // Where the row of an id stands.
    pub fn find(&self, id: u128) -> Option<usize>
        ensures { Stands id self.now.bytes.now result }
    {
        find_row(self.bytes, self.order, id)
    }
}
