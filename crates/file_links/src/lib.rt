// A file's links: when their table is right, and which one's name stands for the file. Here the table is lent as three slices of
// numbers: the places and lengths of the names in a pool, and the lengths of the short names.
#![tactic(auto)]

ghost use Rattle.std.specs.Prelude.{◌≡◌, ◌≤◌, length};
ghost use Rattle.file_links.specs.Links.{no_link, links_of, good_link, good_table, chosen_link};
ghost use Rattle.file_links.specs.Steps.{has, first_nonzero};

use names::good_in;

// A link: the place and length of its name in a pool, and the length of its short name.
#[repr(C)]
#[derive(Clone, Copy)]
pub struct Link {
    pub place: u32,
    pub length: u32,
    pub short: u32,
}

// A link with an empty name.
pub fn no_link() -> Link
    ensures { result ≡ no_link }
{
    Link {
        place: 0,
        length: 0,
        short: 0,
    }
}

// Whether a link has a short name, or, where that is not asked for, a name.
pub fn has_name(l: Link, short: bool) -> bool
    ensures { result ≡ has short l }
{
    if short {
        return l.short != 0;
    }
    l.length != 0
}

// Whether a link's name lies inside the pool and may be one.
pub fn good_link(pool: &[u8], l: Link) -> bool
    ensures { result ≡ good_link pool.now l }
{
    good_in(pool, l.place as u64, l.length)
}

// Whether the whole table of links is right.
pub fn good_table(pool: &[u8], places: &[u32], lengths: &[u32], shorts: &[u32]) -> bool
    ensures { result ≡ good_table pool.now places.now lengths.now shorts.now }
{
    let n = places.len();
    if lengths.len() != n {
        return false;
    }
    if shorts.len() != n {
        return false;
    }
    for i in 0..n {
        let link = Link {
            place: places[i],
            length: lengths[i],
            short: shorts[i],
        };
        if !good_link(pool, link) {
            return false;
        }
    }
    true
}

// The index of the first number that is not 0, or how many numbers there are.
fn first_nonzero(s: &[u32]) -> usize
    ensures { (result ≡ first_nonzero s.now) × (result ≤ length s.now) }
{
    let mut i = 0;
    loop {
        if s.len() <= i {
            break i;
        }
        if s[i] != 0 {
            break i;
        }
        i += 1;
    }
}

// The link whose name stands for the file: the first with a short name, where the search stops; with no such link, the first whose
// name is not empty; else one with an empty name.
pub fn choose_link(places: &[u32], lengths: &[u32], shorts: &[u32]) -> Link
    requires { (length lengths.now ≡ length places.now) × (length shorts.now ≡ length places.now) }
    ensures { result ≡ chosen_link (links_of places.now lengths.now shorts.now) }
{
    let n = places.len();
    let short = first_nonzero(shorts);
    let named = first_nonzero(lengths);
    let i = if short < n { short } else { named };
    if n <= i {
        return no_link();
    }
    Link {
        place: places[i],
        length: lengths[i],
        short: shorts[i],
    }
}
