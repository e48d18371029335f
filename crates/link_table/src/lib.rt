// A file's links as a slice of structs. Each function here only looks through the slice: what is asked of one link stands in
// `file_links`, over a link by value.
#![tactic(auto)]

ghost use Rattle.std.specs.Prelude.{◌≡◌};
ghost use Rattle.file_links.specs.Links.{good_links, first_of, chosen_link};
ghost use Rattle.file_links.specs.Steps.{has};

use file_links::{Link, good_link, has_name, no_link};

// Whether the whole table of links is right.
pub fn good_links(pool: &[u8], links: &[Link]) -> bool
    ensures { result ≡ good_links pool.now links.now }
{
    for link in links {
        if !good_link(pool, *link) {
            return false;
        }
    }
    true
}

// The first link that has a short name, where that is asked for, else that has a name; or another link.
pub fn first_link(links: &[Link], short: bool, other: Link) -> Link
    ensures { result ≡ first_of (has short) links.now other }
{
    let mut i = 0;
    let at = loop {
        if links.len() <= i {
            break i;
        }
        let link = links[i];
        if has_name(link, short) {
            break i;
        }
        i += 1;
    };
    if links.len() <= at {
        return other;
    }
    links[at]
}

// The link whose name stands for the file: the first with a short name, where the search stops; with no such link, the first whose
// name is not empty; else one with an empty name.
pub fn choose_link(links: &[Link]) -> Link
    ensures { result ≡ chosen_link links.now }
{
    let named = first_link(links, false, no_link());
    first_link(links, true, named)
}
