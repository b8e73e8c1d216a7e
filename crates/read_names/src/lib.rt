// The names of a campaign's list ("segment files, named one a line"), as parts of the caller's bytes. Names are parted by newlines, and a last
// newline ends the last name.
#![tactic(auto)]

ghost use Rattle.std.specs.Prelude.{◌≡◌, length};
ghost use Rattle.std.specs.List.{position};
ghost use Rattle.meaning.specs.Campaign.{names_in};
ghost use Rattle.theory_campaign.specs.Listings.{first_name, after_name};
ghost use Rattle.read_names.specs.Names.{is_newline};

const NEWLINE: u8 = b'\n';

// Where the first newline stands, if there is one.
fn name_end(list: &[u8]) -> Option<usize>
    ensures { result ≡ position is_newline list.now }
{
    list.iter().position(|&b| b == NEWLINE)
}

// The first name.
pub fn first_name(list: &[u8]) -> &[u8]
    ensures { result.now ≡ first_name list.now }
{
    match name_end(list) {
        Some(end) => &list[..end],
        None => list,
    }
}

// What stands behind the first name and its newline.
pub fn after_name(list: &[u8]) -> &[u8]
    ensures { result.now ≡ after_name list.now }
{
    match name_end(list) {
        Some(end) => &list[end + 1..],
        None => &[],
    }
}

pub fn name_count(list: &[u8]) -> usize
    ensures { result ≡ length (names_in list.now) }
{
    let mut rest = list;
    let mut count = 0;
    while !rest.is_empty() {
        rest = after_name(rest);
        count += 1;
    }
    count
}
