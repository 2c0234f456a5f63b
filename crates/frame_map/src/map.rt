//! The map: a line for each run of places that have successive pages of one user, and how many are
//! free.
ghost use Rattle.std.specs.Prelude.{◌≡◌, ◌+◌, ◌*◌, ◌^◌, ◌<◌, ◌++◌, IfOk, OnOk, count_by, is_none};
ghost use Rattle.std.specs.Prelude.{length, map};
ghost use Rattle.s370_num.specs.Address.{storage_address};
ghost use Rattle.user_names.specs.Users.{name_of};
ghost use Rattle.cp_core.specs.System.{names_of};
ghost use Rattle.frame_map.specs.Places.{places_in};
ghost use Rattle.frame_map.specs.Printed.{IsMap};
ghost use Rattle.frame_map.specs.Runs.{HasPlaces, IsLongestRun, follows, free_line, place_line};
ghost use Rattle.frame_map.specs.Runs.{pages_end, places_line, run_text};

use crate::places::{Owner, PlaceKind, places_in};
use cp_core::{Sizes, System};
use cp_directory::User;
use s370_num::Addr24;
use s370_store::PAGE_SIZE;
use std::alloc::{AllocError, Global};
use user_names::name_of;

/// Returns the map of a system that has so many frames and slots, as lines that are ended by LF:
/// frames, slots, and how many pages have been paged in so far.
///
/// # Errors
///
/// `AllocError` if memory is refused.
pub fn frame_map(alloc: Global, system: &System, sizes: Sizes) -> Result<Vec<u8>, AllocError>
    ensures { IfOk result (λ text. IsMap system.now sizes text.items) }
{
    let mut text = kind_text(
        alloc,
        "FRAME",
        system,
        PlaceKind::Frames,
        sizes.frames() as usize,
    )?;
    let slots = kind_text(
        alloc,
        "SLOT",
        system,
        PlaceKind::Slots,
        sizes.slots() as usize,
    )?;
    let page_ins = system.page_ins();
    let line = format!(in alloc; "PAGE INS {page_ins}\n")?;
    text.extend_from_slice(&slots)?;
    text.extend_from_slice(line.as_bytes())?;
    Ok(text)
}

/// Returns the lines of the places of this kind, of which a system has so many, and which `word`
/// calls frames or slots.
fn kind_text(
    alloc: Global,
    word: &str,
    system: &System,
    kind: PlaceKind,
    count: usize,
) -> Result<Vec<u8>, AllocError>
    ensures { IfOk result (λ text. HasPlaces word.now (names_of system.now.directory)
        (places_in system.now kind count) text.items) }
{
    let places = places_in(alloc, system, kind, count)?;
    let users = system.directory().users();
    places_text(alloc, word, &places, users)
}

/// Returns the lines of these places, which `word` calls frames or slots: one for each run of
/// places with pages, and one of how many are free.
fn places_text(
    alloc: Global,
    word: &str,
    places: &[Option<Owner>],
    users: &[User],
) -> Result<Vec<u8>, AllocError>
    ensures { IfOk result
        (λ text. HasPlaces word.now (map (λ user. user.name) users.now) places.now text.items) }
{
    let mut text = Vec::new(alloc);
    let mut rest = places;
    let mut first = 0;
    while !rest.is_empty() {
        let count = run_length(rest);
        let (run, after) = rest.split_at(count);
        append_run(alloc, &mut text, word, first, run, users)?;
        first += count;
        rest = after;
    }
    append_free(alloc, &mut text, word, places)?;
    Ok(text)
}

/// Appends the line of how many of these places are free.
fn append_free(
    alloc: Global,
    out: &mut Vec<u8>,
    word: &str,
    places: &[Option<Owner>],
) -> Result<(), AllocError>
    ensures { OnOk result (out.new.items ≡ out.old.items ++ free_line word.now places.now) }
{
    let free = free_count(places);
    let all = places.len();
    let line = format!(in alloc; "FREE {word}S {free} OF {all}\n")?;
    out.extend_from_slice(line.as_bytes())
}

/// Returns how many of these places are free.
fn free_count(places: &[Option<Owner>]) -> usize
    ensures { result ≡ count_by is_none places.now }
{
    places.iter().filter(|place| place.is_none()).count()
}

/// Returns how many of the first places are one run: free ones, or ones that have successive pages
/// of one user.
fn run_length(places: &[Option<Owner>]) -> usize
    requires { 0 < length places.now }
    ensures { IsLongestRun places.now result }
{
    let mut count = 1;
    while count < places.len() && follows(places[count - 1], places[count]) {
        count += 1;
    }
    count
}

/// Returns whether a place continues the run of the one before it: both are free, or it has the
/// next page of the same user.
fn follows(before: Option<Owner>, next: Option<Owner>) -> bool
    ensures { result ≡ follows before next }
{
    match (before, next) {
        (None, None) => true,
        (Some(before), Some(next)) => {
            before.user == next.user && u64::from(before.page) + 1 == u64::from(next.page)
        }
        _ => false,
    }
}

/// Appends the line of a run of places, of which the first has this number; a run of free places
/// has none.
fn append_run(
    alloc: Global,
    out: &mut Vec<u8>,
    word: &str,
    first: usize,
    run: &[Option<Owner>],
    users: &[User],
) -> Result<(), AllocError>
    requires some { 0 < length run.now }
    requires fits { first + length run.now < 2 ^ 64 }
    ensures { OnOk result (out.new.items ≡ out.old.items
        ++ run_text word.now (map (λ user. user.name) users.now) first run.now) }
{
    let more = run.len() - 1;
    let Some(owner) = run[0] else {
        return Ok(());
    };
    let Some(end) = run[more] else {
        return Ok(());
    };
    let name = name_of(users, owner.user);
    if more == 0 {
        append_place(alloc, out, word, first, name, owner.page)
    } else {
        append_places(alloc, out, word, first, more, name, owner.page, end.page)
    }
}

/// Appends the line of one place, which has a page of the user of this name.
fn append_place(
    alloc: Global,
    out: &mut Vec<u8>,
    word: &str,
    first: usize,
    name: &[u8],
    page: u32,
) -> Result<(), AllocError>
    ensures { OnOk result (out.new.items ≡ out.old.items
        ++ place_line word.now first name.now page) }
{
    let page = address_of(page);
    let head = format!(in alloc; "{word} {first} ")?;
    let tail = format!(in alloc; " {page}\n")?;
    out.extend_from_slice(head.as_bytes())?;
    out.extend_from_slice(name)?;
    out.extend_from_slice(tail.as_bytes())
}

/// Appends the line of a place and of so many more after it, which have the pages of the user of
/// this name from `page` to `end`.
fn append_places(
    alloc: Global,
    out: &mut Vec<u8>,
    word: &str,
    first: usize,
    more: usize,
    name: &[u8],
    page: u32,
    end: u32,
) -> Result<(), AllocError>
    requires { first + more < 2 ^ 64 }
    ensures { OnOk result (out.new.items ≡ out.old.items
        ++ places_line word.now first (first + more) name.now page end) }
{
    let last = first + more;
    let head = format!(in alloc; "{word}S {first}-{last} ")?;
    out.extend_from_slice(head.as_bytes())?;
    out.extend_from_slice(name)?;
    append_pages(alloc, out, page, end)
}

/// Appends the first page and the last of a run, and the end of the line.
#[tactic(auto, unfolding(crate::specs::Runs::pages_end))]
fn append_pages(alloc: Global, out: &mut Vec<u8>, page: u32, end: u32) -> Result<(), AllocError>
    ensures { OnOk result (out.new.items ≡ out.old.items ++ pages_end page end) }
{
    let page = address_of(page);
    let end = address_of(end);
    let pages = format!(in alloc; " {page}-{end}\n")?;
    out.extend_from_slice(pages.as_bytes())
}

/// Returns the address at which a page begins.
fn address_of(page: u32) -> Addr24
    ensures { result ≡ storage_address (page * 4096) }
{
    Addr24::wrapping(page.wrapping_mul(PAGE_SIZE))
}
