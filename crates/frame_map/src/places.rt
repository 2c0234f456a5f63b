//! The places of a system, frames and slots, and the page that is in each.
ghost use Rattle.std.specs.Prelude.{◌≡◌, ◌<◌, IfOk, None, length, replicate, slice_get};
ghost use Rattle.frame_map.specs.Places.{pages_of, place_in, places_in, put_at, put_pages};

use cp_core::System;
use s370_store::Page;
use std::alloc::{AllocError, Global};
use user_names::UserNo;

/// A page of a user.
#[derive(Clone, Copy, PartialEq, Eq, Drop)]
pub struct Owner {
    /// Whose it is.
    pub user: UserNo,
    /// Its number.
    pub page: u32,
}

/// The places of a system: each has one page, or is free.
#[derive(Clone, Copy)]
pub enum PlaceKind {
    /// Page frames of real storage.
    Frames,
    /// Slots for the pages that are in no frame.
    Slots,
}

/// Returns which page is in each place of this kind, of which a system has so many.
#[tactic(auto, using(crate::proofs::Placed::user_more))]
pub(crate) fn places_in(
    alloc: Global,
    system: &System,
    kind: PlaceKind,
    count: usize,
) -> Result<Vec<Option<Owner>>, AllocError>
    ensures { IfOk result (λ places. places.items ≡ places_in system.now kind count) }
{
    let mut places = free_places(alloc, count)?;
    for number in 0..system.users() {
        put_pages(system, kind, UserNo::new(number as u8), &mut places);
    }
    Ok(places)
}

/// Returns so many places that are free.
#[tactic(auto, using(crate::proofs::Placed::free_more))]
fn free_places(alloc: Global, count: usize) -> Result<Vec<Option<Owner>>, AllocError>
    ensures { IfOk result (λ places. places.items ≡ replicate count None) }
{
    let mut places = Vec::new(alloc);
    for _place in 0..count {
        places.push(None)?;
    }
    Ok(places)
}

/// Records which places of this kind have the pages of a user.
#[tactic(auto, using(crate::proofs::Placed::page_more))]
fn put_pages(system: &System, kind: PlaceKind, user: UserNo, places: &mut [Option<Owner>])
    requires { user < length system.now.directory }
    ensures { places.new ≡ put_pages (place_in system.now kind user) user
        (pages_of (slice_get system.now.directory user)) places.old }
{
    for page in 0..pages_of(system, user) {
        put_page(
            places,
            place_of(system, kind, user, page),
            Owner { user, page },
        );
    }
}

/// Returns how many pages a user's storage has; 0 if there is no such user.
fn pages_of(system: &System, user: UserNo) -> u32
    ensures { result ≡ pages_of (slice_get system.now.directory user) }
{
    match system.directory().users().get(user.index()) {
        Some(user) => user.storage().pages(),
        None => 0,
    }
}

/// Returns the place of this kind that has a page of a user, if one has it.
fn place_of(system: &System, kind: PlaceKind, user: UserNo, page: u32) -> Option<usize>
    ensures { result ≡ place_in system.now kind user page }
{
    match kind {
        PlaceKind::Frames => match system.frame_of(user, Page(page)) {
            Some(frame) => Some(usize::from(frame.0)),
            None => None,
        },
        PlaceKind::Slots => system.slot_of(user, Page(page)),
    }
}

/// Records that a page is in the place of this number, if it is in one.
fn put_page(places: &mut [Option<Owner>], number: Option<usize>, owner: Owner)
    ensures { places.new ≡ put_at number owner places.old }
{
    let Some(number) = number else {
        return;
    };
    if number < places.len() {
        places[number] = Some(owner);
    }
}
