//! The frames in the order in which their pages came.
//!
//! A page-in takes the frame of the oldest page that is not pinned, or a free frame, and puts it
//! last. No step of that goes over all frames.
ghost use Rattle.std.specs.Prelude.{reverse, ◌≡◌, ◌<◌, ◌≤◌, ◌+◌, ◌++◌, ◌∷◌, [], length};
ghost use Rattle.std.specs.Prelude.{slice_index, slice_index_or, take, drop, None, true, false};
ghost use Rattle.std.specs.Prelude.{IfOk, IfSome, IfNone, All};
ghost use Rattle.std.specs.List.{range_with_len, remove};
ghost use Rattle.std.specs.Vec.{vec_capacity, vec_len};
ghost use Rattle.std.specs.VecDeque.{deque_capacity, deque_len};
ghost use Rattle.cp_frames.specs.Paging.{counted, IsLongest, IsPinned};
ghost use Rattle.cp_frames.specs.Layout.{AreTaken};

use crate::UserPage;
use crate::pins::FramePins;
use std::alloc::{AllocError, Global};
use std::collections::VecDeque;
use std::marker::Model;

/// The frames in the order in which their pages came, in two parts.
///
/// The frame that is put last leaves the end of the first part, so the first part ends where that
/// frame was. The next one has its turn close to there, except after pages were released.
#[derive(Drop)]
pub struct FrameOrder {
    first: Vec<u16>,
    rest: VecDeque<u16>,
}

impl Model for FrameOrder {
    ghost use Rattle.std.specs.Prelude.{◌+◌, ◌++◌, ◌≤◌, List, ℕ};
    ghost use Rattle.std.specs.Vec.{vec_capacity, vec_len};
    ghost use Rattle.std.specs.VecDeque.{deque_capacity, deque_len};

    ghost Value = { List ℕ };

    ghost view = { λ o. o.first.items ++ o.rest.items };

    ghost invariant = { λ o. (vec_len o.first + deque_len o.rest ≤ vec_capacity o.first)
        × (vec_len o.first + deque_len o.rest ≤ deque_capacity o.rest) };
}

impl FrameOrder {
    /// Returns the order of this many free frames, the greatest first.
    ///
    /// Frame 0, which is last, is the first that is given a page.
    ///
    /// # Errors
    ///
    /// `AllocError` if memory is refused.
    pub fn new(alloc: Global, frames: u16) -> Result<FrameOrder, AllocError>
        ensures { IfOk result (λ order. order ≡ reverse (range_with_len 0 frames)) }
    {
        let first = all_frames(alloc, frames)?;
        let rest = VecDeque::with_capacity(alloc, first.len())?;
        Ok(FrameOrder { first, rest })
    }

    /// Returns how many frames there are.
    pub fn len(&self) -> usize
        ensures { result ≡ length self.now }
    {
        self.first.len() + self.rest.len()
    }

    /// Returns the frame that has a turn.
    pub fn frame_at(&self, turn: usize) -> u16
        requires { turn < length self.now }
        ensures { result ≡ slice_index self.now turn }
    {
        if turn < self.first.len() {
            self.first[turn]
        } else {
            self.rest[turn - self.first.len()]
        }
    }

    /// Returns the turn of a frame, if it is in the order.
    pub fn turn_of(&self, frame: u16) -> Option<usize>
        ensures { IfSome result (λ turn. turn < length self.now) }
    {
        for turn in 0..self.len() {
            if self.frame_at(turn) == frame {
                return Some(turn);
            }
        }
        None
    }

    /// Moves the frame that has this turn to the end; those after it move up by one.
    pub fn move_to_end(&mut self, turn: usize)
        requires { turn < length self.old }
        ensures { self.new ≡ remove self.old turn ++ slice_index self.old turn ∷ [] }
    {
        lengthen(&mut self.first, &mut self.rest, turn + 1);
        shorten(&mut self.first, &mut self.rest, turn + 1);
        match self.first.pop() {
            Some(frame) => self.rest.push_back_reserved(frame),
            None => unreachable!(),
        }
    }
}

/// Moves numbers from the beginning of `rest` to the end of `first` until that has `count`.
fn lengthen(first: &mut Vec<u16>, rest: &mut VecDeque<u16>, count: usize)
    requires enough { count ≤ vec_len first.old + deque_len rest.old }
    requires room { vec_len first.old + deque_len rest.old ≤ vec_capacity first.old }
    ensures same { first.new.items ++ rest.new.items ≡ first.old.items ++ rest.old.items }
    ensures count { count ≤ vec_len first.new }
    ensures all { vec_len first.new + deque_len rest.new ≡ vec_len first.old + deque_len rest.old }
    ensures first_room { vec_capacity first.new ≡ vec_capacity first.old }
    ensures rest_room { deque_capacity rest.new ≡ deque_capacity rest.old }
{
    while first.len() < count {
        match rest.pop_front() {
            Some(frame) => first.push_reserved(frame),
            None => unreachable!(),
        }
    }
}

/// Moves numbers from the end of `first` to the beginning of `rest` until `first` has `count` or
/// fewer.
fn shorten(first: &mut Vec<u16>, rest: &mut VecDeque<u16>, count: usize)
    requires room { vec_len first.old + deque_len rest.old ≤ deque_capacity rest.old }
    ensures same { first.new.items ++ rest.new.items ≡ first.old.items ++ rest.old.items }
    ensures count { count ≤ vec_len first.old → vec_len first.new ≡ count }
    ensures all { vec_len first.new + deque_len rest.new ≡ vec_len first.old + deque_len rest.old }
    ensures first_room { vec_capacity first.new ≡ vec_capacity first.old }
    ensures rest_room { deque_capacity rest.new ≡ deque_capacity rest.old }
{
    while count < first.len() {
        match first.pop() {
            Some(frame) => rest.push_front_reserved(frame),
            None => unreachable!(),
        }
    }
}

/// Returns a new list of the numbers of this many frames, the greatest first.
///
/// # Errors
///
/// `AllocError` if memory is refused.
fn all_frames(alloc: Global, frames: u16) -> Result<Vec<u16>, AllocError>
    ensures { IfOk result (λ order. order.items ≡ reverse (range_with_len 0 frames)) }
{
    let mut order = Vec::new(alloc);
    for frame in 0..frames {
        order.push(frame)?;
    }
    order.reverse();
    Ok(order)
}

/// Returns the greatest index below `end` in the order whose frame has no page in it, if there is
/// one.
///
/// The frames at `end` and after it all have pages. The frame found has the fewest frames after it,
/// which move up when it is put last.
pub fn free_turn(order: &FrameOrder, owners: &[Option<UserPage>], end: usize) -> Option<usize>
    requires frames { All (λ frame. frame < length owners.now) order.now }
    requires end { end ≤ length order.now }
    requires taken { AreTaken owners.now (drop end order.now) }
    ensures within { IfSome result (λ turn. turn < length order.now) }
    ensures free { IfSome result
        (λ turn. slice_index_or owners.now (slice_index order.now turn) None ≡ None) }
    ensures later { IfSome result (λ turn. AreTaken owners.now (drop (turn + 1) order.now)) }
    ensures none { IfNone result (AreTaken owners.now order.now) }
{
    for after in 0..end {
        let turn = end - 1 - after;
        if owners[order.frame_at(turn) as usize].is_none() {
            return Some(turn);
        }
    }
    None
}

/// Returns the first index in the order whose frame is not pinned, if there is one.
pub fn open_turn(order: &FrameOrder, pins: &FramePins) -> Option<usize>
    requires { All (λ frame. frame < length pins.now) order.now }
    ensures within { IfSome result (λ turn. turn < length order.now) }
    ensures longest { IfSome result (IsLongest order.now pins.now) }
    ensures none { IfNone result (All (IsPinned pins.now) order.now) }
{
    for turn in 0..order.len() {
        if !pins.is_pinned(order.frame_at(turn) as usize) {
            return Some(turn);
        }
    }
    None
}

/// Returns a number plus one, or the number itself if it is the greatest.
pub fn one_more(number: u64) -> u64
    ensures { result ≡ counted number }
{
    if number == u64::MAX {
        number
    } else {
        number + 1
    }
}
