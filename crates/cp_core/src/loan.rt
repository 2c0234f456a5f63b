//! Where a user's page is, and the loan of frames: the bytes of one.
ghost use Rattle.std.specs.Prelude.{◌≡◌, ℕ, ◌*◌, ◌<◌, ◌↔◌, nat_lt, true, Some, None, IfNone};
ghost use Rattle.std.specs.Prelude.{IfSome, IsSome, length};
ghost use Rattle.cp_frames.specs.Layout.{IsZeroPage, number_of};
ghost use Rattle.cp_core.specs.Loan.{frame_at, slot_at, written_frame};
ghost use Rattle.cp_core.specs.System.{machine_at};

use crate::system::System;
use cp_frames::{FRAME_SIZE, FrameNo};
use s370_store::{PAGE_SIZE, Page};
use user_names::UserNo;

impl System {
    ghost use Rattle.std.specs.Borrow.{sem};
    ghost use Rattle.cp_core.specs.Loan.{LendsFrame};

    /// Returns whether a user's storage has this page; false if there is no such user.
    fn has_page(&self, user: UserNo, page: Page) -> bool
        ensures inside { result ≡ nat_lt (page.0 * 4096)
            (length (machine_at self.now user).core.processor.bytes) }
        ensures user { result ≡ true → user < length self.now.users }
    {
        if user.index() >= self.users() {
            return false;
        }
        u64::from(page.0) * u64::from(PAGE_SIZE) < u64::from(self.frames.size(user))
    }

    /// Returns the frame that a page of a user's storage is in, if it is in one; None past his
    /// storage, or if there is no such user.
    ///
    /// A page that is in no frame and in no slot is all zero. This takes no memory.
    pub fn frame_of(&self, user: UserNo, page: Page) -> Option<FrameNo>
        ensures frame { number_of result ≡ frame_at self.now user page.0 }
        ensures apart { IsSome result → slot_at self.now user page.0 ≡ None }
        ensures once { IfSome result
            (λ frame. (other other_page : ℕ) → frame_at self.now other other_page ≡ Some frame.0
            → (other ≡ user)
            × (other_page ≡ page.0)) }
        ensures zero { IfNone result
            (slot_at self.now user page.0 ≡ None
            → IsZeroPage (machine_at self.now user).core.processor.bytes page.0) }
    {
        if !self.has_page(user, page) {
            return None;
        }
        self.frames.frame_of(user, page)
    }

    /// Returns the slot that a page of a user's storage is in, if it is in one; None past his
    /// storage, or if there is no such user.
    ///
    /// A page that is in no slot and in no frame is all zero. This takes no memory.
    pub fn slot_of(&self, user: UserNo, page: Page) -> Option<usize>
        ensures slot { result ≡ slot_at self.now user page.0 }
        ensures apart { IsSome result → frame_at self.now user page.0 ≡ None }
        ensures once { IfSome result
            (λ slot. (other other_page : ℕ) → slot_at self.now other other_page ≡ Some slot
            → (other ≡ user)
            × (other_page ≡ page.0)) }
        ensures zero { IfNone result
            (frame_at self.now user page.0 ≡ None
            → IsZeroPage (machine_at self.now user).core.processor.bytes page.0) }
    {
        if !self.has_page(user, page) {
            return None;
        }
        self.frames.slot_of(user, page)
    }

    /// Borrows the bytes of a frame for reading and writing; None if there is no such frame.
    ///
    /// They are the content of the page that is in the frame, and so is what is written there. This
    /// takes no memory.
    pub fn frame_mut(&mut self, frame: FrameNo) -> Option<&mut [u8; FRAME_SIZE]>
        ensures* writes_back { sem 𝓛 (LendsFrame self.entry frame.0 result) }
        ensures content { IfSome result
            (λ lent. written_frame self.old frame.0 lent.now ≡ self.old) }
        ensures some { IsSome result ↔ (frame.0 < length self.old.supply.owners) }
    {
        self.frames.frame_mut(frame)
    }
}
