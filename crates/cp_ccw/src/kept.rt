//! A copied program that is kept.
use crate::table::Table;
use cp_frames::FrameNo;
use cp_needs::WordAt;
use s370_channel::Caw;
use s370_store::Page;
use std::marker::Model;

/// A page that a program's lists name, and the frame in which it was.
#[derive(Clone, Copy, PartialEq, Eq)]
pub struct PageInFrame {
    pub page: Page,
    pub frame: FrameNo,
}

/// A copied program, and all that it was copied from: its address word, the words and lists, and
/// the frames of the pages of its data.
#[derive(Drop)]
pub struct CachedProgram {
    pub(crate) caw: Caw,
    pub(crate) size: u32,
    pub(crate) text: Vec<WordAt>,
    pub(crate) held: Vec<PageInFrame>,
    pub(crate) table: Table,
}

impl Model for CachedProgram {
    ghost use Rattle.cp_ccw.specs.CachedProgram.{IsMade, KeptProgram};

    ghost Value = { KeptProgram };

    ghost view = { λ k. record {
      caw = k.caw;
      size = k.size;
      text = k.text.items;
      held = k.held.items;
      places = k.table.places.items;
      nodes = k.table.nodes.items;
      first = k.table.start;
    } };

    ghost invariant = { λ k.
        IsMade k.caw.address k.size k.text.items k.held.items k.table.places.items
        k.table.nodes.items k.table.start };
}
