//! A program that is read where it is and is known to be fixed.
use crate::kept::PageInFrame;
use cp_needs::WordAt;
use s370_channel::Caw;
use std::marker::Model;

/// What is known of a program that is read where it is: its address word, the words and lists, and
/// the frames of the pages on which its areas lie.
#[derive(Drop)]
pub struct CachedPages {
    pub(crate) caw: Caw,
    pub(crate) size: u32,
    pub(crate) text: Vec<WordAt>,
    pub(crate) held: Vec<PageInFrame>,
}

impl Model for CachedPages {
    ghost use Rattle.cp_ccw.specs.CachedPages.{IsKnown, KnownProgram};

    ghost Value = { KnownProgram };

    ghost view = { λ k. record {
      caw = k.caw;
      size = k.size;
      text = k.text.items;
      held = k.held.items;
    } };

    ghost invariant = { λ k. IsKnown k.caw.address k.size k.text.items k.held.items };
}
