//! A track, which is allotted whole: what is written later takes no memory.
ghost use Rattle.std.specs.Prelude.{◌≡◌, ◌+◌, ◌*◌, ◌<◌, ◌≤◌, ◌↔◌, Bool, true, false, [], length};
ghost use Rattle.std.specs.Prelude.{take, drop, slice_index_or, IfOk, OnOk, OnErr, IsOk};
ghost use Rattle.std.specs.Result.{is_ok};
ghost use Rattle.ckd_track.specs.Track as room;
ghost use Rattle.ckd_track.specs.Track.{record_in, with_record, with_last};

use crate::entry::{CountArea, Record, has_room, part, put_both, put_content, replace_after};
use std::alloc::{AllocError, Global};
use std::marker::Model;
use thiserror::Error;

/// The most records that a track has room for.
const MOST_RECORDS: usize = 97;

/// The most bytes of keys and data that a track has room for.
const MOST_BYTES: usize = 13030;

/// The track has no room for the record, or its key has more than 255 bytes. Nothing was written.
#[derive(Clone, Copy, Debug, PartialEq, Eq, Drop, Error)]
#[error("the track has no room for the record")]
pub struct TrackFull;

/// A track: a home address, and records one after another.
#[derive(Drop)]
pub struct Track {
    home: [u8; 5],
    entries: Vec<CountArea>,
    area: Vec<u8>,
}

impl Model for Track {
    ghost use Rattle.std.specs.Prelude.{◌≤◌};
    ghost use Rattle.std.specs.Vec.{vec_capacity};
    ghost use Rattle.ckd_track.specs.Track.{TrackFormat};
    ghost use Rattle.ckd_track.specs.Laid.{records_of, IsLaid};

    ghost Value = { TrackFormat };

    ghost view = { λ t. record {
      home = t.home;
      records = records_of t.entries.items t.area.items;
    } };

    ghost invariant = { λ t. IsLaid t.entries.items t.area.items × (97 ≤ vec_capacity t.entries)
        × (13030 ≤ vec_capacity t.area) };
}

impl Track {
    /// Returns a track with this home address and no record, and allocates room for all that it can
    /// hold.
    ///
    /// # Errors
    ///
    /// `AllocError` if memory is refused.
    pub fn blank(alloc: Global, home: [u8; 5]) -> Result<Track, AllocError>
        ensures { IfOk result (λ t. t ≡ record { home = home; records = [] }) }
    {
        let entries = Vec::with_capacity(alloc, MOST_RECORDS)?;
        let area = Vec::with_capacity(alloc, MOST_BYTES)?;
        Ok(Track {
            home,
            entries,
            area,
        })
    }

    /// Returns a copy of the track, and allocates room for all that it can hold.
    ///
    /// # Errors
    ///
    /// `AllocError` if memory is refused.
    pub fn copy(&self, alloc: Global) -> Result<Track, AllocError>
        ensures { IfOk result (λ t. t ≡ self.now) }
    {
        let mut entries = Vec::with_capacity(alloc, MOST_RECORDS)?;
        let mut area = Vec::with_capacity(alloc, MOST_BYTES)?;
        entries.extend_from_slice(&self.entries)?;
        area.extend_from_slice(&self.area)?;
        Ok(Track {
            home: self.home,
            entries,
            area,
        })
    }

    /// Returns the home address: flag, cylinder and head.
    pub fn home(&self) -> [u8; 5]
        ensures { result ≡ self.now.home }
    {
        // Exhaustive: a new field fails to compile here.
        let Track {
            home,
            entries: _,
            area: _,
        } = self;
        *home
    }

    /// Replaces the home address; the records stay.
    pub fn set_home(&mut self, home: [u8; 5])
        ensures home { self.new.home ≡ home }
        ensures records { self.new.records ≡ self.old.records }
    {
        self.home = home;
    }

    /// Returns how many records the track has.
    pub fn len(&self) -> usize
        ensures count { result ≡ length self.now.records }
        ensures few { result ≤ 97 }
    {
        self.entries.len()
    }

    /// Returns the record at this index, with its key and data borrowed from the track.
    pub fn record(&self, i: usize) -> Record<'_>
        requires { i < length self.now.records }
        ensures id { result.id ≡ (record_in self.now i).id }
        ensures key { result.key.now ≡ (record_in self.now i).key }
        ensures content { result.content.now ≡ (record_in self.now i).content }
        ensures number { i < 97 }
        ensures short_key { length result.key.now ≤ 255 }
        ensures short { length result.key.now + length result.content.now ≤ 13030 }
    {
        part(&self.entries, &self.area, i)
    }

    /// Appends a record after all others, if the track has room for it.
    ///
    /// # Errors
    ///
    /// `TrackFull` if the record has no room; nothing has changed.
    pub fn push(&mut self, id: [u8; 5], key: &[u8], content: &[u8]) -> Result<(), TrackFull>
        ensures cases { is_ok result
            ≡ room.has_room self.old (length self.old.records) (length key.now)
            (length content.now) }
        ensures ok { OnOk result (self.new
            ≡ with_last self.old (length self.old.records)
            (record { id = id; key = key.now; content = content.now })) }
        ensures err { OnErr result (self.new ≡ self.old) }
    {
        let last = self.len();
        self.write_after(last, id, key, content)
    }

    /// Erases all records after the first `i` and appends this one, if the track has room for it.
    ///
    /// # Errors
    ///
    /// `TrackFull` if the record has no room; nothing has changed.
    pub fn write_after(
        &mut self,
        i: usize,
        id: [u8; 5],
        key: &[u8],
        content: &[u8],
    ) -> Result<(), TrackFull>
        requires { i ≤ length self.old.records }
        ensures cases { is_ok result
            ≡ room.has_room self.old i (length key.now) (length content.now) }
        ensures number { OnOk result (i < 97) }
        ensures ok { OnOk result (self.new
            ≡ with_last self.old i (record { id = id; key = key.now; content = content.now })) }
        ensures err { OnErr result (self.new ≡ self.old) }
    {
        if !has_room(&self.entries, i, key.len(), content.len()) {
            return Err(TrackFull);
        }
        replace_after(&mut self.entries, &mut self.area, i, id, key, content);
        Ok(())
    }

    /// Overwrites the data of record `i` with as many bytes.
    pub fn write_content(&mut self, i: usize, bytes: &[u8])
        requires inside { i < length self.old.records }
        requires whole { length bytes.now ≡ length (record_in self.old i).content }
        ensures { self.new ≡ with_record self.old i
            (record {
              id = (record_in self.old i).id;
              key = (record_in self.old i).key;
              content = bytes.now;
            }) }
    {
        put_content(&self.entries, &mut self.area, i, bytes);
    }

    /// Overwrites the key and the data of record `i` with as many bytes.
    pub fn write_key_and_content(&mut self, i: usize, bytes: &[u8])
        requires inside { i < length self.old.records }
        requires whole { length bytes.now
            ≡ length (record_in self.old i).key + length (record_in self.old i).content }
        ensures { self.new ≡ with_record self.old i
            (record {
              id = (record_in self.old i).id;
              key = take (length (record_in self.old i).key) bytes.now;
              content = drop (length (record_in self.old i).key) bytes.now;
            }) }
    {
        put_both(&self.entries, &mut self.area, i, bytes);
    }
}
