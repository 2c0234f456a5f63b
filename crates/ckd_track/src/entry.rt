//! What is in memory of each record next to its bytes.
ghost use Rattle.std.specs.Prelude.{◌≡◌, ◌≤◌, ◌<◌, ◌+◌, ◌++◌, ◌∷◌, [], ◌&&◌, nat_le, length, take};
ghost use Rattle.std.specs.Prelude.{drop, slice_index_or, slice_set};
ghost use Rattle.std.specs.Vec.{vec_capacity};
ghost use Rattle.ckd_track.specs.Laid.{total, total_cost, entry_at, records_of, IsLaid};

/// A record's id and how long its key and data are.
#[derive(Clone, Copy, Debug, PartialEq, Eq)]
pub struct CountArea {
    pub id: [u8; 5],
    pub key: u8,
    pub content: u16,
}

/// Returns how many bytes the keys and the data of these records have together.
pub fn spread(entries: &[CountArea]) -> usize
    requires { total entries.now ≤ 13165 }
    ensures sum { result ≡ total entries.now }
    ensures small { result ≤ 13165 }
{
    let mut sum: usize = 0;
    for entry in entries {
        sum += entry.key as usize + entry.content as usize;
    }
    sum
}

/// Returns how many bytes of a track's capacity these records take.
pub fn cost_of(entries: &[CountArea]) -> usize
    requires { total_cost entries.now ≤ 13165 }
    ensures sum { result ≡ total_cost entries.now }
    ensures small { result ≤ 13165 }
{
    let mut sum: usize = 0;
    for entry in entries {
        sum += record_cost(entry.key as usize, entry.content as usize);
    }
    sum
}

ghost use Rattle.ckd_track.specs.Track as track;
ghost use Rattle.ckd_track.specs.Track.{no_record};

/// Returns how many bytes of a track's capacity a record takes whose key and data have these
/// lengths.
pub fn record_cost(key: usize, content: usize) -> usize
    requires key { key ≤ 255 }
    requires content { content ≤ 65535 }
    ensures cost { result ≡ track.record_cost key content }
    ensures small { result ≤ 191 + key + content }
{
    if key == 0 {
        135 + content
    } else {
        191 + key + content
    }
}

/// Returns the index, in the bytes of all records, at which those of record `i` begin.
pub fn start_of(entries: &[CountArea], i: usize) -> usize
    requires fits { total_cost entries.now ≤ 13165 }
    requires within { i ≤ length entries.now }
    ensures sum { result ≡ total (take i entries.now) }
    ensures small { result ≤ 13165 }
{
    spread(&entries[..i])
}

/// Returns whether a track has room, after its first `i` records, for one whose key and data have
/// these lengths.
pub fn has_room(entries: &[CountArea], i: usize, key: usize, content: usize) -> bool
    requires fits { total_cost entries.now ≤ 13165 }
    requires within { i ≤ length entries.now }
    ensures { result ≡ (nat_le key 255 && nat_le
        (total_cost (take i entries.now) + track.record_cost key content) 13165) }
{
    if key > 255 {
        return false;
    }
    if content > 13030 {
        return false;
    }
    cost_of(&entries[..i]) + record_cost(key, content) <= 13165
}

/// Appends a record to the entries, and its key and data to the area; both lists have to have room.
pub fn append(
    entries: &mut Vec<CountArea>,
    area: &mut Vec<u8>,
    id: [u8; 5],
    key: &[u8],
    content: &[u8],
)
    requires key { length key.now ≤ 255 }
    requires content { length content.now ≤ 13030 }
    requires entries { length entries.old.items < vec_capacity entries.old }
    requires area { length area.old.items + (length key.now + length content.now)
        ≤ vec_capacity area.old }
    ensures entries { entries.new.items ≡ entries.old.items
        ++ (record { id = id; key = length key.now; content = length content.now }) ∷ [] }
    ensures area { area.new.items ≡ area.old.items ++ (key.now ++ content.now) }
    ensures more_entries { vec_capacity entries.old ≤ vec_capacity entries.new }
    ensures more_text { vec_capacity area.old ≤ vec_capacity area.new }
{
    let entry = CountArea {
        id,
        key: key.len() as u8,
        content: content.len() as u16,
    };
    match entries.push(entry) {
        Ok(()) => {}
        Err(_) => unreachable!(),
    }
    match area.extend_from_slice(key) {
        Ok(()) => {}
        Err(_) => unreachable!(),
    }
    match area.extend_from_slice(content) {
        Ok(()) => {}
        Err(_) => unreachable!(),
    }
}

/// Where the key of a record begins, where its data begins, and where it ends.
#[derive(Clone, Copy)]
pub struct Span {
    pub start: usize,
    pub middle: usize,
    pub end: usize,
}

/// Returns where the key and the data of record `i` lie in the bytes of all records.
pub fn span_of(entries: &[CountArea], i: usize) -> Span
    requires fits { total_cost entries.now ≤ 13165 }
    requires within { i < length entries.now }
    ensures start { result.start ≡ total (take i entries.now) }
    ensures middle { result.middle ≡ result.start + (entry_at entries.now i).key }
    ensures end { result.end ≡ result.middle + (entry_at entries.now i).content }
    ensures inside { result.end ≤ total entries.now }
    ensures short_key { result.middle ≤ result.start + 255 }
{
    let start = start_of(entries, i);
    let entry = entries[i];
    let middle = start + entry.key as usize;
    let end = middle + entry.content as usize;
    Span { start, middle, end }
}

/// A record that is on a track.
#[derive(Clone, Copy)]
pub struct Record<'a> {
    pub id: [u8; 5],
    pub key: &'a [u8],
    pub content: &'a [u8],
}

/// Returns record `i` of a track, with its key and data borrowed from the bytes of all records.
pub fn part<'a>(entries: &[CountArea], area: &'a [u8], i: usize) -> Record<'a>
    requires fits { total_cost entries.now ≤ 13165 }
    requires whole { length area.now ≡ total entries.now }
    requires within { i < length entries.now }
    ensures id { result.id ≡ (slice_index_or (records_of entries.now area.now) i no_record).id }
    ensures key { result.key.now
        ≡ (slice_index_or (records_of entries.now area.now) i no_record).key }
    ensures content { result.content.now
        ≡ (slice_index_or (records_of entries.now area.now) i no_record).content }
    ensures short_key { length result.key.now ≤ 255 }
    ensures short { length result.key.now + length result.content.now ≤ 13030 }
{
    let span = span_of(entries, i);
    let entry = entries[i];
    let id = entry.id;
    Record {
        id,
        key: &area[span.start..span.middle],
        content: &area[span.middle..span.end],
    }
}

/// Erases all records after the first `i` and appends this one, for which there has to be room.
pub fn replace_after(
    entries: &mut Vec<CountArea>,
    area: &mut Vec<u8>,
    i: usize,
    id: [u8; 5],
    key: &[u8],
    content: &[u8],
)
    requires laid { IsLaid entries.old.items area.old.items }
    requires within { i ≤ length entries.old.items }
    requires key { length key.now ≤ 255 }
    requires room { total_cost (take i entries.old.items) + track.record_cost (length key.now)
        (length content.now) ≤ 13165 }
    requires entries { 97 ≤ vec_capacity entries.old }
    requires area { 13030 ≤ vec_capacity area.old }
    ensures laid { IsLaid entries.new.items area.new.items }
    ensures records { records_of entries.new.items area.new.items
        ≡ take i (records_of entries.old.items area.old.items)
        ++ (record { id = id; key = key.now; content = content.now }) ∷ [] }
    ensures number { i < 97 }
    ensures more_entries { 97 ≤ vec_capacity entries.new }
    ensures more_text { 13030 ≤ vec_capacity area.new }
{
    let start = start_of(entries, i);
    entries.truncate(i);
    area.truncate(start);
    append(entries, area, id, key, content);
}

/// Overwrites the data of record `i` with as many bytes.
pub fn put_content(entries: &[CountArea], area: &mut [u8], i: usize, bytes: &[u8])
    requires laid { IsLaid entries.now area.old }
    requires within { i < length entries.now }
    requires long { length bytes.now ≡ (entry_at entries.now i).content }
    ensures records { records_of entries.now area.new
        ≡ slice_set (records_of entries.now area.old) i
        (record {
          id = (slice_index_or (records_of entries.now area.old) i no_record).id;
          key = (slice_index_or (records_of entries.now area.old) i no_record).key;
          content = bytes.now;
        }) }
    ensures length { length area.new ≡ length area.old }
{
    let span = span_of(entries, i);
    area[span.middle..span.end].copy_from_slice(bytes);
}

/// Overwrites the key and the data of record `i` with as many bytes.
pub fn put_both(entries: &[CountArea], area: &mut [u8], i: usize, bytes: &[u8])
    requires laid { IsLaid entries.now area.old }
    requires within { i < length entries.now }
    requires long { length bytes.now
        ≡ (entry_at entries.now i).key + (entry_at entries.now i).content }
    ensures records { records_of entries.now area.new
        ≡ slice_set (records_of entries.now area.old) i
        (record {
          id = (slice_index_or (records_of entries.now area.old) i no_record).id;
          key = take (length (slice_index_or (records_of entries.now area.old) i no_record).key)
              bytes.now;
          content = drop (length (slice_index_or (records_of entries.now area.old) i no_record).key)
              bytes.now;
        }) }
    ensures length { length area.new ≡ length area.old }
{
    let span = span_of(entries, i);
    area[span.start..span.end].copy_from_slice(bytes);
}
