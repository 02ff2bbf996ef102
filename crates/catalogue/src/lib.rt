// A catalogue of box files in one buffer.
#![tactic(auto)]

ghost use Rattle.std.specs.Prelude.{◌≡◌, true, ◌+◌, ◌*◌, ◌<◌, ◌≤◌, length, replicate};
ghost use Rattle.std.proofs.lemmas.List.Edits.{sets};
ghost use Rattle.refusals.specs.Table.{first};
ghost use Rattle.catalogue.specs.Format.{word_at, word, records_start, part, count, place_at, places, stands, stand, valid, records};
ghost use Rattle.catalogue.specs.Work.{place_from, slid_down, slid_up, closed, opened};
ghost use Rattle.catalogue.specs.Calls.{said_told, said_fetched, check_reply, index_checks, Handed, fetch_reply, RemoveCalled};
ghost use Rattle.catalogue.specs.Calls.{lowest, offered_checks, AddCalled, compacted, CompactCalled};

use refusals::Refusal;

// Where the first record may begin: behind the count and the directory of 64 places.
const RECORDS_START: usize = 258;

// Where a record lies in the catalogue, and its length.
#[derive(Clone, Copy)]
pub struct Extent {
    pub offset: u32,
    pub size: u32,
}

// A place of the directory: where a record lies, and its length.
#[derive(Clone, Copy)]
struct Place {
    offset: usize,
    size: usize,
}

// A gap between the records: the index that a record there has, and its start.
#[derive(Clone, Copy)]
struct Gap {
    index: usize,
    start: usize,
}

// The number in two bytes, low byte first.
fn word_at(b: &[u8], i: usize) -> usize
    requires { i + 1 < length b.now }
    ensures { (result ≡ word_at b.now i) × (result < 65536) }
{
    boxfile::two_bytes(b, i) as usize
}

// Place k of the directory.
fn place_at(b: &[u8], k: usize) -> Place
    requires { 4 * k + 5 < length b.now }
    ensures { (result ≡ place_at b.now k) × (result.offset < 65536) × (result.size < 65536) }
{
    Place {
        offset: word_at(b, 4 * k + 2),
        size: word_at(b, 4 * k + 4),
    }
}

// Whether a record stands at this place, past the end of what stands before it.
fn record_stands(b: &[u8], end: usize, offset: usize, size: usize) -> bool
    requires { (end ≤ length b.now) × (offset < 65536) × (size < 65536) }
    ensures { result ≡ stands b.now end (place_from offset size) }
{
    if offset < end {
        return false;
    }
    let past = offset + size;
    if b.len() < past {
        return false;
    }
    if !refusals::values_below(&b[end..offset], 1) {
        return false;
    }
    if let Err(_) = boxfile::check_alone(&b[offset..past]) {
        return false;
    }
    true
}

// Whether records stand at all places in use, and the bytes behind the last one are zero.
fn records_stand(b: &[u8], n: usize) -> bool
    requires { (records_start ≤ length b.now) × (n ≤ 64) × (n ≡ count b.now) }
    ensures { result ≡ stand b.now records_start (places b.now) }
{
    let mut end = RECORDS_START;
    for k in 0..n {
        let place = place_at(b, k);
        if !record_stands(b, end, place.offset, place.size) {
            return false;
        }
        end = place.offset + place.size;
    }
    refusals::values_below(&b[end..], 1)
}

// Whether the bytes are a catalogue that breaks no rule.
fn is_valid(b: &[u8]) -> bool
    ensures { result ≡ valid b.now }
{
    if b.len() < RECORDS_START {
        return false;
    }
    if 65535 < b.len() {
        return false;
    }
    let n = word_at(b, 0);
    if 64 < n {
        return false;
    }
    let unused = 4 * n + 2;
    if !refusals::values_below(&b[unused..RECORDS_START], 1) {
        return false;
    }
    records_stand(b, n)
}

// Checks a catalogue: the number of its records.
#[tactic(auto, unfolding(refusals::specs::Table::first, crate::specs::Calls::catalogue_checks, crate::specs::Format::count))]
pub fn check(catalogue: &[u8]) -> Result<u32, Refusal>
    ensures { said_told result ≡ check_reply catalogue.now }
{
    if is_valid(catalogue) {
        Ok(word_at(catalogue, 0) as u32)
    } else {
        Err(Refusal::Catalogue)
    }
}

// The checks of a call that names a record.
fn check_index(b: &[u8], index: u32) -> Result<(), Refusal>
    ensures { result ≡ first (index_checks b.now index) }
{
    if !is_valid(b) {
        return Err(Refusal::Catalogue);
    }
    if word_at(b, 0) <= index as usize {
        return Err(Refusal::NoRecord);
    }
    Ok(())
}

// Where a record lies, its index from 0 in the directory's order.
pub fn fetch_status(catalogue: &[u8], index: u32) -> Result<Extent, Refusal>
    ensures { said_fetched result ≡ fetch_reply catalogue.now index }
{
    check_index(catalogue, index)?; // a record that is not there has no place
    let k = index as usize;
    let offset = word_at(catalogue, 4 * k + 2);
    let size = word_at(catalogue, 4 * k + 4);
    Ok(Extent {
        offset: offset as u32,
        size: size as u32,
    })
}

// The part of the catalogue that is the record; the empty part at its start where the call is refused.
pub fn fetch<'a>(catalogue: &'a [u8], index: u32) -> &'a [u8]
    ensures { Handed catalogue.entry index result }
{
    if let Err(_) = check_index(catalogue, index) {
        return &catalogue[0..0];
    }
    let k = index as usize;
    let start = word_at(catalogue, 4 * k + 2);
    let end = start + word_at(catalogue, 4 * k + 4);
    &catalogue[start..end]
}

// Writes a number to two bytes.
fn put_word(b: &mut [u8], i: usize, v: usize)
    requires { (i + 1 < length b.old) × (v < 65536) }
    ensures { b.new ≡ sets b.old i (word v) }
{
    b[i..i + 2].copy_from_slice(&(v as u16).to_le_bytes());
}

// Clears the bytes of a part.
// kept: start and size beside the buffer, since the clause and the theorems on records speak of a place in the whole of it.
fn clear(b: &mut [u8], start: usize, size: usize)
    requires { start + size ≤ length b.old }
    ensures { b.new ≡ sets b.old start (replicate size 0) }
{
    b[start..start + size].fill(0);
}

// Copies the bytes of a file.
// kept: byte by byte, since `copy_from_slice` between two arrays of the caller would ask C for `memmove`
fn copy_in(b: &mut [u8], start: usize, file: &[u8])
    requires { start + length file.now ≤ length b.old }
    ensures { b.new ≡ sets b.old start file.now }
{
    for (i, byte) in file.iter().enumerate() {
        b[start + i] = *byte;
    }
}

// Moves bytes down over a gap of zeros: the gap is then behind them.
// kept: byte by byte, since `copy_within` and a `fill` of the gap would clear bytes that are zero already, so that compaction took records
// times gaps (9 times as long of a full catalogue without gaps), and C would need `memmove`
fn slide_down(b: &mut [u8], to: usize, gap: usize, size: usize)
    requires { (to + gap + size ≤ length b.old) × (part to gap b.old ≡ replicate gap 0) }
    ensures { b.new ≡ slid_down to gap size b.old }
{
    if gap == 0 {
        return;
    }
    let from = to + gap;
    for i in 0..size {
        b[to + i] = b[from + i];
        b[from + i] = 0;
    }
}

// Moves bytes up over a gap of zeros, the last one first: the gap is then before them.
// kept: the reason stands at `slide_down`
fn slide_up(b: &mut [u8], from: usize, size: usize, gap: usize)
    requires { (0 < gap) × (from + size + gap ≤ length b.old) × (part (from + size) gap b.old ≡ replicate gap 0) }
    ensures { b.new ≡ slid_up from size gap b.old }
{
    for moved in 0..size {
        let i = from + (size - 1 - moved);
        b[i + gap] = b[i];
        b[i] = 0;
    }
}

// Takes place k out of the directory of n places.
fn close_place(b: &mut [u8], n: usize, k: usize)
    requires { (k < n) × (n ≤ 64) × (records_start ≤ length b.old) }
    ensures { b.new ≡ closed n k b.old }
{
    let place = 4 * k + 2;
    clear(b, place, 4);
    slide_down(b, place, 4, 4 * (n - k - 1));
    put_word(b, 0, n - 1);
}

// Puts a place into the directory of n places, as place k.
fn open_place(b: &mut [u8], n: usize, k: usize, offset: usize, size: usize)
    requires { (k ≤ n) × (n < 64) × (records_start ≤ length b.old) × (offset < 65536) × (size < 65536)
        × (part (4 * n + 2) 4 b.old ≡ replicate 4 0) }
    ensures { b.new ≡ opened n k (place_from offset size) b.old }
{
    let place = 4 * k + 2;
    slide_up(b, place, 4 * (n - k), 4);
    put_word(b, place, offset);
    put_word(b, 4 * k + 4, size);
    put_word(b, 0, n + 1);
}

// Removes a record: its bytes are cleared and its place is taken out of the directory.
pub fn remove(catalogue: &mut [u8], index: u32) -> Result<(), Refusal>
    ensures { RemoveCalled catalogue.old index result catalogue.new }
{
    check_index(catalogue, index)?;
    let k = index as usize;
    let n = word_at(catalogue, 0);
    let offset = word_at(catalogue, 4 * k + 2);
    let size = word_at(catalogue, 4 * k + 4);
    clear(catalogue, offset, size);
    close_place(catalogue, n, k);
    Ok(())
}

// The lowest gap that is long enough.
fn find_gap(b: &[u8], n: usize, need: usize) -> Option<Gap>
    requires { (valid b.now ≡ true) × (n ≡ count b.now) }
    ensures { result ≡ lowest need (length b.now) 0 records_start (records b.now) }
{
    let mut start = RECORDS_START;
    for index in 0..n {
        let place = place_at(b, index);
        if need <= place.offset - start {
            return Some(Gap { index, start });
        }
        start = place.offset + place.size;
    }
    if need <= b.len() - start {
        return Some(Gap { index: n, start });
    }
    None
}

// The checks of a catalogue and of a file that is offered to it.
pub fn check_offered(buffer: &[u8], file: &[u8]) -> Result<(), Refusal>
    ensures { result ≡ first (offered_checks buffer.now file.now) }
{
    if !is_valid(buffer) {
        return Err(Refusal::Catalogue);
    }
    boxfile::check_alone(file)
}

// Adds a box file at the start of the lowest gap that is long enough: its index is the answer.
pub fn add(catalogue: &mut [u8], file: &[u8]) -> Result<u32, Refusal>
    ensures { AddCalled catalogue.old file.now result catalogue.new }
{
    check_offered(catalogue, file)?;
    let n = word_at(catalogue, 0);
    if 64 <= n {
        return Err(Refusal::NoRoom);
    }
    let size = file.len();
    let gap = find_gap(catalogue, n, size);
    let Some(Gap { index, start }) = gap else {
        return Err(Refusal::NoRoom);
    };
    open_place(catalogue, n, index, start, size);
    copy_in(catalogue, start, file);
    Ok(index as u32)
}

// Moves the records down to start at 258 without gaps.
fn pack(b: &mut [u8], n: usize)
    requires { (valid b.old ≡ true) × (n ≡ count b.old) }
    ensures { b.new ≡ compacted b.old }
{
    let mut to = RECORDS_START;
    for k in 0..n {
        let place = place_at(b, k);
        slide_down(b, to, place.offset - to, place.size);
        put_word(b, 4 * k + 2, to);
        to += place.size;
    }
}

// Compacts a catalogue: the records start at 258 without gaps, their order and bytes the same.
pub fn compact(catalogue: &mut [u8]) -> Result<(), Refusal>
    ensures { CompactCalled catalogue.old result catalogue.new }
{
    if !is_valid(catalogue) {
        return Err(Refusal::Catalogue);
    }
    let n = word_at(catalogue, 0);
    pack(catalogue, n);
    Ok(())
}
