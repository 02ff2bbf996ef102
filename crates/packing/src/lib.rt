// A box as columns packed for the mask, eight truth values to a byte, and back.
#![tactic(auto)]

ghost use Rattle.std.specs.Prelude.{◌≡◌, ℕ, ◌+◌, ◌*◌, ◌/◌, ◌%◌, ◌^◌, ◌≤◌, ◌<◌, length};
ghost use Rattle.boolean.specs.Bits.{bit};
ghost use Rattle.boolean.specs.Sums.{list_below};
ghost use Rattle.boolean.specs.Functions.{at};
ghost use Rattle.refusals.specs.Table.{first, Box};
ghost use Rattle.packing.specs.Packing.{column_bytes, packed, unpacked, used_bits, pack_checks, unpack_checks, PackCalled, UnpackCalled};
ghost use Rattle.packing.specs.Work.{word_of, bits_gathered, Cleared, Columns, Padded, GatheredWords, word_byte, four_bytes_at, BytesWords};

use refusals::Refusal;

// How many times the bytes of a column are doubled from one.
fn doublings(n: u32) -> u32
    requires { n ≤ 8 }
    ensures { (2 ^ result ≡ column_bytes n) × (result ≤ 5) }
{
    if n < 3 { 0 } else { n - 3 }
}

// How many bytes a column takes.
fn column_bytes(n: u32) -> usize
    requires { n ≤ 8 }
    ensures { (result ≡ column_bytes n) × (1 ≤ result) × (result ≤ 32) }
{
    boolean::power_of_two(doublings(n))
}

// The bits i + 1, i + 9, i + 17 and i + 25 of a number, where they stand.
fn kept(v: u32, i: u32) -> u64
    requires { i < 8 }
    ensures { result ≡ 2 ^ i * word_of (λ j. bit j v) i }
{
    (v as u64) & (16843009u64 << i)
}

// These bits of eight entries, a byte for each: the entry at the start has the lowest bit of every byte. The last entry comes first, and
// what was gathered moves up by one bit for each that follows; one shift at the end brings the bytes to their places.
fn gather(values: &[u32], start: usize, step: usize, i: u32) -> u32
    requires { (i < 8) × (start + 7 * step < length values.now) }
    ensures { result ≡ bits_gathered values.now start step i }
{
    let mut word: u64 = 0;
    for k in 0..8 {
        word = 2 * word + kept(values[start + (7 - k) * step], i);
    }
    (word >> i) as u32
}

// The words of the columns i + 1, i + 9, i + 17 and i + 25.
// kept: the size beside the arrays, which are those of the widest box: a box uses so many of their places (fixed memory).
fn gather_group(rows: &[u32], i: u32, size: usize, words: &mut [u32])
    requires { (i < 8) × (1 ≤ size) × (size ≤ 32) × (length rows.now ≡ 256) × (length words.old ≡ 256)
        × ((q : ℕ) → q < i * size → at words.old q ≡ bits_gathered rows.now (8 * (q % size)) 1 (q / size)) }
    ensures { (q : ℕ) → q < i * size + size
        → at words.new q ≡ bits_gathered rows.now (8 * (q % size)) 1 (q / size) }
{
    let start = i as usize * size;
    for y in 0..size {
        words[start + y] = gather(rows, 8 * y, 1, i);
    }
}

// The words of the packed columns.
fn gather_words(rows: &[u32], size: usize, words: &mut [u32])
    requires { (1 ≤ size) × (size ≤ 32) × (length rows.now ≡ 256) × (length words.old ≡ 256) }
    ensures { GatheredWords rows.now size words.new }
{
    for i in 0..8 {
        gather_group(rows, i, size, words);
    }
}

// Byte `group` of a word, from 0.
fn byte_of(word: u32, group: u32) -> u8
    requires { group < 4 }
    ensures { result ≡ word / 256 ^ group % 256 }
{
    ((word >> (8 * group)) % 256) as u8
}

// The bytes of the column after j others.
fn write_column(words: &[u32], j: usize, size: usize, out: &mut [u8])
    requires { (j < 32) × (1 ≤ size) × (size ≤ 32) × (length words.now ≡ 256) × (j * size + size ≤ length out.old)
        × ((p : ℕ) → p < j * size → at out.old p ≡ word_byte words.now size p) }
    ensures { (p : ℕ) → p < j * size + size → at out.new p ≡ word_byte words.now size p }
{
    let start = j * size;
    let from = (j % 8) * size;
    let group = (j / 8) as u32;
    for y in 0..size {
        out[start + y] = byte_of(words[from + y], group);
    }
}

// The bytes of all columns.
fn write_columns(words: &[u32], m: u32, size: usize, out: &mut [u8])
    requires { (m ≤ 32) × (1 ≤ size) × (size ≤ 32) × (length words.now ≡ 256) × (length out.old ≡ m * size) }
    ensures { out.new ≡ list_below (m * size) (word_byte words.now size) }
{
    for j in 0..m as usize {
        write_column(words, j, size, out);
    }
}

// The packed form of an accepted box, by way of two arrays to work in, the first of them 0.
fn pack_rows(n: u32, m: u32, rows: &[u32], padded: &mut [u32], words: &mut [u32], out: &mut [u8])
    requires { Box n m rows.now × Cleared 256 padded.old × (length words.old ≡ 256) × (length out.old ≡ m * column_bytes n) }
    ensures { (out.new ≡ packed n m rows.now) × Padded rows.now padded.new
        × GatheredWords padded.new (column_bytes n) words.new }
{
    let size = column_bytes(n);
    padded[..rows.len()].copy_from_slice(rows);
    gather_words(padded, size, words);
    write_columns(words, m, size, out);
}

// The checks of packing.
#[tactic(auto, unfolding(refusals::specs::Table::first, crate::specs::Packing::pack_checks))]
fn check_pack(n: u32, m: u32, rows: &[u32], room: usize) -> Result<(), Refusal>
    ensures { result ≡ first (pack_checks n m rows.now room) }
{
    refusals::check_box(n, m, rows)?;
    if room != m as usize * column_bytes(n) {
        return Err(Refusal::WrittenLength);
    }
    Ok(())
}

// The columns of a box, packed for the mask: for column 1 first, the truth values in input order, eight to a byte, lowest bit first.
pub fn pack(n: u32, m: u32, rows: &[u32], out: &mut [u8]) -> Result<(), Refusal>
    ensures { PackCalled n m rows.now out.old result out.new }
{
    check_pack(n, m, rows, out.len())?;
    let mut padded = [0u32; 256];
    let mut words = [0u32; 256];
    pack_rows(n, m, rows, &mut padded, &mut words, out);
    Ok(())
}

// The word of the bytes at q and 8, 16 and 24 columns after it.
fn four_bytes(bytes: &[u8], size: usize, q: usize) -> u32
    requires { (size ≤ 32) × (length bytes.now ≡ 1024) × (q < 8 * size) }
    ensures { result ≡ four_bytes_at bytes.now size q }
{
    let step = 8 * size;
    u32::from_le_bytes([
        bytes[q],
        bytes[q + step],
        bytes[q + 2 * step],
        bytes[q + 3 * step],
    ])
}

// The words of packed bytes.
fn join_words(bytes: &[u8], size: usize, words: &mut [u32])
    requires { (size ≤ 32) × (length bytes.now ≡ 1024) × (length words.old ≡ 256) }
    ensures { BytesWords bytes.now size words.new }
{
    for q in 0..8 * size {
        words[q] = four_bytes(bytes, size, q);
    }
}

// The rows of the words.
fn write_rows(words: &[u32], size: usize, out: &mut [u32])
    requires { (size ≤ 32) × (length words.now ≡ 256) × (length out.old ≤ 8 * size) }
    ensures { out.new ≡ list_below (length out.old) (λ x. bits_gathered words.now (x / 8) size (x % 8)) }
{
    for (x, row) in out.iter_mut().enumerate() {
        *row = gather(words, x / 8, size, (x % 8) as u32);
    }
}

// The rows of accepted packed bytes, by way of two arrays to work in, the first of them 0.
fn unpack_bytes(n: u32, m: u32, bytes: &[u8], padded: &mut [u8], words: &mut [u32], out: &mut [u32])
    requires { Columns n m bytes.now × Cleared 1024 padded.old × (length words.old ≡ 256) × (length out.old ≡ 2 ^ n) }
    ensures { (out.new ≡ unpacked n m bytes.now) × Padded bytes.now padded.new
        × BytesWords padded.new (column_bytes n) words.new }
{
    let size = column_bytes(n);
    padded[..bytes.len()].copy_from_slice(bytes);
    join_words(padded, size, words);
    write_rows(words, size, out);
}

// How many bits of a byte are used.
fn used_bits(n: u32) -> u32
    requires { n ≤ 8 }
    ensures { (result ≡ used_bits n) × (result ≤ 8) }
{
    if n < 3 {
        boolean::power_of_two(n) as u32
    } else {
        8
    }
}

// The checks of unpacking.
#[tactic(auto, unfolding(refusals::specs::Table::first, crate::specs::Packing::unpack_checks))]
fn check_unpack(n: u32, m: u32, bytes: &[u8], room: usize) -> Result<(), Refusal>
    ensures { result ≡ first (unpack_checks n m bytes.now room) }
{
    if !refusals::in_range(1, 8, n) {
        return Err(Refusal::InputWidth);
    }
    if !refusals::in_range(1, 32, m) {
        return Err(Refusal::OutputWidth);
    }
    if bytes.len() != m as usize * column_bytes(n) {
        return Err(Refusal::ReadLength);
    }
    if !refusals::values_below(bytes, boolean::power_of_two(used_bits(n))) {
        return Err(Refusal::UnusedBit);
    }
    if room != boolean::power_of_two(n) {
        return Err(Refusal::WrittenLength);
    }
    Ok(())
}

// The rows of packed columns.
// kept: beside `pack`, since checks, arrays and contract are others: one function of both would share no more than the order of its lines.
pub fn unpack(n: u32, m: u32, packed: &[u8], out: &mut [u32]) -> Result<(), Refusal>
    ensures { UnpackCalled n m packed.now out.old result out.new }
{
    check_unpack(n, m, packed, out.len())?;
    let mut padded = [0u8; 1024];
    let mut words = [0u32; 256];
    unpack_bytes(n, m, packed, &mut padded, &mut words, out);
    Ok(())
}
