// Fills a catalogue with box files and fetches its records: of each index it writes where the record lies and the box that stands in the
// part handed back. A refused fetch hands back an empty part, which is no box file: its two lines are the number, and 10.
#![tactic(auto)]

ghost use Rattle.std.specs.Prelude.{OnOk, [], ◌∷◌, codes};
ghost use Rattle.std.specs.Io.KnownBytes.{Appends};
ghost use Rattle.refusals.specs.Table.{said_written};
ghost use Rattle.lines.specs.Lines.{numbers_line, reply_line};
ghost use Rattle.catalogue.specs.Calls.{said_told, said_fetched};
ghost use Rattle.fetched.specs.Printed.{box_line, file_shown, record_shown, records_shown};

use catalogue::Extent;
use refusals::{BoxWidths, Refusal};
use std::io::{self, Write};

fn show_box<W: Write>(out: &mut W, n: u32, m: u32, rows: &[u32]) -> io::Result<()>
    ensures { OnOk result (Appends (W.contents out.old) (W.contents out.new) (box_line (n ∷ m ∷ []) rows.now)) }
{
    write!(out, "box")?;
    lines::write_number(out, n)?;
    lines::write_number(out, m)?;
    write!(out, " rows")?;
    for row in rows {
        lines::write_number(out, *row)?;
    }
    lines::end_line(out)
}

fn show_file<W: Write>(out: &mut W, file: &[u8]) -> io::Result<()>
    ensures { OnOk result (Appends (W.contents out.old) (W.contents out.new) (file_shown file.now)) }
{
    let mut rows = [0u32; 256];
    let size = boxfile::room_of(file);
    match boxfile::read_box(file, &mut rows[..size]) {
        Ok(BoxWidths { n, m }) => show_box(out, n, m, &rows[..size]),
        Err(e) => lines::write_refused(out, e),
    }
}

fn show_place<W: Write>(out: &mut W, offset: u32, size: u32) -> io::Result<()>
    ensures { OnOk result (Appends (W.contents out.old) (W.contents out.new) (numbers_line (codes "at") (offset ∷ size ∷ []))) }
{
    lines::write_line(out, "at", &[offset, size])
}

fn show_fetched<W: Write>(out: &mut W, answer: Result<Extent, Refusal>) -> io::Result<()>
    ensures { OnOk result (Appends (W.contents out.old) (W.contents out.new) (reply_line (codes "at") (said_fetched answer))) }
{
    match answer {
        Ok(Extent { offset, size }) => show_place(out, offset, size),
        Err(e) => lines::write_refused(out, e),
    }
}

// Where a record lies, and the box in the part of the catalogue that is handed back.
fn show_record<W: Write>(out: &mut W, catalogue: &[u8], index: u32) -> io::Result<()>
    ensures { OnOk result (Appends (W.contents out.old) (W.contents out.new) (record_shown catalogue.now index)) }
{
    lines::write_line(out, "record", &[index])?;
    show_fetched(out, catalogue::fetch_status(catalogue, index))?;
    show_file(out, catalogue::fetch(catalogue, index))
}

// The records of a catalogue that has three at most; the last index is past them.
fn show_records<W: Write>(out: &mut W, catalogue: &[u8]) -> io::Result<()>
    ensures { OnOk result (Appends (W.contents out.old) (W.contents out.new) (records_shown catalogue.now)) }
{
    for index in 0..4 {
        show_record(out, catalogue, index)?;
    }
    Ok(())
}

fn show_added<W: Write>(out: &mut W, answer: Result<u32, Refusal>) -> io::Result<()>
    ensures { OnOk result (Appends (W.contents out.old) (W.contents out.new) (reply_line (codes "added") (said_told answer))) }
{
    match answer {
        Ok(index) => lines::write_line(out, "added", &[index]),
        Err(e) => lines::write_refused(out, e),
    }
}

fn show_written<W: Write>(out: &mut W, answer: Result<(), Refusal>) -> io::Result<()>
    ensures { OnOk result (Appends (W.contents out.old) (W.contents out.new) (reply_line (codes "done") (said_written answer))) }
{
    match answer {
        Ok(()) => lines::write_line(out, "done", &[]),
        Err(e) => lines::write_refused(out, e),
    }
}

// Two equal records with another between them; a fourth has no room until that one is removed, and its gap then serves again. At last a
// catalogue with a byte behind its records, and one that is too short.
fn main(rt: HostRuntime) -> io::Result<()> {
    let mut out = rt.stdout();
    let identity = [1u8, 1, 0, 0, 0, 0, 1, 0, 0, 0];
    let example =
        b"\x03\x03\x03\0\0\0\x01\0\0\0\x04\0\0\0\0\0\0\0\x02\0\0\0\x05\0\0\0\x06\0\0\0\x07\0\0\0";
    let mut catalogue = [0u8; 316];
    show_record(&mut out, &catalogue, 0)?;
    show_added(&mut out, catalogue::add(&mut catalogue, &identity))?;
    show_added(&mut out, catalogue::add(&mut catalogue, example))?;
    show_added(&mut out, catalogue::add(&mut catalogue, &identity))?;
    show_added(&mut out, catalogue::add(&mut catalogue, &identity))?;
    show_records(&mut out, &catalogue)?;
    show_record(&mut out, &catalogue, 4294967295)?;
    show_written(&mut out, catalogue::remove(&mut catalogue, 1))?;
    show_added(&mut out, catalogue::add(&mut catalogue, &identity))?;
    show_records(&mut out, &catalogue)?;
    show_written(&mut out, catalogue::compact(&mut catalogue))?;
    show_records(&mut out, &catalogue)?;
    catalogue[315] = 1;
    show_record(&mut out, &catalogue, 0)?;
    show_record(&mut out, &[0u8; 257], 0)
}
