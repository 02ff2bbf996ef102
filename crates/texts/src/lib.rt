// Text in a lent buffer.
#![tactic(auto)]

ghost use Rattle.std.specs.Prelude.{◌≡◌, ◌+◌, ◌*◌, ◌≤◌, length};
ghost use Rattle.std.proofs.lemmas.List.Edits.{sets};
ghost use Rattle.texts.specs.Text.{numeral, spaced_figure, spaced, line};

// Bytes at a place, and the place after them.
pub fn put_bytes(out: &mut [u8], at: usize, bytes: &[u8]) -> usize
    requires { at + length bytes.now ≤ length out.old }
    ensures { (result ≡ at + length bytes.now) × (out.new ≡ sets out.old at bytes.now) }
{
    out[at..at + bytes.len()].copy_from_slice(bytes);
    at + bytes.len()
}

// A number's decimal digits at a place, and the place after them.
pub fn put_number(out: &mut [u8], at: usize, value: u32) -> usize
    requires { at + 10 ≤ length out.old }
    ensures { (result ≡ at + length (numeral value)) × (out.new ≡ sets out.old at (numeral value)) }
{
    let mut text = [0u8; 20];
    let k = io::decimal(value as u64, &mut text);
    put_bytes(out, at, &text[..k])
}

// A figure after a space, and the place after it.
fn put_figure(out: &mut [u8], at: usize, figure: u32) -> usize
    requires { at + 11 ≤ length out.old }
    ensures { (result ≡ at + length (spaced_figure figure)) × (out.new ≡ sets out.old at (spaced_figure figure)) }
{
    out[at] = b' ';
    put_number(out, at + 1, figure)
}

// Figures, each after a space, and the place after them.
fn put_figures(out: &mut [u8], at: usize, figures: &[u32]) -> usize
    requires { at + 11 * length figures.now ≤ length out.old }
    ensures { (result ≡ at + length (spaced figures.now))
        × (out.new ≡ sets out.old at (spaced figures.now)) }
{
    let mut next = at;
    for figure in figures {
        next = put_figure(out, next, *figure);
    }
    next
}

// A line of a word and figures, and the place after it.
pub fn put_line(out: &mut [u8], at: usize, word: &[u8], figures: &[u32]) -> usize
    requires { at + length word.now + 11 * length figures.now + 1 ≤ length out.old }
    ensures { (result ≡ at + length (line word.now figures.now))
        × (out.new ≡ sets out.old at (line word.now figures.now)) }
{
    let after_word = put_bytes(out, at, word);
    let end = put_figures(out, after_word, figures);
    out[end] = b'\n';
    end + 1
}
