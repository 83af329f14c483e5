//! The lines of a chain file.

ghost use Rattle.std.specs.Prelude.{◌≡◌, ◌+◌, ◌<◌, ◌≤◌, ◌==◌, ◌∷◌, [], false, drop, length, IfSome};
ghost use Rattle.std.specs.Prelude.{IsTrue, position, slice_range, take};
ghost use Rattle.std.specs.Str.Lines.{lines, strip_carriage_return};
ghost use Rattle.commitgraph_c.specs.FirstLine.{line_len};

/// Where a line ends, and where the next one begins.
#[repr(C)]
#[derive(Clone, Copy)]
pub struct CgLine {
    pub found: bool,
    pub end: usize,
    pub next: usize,
}

/// The line that begins at this byte of a chain file, or none where no line is left there.
pub fn cg_chain_line(text: &[u8], start: usize) -> CgLine
    ensures line { IsTrue result.found → lines (drop start text.now)
        ≡ slice_range text.now start result.end ∷ lines (drop result.next text.now) }
    ensures next { IsTrue result.found
        → result.next ≡ start + line_len (drop start text.now) }
    ensures from { IsTrue result.found → start ≤ result.end }
    ensures until { IsTrue result.found → result.end ≤ result.next }
    ensures forward { IsTrue result.found → start < result.next }
    ensures within { IsTrue result.found → result.next ≤ length text.now }
    ensures none { result.found ≡ false → lines (drop start text.now) ≡ [] }
    ensures nowhere { result.found ≡ false → (result.end ≡ 0) × (result.next ≡ 0) }
{
    if start >= text.len() {
        return CgLine {
            found: false,
            end: 0,
            next: 0,
        };
    }
    let (end, next) = first_line(&text[start..]);
    CgLine {
        found: true,
        end: start + end,
        next: start + next,
    }
}

/// Where the first line of a text that is not empty ends, and where the next one begins.
fn first_line(text: &[u8]) -> (usize, usize)
    requires { 0 < length text.now }
    ensures line { lines text.now ≡ take result.0 text.now ∷ lines (drop result.1 text.now) }
    ensures next { result.1 ≡ line_len text.now }
    ensures order { result.0 ≤ result.1 }
    ensures forward { 0 < result.1 }
    ensures within { result.1 ≤ length text.now }
{
    match first_newline(text) {
        Some(newline) => (end_of(&text[..newline]), newline + 1),
        None => (text.len(), text.len()),
    }
}

/// Where the first newline stands.
fn first_newline(text: &[u8]) -> Option<usize>
    ensures value { result ≡ position (λ byte. byte == 10) text.now }
    ensures inside { IfSome result (λ newline. newline < length text.now) }
{
    text.iter().position(|byte| *byte == b'\n')
}

/// Where a line ends without the one carriage return at its end, if it has one.
fn end_of(line: &[u8]) -> usize
    ensures end { take result line.now ≡ strip_carriage_return line.now }
    ensures within { result ≤ length line.now }
{
    match line.split_last() {
        Some((b'\r', front)) => front.len(),
        _ => line.len(),
    }
}
