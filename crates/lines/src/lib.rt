// The lines of a trace, laid into a buffer that the caller lends. The answer is how many bytes were laid.
#![tactic(auto)]

ghost use Rattle.std.specs.Prelude.{◌≡◌, ◌+◌, ◌*◌, ◌<◌, ◌≤◌, List, [], ◌∷◌, length};
ghost use Rattle.model.specs.Lists.{splice};
ghost use Rattle.model.specs.Numbers.{Good};
ghost use Rattle.lines.specs.Laying.{Laid, Room};
ghost use Rattle.lines.specs.Text.{decimal, answer_text, line, answer_line, glyph, hex, entry_text};

use model::{Geometry, PhysicalAddress};

// A line as far as it is laid: the buffer, and the place behind what is laid in. By hand: what `write!` writes, a contract tells of a String alone, and
// here is no heap.
#[derive(Drop)]
struct Line<'a> {
    out: &'a mut [u8],
    end: usize,
}

impl<'a> Line<'a> {
    fn put(&mut self, byte: u8)
        requires { Room self.old (byte ∷ []) }
        ensures same_buffer { self.new.out.ghost_name ≡ self.old.out.ghost_name }
        ensures laid { Laid self.old self.new (byte ∷ []) }
    {
        self.out[self.end] = byte;
        self.end += 1;
    }

    // The digits of x: those of x / 10, then the last.
    fn put_decimal(&mut self, x: usize)
        requires { Room self.old (decimal x) }
        ensures same_buffer { self.new.out.ghost_name ≡ self.old.out.ghost_name }
        ensures laid { Laid self.old self.new (decimal x) }
    {
        if 10 <= x {
            self.put_decimal(x / 10);
        }
        self.put(b'0' + (x % 10) as u8);
    }

    // "the answer in decimal, or `!` and the refusal number"
    fn put_text(&mut self, r: i64)
        requires { Room self.old (answer_text r) }
        ensures same_buffer { self.new.out.ghost_name ≡ self.old.out.ghost_name }
        ensures laid { Laid self.old self.new (answer_text r) }
    {
        if r < 0 {
            self.put(b'!');
        }
        self.put_decimal(r.unsigned_abs() as usize);
    }

    // Two digits for each byte.
    fn put_hex(&mut self, bytes: &[u8])
        requires { Room self.old (hex bytes.now) }
        ensures same_buffer { self.new.out.ghost_name ≡ self.old.out.ghost_name }
        ensures laid { Laid self.old self.new (hex bytes.now) }
    {
        for b in bytes {
            self.put(glyph(b / 16));
            self.put(glyph(b % 16));
        }
    }
}

// One digit in lower hex.
fn glyph(d: u8) -> u8
    requires { d < 16 }
    ensures { result ≡ glyph d }
{
    if d < 10 { b'0' + d } else { b'a' - 10 + d }
}

// The line of an answer.
pub fn put_answer(letter: u8, r: i64, out: &mut [u8]) -> usize
    requires { 24 ≤ length out.old }
    ensures length { result ≡ length (answer_line letter r) }
    ensures laid { out.new ≡ splice 0 (answer_line letter r) out.old }
{
    let mut line = Line { out, end: 0 };
    line.put(letter);
    line.put(b' ');
    line.put_text(r);
    line.put(b'\n');
    line.end
}

// The line of a read: "its bytes in lower hex".
pub fn put_read(bytes: &[u8], out: &mut [u8]) -> usize
    requires { 2 * length bytes.now + 3 ≤ length out.old }
    ensures length { result ≡ length (line 114 (hex bytes.now)) }
    ensures laid { out.new ≡ splice 0 (line 114 (hex bytes.now)) out.old }
{
    let mut line = Line { out, end: 0 };
    line.put(b'r');
    line.put(b' ');
    line.put_hex(bytes);
    line.put(b'\n');
    line.end
}

// A space and one entry of the map: "segment.page or `-`".
pub fn put_entry(geo: Geometry, a: PhysicalAddress, out: &mut [u8]) -> usize
    requires good { Good geo }
    requires in_bounds { 24 ≤ length out.old }
    ensures length { result ≡ length (entry_text geo a.0) }
    ensures laid { out.new ≡ splice 0 (entry_text geo a.0) out.old }
{
    let mut line = Line { out, end: 0 };
    line.put(b' ');
    if a.is_empty() {
        line.put(b'-');
        return line.end;
    }
    let at = geo.spot_of(a);
    line.put_decimal(at.segment);
    line.put(b'.');
    line.put_decimal(at.page);
    line.end
}
