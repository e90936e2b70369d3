// Compares CRC-32 values with known ones, a line each. The known ones are what zlib computes (Python's zlib.crc32), and what GNU
// gzip, which has code of its own, puts behind the same bytes; that of digits-9 is the check value that lists of CRCs give.
#![tactic(auto)]

ghost use Rattle.std.specs.Prelude.{◌≡◌, ◌++◌, ◌%◌, length, slice_index, EachIndex};
ghost use Rattle.crc32.specs.Crc32.{crc32};

use std::{array, io};

// Where the lines go, how many values were compared, and how many of them were right.
#[derive(Drop)]
struct Tally<'a, P> {
    rt: &'a P,
    values: u64,
    right: u64,
}

impl<P: Print> Tally<'_, P> {
    // Compares a value with the expected one: writes its line, and counts it.
    fn row(&mut self, name: &str, crc: u32, expected: u32) -> io::Result<()> {
        self.values = self.values.wrapping_add(1);
        if crc != expected {
            return println!(self.rt; "{name} {crc:08x} WRONG, expected {expected:08x}");
        }
        self.right = self.right.wrapping_add(1);
        println!(self.rt; "{name} {crc:08x} ok")
    }

    // The CRC of s at once.
    fn whole(&mut self, name: &str, s: &[u8], expected: u32) -> io::Result<()> {
        self.row(name, crc32::checksum(s), expected)
    }

    fn texts(&mut self) -> io::Result<()> {
        let rows: [(&str, &[u8], u32); 7] = [
            ("empty", b"", 0x00000000),
            ("a", b"a", 0xe8b7be43),
            ("abc", b"abc", 0x352441c2),
            ("digits-9", b"123456789", 0xcbf43926),
            ("message-digest", b"message digest", 0x20159d7f),
            ("alphabet", b"abcdefghijklmnopqrstuvwxyz", 0x4c2750bd),
            (
                "fox",
                b"The quick brown fox jumps over the lazy dog",
                0x414fa339,
            ),
        ];
        for (name, s, expected) in rows {
            self.whole(name, s, expected)?;
        }
        Ok(())
    }

    fn blocks(&mut self) -> io::Result<()> {
        self.whole("zeros-512", &[0; 512], 0xb2aa7578)?;
        self.whole("ones-512", &[255; 512], 0xbd7bc39f)
    }

    // Lengths on both sides of a word of eight bytes, and of eight words.
    fn lengths(&mut self, p: &[u8]) -> io::Result<()> {
        let rows = [
            ("counting-1", 1, 0xd202ef8d),
            ("counting-7", 7, 0xad5809f9),
            ("counting-8", 8, 0x88aa689f),
            ("counting-9", 9, 0xbce14302),
            ("counting-15", 15, 0xa06c675e),
            ("counting-16", 16, 0xcecee288),
            ("counting-17", 17, 0x2c183a19),
            ("counting-63", 63, 0xdbdea683),
            ("counting-64", 64, 0x100ece8c),
            ("counting-65", 65, 0x40c06fd8),
            ("counting-300", 300, 0x3abcfcee),
        ];
        for (name, k, expected) in rows {
            self.whole(name, &p[..p.len().min(k)], expected)?;
        }
        Ok(())
    }

    // The counting bytes in two parts: cuts at both ends, around a word, and in the middle of one.
    fn cuts(&mut self, p: &[u8]) -> io::Result<()> {
        let rows = [
            ("joined-0", 0),
            ("joined-1", 1),
            ("joined-7", 7),
            ("joined-8", 8),
            ("joined-150", 150),
            ("joined-299", 299),
            ("joined-300", 300),
        ];
        for (name, k) in rows {
            let (a, b) = p.split_at(p.len().min(k));
            self.row(name, crc32::joined(a, b), 0x3abcfcee)?;
        }
        Ok(())
    }

    fn parts(&mut self) -> io::Result<()> {
        self.row(
            "updated-digits-9",
            chained(b"123", b"", b"456789"),
            0xcbf43926,
        )?;
        let fox = chained(b"The quick brown fox ", b"jumps over", b" the lazy dog");
        self.row("updated-fox", fox, 0x414fa339)
    }
}

// The bytes 0, 1, .. 255, 0, 1, ..
fn counting() -> [u8; 300]
    ensures long { 300 ≡ length result }
    ensures counted { EachIndex result (λ k. slice_index result k ≡ k % 256) }
{
    array::from_fn(|i| (i % 256) as u8)
}

// The CRC of three parts, taken in one after the other.
fn chained(a: &[u8], b: &[u8], c: &[u8]) -> u32
    ensures { result ≡ crc32 ((a.now ++ b.now) ++ c.now) }
{
    let one = crc32::update(0xffff_ffff, a);
    let two = crc32::update(one, b);
    !crc32::update(two, c)
}

fn main(rt: HostRuntime) -> io::Result<()> {
    let p = counting();
    let mut t = Tally {
        rt: &rt,
        values: 0,
        right: 0,
    };
    t.texts()?;
    t.blocks()?;
    t.lengths(&p)?;
    t.cuts(&p)?;
    t.parts()?;
    println!(rt; "{} values, {} right", t.values, t.right)
}
