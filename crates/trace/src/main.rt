// Document 01's program `trace`: records from standard input, a line for each on standard output, written as it is made.
// The first write that fails is the last, and standard error says so.
#![tactic(auto)]

ghost use Rattle.std.specs.Prelude.{◌≡◌, true, ◌+◌, ◌*◌, ◌≤◌, length};
ghost use Rattle.model.specs.Numbers.{Good};
ghost use Rattle.model.specs.Tables.{tab_words};
ghost use Rattle.records.specs.Trace.{small?};

use deeds::KeptMut;
use lending::UnitMut;
use model::{Geometry, PhysicalAddress};
use records::HeaderError;
use std::io;
use std::io::Print;

// "Last: `m` and each entry as segment.page or `-`."
#[tactic(auto, unfolding(model::specs::Lists::splice))]
fn print_map<P: Print>(to: &P, unit: &UnitMut<'_>, line: &mut [u8]) -> io::Result<()>
    requires good { Good unit.now.geo }
    requires map_len { unit.now.geo.e ≤ length unit.now.tab.now }
    requires in_bounds { 24 ≤ length line.old }
{
    let geo = unit.geo;
    let tab: &[u32] = unit.tab;
    to.write_all(b"m")?;
    for word in &tab[..geo.e] {
        let length = lines::put_entry(geo, PhysicalAddress(*word), line);
        to.write_all(&line[..length])?;
    }
    to.write_all(b"\n")
}

// "records until the end". No struct for the parameters: it would be made for this call alone, and taken apart again for `do_record`.
#[tactic(auto, using(crate::proofs::Laws::taken))]
fn follow<P: Print>(
    to: &P,
    xs: &[u8],
    first: usize,
    bad: &[u8],
    kept: &mut KeptMut<'_, '_>,
    line: &mut [u8],
) -> io::Result<()>
    requires geo_value { small? kept.old.unit.geo ≡ true }
    requires tab_len { length kept.old.unit.tab.now ≡ tab_words kept.old.unit.geo }
    requires in_bounds { 24 ≤ length line.old }
    requires out_in_bounds { 2 * length kept.old.out.now + 3 ≤ length line.old }
{
    let mut at = first;
    // no `for`: each record says where the next begins
    while at < xs.len() {
        let Some(told) = deeds::do_record(xs, at, bad, kept, line) else {
            return to.write_all(b"t !1\n");
        };
        to.write_all(&line[..told.length])?;
        at = told.next;
    }
    print_map(to, &kept.unit, line)
}

// "On formatted flash and fresh tables": the memory of the largest device that a trace may have, of which each call is lent what the geometry asks.
#[tactic(auto, using(crate::proofs::Laws::taken))]
fn play<P: Print>(to: &P, geo: Geometry, xs: &[u8], first: usize, bad: &[u8]) -> io::Result<()>
    requires { small? geo ≡ true }
{
    let mut tab = [0u32; 7170];
    let mut used = [0u8; 1024];
    let mut bytes = [0u8; 32768];
    let mut marks = [0u8; 1024];
    let mut counts = [0u32; 1024];
    let mut fuse = u64::MAX;
    let mut out = [0u8; 512];
    let mut file = [0u8; 8236];
    let mut line = [0u8; 1027];
    let pages = geo.pages();
    let (tab, used) = (&mut tab[..geo.words()], &mut used[..pages]);
    let (bytes, marks) = (&mut bytes[..pages * geo.s], &mut marks[..pages]);
    let counts = &mut counts[..geo.n];
    // neither is refused: the geometry is small, so it is good, and the sizes are exact
    let _ = ftl::format(geo, bytes, marks, counts, &mut fuse);
    let _ = ftl::open(geo, tab, used);
    let unit = UnitMut {
        geo,
        tab,
        used,
        bytes,
        marks,
        counts,
        fuse: &mut fuse,
    };
    let mut kept = KeptMut {
        unit,
        out: &mut out,
        file: &mut file,
        stored: 0,
    };
    follow(to, xs, first, bad, &mut kept, &mut line)
}

// "Length is tested first, then the header's form, then its values."
fn run<P: Print>(to: &P, xs: &[u8]) -> io::Result<()> {
    if 16384 < xs.len() {
        return to.write_all(b"t !3\n");
    }
    let mut bad = [0u8; 1024];
    match records::read_header(xs, &mut bad) {
        Ok((geo, first)) => play(to, geo, xs, first, &bad[..geo.n]),
        Err(HeaderError::Form) => to.write_all(b"t !1\n"),
        Err(HeaderError::Values) => to.write_all(b"t !2\n"),
    }
}

fn main(rt: HostRuntime) {
    let mut input = [0u8; 16385];
    let length = input::read_full(&mut rt.stdin(), &mut input);
    if run(&rt, &input[..length]).is_err() {
        let _ = rt.stderr().write_all(b"trace: output not written\n");
    }
}
