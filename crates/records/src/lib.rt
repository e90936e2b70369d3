// The header and the records of a trace, read from bytes that may be anything, each from a place on, as the definitions read them.
#![tactic(auto)]

ghost use Rattle.std.specs.Prelude.{◌≡◌, true, set};
ghost use Rattle.records.specs.Trace.{front, marking, header, write_record, read_record, list_record, record_of, next_record, small?};

use model::{Geometry, Queueing};
use numbers::{number, row};

// Why a header is refused: for its form, or for its values.
#[derive(Clone, Copy, Debug, PartialEq, Eq)]
pub enum HeaderError {
    Form,
    Values,
}

// A record; a write's bytes stand in the trace, at the place that is its third number.
#[derive(Clone, Copy, Debug, PartialEq, Eq)]
pub enum Record {
    Write(usize, usize, usize),
    Read(usize, usize),
    Collect,
    CollectList(usize),
    Checkpoint,
    Restore(Queueing),
}

// The seven numbers at the front of a trace: the geometry, the count of bad segments and the place of the first of them.
fn front(xs: &[u8]) -> Option<(Geometry, usize, usize)>
    ensures { result ≡ front xs.now }
{
    let ([n, p, s, w, e, limit, count], at) = row::<7>(xs, 0)?;
    let geo = Geometry::of(n, p, s, w, e, limit);
    Some((geo, count, at))
}

// The mark of segment g, if there is one. By `get_mut` the proof does not close: it tells the list's length and no element.
fn mark(bad: &mut [u8], g: usize)
    ensures { bad.new ≡ set bad.old g 1 }
{
    if g < bad.len() {
        bad[g] = 1;
    }
}

// The bad segments, each marked if it has a mark: the place after their numbers, and whether each is below n. The definition `marking` has both, since a
// header is refused for its form before its values.
#[tactic(auto, using(crate::proofs::Laws::marking_done, crate::proofs::Laws::marking_short))]
fn mark_all(xs: &[u8], at: usize, n: usize, count: usize, bad: &mut [u8]) -> Option<(usize, bool)>
    ensures { (result, bad.new) ≡ marking xs.now n count at true bad.old }
{
    let mut next = at;
    let mut inside = true;
    for _ in 0..count {
        let (g, after) = number(xs, next)?;
        mark(bad, g);
        inside &= g < n;
        next = after;
    }
    Some((next, inside))
}

// The trace's own limits.
fn small(geo: Geometry) -> bool
    ensures { result ≡ small? geo }
{
    if !sound::good(geo) {
        return false;
    }
    let pages = geo.n * geo.p;
    pages <= 1024 && geo.s <= 512 && pages * geo.s <= 32768
}

// The header: a geometry that the trace takes and the place of the first record, its bad segments marked in the list.
#[tactic(auto, unfolding(crate::specs::Trace::header))]
pub fn read_header(xs: &[u8], bad: &mut [u8]) -> Result<(Geometry, usize), HeaderError>
    ensures { (result, bad.new) ≡ header xs.now bad.old }
{
    let (geo, count, at) = front(xs).ok_or(HeaderError::Form)?;
    let (first, inside) = mark_all(xs, at, geo.n, count, bad).ok_or(HeaderError::Form)?;
    if inside && small(geo) {
        Ok((geo, first))
    } else {
        Err(HeaderError::Values)
    }
}

#[tactic(auto, unfolding(crate::specs::Trace::write_record))]
fn write_record(xs: &[u8], at: usize) -> Option<(Record, usize)>
    ensures { result ≡ write_record xs.now at }
{
    let (sector, next) = number(xs, at)?;
    let (len, bytes) = number(xs, next)?;
    if xs.len() - bytes < len {
        return None;
    }
    Some((Record::Write(sector, len, bytes), bytes + len))
}

#[tactic(auto, unfolding(crate::specs::Trace::read_record))]
fn read_record(xs: &[u8], at: usize) -> Option<(Record, usize)>
    ensures { result ≡ read_record xs.now at }
{
    let (sector, next) = number(xs, at)?;
    let (len, next) = number(xs, next)?;
    Some((Record::Read(sector, len), next))
}

#[tactic(auto, unfolding(crate::specs::Trace::list_record))]
fn list_record(xs: &[u8], at: usize) -> Option<(Record, usize)>
    ensures { result ≡ list_record xs.now at }
{
    let (m, next) = number(xs, at)?;
    Some((Record::CollectList(m), next))
}

// The format names kinds by numbers, and here they end.
#[tactic(auto, unfolding(crate::specs::Trace::record_of))]
fn record_of(xs: &[u8], kind: usize, at: usize) -> Option<(Record, usize)>
    ensures { result ≡ record_of xs.now kind at }
{
    match kind {
        0 => write_record(xs, at),
        1 => read_record(xs, at),
        2 => Some((Record::Collect, at)),
        3 => list_record(xs, at),
        4 => Some((Record::Checkpoint, at)),
        5 => Some((Record::Restore(Queueing::Empty), at)),
        6 => Some((Record::Restore(Queueing::Dead), at)),
        _ => None,
    }
}

// The record at a place and the place after it.
pub fn next_record(xs: &[u8], at: usize) -> Option<(Record, usize)>
    ensures { result ≡ next_record xs.now at }
{
    let (kind, next) = number(xs, at)?;
    record_of(xs, kind, next)
}
