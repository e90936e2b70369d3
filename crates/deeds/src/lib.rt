// What the records of a trace do: each is one call of a public entry, and gives one line.
#![tactic(auto)]

ghost use Rattle.std.specs.Prelude.{◌≡◌, ◌+◌, ◌*◌, ◌≤◌, length};
ghost use Rattle.guard.specs.Countable.{Countable};
ghost use Rattle.model.specs.Lists.{splice};
ghost use Rattle.records.specs.Trace.{next_record};
ghost use Rattle.deeds.specs.Deeds.{line_of, Ahead, Turned};
ghost use Rattle.deeds.specs.Kept.{kept_of, Same};

use lending::UnitMut;
use model::{Answer, Numbers};
use records::Record;

// What is kept from record to record: the unit, the buffer that a read fills, and that of the last checkpoint with the checkpoint's length.
// The length stands beside the buffer, since the memory is fixed and there is no heap; the definitions' `Kept` has both.
// The unit has a lifetime of its own: a struct with a ghost field is given to another only at the lifetimes that it has.
#[derive(Drop)]
pub struct KeptMut<'u, 'a> {
    pub unit: UnitMut<'u>,
    pub out: &'a mut [u8],
    pub file: &'a mut [u8],
    pub stored: usize,
}

// What a turn tells: the place after the record, and the length of its line.
#[derive(Clone, Copy, Debug, PartialEq, Eq)]
pub struct Told {
    pub next: usize,
    pub length: usize,
}

// The line of a record.
fn put_line(rec: Record, answer: Answer, out: &[u8], line: &mut [u8]) -> usize
    requires countable { Countable answer }
    requires in_bounds { 24 ≤ length line.old }
    requires out_in_bounds { 2 * length out.now + 3 ≤ length line.old }
    ensures length { result ≡ length (line_of rec answer out.now) }
    ensures laid { line.new ≡ splice 0 (line_of rec answer out.now) line.old }
{
    let r = guard::number(Numbers::Old, answer);
    match rec {
        Record::Write(..) => lines::put_answer(b'w', r, line),
        Record::Read(..) => match answer {
            Ok(m) => lines::put_read(&out[..m.min(out.len())], line),
            Err(_) => lines::put_answer(b'r', r, line),
        },
        Record::Collect => lines::put_answer(b'g', r, line),
        Record::CollectList(_) => lines::put_answer(b'l', r, line),
        Record::Checkpoint => lines::put_answer(b'c', r, line),
        Record::Restore(_) => lines::put_answer(b's', r, line),
    }
}

impl KeptMut<'_, '_> {
    ghost use Rattle.records.specs.Trace.{Within};
    ghost use Rattle.deeds.specs.Deeds.{Performed};

    // The call of a record. A checkpoint that is refused leaves the last one. Each buffer is lent before the unit is, since no field of what is lent
    // can be lent beside it.
    fn perform(&mut self, rec: Record, xs: &[u8], bad: &[u8]) -> Answer
        requires { Within xs.now rec }
        ensures same { Same self.old self.new }
        ensures performed { Performed self.old.unit.geo bad.now xs.now (kept_of self.old) rec (kept_of self.new) result }
        ensures countable { Countable result }
    {
        match rec {
            Record::Write(sector, len, at) => self.unit.write(sector, &xs[at..at + len], bad),
            Record::Read(sector, len) => {
                let out = &mut *self.out;
                self.unit.read(sector, len, out)
            }
            Record::Collect => self.unit.collect(bad),
            Record::CollectList(m) => self.unit.collect_list(m, bad),
            Record::Checkpoint => {
                let file = &mut *self.file;
                let answer = self.unit.encode(file);
                self.stored = answer.unwrap_or(self.stored);
                answer
            }
            Record::Restore(queueing) => {
                // tried, and not covered: `&*self.file`, since beside a field lent to look at the unit could not be lent
                let file: &[u8] = &mut *self.file;
                let end = self.stored.min(file.len());
                self.unit.restore(queueing, &file[..end])
            }
        }
    }
}

// One turn: the record at a place is read and done, and its line laid in front of the buffer; `None` for a malformed one.
pub fn do_record(
    xs: &[u8],
    at: usize,
    bad: &[u8],
    kept: &mut KeptMut<'_, '_>,
    line: &mut [u8],
) -> Option<Told>
    requires in_bounds { 24 ≤ length line.old }
    requires out_in_bounds { 2 * length kept.old.out.now + 3 ≤ length line.old }
    ensures same { Same kept.old kept.new }
    ensures ahead { Ahead at line.new result }
    ensures turned { Turned kept.old.unit.geo bad.now xs.now (kept_of kept.old) (next_record xs.now at) line.old (kept_of kept.new) line.new result }
{
    let (rec, next) = records::next_record(xs, at)?;
    let answer = kept.perform(rec, xs, bad);
    let out = &mut *kept.out;
    let length = put_line(rec, answer, out, line);
    Some(Told { next, length })
}
