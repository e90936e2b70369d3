// Replays stored cases on the public entries, and compares each answer, and a CRC-32 over all that is lent, with the oracle's.
#![tactic(auto)]

ghost use Rattle.std.specs.Prelude.{◌≡◌, ◌≤◌, length};
ghost use Rattle.crc32.specs.Crc32.{crc32, after};
ghost use Rattle.guard.specs.Countable.{Countable};
ghost use Rattle.model.specs.Checkpoint.{long, words};
ghost use Rattle.replay.specs.Lent.{everything};

use model::{Answer, Geometry, Numbers, Queueing};
use numbers::{number, row};
use std::fmt;

// What a call comes to: whether it is refused, its answer without sign, and the CRC of all that is lent after it.
// A call is refused by 1 or not by 0; a stored sign is any number, and must print and differ as it is, so `refused` is no bool.
#[derive(Clone, Copy, PartialEq, Eq)]
struct Outcome {
    refused: usize,
    magnitude: u64,
    crc: u64,
}

impl Outcome {
    fn new(answer: i64, crc: u32) -> Outcome {
        Outcome {
            refused: usize::from(answer.is_negative()),
            magnitude: answer.unsigned_abs(),
            crc: u64::from(crc),
        }
    }
}

impl fmt::Display for Outcome {
    fn fmt<W: fmt::Write>(&self, f: &mut fmt::Formatter<W>) -> fmt::Result {
        let sign = if self.refused == 0 { "" } else { "-" };
        let magnitude = self.magnitude;
        let crc = self.crc;
        write!(f, "{sign}{magnitude} and {crc}")
    }
}

// A public entry, and what it takes beside the geometry and what it is lent.
#[derive(Clone, Copy)]
enum Entry {
    Format,
    Open,
    Read { sector: usize, len: usize },
    Write { sector: usize, len: usize },
    Collect,
    CollectList { passes: usize },
    CollectThreshold { threshold: u64, passes: usize },
    Encode,
    Restore(Queueing),
}

// A call, the numbers in which it answers, and what is stored of it.
#[derive(Clone, Copy)]
struct Call {
    entry: Entry,
    numbers: Numbers,
    expected: Outcome,
}

// A change of a part of a case's memory: how much of it is lent, or a value at a place.
#[derive(Clone, Copy)]
enum Change {
    Length(usize),
    Poke { place: usize, value: usize },
}

// A step of a case. A part is named by its number: whether there is one is tested when the step is done, and a step behind a difference is passed over.
#[derive(Clone, Copy)]
enum Step {
    End,
    Change { part: usize, change: Change },
    Fuse(u64),
    Call(Call),
}

impl Call {
    // The call of a step by its number: 4 to 12 are the nine entries; 13 to 16 are 7 to 10 in the new numbers, 17 is 12 with the dead queued.
    fn of(op: usize, a: usize, b: usize, expected: Outcome) -> Option<Call> {
        let entry = match op {
            4 => Entry::Format,
            5 => Entry::Open,
            6 => Entry::Read { sector: a, len: b },
            7 | 13 => Entry::Write { sector: a, len: b },
            8 | 14 => Entry::Collect,
            9 | 15 => Entry::CollectList { passes: a },
            10 | 16 => Entry::CollectThreshold {
                threshold: a as u64,
                passes: b,
            },
            11 => Entry::Encode,
            12 => Entry::Restore(Queueing::Empty),
            17 => Entry::Restore(Queueing::Dead),
            _ => return None,
        };
        let numbers = if op < 13 { Numbers::Old } else { Numbers::New };
        Some(Call {
            entry,
            numbers,
            expected,
        })
    }
}

impl Step {
    // The step at a place, and the place after it.
    fn read(xs: &[u8], at: usize) -> Option<(Step, usize)> {
        let (op, first) = number(xs, at)?;
        match op {
            0 => Some((Step::End, first)),
            1 => {
                let ([part, len], next) = row::<2>(xs, first)?;
                let change = Change::Length(len);
                Some((Step::Change { part, change }, next))
            }
            2 => {
                let ([part, place, value], next) = row::<3>(xs, first)?;
                let change = Change::Poke { place, value };
                Some((Step::Change { part, change }, next))
            }
            3 => {
                let (fuse, next) = number(xs, first)?;
                Some((Step::Fuse(fuse as u64), next))
            }
            _ => {
                let ([a, b, refused, magnitude, crc], next) = row::<5>(xs, first)?;
                let expected = Outcome {
                    refused,
                    magnitude: magnitude as u64,
                    crc: crc as u64,
                };
                Some((Step::Call(Call::of(op, a, b, expected)?), next))
            }
        }
    }
}

// The place after the case's end. Bounded by the bytes, here and below: a step and a case have one at least, and a `while` would need that as a proof.
fn skip(xs: &[u8], first: usize) -> Option<usize> {
    let mut at = first;
    for _ in 0..xs.len() {
        let (step, next) = Step::read(xs, at)?;
        if matches!(step, Step::End) {
            return Some(next);
        }
        at = next;
    }
    None
}

// The state after at most 2,048 words. Their bytes are laid into a room and taken in by one update: each call of it lays out its tables,
// which is slower than to take in a word.
fn after_part(state: u32, ws: &[u32]) -> u32
    requires { length ws.now ≤ 2048 }
    ensures { result ≡ after state (words ws.now) }
{
    let mut room = [0u8; 8192];
    checkpoint::put_words(&mut room, 0, ws);
    crc32::update(state, &room[..4 * ws.len()])
}

// The state of the CRC after the words' bytes, the lowest first.
fn after_words(state: u32, ws: &[u32]) -> u32
    ensures { result ≡ after state (words ws.now) }
{
    let mut crc = state;
    for part in ws.chunks(2048) {
        crc = after_part(crc, part);
    }
    crc
}

fn after_fuse(state: u32, fuse: u64) -> u32
    ensures { result ≡ after state (long fuse) }
{
    crc32::update(state, &fuse.to_le_bytes())
}

// What a call is lent: the tables, the flash and its fuse, the bad list, the buffer and the scratch.
#[derive(Drop)]
struct Lent<'a> {
    tab: &'a mut [u32],
    used: &'a mut [u8],
    bytes: &'a mut [u8],
    marks: &'a mut [u8],
    counts: &'a mut [u32],
    fuse: &'a mut u64,
    bad: &'a [u8],
    buffer: &'a mut [u8],
    page: &'a mut [u8],
    seen: &'a mut [u8],
    order: &'a mut [u32],
    taken: &'a mut [u8],
}

impl Lent<'_> {
    // The entry's call. The buffer is a write's bytes, a read's room, an encoding's room and a restore's file.
    fn call(self, geo: Geometry, entry: Entry) -> Answer
        ensures { Countable result }
    {
        let Lent {
            tab,
            used,
            bytes,
            marks,
            counts,
            fuse,
            bad,
            buffer,
            page,
            seen,
            order,
            taken,
        } = self;
        match entry {
            Entry::Format => ftl::format(geo, bytes, marks, counts, fuse),
            Entry::Open => ftl::open(geo, tab, used),
            Entry::Read { sector, len } => {
                ftl::read(geo, sector, len, tab, used, bytes, buffer, seen)
            }
            Entry::Write { sector, len } => ftl::write(
                geo, sector, len, buffer, bad, tab, used, bytes, marks, counts, fuse, page, seen,
            ),
            Entry::Collect => ftl::collect(
                geo, bad, tab, used, bytes, marks, counts, fuse, page, seen, order,
            ),
            Entry::CollectList { passes } => ftl::collect_list(
                geo, passes, bad, tab, used, bytes, marks, counts, fuse, page, seen, order,
            ),
            Entry::CollectThreshold { threshold, passes } => ftl::collect_threshold(
                geo, threshold, passes, bad, tab, used, bytes, marks, counts, fuse, page, seen,
                order,
            ),
            Entry::Encode => ftl::encode(geo, tab, used, buffer, seen),
            Entry::Restore(queueing) => ftl::restore(geo, queueing, buffer, tab, used, taken),
        }
    }

    // The CRC of all that is lent.
    fn digest(&self) -> u32
        ensures { result ≡ crc32
            (everything self.now.tab.now self.now.used.now self.now.bytes.now self.now.marks.now self.now.counts.now self.now.fuse.now
            self.now.bad.now self.now.buffer.now self.now.page.now self.now.seen.now self.now.order.now self.now.taken.now) }
    {
        let tab = after_words(u32::MAX, self.tab);
        let used = crc32::update(tab, self.used);
        let bytes = crc32::update(used, self.bytes);
        let marks = crc32::update(bytes, self.marks);
        let counts = after_words(marks, self.counts);
        let fuse = after_fuse(counts, *self.fuse);
        let bad = crc32::update(fuse, self.bad);
        let buffer = crc32::update(bad, self.buffer);
        let page = crc32::update(buffer, self.page);
        let seen = crc32::update(page, self.seen);
        let order = after_words(seen, self.order);
        !crc32::update(order, self.taken)
    }
}

// A part of a case's memory: its room, of which the first `len` are lent, never more than there are.
#[derive(Drop)]
struct Part<T, const N: usize> {
    room: [T; N],
    len: usize,
    ghost within: { len ≤ N },
}

impl<T: Copy + Default + TryFrom<usize>, const N: usize> Part<T, N>
where
    T::Error: Drop,
{
    // Zeroed, and nothing of it lent.
    fn new() -> Part<T, N> {
        Part {
            room: [T::default(); N],
            len: 0,
        }
    }

    fn set_length(&mut self, len: usize) -> Option<()> {
        if len > N {
            return None;
        }
        self.len = len;
        Some(())
    }

    // The value at a place, where there is that place and its type holds the value.
    fn poke(&mut self, place: usize, value: usize) -> Option<()> {
        *self.room.get_mut(place)? = T::try_from(value).ok()?;
        Some(())
    }

    // What a step makes of the part, where it can.
    fn change(&mut self, change: Change) -> Option<()> {
        match change {
            Change::Length(len) => self.set_length(len),
            Change::Poke { place, value } => self.poke(place, value),
        }
    }

    fn lend(&mut self) -> &mut [T] {
        let len = self.len;
        let room = &mut self.room;
        &mut room[..len]
    }
}

// The memory of a case: its parts, each with how much of it is lent, and the fuse.
#[derive(Drop)]
struct Memory {
    tab: Part<u32, 2048>,
    used: Part<u8, 512>,
    bytes: Part<u8, 16384>,
    marks: Part<u8, 512>,
    counts: Part<u32, 256>,
    fuse: u64,
    bad: Part<u8, 256>,
    buffer: Part<u8, 4096>,
    page: Part<u8, 512>,
    seen: Part<u8, 512>,
    order: Part<u32, 256>,
    taken: Part<u8, 512>,
}

impl Memory {
    // Zeroed, nothing of it lent, and a fuse without end.
    fn new() -> Memory {
        Memory {
            tab: Part::new(),
            used: Part::new(),
            bytes: Part::new(),
            marks: Part::new(),
            counts: Part::new(),
            fuse: u64::MAX,
            bad: Part::new(),
            buffer: Part::new(),
            page: Part::new(),
            seen: Part::new(),
            order: Part::new(),
            taken: Part::new(),
        }
    }

    // The format names parts by numbers, and here they end.
    fn change(&mut self, part: usize, change: Change) -> Option<()> {
        match part {
            0 => self.tab.change(change),
            1 => self.used.change(change),
            2 => self.bytes.change(change),
            3 => self.marks.change(change),
            4 => self.counts.change(change),
            5 => self.bad.change(change),
            6 => self.buffer.change(change),
            7 => self.page.change(change),
            8 => self.seen.change(change),
            9 => self.order.change(change),
            10 => self.taken.change(change),
            _ => None,
        }
    }

    // Each part as long as the case says.
    fn lend(&mut self) -> Lent<'_> {
        Lent {
            tab: self.tab.lend(),
            used: self.used.lend(),
            bytes: self.bytes.lend(),
            marks: self.marks.lend(),
            counts: self.counts.lend(),
            fuse: &mut self.fuse,
            bad: self.bad.lend(),
            buffer: self.buffer.lend(),
            page: self.page.lend(),
            seen: self.seen.lend(),
            order: self.order.lend(),
            taken: self.taken.lend(),
        }
    }

    // What a call comes to.
    fn outcome(&mut self, geo: Geometry, call: Call) -> Outcome {
        let answer = guard::number(call.numbers, self.lend().call(geo, call.entry));
        Outcome::new(answer, self.lend().digest())
    }
}

// A case played: the place after it, its calls, and whether one differs.
#[derive(Clone, Copy)]
struct Played {
    next: usize,
    calls: u64,
    differs: bool,
}

// The steps of a case from zeroed memory, up to a call that differs.
fn play(rt: &impl Print, case: u64, geo: Geometry, xs: &[u8], first: usize) -> Option<Played> {
    let mut memory = Memory::new();
    let mut played = Played {
        next: first,
        calls: 0,
        differs: false,
    };
    for _ in 0..xs.len() {
        let (step, next) = Step::read(xs, played.next)?;
        played.next = next;
        match step {
            Step::End => return Some(played),
            Step::Change { part, change } => memory.change(part, change)?,
            Step::Fuse(fuse) => memory.fuse = fuse,
            Step::Call(call) => {
                let Call { expected, .. } = call;
                let found = memory.outcome(geo, call);
                played.calls = played.calls.wrapping_add(1);
                if found != expected {
                    let number = played.calls;
                    let _ = println!(rt;
                        "case {case}, call {number}: expected {expected}, found {found}"
                    );
                    played.differs = true;
                    played.next = skip(xs, next)?;
                    return Some(played);
                }
            }
        }
    }
    None
}

// A case: its geometry, and then its steps.
fn play_case(rt: &impl Print, case: u64, xs: &[u8], at: usize) -> Option<Played> {
    let ([n, p, s, w, e, limit], first) = row::<6>(xs, at)?;
    let geo = Geometry::of(n, p, s, w, e, limit);
    play(rt, case, geo, xs, first)
}

#[derive(Clone, Copy, Default)]
struct Tally {
    cases: u64,
    calls: u64,
    differences: u64,
}

impl Tally {
    fn count(&mut self, played: Played) {
        self.cases = self.cases.wrapping_add(1);
        self.calls = self.calls.wrapping_add(played.calls);
        self.differences = self.differences.wrapping_add(u64::from(played.differs));
    }
}

impl fmt::Display for Tally {
    fn fmt<W: fmt::Write>(&self, f: &mut fmt::Formatter<W>) -> fmt::Result {
        let Tally {
            cases,
            calls,
            differences,
        } = *self;
        write!(f, "{cases} cases, {calls} calls, {differences} differences")
    }
}

// Every case of the file, up to one that is malformed. A line that can't be written is passed over.
fn play_all(rt: &impl Print, xs: &[u8]) -> Tally {
    let mut tally = Tally::default();
    let mut at = 0;
    for _ in 0..xs.len() {
        if at >= xs.len() {
            break;
        }
        let case = tally.cases.wrapping_add(1);
        let Some(played) = play_case(rt, case, xs, at) else {
            let _ = println!(rt; "malformed in case {case}");
            break;
        };
        tally.count(played);
        at = played.next;
    }
    tally
}

fn main(rt: HostRuntime) {
    let mut input = [0u8; 262145];
    let length = input::read_full(&mut rt.stdin(), &mut input);
    if 262144 < length {
        let _ = println!(rt; "too long");
        return;
    }
    let tally = play_all(&rt, &input[..length]);
    let _ = println!(rt; "{tally}");
}
