// What the definitions and the code share: geometry, page numbers, where a page is, what a call answers.
#![tactic(auto)]

ghost use Rattle.std.specs.Prelude.{◌≡◌, ◌+◌, ◌*◌, ◌<◌, ◌≤◌, ◌^◌, eqb};
ghost use Rattle.model.specs.Numbers.{Good, geometry, empty, addr, seg_of, page_of};
ghost use Rattle.model.specs.Tables.{tab_words, pages};
ghost use Rattle.model.specs.PageMap.{spot};

// Document 01's letters: n segments of p pages of s bytes, address width w, e map entries, erase limit.
// Every field takes any number: whether it is one of 01's is tested by each public entry.
#[derive(Clone, Copy, Debug, PartialEq, Eq)]
pub struct Geometry {
    pub n: usize,
    pub p: usize,
    pub s: usize,
    pub w: usize,
    pub e: usize,
    pub limit: usize,
}

// "Logical page numbers and physical addresses are kept apart."
#[derive(Clone, Copy, Debug, PartialEq, Eq)]
pub struct LogicalPage(pub usize);

#[derive(Clone, Copy, Debug, PartialEq, Eq)]
pub struct PhysicalAddress(pub u32);

// Page k of segment g.
#[derive(Clone, Copy, Debug, PartialEq, Eq)]
pub struct Spot {
    pub segment: usize,
    pub page: usize,
}

impl PhysicalAddress {
    // "The empty word is 2^32-1, above every address."
    pub const EMPTY: PhysicalAddress = PhysicalAddress(u32::MAX);

    pub fn is_empty(self) -> bool
        ensures { result ≡ eqb self.0 empty }
    {
        self == PhysicalAddress::EMPTY
    }
}

impl Geometry {
    pub fn of(n: usize, p: usize, s: usize, w: usize, e: usize, limit: usize) -> Self
        ensures { result ≡ geometry n p s w e limit }
    {
        Geometry {
            n,
            p,
            s,
            w,
            e,
            limit,
        }
    }

    // 2 to the power w: how many addresses a segment has.
    pub fn span(self) -> usize
        requires { self.w ≤ 16 }
        ensures { result ≡ 2 ^ self.w }
    {
        1usize << self.w
    }

    // "The address of page k of segment g is g·2^w + k."
    pub fn address_of(self, at: Spot) -> PhysicalAddress
        requires good { Good self }
        requires in_bounds { (at.segment < self.n) × (at.page < self.p) }
        ensures { result.0 ≡ addr self at.segment at.page }
    {
        PhysicalAddress((at.segment * self.span() + at.page) as u32)
    }

    // The segment and the page that an address names.
    pub fn spot_of(self, a: PhysicalAddress) -> Spot
        requires { self.w ≤ 16 }
        ensures { result ≡ spot (seg_of self a.0) (page_of self a.0) }
    {
        let x = a.0 as usize;
        Spot {
            segment: x / self.span(),
            page: x % self.span(),
        }
    }

    // The place of a page among all, segment by segment.
    pub fn number_of(self, at: Spot) -> usize
        requires good { Good self }
        requires in_bounds { (at.segment < self.n) × (at.page < self.p) }
        ensures { result ≡ at.segment * self.p + at.page }
    {
        at.segment * self.p + at.page
    }

    // How many pages there are, and how many words are lent.
    pub fn pages(self) -> usize
        requires { Good self }
        ensures { result ≡ pages self }
    {
        self.n * self.p
    }

    pub fn words(self) -> usize
        requires { Good self }
        ensures { result ≡ tab_words self }
    {
        self.e + self.n * 5 + 2 + self.pages()
    }
}

// The choice of numbers (02, M-101).
#[derive(Clone, Copy, Debug, PartialEq, Eq)]
pub enum Numbers {
    // 01's: 14 for no room, and for a copy that failed.
    Old,
    // 28 for no room, a write's or a copy's; 121 for a copy at the device.
    New,
}

// The choice of the queue after a restore of a version 1 file (02, M-109).
#[derive(Clone, Copy, Debug, PartialEq, Eq)]
pub enum Queueing {
    // 01's: no segment is queued.
    Empty,
    // Each segment with free count 0 and a list shorter than p is queued.
    Dead,
}

// Why a call is refused. `number` of the definitions gives for each the number of document 01, or of 02 under the new choice.
#[derive(Clone, Copy, Debug, PartialEq, Eq)]
pub enum Cause {
    // Geometry, a lent size, the logical page, a page overrun, a checkpoint buffer too short.
    Wrong,
    // The tables are not sound.
    Unsound,
    // A read of an unmapped page.
    Unmapped,
    // A write: finding a page gave `None`.
    NoRoom,
    // A write: the device refused the programming; the page found is spent.
    Device,
    // A collection: the same two of its copy, which is a write.
    CopyNoRoom,
    CopyDevice,
    // A collection: the erase was refused.
    Erase,
    // Restoring: the first of the nine tests that a checkpoint fails. 01 tells them by number, and so do `reason_of` and the theorems on it.
    Reason(usize),
}

// Bytes moved or passes counted, or a refusal.
pub type Answer = Result<usize, Cause>;
