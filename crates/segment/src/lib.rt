// "one segment's record, lent alone, is reset where it stands": free and valid count. Use marks, list and flag are the collection's.
#![tactic(auto)]

ghost use Rattle.std.specs.Prelude.{◌≡◌};
ghost use Rattle.segment.specs.Reset.{reset};

#[derive(Clone, Copy, Debug, PartialEq, Eq)]
pub struct Segment {
    pub free: u32,
    pub valid: u32,
}

// Whatever stood in it, every page is free and none valid.
pub fn segment_data_init(segment: &mut Segment, pages: u32)
    ensures { segment.new ≡ reset pages }
{
    *segment = Segment {
        free: pages,
        valid: 0,
    };
}

// For a caller whose counts lie apart, as words: they are made a record, which is lent and handed back.
pub fn reset_record(free: u32, valid: u32, pages: u32) -> Segment
    ensures { result ≡ reset pages }
{
    let mut segment = Segment { free, valid };
    segment_data_init(&mut segment, pages);
    segment
}
