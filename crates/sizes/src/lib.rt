// The sizes of all that is lent, for a geometry.
#![tactic(auto)]

ghost use Rattle.std.specs.Prelude.{◌≡◌};
ghost use Rattle.model.specs.Numbers.{Good};
ghost use Rattle.sizes.specs.Sizes.{size_of, sized};

use model::Geometry;

// What a caller lends, by size.
#[derive(Clone, Copy, Debug, PartialEq, Eq)]
pub enum Size {
    TabWords,
    UsedBytes,
    FlashBytes,
    MarkBytes,
    CountWords,
    BadBytes,
    PageBytes,
    SeenBytes,
    OrderWords,
    TakenBytes,
    CheckpointBytes,
}

fn size_of(geo: Geometry, what: Size) -> usize
    requires { Good geo }
    ensures { result ≡ size_of geo what }
{
    match what {
        Size::TabWords => geo.words(),
        Size::UsedBytes => geo.pages(),
        Size::FlashBytes => geo.pages() * geo.s,
        Size::MarkBytes => geo.pages(),
        Size::CountWords => geo.n,
        Size::BadBytes => geo.n,
        Size::PageBytes => geo.s,
        Size::SeenBytes => geo.n + geo.p,
        Size::OrderWords => geo.n,
        Size::TakenBytes => geo.pages(),
        Size::CheckpointBytes => checkpoint::file_size(geo),
    }
}

// 0 for a geometry that is refused.
pub fn sized(geo: Geometry, what: Size) -> usize
    ensures { result ≡ sized geo what }
{
    if sound::good(geo) {
        size_of(geo, what)
    } else {
        0
    }
}
