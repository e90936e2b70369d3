// The queue behind a restore (02, M-109): the segments with free count 0 and a list shorter than p, ascending, or none.
#![tactic(auto)]

ghost use Rattle.std.specs.Prelude.{◌≡◌, cond, ◌<◌, ◌≤◌};
ghost use Rattle.model.specs.Checkpoint.{dead?, queue_last, queue_dead, requeued};
ghost use Rattle.tables.specs.Parts.{tables_of, Same, WithAnyMarks};

use model::Queueing;
use tables::TablesMut;

// Whether segment g has free count 0 and a list shorter than p.
fn is_dead(t: &TablesMut<'_>, g: usize) -> bool
    requires { g < t.now.geo.n }
    ensures { result ≡ dead? t.now.geo g (tables_of t.now) }
{
    t.free[g] == 0 && (t.lens[g] as usize) < t.geo.p
}

// Segment g goes behind those that are queued, and its flag is set.
fn queue_last(t: &mut TablesMut<'_>, g: usize)
    requires { (g < t.old.geo.n) × (t.old.queued.now < t.old.geo.n) }
    ensures same { Same t.old t.new }
    ensures queued { tables_of t.new ≡ queue_last t.old.geo g (tables_of t.old) }
{
    t.queue[*t.queued as usize] = g as u32;
    t.flags[g] = 1;
    *t.queued += 1;
}

// "ascending": segment by segment from 0 up. Of those before a segment, each is queued once at most.
fn queue_all(t: &mut TablesMut<'_>)
    requires { t.old.queued.now ≡ 0 }
    ensures same { Same t.old t.new }
    ensures queued { tables_of t.new ≡ queue_dead t.old.geo t.old.geo.n 0 (tables_of t.old) }
    ensures any_marks { WithAnyMarks (queue_dead t.old.geo t.old.geo.n 0) t.old t.new }
{
    for g in 0..t.geo.n {
        if is_dead(t, g) {
            queue_last(t, g);
        }
    }
}

// The queue by the choice, where it is empty.
pub fn requeue(t: &mut TablesMut<'_>, queueing: Queueing)
    requires { t.old.queued.now ≡ 0 }
    ensures same { Same t.old t.new }
    ensures requeued { tables_of t.new ≡ requeued t.old.geo queueing (tables_of t.old) }
    ensures any_marks { WithAnyMarks (requeued t.old.geo queueing) t.old t.new }
{
    match queueing {
        Queueing::Empty => {}
        Queueing::Dead => queue_all(t),
    }
}
