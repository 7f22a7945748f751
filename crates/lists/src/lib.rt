// Searches in lists and changes of lists, over any type of element: definitions (specs/) and laws (proofs/), and the
// change of each element, or of the first, that passes a test.
#![tactic(auto)]

ghost use Rattle.lists.specs.Each.{ChangedWhere, FirstChanged};

use arrayvec::ArrayVec;

// Changes each element that passes the test by f, in its place; the others stay.
pub fn change<T: Copy, const CAP: usize, P: Fn(T) -> bool, F: Fn(T) -> T>(
    items: &mut ArrayVec<T, CAP>,
    test: P,
    f: F,
)
    requires test { P.IsAlwaysCallable test }
    requires change { F.IsAlwaysCallable f }
    ensures { ChangedWhere (P.post test) (F.post f) items.old.items items.new.items }
{
    for x in items.iter_mut() {
        if test(*x) {
            *x = f(*x);
        }
    }
}

// Changes the first element that passes the test by f, in its place, and stops; the others stay.
pub fn change_first<T: Copy, const CAP: usize, P: Fn(T) -> bool, F: Fn(T) -> T>(
    items: &mut ArrayVec<T, CAP>,
    test: P,
    f: F,
)
    requires test { P.IsAlwaysCallable test }
    requires change { F.IsAlwaysCallable f }
    ensures { FirstChanged (P.post test) (F.post f) items.old.items items.new.items }
{
    for place in items.iter_mut() {
        if test(*place) {
            *place = f(*place);
            return;
        }
    }
}
