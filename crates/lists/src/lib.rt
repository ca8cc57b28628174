// 01, "Preparing", over any pressures: the first c + 1 places of a lent list become G, L or +0.
//
// A list of less than c + 1 places is left as it is. That is why c stands beside the list, which is not handed over cut to its c + 1 places.
#![tactic(auto)]

ghost use Rattle.std.specs.Prelude.{◌≡◌};
ghost use Rattle.search.specs.Lists.{greater_of, lesser_of};
ghost use Rattle.lists.specs.Swept.{swept_up, swept_down, cleared};

// The greater of two; of equal ones the first. Not `f64::max`, which may give either of +0 and −0 and passes over a NaN. One function for this
// and `lesser` would take the test as a closure and be no plainer: of equal ones both keep the first, so neither is the other with its arguments
// exchanged.
#[tactic(auto, unfolding(search::specs::Lists::greater_of))]
fn greater(x: f64, y: f64) -> f64
    ensures { result ≡ greater_of x y }
{
    if x < y { y } else { x }
}

// The lesser of two; of equal ones the first.
#[tactic(auto, unfolding(search::specs::Lists::lesser_of))]
fn lesser(x: f64, y: f64) -> f64
    ensures { result ≡ lesser_of x y }
{
    if y < x { y } else { x }
}

// Each of the places 0..c becomes the greatest of itself and those before it. One function for this and `sweep_down` would take the order of
// the places beside the pick, and be no plainer.
pub fn sweep_up(c: usize, list: &mut [f64])
    ensures { list.new ≡ swept_up c list.old }
{
    if list.len() <= c {
        return;
    }
    for j in 0..c {
        list[j + 1] = greater(list[j], list[j + 1]);
    }
}

// Each of the places 0..c becomes the least of itself and those after it.
pub fn sweep_down(c: usize, list: &mut [f64])
    ensures { list.new ≡ swept_down c list.old }
{
    if list.len() <= c {
        return;
    }
    for j in (0..c).rev() {
        list[j] = lesser(list[j], list[j + 1]);
    }
}

// +0 into the places 0..c.
pub fn clear(c: usize, list: &mut [f64])
    ensures { list.new ≡ cleared c list.old }
{
    if c < list.len() {
        list[..=c].fill(0.0);
    }
}
