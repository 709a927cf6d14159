// Links as a forest: following them to their end, and joining two ends. The caller lends them, a number for each place, since the
// library has no heap. That they are a forest is a clause of each function: a struct over the lent links that held it would have
// each function promise in its place that the same links are still lent.
ghost use Rattle.std.specs.Prelude.{◌≡◌, ◌<◌, ◌≤◌, length};
ghost use Rattle.joining.specs.Forest.{Forest, Merges, Tells, end, link};

// The end of `x`: where following the links stops.
pub fn end_of(links: &[u16], x: usize) -> usize
    requires forest { Forest links.now }
    requires within { x < length links.now }
    ensures found { result ≡ end links.now x }
    ensures below { result ≤ x }
    ensures rests { link links.now result ≡ result }
{
    let mut at = x;
    while links[at] as usize != at {
        at = links[at] as usize;
    }
    at
}

// Links the larger of the ends of `x` and `y` to the smaller, and says whether they differed.
pub(crate) fn join(links: &mut [u16], x: usize, y: usize) -> bool
    requires forest { Forest links.old }
    requires within { (x < length links.old) × (y < length links.old) }
    ensures merges { Merges links.old links.new x y }
    ensures tells { Tells result links.old links.new }
{
    let a = end_of(links, x);
    let b = end_of(links, y);
    // Where they are one already, nothing is written: the next walk then waits for no write.
    if a == b {
        return false;
    }
    links[a.max(b)] = links[a.min(b)];
    true
}
