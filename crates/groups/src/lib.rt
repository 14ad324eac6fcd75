// Internal: the groups of columns by which the wraparound tests are taken: some bytes of every test, for the coordinates that
// these stand for.
#![tactic(auto)]

ghost use Rattle.std.specs.Prelude.{◌≡◌, ◌≤◌, ◌<◌, min};
ghost use Rattle.groups.specs.Groups.{group_from};

// A group of columns: the byte at which it ends, and the coordinates from first to last.
#[derive(Clone, Copy)]
pub struct Group {
    pub end: usize,
    pub first: usize,
    pub last: usize,
}

// The lesser of the two.
pub fn at_most(k: usize, most: usize) -> usize
    ensures { result ≡ min k most }
{
    if k < most { k } else { most }
}

// The group from byte j on, up to so many bytes, of tests with `per` bytes on d coordinates.
pub fn group_from(j: usize, width: usize, per: usize, d: usize) -> Group
    requires { (j < per) × ((width ≤ 256) × (per < 65536)) }
    ensures { result ≡ group_from j width per d }
{
    let end = at_most(j + width, per);
    Group {
        end,
        first: at_most(4 * j, d),
        last: at_most(4 * end, d),
    }
}
