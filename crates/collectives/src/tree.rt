//! The binomial tree of a communicator's members.

ghost use Rattle.std.specs.Prelude.{◌≡◌, ◌<◌, ◌≤◌};
ghost use Rattle.collectives.specs.Tree.{lowest_bit, end_of, parent_of};

/// How many members a communicator may have at most.
pub const MOST_MEMBERS: usize = 65536;

/// The lowest set bit of a number that isn't 0.
fn lowest_bit(number: usize) -> usize
    requires { 0 < number }
    ensures { result ≡ lowest_bit number }
{
    1 << number.trailing_zeros()
}

/// The number behind the last member of a member's subtree, which has the members from itself on.
pub fn end_of(members: usize, member: usize) -> usize
    requires room { members ≤ MOST_MEMBERS }
    requires within { member < members }
    ensures value { result ≡ end_of members member }
    ensures behind { member < result }
    ensures cut { result ≤ members }
{
    if member == 0 {
        return members;
    }
    members.min(member + lowest_bit(member))
}

/// The parent of a member that isn't the first.
pub fn parent_of(member: usize) -> usize
    requires { 0 < member }
    ensures value { result ≡ parent_of member }
    ensures before { result < member }
{
    member - lowest_bit(member)
}
