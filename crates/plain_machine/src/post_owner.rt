//! Whose a post is.
ghost use Rattle.plain_machine.specs.Posting.{HasNumber};

/// Whose a post is: the gateway's own, or that of a line, from 1.
#[derive(Clone, Copy)]
pub enum PostOwner {
    Gateway,
    Line(u16),
}

/// Whose a post with this number is. In ids, and in the order of what falls due, a line has its own number, and the gateway
/// itself is line 0.
pub fn owner_of(number: u16) -> PostOwner
    ensures { HasNumber number result }
{
    if number == 0 {
        PostOwner::Gateway
    } else {
        PostOwner::Line(number)
    }
}
