//! What a side posts in one step.
ghost use Rattle.std.specs.Prelude.{◌≡◌, ◌++◌, []};
ghost use Rattle.transfer_end.specs.Calls.{posted, posts_view};

use exchange_trace::Datagram;

/// What a side posts in one step: at most two datagrams, in their order.
#[derive(Drop)]
pub struct Posts {
    pub first: Option<Datagram>,
    /// Never without a first one.
    pub second: Option<Datagram>,
}

impl Posts {
    /// Nothing is posted.
    pub fn none() -> Posts
        ensures { posts_view result ≡ [] }
    {
        Posts {
            first: None,
            second: None,
        }
    }

    /// These are posted, as far as there are any.
    pub fn of(first: Option<Datagram>, second: Option<Datagram>) -> Posts
        ensures { posts_view result ≡ posted first ++ posted second }
    {
        if first.is_some() {
            return Posts { first, second };
        }
        Posts {
            first: second,
            second: None,
        }
    }
}
