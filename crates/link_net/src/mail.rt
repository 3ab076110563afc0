//! The datagrams that a link was posted, and what became of them.
ghost use Rattle.std.specs.Prelude.{◌≡◌, ◌≢◌, ◌↔◌, ◌+◌, ◌<◌, ◌≤◌, ◌∷◌, ◌++◌, [], ℕ, length, Bool};
ghost use Rattle.std.specs.Prelude.{IsTrue, option_map, slice_get, IfSome, OnSome, OnOk, OnErr};
ghost use Rattle.std.specs.List.{slice_index_or};
ghost use Rattle.exchange_trace.specs.Happenings.{Delivered, datagram_view, happening_view};
ghost use Rattle.exchange_trace.specs.Following.{delivery as delivery_of, least_delivery};
ghost use Rattle.exchange_trace.specs.Following.{loss as loss_of};
ghost use Rattle.exchange_trace.specs.Posts.{numbered};
ghost use Rattle.link_net.specs.declared.mail.Fate.TheVariants.{Undelivered};
ghost use Rattle.link_net.specs.Mail.{NamesPosted, after_loss, fates_after, scene_in};
ghost use Rattle.link_net.specs.Mail.{fate_of, with_given};

use exchange_trace::{Datagram, Happening, Side};
use http_server::Log;
use load_base::{List, NoMemory};
use std::alloc::Global;
use std::marker::Model;

/// What became of a datagram.
#[derive(Clone, Copy)]
pub enum Fate {
    Undelivered,
    /// It was lost, and not delivered.
    Lost,
    /// It was delivered once at least.
    Delivered,
}

/// The datagrams that were posted, with what became of each. The least undelivered one is found
/// without a search. Of a datagram its side alone is kept: what it carries is kept by who posted
/// it.
#[derive(Drop)]
pub struct Mail {
    /// The side that posted each datagram.
    sides: List<Side>,
    fates: Vec<Fate>,
    /// The index of the first undelivered datagram, or how many there are.
    least: usize,
    /// For proofs alone: what was posted and given, which takes no memory.
    posted: Log<Datagram, ()>,
    given: Log<Happening, ()>,
}

impl Model for Mail {
    ghost use Rattle.link_net.specs.Mail.{KeepsMail, MailView, given_in, logged};

    ghost Value = { MailView };

    ghost view = { λ mail. record {
      posted = logged mail.posted.items;
      given = given_in mail.given.items;
    } };

    ghost invariant = { λ mail. KeepsMail mail.posted.items mail.sides.items mail.fates.items
        mail.least (given_in mail.given.items) };
}

impl Mail {
    /// Nothing was posted, and nothing given.
    pub fn new(alloc: Global) -> Mail
        ensures { result ≡ record { posted = []; given = [] } }
    {
        Mail {
            sides: List::new(alloc),
            fates: Vec::new(alloc),
            least: 0,
            posted: Log::new(),
            given: Log::new(),
        }
    }

    /// Takes note of a datagram that a side posts, or of nothing.
    pub fn note_post(&mut self, datagram: &Datagram) -> Result<(), NoMemory>
        ensures ok { OnOk result (self.new ≡ record {
          posted = self.old.posted ++ datagram_view datagram.now ∷ [];
          given = self.old.given;
        }) }
        ensures err { OnErr result (self.new ≡ self.old) }
    {
        self.fates.reserve(1)?;
        self.sides.push(datagram.from_side)?;
        self.fates.push_reserved(Fate::Undelivered);
        self.posted = self.posted.and(datagram, &());
        Ok(())
    }

    /// How many datagrams were posted.
    pub fn posted_count(&self) -> usize
        ensures { result ≡ length self.now.posted }
    {
        self.sides.len()
    }

    /// The delivery of the datagram of this number, if it was posted.
    pub fn delivery(&self, number: u64) -> Option<Happening>
        ensures value { (loader target : Bool) → option_map happening_view result
            ≡ delivery_of (scene_in self.now loader target) number }
        ensures named { IfSome result (λ given.
            NamesPosted (length self.now.posted) (happening_view given)) }
    {
        let side = self.side_of(number)?;
        Some(delivered(side.other(), number))
    }

    /// The loss of the datagram of this number, if it was posted and not delivered.
    pub fn loss(&self, number: u64) -> Option<Happening>
        ensures value { (loader target : Bool) → option_map happening_view result
            ≡ loss_of (scene_in self.now loader target) number }
        ensures named { IfSome result (λ given.
            NamesPosted (length self.now.posted) (happening_view given)) }
    {
        self.side_of(number)?;
        match self.fate(number) {
            Fate::Delivered => None,
            Fate::Undelivered | Fate::Lost => Some(Happening::Lost(number)),
        }
    }

    /// The delivery of the undelivered datagram with the least number, if there is one.
    pub fn least_delivery(&self) -> Option<Happening>
        ensures value { (loader target : Bool) → option_map happening_view result
            ≡ least_delivery (scene_in self.now loader target) }
        ensures named { IfSome result (λ given.
            NamesPosted (length self.now.posted) (happening_view given)) }
    {
        if self.least == self.fates.len() {
            return None;
        }
        self.delivery(self.least as u64 + 1)
    }

    /// Keeps what is given.
    pub fn note_given(&mut self, given: &Happening)
        requires { NamesPosted (length self.old.posted) (happening_view given.now) }
        ensures { self.new ≡ with_given self.old (happening_view given.now) }
    {
        mark(&mut self.fates, given);
        self.least = next_undelivered(self.fates.as_slice(), self.least);
        self.given = self.given.and(given, &());
    }

    /// What became of the datagram of this number.
    pub fn fate(&self, number: u64) -> Fate
        requires { (1 ≤ number) × (number ≤ length self.now.posted) }
        ensures { result ≡ fate_of self.now.given number }
    {
        self.fates[number as usize - 1]
    }

    /// The side that posted the datagram of this number.
    fn side_of(&self, number: u64) -> Option<Side>
        ensures side { result ≡ option_map (λ d. d.side) (numbered self.now.posted number) }
        ensures within { OnSome result ((1 ≤ number) × (number ≤ length self.now.posted)) }
    {
        let index = (number as usize).checked_sub(1)?;
        side_at(self.sides.as_slice(), index)
    }
}

/// The side that posted the datagram of this index.
fn side_at(sides: &[Side], index: usize) -> Option<Side>
    ensures { result ≡ slice_get sides.now index }
{
    sides.get(index).copied()
}

/// The fates after what is given.
fn mark(fates: &mut Vec<Fate>, given: &Happening)
    requires { NamesPosted (length fates.old.items) (happening_view given.now) }
    ensures { fates.new.items ≡ fates_after fates.old.items (happening_view given.now) }
{
    match given {
        Happening::ToLoader(number) | Happening::ToTarget(number) => {
            fates[*number as usize - 1] = Fate::Delivered;
        }
        Happening::Lost(number) => {
            let index = *number as usize - 1;
            fates[index] = lost(fates[index]);
        }
        Happening::TickLoader | Happening::TickTarget | Happening::Injected(_) => {}
        Happening::BlockSize(_) | Happening::Power { .. } | Happening::Boot => {}
        Happening::StartInfo { .. } | Happening::StartUpload { .. } | Happening::End => {}
    }
}

/// The fate of a datagram that is lost.
fn lost(fate: Fate) -> Fate
    ensures { result ≡ after_loss fate }
{
    match fate {
        Fate::Undelivered | Fate::Lost => Fate::Lost,
        Fate::Delivered => Fate::Delivered,
    }
}

/// The index of the first undelivered datagram from this one on, or how many there are.
fn next_undelivered(fates: &[Fate], from: usize) -> usize
    requires { from ≤ length fates.now }
    ensures later { from ≤ result }
    ensures within { result ≤ length fates.now }
    ensures passed { (k : ℕ) → from ≤ k → k < result
        → slice_index_or fates.now k Undelivered ≢ Undelivered }
    ensures found { result < length fates.now
        → slice_index_or fates.now result Undelivered ≡ Undelivered }
{
    let mut at = from;
    while at < fates.len() && !is_undelivered(fates[at]) {
        at += 1;
    }
    at
}

fn is_undelivered(fate: Fate) -> bool
    ensures { IsTrue result ↔ (fate ≡ Undelivered) }
{
    matches!(fate, Fate::Undelivered)
}

fn delivered(side: Side, number: u64) -> Happening
    ensures { happening_view result ≡ Delivered side number }
{
    match side {
        Side::Loader => Happening::ToLoader(number),
        Side::Target => Happening::ToTarget(number),
    }
}
