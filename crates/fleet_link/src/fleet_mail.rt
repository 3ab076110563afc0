//! The datagrams that a fleet's link was posted, over all units, and what became of them.
ghost use Rattle.std.specs.Prelude.{◌≡◌, ◌+◌, ◌-◌, ◌<◌, ◌≤◌, ◌∷◌, ◌++◌, [], ℕ, Bool, true, false};
ghost use Rattle.std.specs.Prelude.{Some, length, option_map, slice_get, IfOk, OnOk, OnErr};
ghost use Rattle.std.specs.Prelude.{IfSome};
ghost use Rattle.exchange_trace.specs.Following.{delivery as delivery_of};
ghost use Rattle.exchange_trace.specs.Happenings.{datagram_view, happening_view};
ghost use Rattle.exchange_trace.specs.declared.trace.Side.{Side};
ghost use Rattle.fleet_trace.specs.FleetFollowing.{first_place, fleet_delivery, fleet_loss};
ghost use Rattle.fleet_trace.specs.FleetFollowing.{given_at_place, least_fleet_delivery};
ghost use Rattle.fleet_trace.specs.FleetPosts.{located, undelivered_places, unit_post};
ghost use Rattle.fleet_trace.specs.FleetTraces.{At_unit, fleet_happening_view};
ghost use Rattle.link_net.specs.Mail.{MailView, NamesPosted};
ghost use Rattle.fleet_link.specs.FleetMail.{ArePlacesOfPosts, GivesAt, IsPlaceOfPost, NamesPlaced};
ghost use Rattle.fleet_link.specs.FleetMail.{PostsAt};
ghost use Rattle.fleet_link.specs.FleetMail.{fleet_scene_in, is_undelivered_in, mail_of};
ghost use Rattle.fleet_link.specs.FleetMail.{place_view};
ghost use Rattle.fleet_link.specs.declared.fleet_mail.Place.{Place};

use exchange_trace::{Datagram, Happening};
use fleet_trace::FleetHappening;
use http_server::Log;
use link_net::mail::{Fate, Mail};
use load_base::NoMemory;
use std::alloc::Global;
use std::marker::Model;

/// The most units of a fleet.
pub const MOST_UNITS: usize = 8;

/// Where a datagram stands: at which unit, and which number it has among that unit's, from 1.
#[derive(Clone, Copy)]
pub struct Place {
    pub unit: u8,
    pub number: u64,
}

/// The datagrams of all units, with what became of each. The least undelivered one is found without
/// a search. What happens at a unit is kept, and the end isn't.
#[derive(Drop)]
pub struct FleetMail {
    /// The datagrams of each unit, by their own numbers.
    mails: [Mail; MOST_UNITS],
    /// Where each datagram stands, by its number over all units.
    places: Vec<Place>,
    /// The index of the first undelivered datagram, or how many there are.
    least: usize,
    /// For proofs alone: what was posted and what happened at units, which takes no memory.
    posted: Log<Datagram, u8>,
    given: Log<Happening, u8>,
}

impl Model for FleetMail {
    ghost use Rattle.fleet_link.specs.FleetMail.{FleetMailView, KeepsFleetMail, given_at_units};
    ghost use Rattle.fleet_link.specs.FleetMail.{posted_at_units};

    ghost Value = { FleetMailView };

    ghost view = { λ mail. record {
      posted = posted_at_units mail.posted.items;
      given = given_at_units mail.given.items;
    } };

    ghost invariant = { λ mail. KeepsFleetMail mail.mails mail.places.items mail.least
        (record {
          posted = posted_at_units mail.posted.items;
          given = given_at_units mail.given.items;
        }) };
}

impl FleetMail {
    /// Nothing was posted, and nothing given.
    pub fn new(alloc: Global) -> FleetMail
        ensures { result ≡ record { posted = []; given = [] } }
    {
        FleetMail {
            mails: [
                Mail::new(alloc),
                Mail::new(alloc),
                Mail::new(alloc),
                Mail::new(alloc),
                Mail::new(alloc),
                Mail::new(alloc),
                Mail::new(alloc),
                Mail::new(alloc),
            ],
            places: Vec::new(alloc),
            least: 0,
            posted: Log::new(),
            given: Log::new(),
        }
    }

    /// Takes note of a datagram that a side posts at this unit, or of nothing.
    pub fn note_post(&mut self, unit: u8, datagram: &Datagram) -> Result<(), NoMemory>
        requires { (1 ≤ unit) × (unit ≤ 8) }
        ensures ok { OnOk result (self.new ≡ record {
          posted = self.old.posted ++ unit_post unit (datagram_view datagram.now) ∷ [];
          given = self.old.given;
        }) }
        ensures err { OnErr result (self.new ≡ self.old) }
    {
        self.places.reserve(1)?;
        let log = self.posted.and(datagram, &unit);
        let number = note_post_at(&mut self.mails, unit as usize - 1, datagram)?;
        self.places.push_reserved(Place { unit, number });
        self.posted = log;
        Ok(())
    }

    /// The delivery of the datagram of this number over all units, if it was posted.
    pub fn delivery(&self, number: u64) -> Option<FleetHappening>
        ensures value { (units : ℕ) (waits_at : (unit : ℕ) → Side → Bool) (may_ask : Bool)
            → option_map fleet_happening_view result
            ≡ fleet_delivery (fleet_scene_in self.now units waits_at may_ask) number }
        ensures named { IfSome result (λ given.
            NamesPlaced self.now (fleet_happening_view given)) }
    {
        self.delivery_at(self.place_of(number))
    }

    /// The loss of the datagram of this number over all units, if it was posted and not delivered.
    pub fn loss(&self, number: u64) -> Option<FleetHappening>
        ensures value { (units : ℕ) (waits_at : (unit : ℕ) → Side → Bool) (may_ask : Bool)
            → option_map fleet_happening_view result
            ≡ fleet_loss (fleet_scene_in self.now units waits_at may_ask) number }
        ensures named { IfSome result (λ given.
            NamesPlaced self.now (fleet_happening_view given)) }
    {
        let place = self.place_of(number)?;
        at_unit(place.unit, self.mail_at(place.unit).loss(place.number))
    }

    /// The delivery of the undelivered datagram with the least number over all units, if there is
    /// one.
    pub fn least_delivery(&self) -> Option<FleetHappening>
        ensures value { (units : ℕ) (waits_at : (unit : ℕ) → Side → Bool) (may_ask : Bool)
            → option_map fleet_happening_view result
            ≡ least_fleet_delivery (fleet_scene_in self.now units waits_at may_ask) }
        ensures named { IfSome result (λ given.
            NamesPlaced self.now (fleet_happening_view given)) }
    {
        self.delivery_at(self.least_place())
    }

    /// The same, and its unit.
    pub fn least_at_unit(&self) -> Option<(u8, Happening)>
        ensures value { (units : ℕ) (waits_at : (unit : ℕ) → Side → Bool) (may_ask : Bool)
            → option_map (λ given. At_unit given.0 (happening_view given.1)) result
            ≡ least_fleet_delivery (fleet_scene_in self.now units waits_at may_ask) }
        ensures named { IfSome result (λ given.
            NamesPlaced self.now (At_unit given.0 (happening_view given.1))) }
    {
        let place = self.least_place()?;
        let given = self.mail_at(place.unit).delivery(place.number)?;
        Some((place.unit, given))
    }

    /// Keeps what is given at this unit.
    pub fn note_given(&mut self, unit: u8, given: &Happening)
        requires { NamesPlaced self.old (At_unit unit (happening_view given.now)) }
        ensures { self.new ≡ record {
          posted = self.old.posted;
          given = At_unit unit (happening_view given.now) ∷ self.old.given;
        } }
    {
        note_given_at(&mut self.mails, unit as usize - 1, given);
        self.least = next_undelivered(&self.mails, self.places.as_slice(), self.least);
        self.given = self.given.and(given, &unit);
    }

    /// The datagrams of this unit, by their own numbers.
    pub fn mail_at(&self, unit: u8) -> &Mail
        requires { (1 ≤ unit) × (unit ≤ 8) }
        ensures { result.now ≡ mail_of unit self.now }
    {
        &self.mails[unit as usize - 1]
    }

    /// Where the datagram of this number over all units stands, if it was posted.
    fn place_of(&self, number: u64) -> Option<Place>
        ensures place { option_map place_view result ≡ located self.now.posted number }
        ensures unit { IfSome result (λ place. (1 ≤ place.unit) × (place.unit ≤ 8)) }
    {
        let index = (number as usize).checked_sub(1)?;
        place_at(self.places.as_slice(), index)
    }

    /// Where the undelivered datagram with the least number stands, if there is one.
    fn least_place(&self) -> Option<Place>
        ensures place { option_map place_view result
            ≡ first_place (undelivered_places self.now.posted self.now.given) }
        ensures unit { IfSome result (λ place. (1 ≤ place.unit) × (place.unit ≤ 8)) }
    {
        place_at(self.places.as_slice(), self.least)
    }

    /// The delivery of the datagram that stands here, if there is one.
    fn delivery_at(&self, place: Option<Place>) -> Option<FleetHappening>
        requires { IfSome place (λ p. (1 ≤ p.unit) × (p.unit ≤ 8)) }
        ensures value { (units : ℕ) (waits_at : (unit : ℕ) → Side → Bool) (may_ask : Bool)
            → option_map fleet_happening_view result
            ≡ given_at_place (fleet_scene_in self.now units waits_at may_ask) delivery_of
            (option_map place_view place) }
        ensures named { IfSome result (λ given.
            NamesPlaced self.now (fleet_happening_view given)) }
    {
        let place = place?;
        at_unit(place.unit, self.mail_at(place.unit).delivery(place.number))
    }
}

/// Where the datagram of this index stands.
fn place_at(places: &[Place], index: usize) -> Option<Place>
    ensures { result ≡ slice_get places.now index }
{
    places.get(index).copied()
}

/// What happens at a unit, if anything does.
fn at_unit(unit: u8, happening: Option<Happening>) -> Option<FleetHappening>
    ensures { option_map fleet_happening_view result
        ≡ option_map (λ h. At_unit unit (happening_view h)) happening }
{
    match happening {
        Some(happening) => Some(FleetHappening::At { unit, happening }),
        None => None,
    }
}

/// Takes note of a datagram at the unit of this index. The number that it has there.
fn note_post_at(mails: &mut [Mail], index: usize, datagram: &Datagram) -> Result<u64, NoMemory>
    requires { index < length mails.old }
    ensures ok { IfOk result (λ number. PostsAt index (datagram_view datagram.now) number mails.old
        mails.new) }
    ensures err { OnErr result (mails.new ≡ mails.old) }
{
    mails[index].note_post(datagram)?;
    Ok(mails[index].posted_count() as u64)
}

/// Keeps what is given at the unit of this index.
fn note_given_at(mails: &mut [Mail], index: usize, given: &Happening)
    requires within { index < length mails.old }
    requires named { (m : MailView) → slice_get mails.old index ≡ Some m
        → NamesPosted (length m.posted) (happening_view given.now) }
    ensures { GivesAt index (happening_view given.now) mails.old mails.new }
{
    mails[index].note_given(given);
}

/// The index of the first undelivered datagram, from this one on, or how many there are.
fn next_undelivered(mails: &[Mail], places: &[Place], from: usize) -> usize
    requires placed { ArePlacesOfPosts mails.now places.now }
    requires within { from ≤ length places.now }
    ensures later { from ≤ result }
    ensures within { result ≤ length places.now }
    ensures passed { (k : ℕ) (place : Place) → from ≤ k → k < result
        → slice_get places.now k ≡ Some place → is_undelivered_in mails.now place ≡ false }
    ensures found { (place : Place) → slice_get places.now result ≡ Some place
        → is_undelivered_in mails.now place ≡ true }
{
    let mut at = from;
    while at < places.len() && !is_undelivered(mails, places[at]) {
        at += 1;
    }
    at
}

/// Whether a datagram is undelivered at its unit.
fn is_undelivered(mails: &[Mail], place: Place) -> bool
    requires { IsPlaceOfPost mails.now place }
    ensures { result ≡ is_undelivered_in mails.now place }
{
    match mails[place.unit as usize - 1].fate(place.number) {
        Fate::Undelivered => true,
        Fate::Lost | Fate::Delivered => false,
    }
}
