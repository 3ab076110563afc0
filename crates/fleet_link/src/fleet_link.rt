//! The link of a fleet, which follows a script.
ghost use Rattle.std.specs.Prelude.{◌≡◌, ◌≤◌, [], Bool, IfNone, IfOk, IfSome, OnOk};
ghost use Rattle.std.specs.Prelude.{List as Items, OnErr, length};
ghost use Rattle.exchange_trace.specs.Happenings.{datagram_view, happening_view};
ghost use Rattle.fleet_trace.specs.FleetFollowing.{next_fleet_turn};
ghost use Rattle.fleet_trace.specs.FleetPosts.{posts_of_unit};
ghost use Rattle.fleet_trace.specs.FleetTraces.{At_unit, fleet_happening_view};
ghost use Rattle.link_net.specs.declared.link.Waits.{Waits};
ghost use Rattle.fleet_link.specs.FleetLinks.{GivesInFleet, IsUploadStart, fleet_scene_of};
ghost use Rattle.fleet_link.specs.FleetLinks.{plan_in, with_post_at, with_start_at};
ghost use Rattle.fleet_link.specs.FleetMail.{NamesPlaced, with_gift};
ghost use Rattle.fleet_link.specs.FleetPlans.{FleetTakesMemory};
ghost use Rattle.fleet_link.specs.declared.fleet_turn.FleetRest.TheVariants as rests;

use crate::fleet_line::FleetLine;
use crate::fleet_mail::FleetMail;
use crate::fleet_script::FleetScript;
use crate::fleet_turn::{FleetRest, FleetTurn, next_turn};
use exchange_trace::{Datagram, Happening};
use fleet_trace::FleetHappening;
use link_net::Waits;
use load_base::{List, NoMemory};
use std::alloc::Global;
use std::marker::Model;

/// A link between one loader and the targets of a fleet, on which happens what a script says
/// (docs/FORMATS.md, "Script of a fleet"). It never fails. A call costs the same whatever came
/// before it, but for the lines that give nothing, each of which is passed once, and the datagrams
/// that aren't undelivered any more, which are too.
#[derive(Drop)]
pub struct FleetLink {
    alloc: Global,
    units: u8,
    lines: List<FleetLine>,
    mail: FleetMail,
    /// The offset of the line that comes next.
    next: usize,
    rest: FleetRest,
}

impl Model for FleetLink {
    ghost use Rattle.fleet_link.specs.FleetLinks.{FleetLinkState, HoldsScript};
    ghost use Rattle.fleet_link.specs.Lines.{fleet_line_views};
    ghost use Rattle.std.specs.Prelude.{drop};

    ghost Value = { FleetLinkState };

    ghost view = { λ link. record {
      units = link.units;
      posted = link.mail.posted;
      given = link.mail.given;
      rest = link.rest;
      lines = fleet_line_views (drop link.next link.lines.items);
    } };

    ghost invariant = { λ link. HoldsScript link.units link.lines.items link.next
        link.mail.posted };
}

impl FleetLink {
    /// A link that begins the script, of eight units at most. Nothing was posted, and nothing
    /// happened.
    pub fn new(alloc: Global, script: FleetScript) -> FleetLink
        requires { script.units ≤ 8 }
        ensures { result ≡ record {
          units = script.units;
          posted = [];
          given = [];
          rest = rests.Nothing;
          lines = script.lines;
        } }
    {
        let FleetScript { units, lines } = script;
        FleetLink {
            alloc,
            units,
            lines,
            mail: FleetMail::new(alloc),
            next: 0,
            rest: FleetRest::Nothing,
        }
    }

    /// How many units its script was read for: eight at most.
    pub fn units(&self) -> usize
        ensures count { result ≡ self.now.units }
        ensures few { result ≤ 8 }
    {
        usize::from(self.units)
    }

    /// Takes a datagram that a side of this unit posts, the loader to it or its target. A call that
    /// is refused changes nothing.
    pub fn post(&mut self, unit: u8, datagram: Datagram) -> Result<(), NoMemory>
        requires { (1 ≤ unit) × (unit ≤ self.old.units) }
        ensures ok { OnOk result
            (self.new ≡ with_post_at self.old unit (datagram_view datagram)) }
        ensures err { OnErr result (self.new ≡ self.old) }
    {
        self.note_post(unit, &datagram)
    }

    /// The same of a datagram that is lent, as who posts it keeps it.
    pub fn note_post(&mut self, unit: u8, datagram: &Datagram) -> Result<(), NoMemory>
        requires { (1 ≤ unit) × (unit ≤ self.old.units) }
        ensures ok { OnOk result
            (self.new ≡ with_post_at self.old unit (datagram_view datagram.now)) }
        ensures err { OnErr result (self.new ≡ self.old) }
    {
        self.mail.note_post(unit, datagram)
    }

    /// How many datagrams the sides of this unit posted.
    pub fn posted_count(&self, unit: u8) -> usize
        requires { (1 ≤ unit) × (unit ≤ self.now.units) }
        ensures { result ≡ length (posts_of_unit unit self.now.posted) }
    {
        self.mail.mail_at(unit).posted_count()
    }

    /// Takes note that this upload was started at this unit, as the link asked.
    pub fn started(&mut self, unit: u8, start: &Happening)
        requires unit { (1 ≤ unit) × (unit ≤ self.old.units) }
        requires start { IsUploadStart (happening_view start.now) }
        ensures { self.new ≡ with_start_at self.old unit (happening_view start.now) }
    {
        self.mail.note_given(unit, start);
    }

    /// What happens next and at which unit, where that is a datagram that a `finish` delivers. It
    /// is then what [`FleetLink::next`] gives, whatever waits and whether or not an upload may be
    /// asked.
    pub fn next_of_finish(&mut self) -> Option<(u8, Happening)>
        ensures some { IfSome result (λ given. (waits : Items Waits) (may_ask : Bool)
            → length waits ≡ self.old.units → GivesInFleet self.old self.new waits may_ask
            (At_unit given.0 (happening_view given.1))) }
        ensures none { IfNone result (self.new ≡ self.old) }
    {
        match self.rest {
            FleetRest::Finishing(_) | FleetRest::BatchFinishing(_) => {
                let (unit, given) = self.mail.least_at_unit()?;
                self.mail.note_given(unit, &given);
                Some((unit, given))
            }
            FleetRest::Nothing | FleetRest::Deliveries(_) => None,
        }
    }

    /// What happens next, where these sides of each unit have a live session, and where the upload
    /// to the next target of the running batch may be asked or not. A call that is refused changes
    /// nothing.
    pub fn next(&mut self, waits: &[Waits], may_ask: bool) -> Result<FleetHappening, NoMemory>
        requires { length waits.now ≡ self.old.units }
        ensures ok { IfOk result (λ happening. GivesInFleet self.old self.new waits.now may_ask
            (fleet_happening_view happening)) }
        ensures err { OnErr result (self.new ≡ self.old) }
        // It is out of memory only where it copies what a line says.
        ensures memory { OnErr result (FleetTakesMemory
            (next_fleet_turn (fleet_scene_of self.old waits.now may_ask)
            (plan_in self.old)).given) }
    {
        let lines = self.lines.as_slice();
        let Ok((turn, next)) = next_turn(
            self.alloc, lines, &self.mail, self.next, self.rest, waits, may_ask,
        ) else {
            return Err(NoMemory);
        };
        let FleetTurn { given, rest } = turn;
        keep(&mut self.mail, &given);
        self.next = next;
        self.rest = rest;
        Ok(given)
    }
}

/// Keeps what is given at a unit.
fn keep(mail: &mut FleetMail, given: &FleetHappening)
    requires { NamesPlaced mail.old (fleet_happening_view given.now) }
    ensures { mail.new ≡ with_gift mail.old (fleet_happening_view given.now) }
{
    match given {
        FleetHappening::At { unit, happening } => mail.note_given(*unit, happening),
        FleetHappening::Batch(_) | FleetHappening::AskNext | FleetHappening::End => {}
    }
}
