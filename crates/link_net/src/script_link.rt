//! A link that follows a script.
ghost use Rattle.std.specs.Prelude.{◌≡◌, [], Some, IfOk, OnOk, OnErr};
ghost use Rattle.std.specs.Option.{ForSome};
ghost use Rattle.exchange_trace.specs.Following.{next_turn as said_turn, plan_of};
ghost use Rattle.exchange_trace.specs.Happenings.{datagram_view, happening_view};
ghost use Rattle.link_net.specs.Links.{LinkGives, HasLinkCause, LinkState, scene_of, with_posted};
ghost use Rattle.link_net.specs.Plans.{TakesMemory};

use crate::line::Line;
use crate::link::{Link, LinkFault};
use crate::mail::Mail;
use crate::script::Script;
use crate::turn::{Rest, Turn, Waiting, next_turn};
use exchange_trace::{Datagram, Happening};
use load_base::List;
use std::alloc::Global;
use std::marker::Model;

/// A link on which happens what a script says (docs/FORMATS.md, "Script"). It never fails. A call
/// costs the same whatever came before it, but for the lines that give nothing, each of which is
/// passed once, and the datagrams that aren't undelivered any more, which are too.
#[derive(Drop)]
pub struct ScriptLink {
    alloc: Global,
    lines: List<Line>,
    mail: Mail,
    /// The offset of the line that comes next.
    next: usize,
    rest: Rest,
}

impl Model for ScriptLink {
    ghost use Rattle.std.specs.Prelude.{◌≤◌, Some, length};
    ghost use Rattle.link_net.specs.Links.{LinkState};
    ghost use Rattle.link_net.specs.Plans.{plan_at};

    ghost Value = { LinkState };

    ghost view = { λ link. record {
      posted = link.mail.posted;
      given = link.mail.given;
      plan = Some (plan_at link.rest link.lines.items link.next);
    } };

    ghost invariant = { λ link. link.next ≤ length link.lines.items };
}

impl ScriptLink {
    /// A link that begins the script. Nothing was posted, and nothing happened.
    pub fn new(alloc: Global, script: Script) -> ScriptLink
        ensures { result ≡ record { posted = []; given = []; plan = Some (plan_of script) } }
    {
        let Script { lines } = script;
        ScriptLink {
            alloc,
            lines,
            mail: Mail::new(alloc),
            next: 0,
            rest: Rest::Nothing,
        }
    }
}

impl Link for ScriptLink {
    ghost state = { λ link. link };

    ghost faults = { λ _. 0 };

    fn post(&mut self, datagram: Datagram) -> Result<(), LinkFault> {
        match self.mail.note_post(&datagram) {
            Ok(()) => Ok(()),
            Err(_) => Err(LinkFault::Memory),
        }
    }

    fn next(&mut self, loader_waits: bool, target_waits: bool) -> Result<Happening, LinkFault>
        ensures ok { IfOk result (λ happening. LinkGives self.old self.new
            (scene_of self.old loader_waits target_waits) (happening_view happening)) }
        ensures err { OnErr result (self.new ≡ self.old) }
        ensures cause { HasLinkCause 0 0 result }
        // It is out of memory only where it copies what a line says.
        ensures memory { OnErr result (ForSome self.old.plan (λ plan. TakesMemory
            (said_turn (scene_of self.old loader_waits target_waits) plan).given)) }
    {
        let waiting = Waiting {
            loader: loader_waits,
            target: target_waits,
        };
        let lines = self.lines.as_slice();
        let Ok((turn, next)) = next_turn(
            self.alloc, lines, &self.mail, self.next, self.rest, waiting,
        ) else {
            return Err(LinkFault::Memory);
        };
        let Turn { given, rest } = turn;
        self.mail.note_given(&given);
        self.next = next;
        self.rest = rest;
        Ok(given)
    }
}
