//! A link that follows a script, and fails where it is told to.
ghost use Rattle.std.specs.Prelude.{◌≡◌, ◌↔◌, ◌∷◌, ◌++◌, [], IfOk, OnOk, OnErr, IsErrOf};
ghost use Rattle.exchange_trace.specs.Happenings.{datagram_view, happening_view};
ghost use Rattle.link_net.specs.Links.{LinkGives, HasLinkCause, scene_of, with_posted};

use crate::link::{Link, LinkFault};
use crate::script_link::ScriptLink;
use exchange_trace::{Datagram, Happening};
use load_base::{FailingCalls, FaultCount, NoMemory};
use std::alloc::Global;

/// A link that follows a script, of which calls can be set to fail. A call that fails changes
/// nothing of what it was posted, what it gave and what is left of its script.
#[derive(Drop)]
pub struct FailLink {
    inner: ScriptLink,
    calls: FailingCalls,
    faults: FaultCount,
}

impl FailLink {
    ghost use Rattle.link_net.specs.FailLink.{calls_of, faults_of, link_in};

    /// The link, of which no call is set to fail yet, without faults.
    pub fn new(alloc: Global, inner: ScriptLink) -> FailLink
        ensures link { link_in result ≡ inner }
        ensures failing { (calls_of result).failing ≡ [] }
        ensures next { (calls_of result).next ≡ 1 }
        ensures faults { faults_of result ≡ 0 }
    {
        FailLink {
            inner,
            calls: FailingCalls::new(alloc),
            faults: FaultCount::new(),
        }
    }

    /// Lets the call of `post` or `next` with this number fail; calls count from 1, over both.
    pub fn fail_at(&mut self, call: u32) -> Result<(), NoMemory>
        ensures ok { OnOk result
            ((calls_of self.new).failing ≡ (calls_of self.old).failing ++ call ∷ []) }
        ensures err { OnErr result ((calls_of self.new).failing ≡ (calls_of self.old).failing) }
        ensures next { (calls_of self.new).next ≡ (calls_of self.old).next }
        ensures link { link_in self.new ≡ link_in self.old }
        ensures faults { faults_of self.new ≡ faults_of self.old }
    {
        self.calls.fail_at(call)
    }
}

impl Link for FailLink {
    ghost use Rattle.load_base.specs.Failing.{CountsCall, IsSetToFail};
    ghost use Rattle.link_net.specs.FailLink.{calls_of, faults_of, link_in};

    ghost state = { link_in };

    ghost faults = { faults_of };

    fn post(&mut self, datagram: Datagram) -> Result<(), LinkFault>
        ensures ok { OnOk result
            (link_in self.new ≡ with_posted (link_in self.old) (datagram_view datagram)) }
        ensures err { OnErr result (link_in self.new ≡ link_in self.old) }
        ensures cause { HasLinkCause (faults_of self.old) (faults_of self.new) result }
        ensures fails { IsErrOf result LinkFault.Failed ↔ IsSetToFail (calls_of self.old) }
        ensures counts { CountsCall (calls_of self.old) (calls_of self.new) }
    {
        if self.calls.count_call() {
            self.faults.rise();
            return Err(LinkFault::Failed);
        }
        match self.inner.post(datagram) {
            Ok(()) => Ok(()),
            // A link that follows a script never fails.
            Err(_) => Err(LinkFault::Memory),
        }
    }

    fn next(&mut self, loader_waits: bool, target_waits: bool) -> Result<Happening, LinkFault>
        ensures ok { IfOk result (λ happening. LinkGives (link_in self.old) (link_in self.new)
            (scene_of (link_in self.old) loader_waits target_waits) (happening_view happening)) }
        ensures err { OnErr result (link_in self.new ≡ link_in self.old) }
        ensures cause { HasLinkCause (faults_of self.old) (faults_of self.new) result }
        ensures fails { IsErrOf result LinkFault.Failed ↔ IsSetToFail (calls_of self.old) }
        ensures counts { CountsCall (calls_of self.old) (calls_of self.new) }
    {
        if self.calls.count_call() {
            self.faults.rise();
            return Err(LinkFault::Failed);
        }
        match self.inner.next(loader_waits, target_waits) {
            Ok(happening) => Ok(happening),
            Err(_) => Err(LinkFault::Memory),
        }
    }
}
