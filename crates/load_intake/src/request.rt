//! What an upload asks for.
ghost use Rattle.std.specs.Prelude.{◌≡◌, ◌<◌, ◌^◌, length, IfOk, Ok};
ghost use Rattle.load_protocol_files.specs.Lur.{lur_view};
ghost use Rattle.session_rules.specs.Uploads.{judge_request, request_read};
ghost use Rattle.load_intake.specs.Intakes.{AsksForSome, request_seen};

use load_base::{List, NoMemory};
use load_protocol_files::{FileFault, Lur, Wanted};
use session_files::FileBuffer;
use session_rules::RequestFault;
use std::alloc::Global;

/// What a file comes to that should ask for loads.
#[derive(Drop)]
pub enum Request {
    /// It asks for these, 1 to 32.
    Loads(List<Wanted>),
    /// It is refused (A11).
    Refused(RequestFault),
}

/// What the file that arrived asks for: it has at most 65,536 bytes, is an LUR (docs/FORMATS.md),
/// and asks for 1 to 32 loads, which are tested in this order.
#[tactic(auto, unfolding(session_rules::specs::Uploads::judge_request))]
pub fn read_request(alloc: Global, file: &FileBuffer) -> Result<Request, NoMemory>
    ensures judged { IfOk result (λ request. request_seen request ≡ judge_request file.now) }
    ensures count { IfOk result (λ request. AsksForSome request) }
{
    if file.is_too_long() {
        return Ok(Request::Refused(RequestFault::TooLong));
    }
    match Lur::decode(alloc, file.prefix()) {
        Ok(lur) => Ok(counted(lur)),
        Err(FileFault::Memory) => Err(NoMemory),
        Err(fault) => Ok(Request::Refused(RequestFault::Spelling(fault))),
    }
}

/// What a request is for that was read.
fn counted(lur: Lur) -> Request
    requires { length lur.loads.items < 2 ^ 16 }
    ensures read { request_seen result ≡ request_read (Ok (lur_view lur)) }
    ensures count { AsksForSome result }
{
    match lur.loads.len() {
        1..=32 => Request::Loads(lur.loads),
        count => Request::Refused(RequestFault::Loads(count as u16)),
    }
}
