//! How an upload stands, as the target tells it in upload status files.
ghost use Rattle.std.specs.Prelude.{◌≡◌, ◌++◌, ◌≤◌, length, map, IfOk, OnOk};
ghost use Rattle.std.specs.List.{All};
ghost use Rattle.load_base.specs.Host.{longest_file};
ghost use Rattle.load_protocol_files.specs.Lus.{lus_fields};
ghost use Rattle.session_rules.specs.Reports.{completed_lus as completed_bytes, file_of};
ghost use Rattle.session_rules.specs.Reports.{load_status as status_of, load_statuses};
ghost use Rattle.session_rules.specs.Reports.{lus_view_of, progress_lus as progress_bytes};
ghost use Rattle.session_rules.specs.Reports.{ratio_of, ready_lus as ready_bytes};
ghost use Rattle.session_rules.specs.Reports.{stopped_lus as stopped_bytes};

use crate::reason::reason_text;
use load_base::{Bytes, List, NoMemory, Text};
use load_protocol_files::{LoadStatus, Lus, Wanted};
use session_rules::Reason;
use std::alloc::Global;

/// The statuses of protocol files (docs/FORMATS.md, "Protocol files").
pub(crate) const ACCEPTED: u16 = 0x0001;

pub(crate) const IN_PROGRESS: u16 = 0x0002;

const COMPLETED: u16 = 0x0003;

pub(crate) const DENIED: u16 = 0x1000;

const STOPPED: u16 = 0x1003;

/// The LUS by which a target asks for the request of an upload.
#[tactic(auto, unfolding(session_rules::specs::Reports::ready_lus))]
pub fn ready_lus(alloc: Global) -> Result<Bytes, NoMemory>
    ensures is { IfOk result (λ bytes. bytes.items ≡ ready_bytes) }
    ensures short { IfOk result (λ bytes. length bytes.items ≤ longest_file) }
{
    let text = Text::empty(alloc);
    lus_file(alloc, ACCEPTED, text, 1, 0, List::new(alloc))
}

/// The LUS with this counter while an upload is in progress: the first `arrived` loads of the
/// request are whole.
#[tactic(auto, unfolding(session_rules::specs::Reports::progress_lus))]
pub fn progress_lus(
    alloc: Global,
    request: &[Wanted],
    arrived: usize,
    counter: u16,
) -> Result<Bytes, NoMemory>
    requires few { length request.now ≤ 32 }
    requires arrived { arrived ≤ length request.now }
    ensures is { IfOk result (λ bytes.
        bytes.items ≡ progress_bytes request.now arrived counter) }
    ensures short { IfOk result (λ bytes. length bytes.items ≤ longest_file) }
{
    let loads = statuses(alloc, request, arrived, IN_PROGRESS, ACCEPTED)?;
    let ratio = ratio(arrived, request.len());
    lus_file(
        alloc,
        IN_PROGRESS,
        Text::empty(alloc),
        counter,
        ratio,
        loads,
    )
}

/// The LUS with this counter after an upload: all loads of the request are installed.
#[tactic(auto, unfolding(session_rules::specs::Reports::completed_lus))]
pub fn completed_lus(alloc: Global, request: &[Wanted], counter: u16) -> Result<Bytes, NoMemory>
    requires { length request.now ≤ 32 }
    ensures is { IfOk result (λ bytes. bytes.items ≡ completed_bytes request.now counter) }
    ensures short { IfOk result (λ bytes. length bytes.items ≤ longest_file) }
{
    let loads = statuses(alloc, request, request.len(), COMPLETED, COMPLETED)?;
    lus_file(alloc, COMPLETED, Text::empty(alloc), counter, 100, loads)
}

/// The LUS with this counter where an upload was stopped for this reason: the first `arrived` loads
/// of the request had come whole.
#[tactic(auto, unfolding(session_rules::specs::Reports::stopped_lus))]
pub fn stopped_lus(
    alloc: Global,
    request: &[Wanted],
    arrived: usize,
    counter: u16,
    reason: &Reason,
) -> Result<Bytes, NoMemory>
    requires few { length request.now ≤ 32 }
    requires arrived { arrived ≤ length request.now }
    ensures is { IfOk result (λ bytes.
        bytes.items ≡ stopped_bytes request.now arrived counter reason.now) }
    ensures short { IfOk result (λ bytes. length bytes.items ≤ longest_file) }
{
    let text = reason_text(alloc, reason)?;
    let loads = statuses(alloc, request, arrived, STOPPED, STOPPED)?;
    let ratio = ratio(arrived, request.len());
    lus_file(alloc, STOPPED, text, counter, ratio, loads)
}

/// How much of these loads has arrived, of 100.
#[tactic(auto, using(crate::proofs::Ratios::none_of_none, crate::proofs::Ratios::some_of_some, crate::proofs::Ratios::at_most_all))]
fn ratio(arrived: usize, loads: usize) -> u8
    requires few { loads ≤ 32 }
    requires arrived { arrived ≤ loads }
    ensures is { result ≡ ratio_of arrived loads }
    ensures all { result ≤ 100 }
{
    if loads == 0 {
        return 0;
    }
    (100 * arrived / loads) as u8
}

/// The first loads have arrived, as many as `arrived`, and have one status; the others have
/// another.
fn statuses(
    alloc: Global,
    request: &[Wanted],
    arrived: usize,
    status: u16,
    other: u16,
) -> Result<List<LoadStatus>, NoMemory>
    requires { arrived ≤ length request.now }
    ensures is { IfOk result (λ loads.
        loads.items ≡ load_statuses arrived status other request.now) }
    ensures ratios { IfOk result (λ loads. All (λ load. load.ratio ≤ 100) loads.items) }
    ensures count { IfOk result (λ loads. length loads.items ≡ length request.now) }
{
    let mut loads = List::new(alloc);
    push_statuses(alloc, &mut loads, &request[..arrived], 100, status)?;
    push_statuses(alloc, &mut loads, &request[arrived..], 0, other)?;
    Ok(loads)
}

fn push_statuses(
    alloc: Global,
    out: &mut List<LoadStatus>,
    loads: &[Wanted],
    ratio: u8,
    status: u16,
) -> Result<(), NoMemory>
    ensures { OnOk result
        (out.new.items ≡ out.old.items ++ map (status_of ratio status) loads.now) }
{
    for load in loads {
        out.push(LoadStatus {
            header: load.header,
            part: load.part,
            ratio,
            status,
            description: Text::empty(alloc),
        })?;
    }
    Ok(())
}

/// An LUS without timers.
fn lus_file(
    alloc: Global,
    status: u16,
    description: Text,
    counter: u16,
    ratio: u8,
    loads: List<LoadStatus>,
) -> Result<Bytes, NoMemory>
    requires ratio { ratio ≤ 100 }
    requires ratios { All (λ load. load.ratio ≤ 100) loads.items }
    requires few { length loads.items ≤ 32 }
    ensures is { IfOk result (λ bytes. bytes.items
        ≡ file_of (lus_fields (lus_view_of status description counter ratio loads.items))) }
    ensures short { IfOk result (λ bytes. length bytes.items ≤ longest_file) }
{
    let file = Lus {
        status,
        description,
        counter,
        exception: 0,
        estimated: 0,
        ratio,
        loads,
    };
    file.encode(alloc)
}
