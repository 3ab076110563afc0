//! What a happening brings to the loader.
ghost use Rattle.std.specs.Prelude.{IfOk};
ghost use Rattle.exchange_trace.specs.declared.trace.Side.TheVariants as sides;
ghost use Rattle.exchange_trace.specs.Happenings.{happening_view};
ghost use Rattle.exchange_trace.specs.Logs.{Gets, event_for};
ghost use Rattle.loader_machine.specs.Machine.{LoaderTakesEvent};
ghost use Rattle.exchange_trace.specs.Posts.{posted_in};
ghost use Rattle.transfer_end.specs.Calls.{posts_view};
ghost use Rattle.replay_turns.specs.Turns.{LoaderTakes};

use crate::recording::Recording;
use exchange_trace::{Datagram, Happening, Side};
use load_base::NoMemory;
use loader_machine::{Loader, Posts};

/// The loader takes what this happening brings to it, where this was recorded before.
pub(crate) fn loader_takes(
    loader: &mut Loader<'_>,
    recording: &Recording,
    happening: &Happening,
) -> Result<Posts, NoMemory>
    ensures { IfOk result (λ posts. LoaderTakes
        (event_for sides.Loader (posted_in recording.now) (happening_view happening.now))
        loader.old loader.new (posts_view posts)) }
{
    match happening {
        Happening::ToLoader(number) => match recording.datagram(*number) {
            Some(datagram) => loader_gets(loader, datagram),
            None => Ok(Posts::none()),
        },
        Happening::Injected(datagram) => match datagram.from_side {
            Side::Target => loader_gets(loader, datagram),
            Side::Loader => Ok(Posts::none()),
        },
        Happening::TickLoader => loader.on_tick(),
        Happening::BlockSize(size) => {
            loader.ask_blocks(*size);
            Ok(Posts::none())
        }
        Happening::StartInfo { hw, pos } => loader.start_info(*hw, *pos),
        Happening::StartUpload { hw, pos, parts } => loader.start_upload(
            *hw,
            *pos,
            parts.as_slice(),
        ),
        Happening::ToTarget(_) | Happening::Lost(_) | Happening::TickTarget => Ok(Posts::none()),
        Happening::Power { .. } | Happening::Boot | Happening::End => Ok(Posts::none()),
    }
}

fn loader_gets(loader: &mut Loader<'_>, datagram: &Datagram) -> Result<Posts, NoMemory>
    ensures { IfOk result (λ posts. LoaderTakesEvent
        (Gets datagram.now.from datagram.now.to datagram.now.bytes.items)
        loader.old loader.new (posts_view posts)) }
{
    loader.on_datagram(datagram.from, datagram.to, datagram.bytes.as_slice())
}
