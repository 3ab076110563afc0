//! How the manifests begin that a store writes, which have layout 2.
ghost use Rattle.std.specs.Prelude.{◌≡◌};
ghost use Rattle.bank_store.specs.Store.{head_bytes};

use disk_layout::numbers::u16_bytes;
use disk_layout::offsets::LAYOUT_MARK;

/// The mark of the layout, and this number of loads.
#[tactic(auto, unfolding(field_grammar::specs::Fields::number_bytes))]
pub(crate) fn head_of(loads: u16) -> [u8; 4]
    ensures { result ≡ head_bytes loads }
{
    let [mark_high, mark_low] = u16_bytes(LAYOUT_MARK);
    let [high, low] = u16_bytes(loads);
    [mark_high, mark_low, high, low]
}
