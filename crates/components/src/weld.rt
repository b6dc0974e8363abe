// The fillet weld of a part.
ghost use Rattle.std.specs.Prelude.{◌≡◌};
ghost use Rattle.components.specs.Welds.{full_strength};

use crate::tables::{ultimate_strength, weld_correlation};

// A weld of this throat is as strong as a part of this thickness (tenths of a mm) and steel: 40000·a²·fu² > 3·t²·b²·fy².
pub fn is_full_strength(throat: u32, thickness: u32, steel: u32) -> bool
    ensures { result ≡ full_strength throat thickness steel }
{
    let weld = 200 * throat as u128 * ultimate_strength(steel) as u128;
    let part = thickness as u128 * (weld_correlation(steel) as u64 * steel as u64) as u128;
    3 * part * part < weld * weld
}
