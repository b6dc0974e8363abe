// The governing search: the lowest printed figure of the modes that bind.
ghost use Rattle.std.specs.Prelude.{◌≡◌, ℕ, ◌+◌, ◌<◌, ◌≤◌, Option};
ghost use Rattle.joint.specs.Govern.{better, lowest, Governs, Found};
ghost use Rattle.joint.specs.Sheets.{governing_shear, governing_tying};

use crate::kind::Kind;
use crate::sheet::Governing;

// What governs after one mode more.
fn better_of(best: Option<Governing>, mode: u32, figure: Option<u64>) -> Option<Governing>
    ensures { result ≡ better best mode figure }
{
    let Some(figure) = figure else {
        return best;
    };
    match best {
        Some(lowest) if lowest.figure <= figure => best,
        _ => Some(Governing { mode, figure }),
    }
}

// What governs of the `count` modes from `first` on, if any binds.
fn lowest_of<K: Kind>(joint: &K, first: u32, count: u32) -> Option<Governing>
    requires { (1 ≤ first) × (first + count ≤ 1000) }
    ensures value { result ≡ lowest (K.printed joint.now) first count }
    ensures words { Found (K.printed joint.now) first count result }
{
    let mut best = None;
    for mode in first..first + count {
        best = better_of(best, mode, joint.figure(mode));
    }
    best
}

// The governing shear mode and its figure. There always is one, since mode 1 binds.
pub fn shear_governed<K: Kind>(joint: &K) -> Governing
    ensures value { result ≡ governing_shear K.Kind joint.now }
    ensures words { Governs (K.printed joint.now) 1 K.SHEAR_MODES result }
{
    lowest_of(joint, 1, K::SHEAR_MODES).unwrap()
}

// The governing tying mode and its figure, where a tying mode binds.
pub fn tying_governed<K: Kind>(joint: &K) -> Option<Governing>
    ensures value { result ≡ governing_tying K.Kind joint.now }
    ensures words { Found (K.printed joint.now) 21 K.TYING_MODES result }
{
    lowest_of(joint, 21, K::TYING_MODES)
}
