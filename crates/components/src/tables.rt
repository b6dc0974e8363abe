// The tables of steels, bolts and bolt classes. A number that a table does not list stands for 0.
#![tactic(auto, using(crate::proofs::Listed::listed_bounds), unfolding(crate::specs::Tabled::steel_row, crate::specs::Tabled::size_row, crate::specs::Tabled::class_row, crate::specs::Tabled::fu, crate::specs::Tabled::weld_factor, crate::specs::Tabled::fub, crate::specs::Tabled::hole_of, crate::specs::Tabled::shank_of, crate::specs::Tabled::stress_of, crate::specs::Tabled::steel, crate::specs::Tabled::bolt_size, crate::specs::Tabled::bolt_class))]

ghost use Rattle.std.specs.Prelude.{◌≡◌, ◌≤◌};
ghost use Rattle.components.specs.Tabled.{steel_row, size_row, class_row, fu, weld_factor, hole_of, shank_of, stress_of, area_of, fub, shear_of, steel, bolt_size, bolt_class};

// A steel goes by its yield strength.
#[derive(Clone, Copy)]
pub(crate) struct Steel {
    // yield strength, N/mm²
    pub(crate) fy: u32,
    // ultimate strength, N/mm²
    pub(crate) fu: u32,
    // correlation factor of fillet welds, hundredths
    pub(crate) weld_factor: u32,
}

// A bolt goes by its nominal diameter.
#[derive(Clone, Copy)]
pub(crate) struct BoltSize {
    // nominal diameter, mm
    pub(crate) diameter: u32,
    // diameter of its hole, mm
    pub(crate) hole: u32,
    // gross area of the shank, mm²
    pub(crate) shank_area: u32,
    // tensile stress area, mm²
    pub(crate) stress_area: u32,
}

// A bolt class, as 88 for 8.8.
#[derive(Clone, Copy)]
pub(crate) struct BoltClass {
    pub(crate) grade: u32,
    // ultimate strength, N/mm²
    pub(crate) fub: u32,
}

const STEELS: [Steel; 5] = [
    Steel {
        fy: 235,
        fu: 360,
        weld_factor: 80,
    },
    Steel {
        fy: 275,
        fu: 430,
        weld_factor: 85,
    },
    Steel {
        fy: 355,
        fu: 510,
        weld_factor: 90,
    },
    Steel {
        fy: 420,
        fu: 520,
        weld_factor: 100,
    },
    Steel {
        fy: 460,
        fu: 540,
        weld_factor: 100,
    },
];

const BOLT_SIZES: [BoltSize; 9] = [
    BoltSize {
        diameter: 12,
        hole: 13,
        shank_area: 113,
        stress_area: 84,
    },
    BoltSize {
        diameter: 14,
        hole: 15,
        shank_area: 154,
        stress_area: 115,
    },
    BoltSize {
        diameter: 16,
        hole: 18,
        shank_area: 201,
        stress_area: 157,
    },
    BoltSize {
        diameter: 18,
        hole: 20,
        shank_area: 254,
        stress_area: 192,
    },
    BoltSize {
        diameter: 20,
        hole: 22,
        shank_area: 314,
        stress_area: 245,
    },
    BoltSize {
        diameter: 22,
        hole: 24,
        shank_area: 380,
        stress_area: 303,
    },
    BoltSize {
        diameter: 24,
        hole: 26,
        shank_area: 452,
        stress_area: 353,
    },
    BoltSize {
        diameter: 27,
        hole: 30,
        shank_area: 573,
        stress_area: 459,
    },
    BoltSize {
        diameter: 30,
        hole: 33,
        shank_area: 707,
        stress_area: 561,
    },
];

const BOLT_CLASSES: [BoltClass; 5] = [
    BoltClass {
        grade: 46,
        fub: 400,
    },
    BoltClass {
        grade: 56,
        fub: 500,
    },
    BoltClass {
        grade: 68,
        fub: 600,
    },
    BoltClass {
        grade: 88,
        fub: 800,
    },
    BoltClass {
        grade: 109,
        fub: 1000,
    },
];

fn listed_steel(fy: u32) -> Option<Steel>
    ensures { result ≡ steel_row fy }
{
    STEELS.iter().copied().find(|steel| steel.fy == fy)
}

fn listed_size(diameter: u32) -> Option<BoltSize>
    ensures { result ≡ size_row diameter }
{
    BOLT_SIZES
        .iter()
        .copied()
        .find(|size| size.diameter == diameter)
}

fn listed_class(grade: u32) -> Option<BoltClass>
    ensures { result ≡ class_row grade }
{
    BOLT_CLASSES
        .iter()
        .copied()
        .find(|class| class.grade == grade)
}

// The ultimate strength fu of a steel, N/mm².
pub fn ultimate_strength(steel: u32) -> u32
    ensures value { result ≡ fu steel }
    ensures bound { result ≤ 540 }
{
    listed_steel(steel).map_or(0, |row| row.fu)
}

// The correlation factor of fillet welds on a steel, hundredths.
pub fn weld_correlation(steel: u32) -> u32
    ensures value { result ≡ weld_factor steel }
    ensures bound { result ≤ 100 }
{
    listed_steel(steel).map_or(0, |row| row.weld_factor)
}

// The ultimate strength fub of a bolt class, N/mm².
pub fn bolt_strength(grade: u32) -> u32
    ensures value { result ≡ fub grade }
    ensures bound { result ≤ 1000 }
{
    listed_class(grade).map_or(0, |row| row.fub)
}

// The diameter of a bolt's hole, mm.
pub fn hole(bolt: u32) -> u32
    ensures value { result ≡ hole_of bolt }
    ensures bound { result ≤ 33 }
{
    listed_size(bolt).map_or(0, |row| row.hole)
}

// The gross area of a bolt's shank, mm².
pub fn shank_area(bolt: u32) -> u32
    ensures value { result ≡ shank_of bolt }
    ensures bound { result ≤ 707 }
{
    listed_size(bolt).map_or(0, |row| row.shank_area)
}

// The tensile stress area of a bolt, mm².
pub fn stress_area(bolt: u32) -> u32
    ensures value { result ≡ stress_of bolt }
    ensures bound { result ≤ 561 }
{
    listed_size(bolt).map_or(0, |row| row.stress_area)
}

// The area that a bolt is sheared on, mm²: the shank's for plane 0, otherwise the stress area.
pub fn shear_area(bolt: u32, plane: u32) -> u32
    ensures value { result ≡ area_of bolt plane }
    ensures bound { result ≤ 707 }
{
    if plane == 0 {
        shank_area(bolt)
    } else {
        stress_area(bolt)
    }
}

// The shear factor of a bolt, tenths: 5 for the classes 6.8 and 10.9 with the thread in the shear plane, otherwise 6.
pub fn shear_factor(grade: u32, plane: u32) -> u32
    ensures value { result ≡ shear_of grade plane }
    ensures bound { result ≤ 6 }
{
    if (grade == 68 || grade == 109) && plane == 1 {
        5
    } else {
        6
    }
}

// The table lists a steel.
pub fn is_steel(x: u32) -> bool
    ensures { result ≡ steel x }
{
    listed_steel(x).is_some()
}

// The table lists a bolt.
pub fn is_bolt(x: u32) -> bool
    ensures { result ≡ bolt_size x }
{
    listed_size(x).is_some()
}

// The table lists a bolt class.
pub fn is_class(x: u32) -> bool
    ensures { result ≡ bolt_class x }
{
    listed_class(x).is_some()
}
