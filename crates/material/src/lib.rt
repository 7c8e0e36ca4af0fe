// Concrete and steel of the codes: their tables, and what the checks use of them.
#![tactic(auto)]

ghost use Rattle.std.specs.Prelude.{◌≡◌};
ghost use Rattle.quantity.specs.Unit.{stress_of, stress_of_tenths, stress_of_hundredths};
ghost use Rattle.table.specs.Table.{place, listed};
ghost use Rattle.material.specs.Concrete.{concretes, concrete_of};
ghost use Rattle.material.specs.Steel.{steels, steel_of, link_steels, fyv_of};

use quantity::Stress;

// What the checks use of a concrete: the strengths fc, ft and ftk, and the modulus Ec.
#[derive(Clone, Copy)]
pub struct Concrete {
    pub fc: Stress,
    pub ft: Stress,
    pub ftk: Stress,
    pub ec: Stress,
}

// What the checks use of the bars' steel: fyk, fy, fy' (fyc), fy' under axial load, and the depth limit e up to C50, in hundredths.
#[derive(Clone, Copy)]
pub struct Steel {
    pub fyk: Stress,
    pub fy: Stress,
    pub fyc: Stress,
    pub axial: Stress,
    pub depthLimit: u32,
}

// Whether there is such a grade of concrete.
pub fn is_grade(grade: u32) -> bool
    ensures { result ≡ listed grade concretes }
{
    matches!(
        grade,
        20 | 25 | 30 | 35 | 40 | 45 | 50 | 55 | 60 | 65 | 70 | 75 | 80
    )
}

// A concrete from its fc in tenths of N/mm², ft and ftk in hundredths, and Ec.
fn concrete_row(fc: u32, ft: u32, ftk: u32, ec: u32) -> Concrete
    ensures { result ≡ record { fc = stress_of_tenths fc; ft = stress_of_hundredths ft; ftk = stress_of_hundredths ftk; ec = stress_of ec } }
{
    Concrete {
        fc: Stress::of_tenths(fc),
        ft: Stress::of_hundredths(ft),
        ftk: Stress::of_hundredths(ftk),
        ec: Stress::of_units(ec),
    }
}

// Grade, fc in tenths of N/mm², ft and ftk in hundredths, Ec.
// One more grade: a row here and in specs/Concrete.antt; the grade in is_grade, the number of rows in grade_row.
static CONCRETES: [[u32; 5]; 13] = [
    [20, 96, 110, 154, 25500],
    [25, 119, 127, 178, 28000],
    [30, 143, 143, 201, 30000],
    [35, 167, 157, 220, 31500],
    [40, 191, 171, 239, 32500],
    [45, 211, 180, 251, 33500],
    [50, 231, 189, 264, 34500],
    [55, 253, 196, 274, 35500],
    [60, 275, 204, 285, 36000],
    [65, 297, 209, 293, 36500],
    [70, 318, 214, 299, 37000],
    [75, 338, 218, 305, 37500],
    [80, 359, 222, 311, 38000],
];

// The row of a grade in the table, and the number of rows where there is no such grade.
fn grade_row(grade: u32) -> usize
    ensures { result ≡ place grade concretes }
{
    if is_grade(grade) {
        ((grade - 20) / 5) as usize
    } else {
        13
    }
}

#[tactic(auto, unfolding(crate::specs::Concrete::concrete_of))]
pub fn concrete_of(grade: u32) -> Concrete
    ensures { result ≡ concrete_of grade }
{
    match CONCRETES.get(grade_row(grade)) {
        Some([_, fc, ft, ftk, ec]) => concrete_row(*fc, *ft, *ftk, *ec),
        None => concrete_row(0, 0, 0, 0),
    }
}

// Whether there is such a steel of bars.
pub fn is_steel(code: u32) -> bool
    ensures { result ≡ listed code steels }
{
    matches!(code, 1 | 2)
}

// A steel from its strengths in N/mm² and its depth limit.
fn steel_row(fyk: u32, fy: u32, fyc: u32, axial: u32, depthLimit: u32) -> Steel
    ensures { result ≡ record { fyk = stress_of fyk; fy = stress_of fy; fyc = stress_of fyc; axial = stress_of axial; depthLimit = depthLimit } }
{
    Steel {
        fyk: Stress::of_units(fyk),
        fy: Stress::of_units(fy),
        fyc: Stress::of_units(fyc),
        axial: Stress::of_units(axial),
        depthLimit,
    }
}

#[tactic(auto, unfolding(crate::specs::Steel::steel_of))]
pub fn steel_of(code: u32) -> Steel
    ensures { result ≡ steel_of code }
{
    match code {
        1 => steel_row(400, 360, 360, 360, 52),
        2 => steel_row(500, 435, 435, 400, 48),
        _ => steel_row(0, 0, 0, 0, 0),
    }
}

// Whether there is such a steel of links.
pub fn is_link_steel(code: u32) -> bool
    ensures { result ≡ listed code link_steels }
{
    matches!(code, 1 | 2)
}

// The strength of the links' steel.
#[tactic(auto, unfolding(crate::specs::Steel::fyv_of))]
pub fn fyv_of(code: u32) -> Stress
    ensures { result ≡ fyv_of code }
{
    match code {
        1 => Stress::of_units(270),
        2 => Stress::of_units(360),
        _ => Stress::of_units(0),
    }
}
