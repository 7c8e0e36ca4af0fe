// The tables of the codes besides materials: bars, slenderness, mesh, spacing of links.
#![tactic(auto)]

ghost use Rattle.std.specs.Prelude.{◌≡◌, true, ◌≤◌};
ghost use Rattle.quantity.specs.Unit.{millimetres};
ghost use Rattle.table.specs.Table.{listed};
ghost use Rattle.code_tables.specs.Bars.{bars, area_of};
ghost use Rattle.code_tables.specs.Slenderness.{point};
ghost use Rattle.code_tables.specs.Mesh.{multiple};
ghost use Rattle.code_tables.specs.Spacing.{by_height, spacing_limit};

use quantity::Length;

// Whether there is a bar of this diameter.
fn is_diameter(diameter: u32) -> bool
    ensures { result ≡ listed diameter bars }
{
    matches!(
        diameter,
        5 | 6 | 8 | 10 | 12 | 14 | 16 | 18 | 20 | 22 | 25 | 28 | 32 | 36 | 40 | 50
    )
}

// The area of a bar of the table, in tenths of mm²: 0.7854·d² rounded.
pub fn bar_area(diameter: u32) -> u32
    requires { listed diameter bars ≡ true }
    ensures { result ≡ area_of diameter }
{
    (7854 * diameter * diameter + 500) / 1000
}

// The same; 0 where there is no such bar.
#[tactic(auto, using(crate::proofs::Bars::unlisted_area))]
pub fn area_of(diameter: u32) -> u32
    ensures { result ≡ area_of diameter }
{
    if is_diameter(diameter) {
        bar_area(diameter)
    } else {
        0
    }
}

// The stability factor at the slenderness 8, 10, 12 .. 50, in hundredths.
static POINTS: [u32; 22] = [
    100, 98, 95, 92, 87, 81, 75, 70, 65, 60, 56, 52, 48, 44, 40, 36, 32, 29, 26, 23, 21, 19,
];

// The stability factor at the slenderness 8 + 2·i, in hundredths; 0 past the table.
#[tactic(auto, unfolding(crate::specs::Slenderness::point))]
pub fn point_at(i: u32) -> u32
    ensures { result ≡ point i }
{
    POINTS.get(i as usize).copied().unwrap_or(0)
}

// The multiples by family, without cross bar and with, at C20, C25, C30, C35, C40 and above.
static MULTIPLES: [[u32; 5]; 4] = [
    [45, 40, 35, 32, 30],
    [32, 28, 25, 22, 21],
    [55, 48, 43, 39, 36],
    [39, 34, 30, 27, 25],
];

// The anchorage of a mesh as a multiple of the diameter.
#[tactic(auto, unfolding(crate::specs::Mesh::multiple))]
pub fn multiple_of(family: u32, cross: u32, grade: u32) -> u32
    requires { (1 ≤ family) × (family ≤ 2) × (cross ≤ 1) }
    ensures { result ≡ multiple family cross grade }
{
    let row = 2 * (family - 1) + cross;
    let column = grade.min(40).saturating_sub(20) / 5;
    MULTIPLES[row as usize][column as usize]
}

fn by_height(h: u64, a: u64, b: u64, c: u64, d: u64) -> u64
    ensures { result ≡ by_height h a b c d }
{
    match h {
        0..=300 => a,
        301..=500 => b,
        501..=800 => c,
        _ => d,
    }
}

// The largest spacing of links in a beam of height h; `above` where the shear is above 0.7·ft·b·h0.
#[tactic(auto, unfolding(crate::specs::Spacing::spacing_limit))]
pub fn spacing_limit(h: Length, above: bool) -> Length
    ensures { result ≡ millimetres (spacing_limit h.0 above) }
{
    let mm = h.in_millimetres();
    if above {
        Length::of_millimetres(by_height(mm, 150, 200, 250, 300))
    } else {
        Length::of_millimetres(by_height(mm, 200, 300, 350, 400))
    }
}
