// Shear and links of beams: the shear check, spacing of links, least links.
#![tactic(auto, using(crate::proofs::Bounds::sizes))]

ghost use Rattle.std.specs.Prelude.{◌≡◌, ◌≤◌, leb, if◌then◌else◌};
ghost use Rattle.quantity.specs.Unit.{newtons};
ghost use Rattle.web_crushing.specs.Exact.{WebHolds};
ghost use Rattle.shear.specs.ShearCheck.{ShearChecked};
ghost use Rattle.shear.specs.Steps.{concrete_part, clamped_ratio, concrete_under, concrete_shear, link_shear, shear_capacity, shear_above, link_spacing, links_suffice, least_links};

use code_tables::spacing_limit;
use member::Load;
use quantity::{Force, Length, clamped, div_down};
use section::ValidSection;
use web_crushing::web_holds;

// What the shear check comes to. A capacity is given only where 6.3.1v holds.
#[derive(Clone, Copy)]
pub enum ShearResult {
    // V is above what the web bears: 6.3.1v fails.
    AboveWebLimit,
    // V is above this capacity: 4.3.3 fails.
    AboveCapacity(Force),
    // V is within the limit of the web and this capacity.
    WithinBoth(Force),
}

// 7·ft·b·h0, in thousandths of N.
fn concrete_part(x: ValidSection) -> u64
    ensures { result ≡ concrete_part x.section }
{
    7 * x.section.concrete.ft.in_hundredths()
        * x.section.b.in_millimetres()
        * x.section.h0.in_millimetres()
}

// The shear span ratio a/h0 held to 1.5 to 3, times 2·h0.
fn clamped_ratio(x: ValidSection, a: Length) -> u64
    requires { a.0 ≤ 12000 }
    ensures { result ≡ clamped_ratio x.section a }
{
    let h0 = x.section.h0.in_millimetres();
    clamped(3 * h0, 6 * h0, 2 * a.in_millimetres())
}

// What the concrete carries of the shear of a point load.
#[tactic(auto, using(crate::proofs::Bounds::sizes, crate::proofs::Bounds::ratio_clamped))]
fn point_shear(x: ValidSection, a: Length) -> Force
    requires { a.0 ≤ 12000 }
    ensures { result ≡ newtons (concrete_under (Load.Point a) x.section) }
{
    let h0 = x.section.h0.in_millimetres();
    let ratio = clamped_ratio(x, a);
    let part = 175 * x.section.concrete.ft.in_hundredths() * x.section.b.in_millimetres() * h0;
    Force::of_newtons(div_down(part * (2 * h0), 10000 * (ratio + 2 * h0)))
}

// What the concrete carries of the shear.
#[tactic(auto, unfolding(crate::specs::Steps::concrete_shear))]
fn concrete_shear(x: ValidSection) -> Force
    ensures { result ≡ newtons (concrete_shear x.section) }
{
    match x.section.load {
        Load::Uniform => Force::of_newtons(div_down(concrete_part(x), 1000)),
        Load::Point(a) => point_shear(x, a),
    }
}

// What the links carry of the shear.
#[tactic(auto, using(crate::proofs::Bounds::sizes), unfolding(crate::specs::Steps::link_shear))]
fn link_shear(x: ValidSection) -> Force
    ensures { result ≡ newtons (link_shear x.section) }
{
    let force = x.section.fyv.in_units() * x.section.links;
    Force::of_newtons(div_down(
        force * x.section.h0.in_millimetres(),
        10 * x.section.s.in_millimetres(),
    ))
}

// The capacity of 4.3.3, where 6.3.1v holds.
#[tactic(auto, using(crate::proofs::Bounds::concrete_most, crate::proofs::Bounds::links_most), unfolding(crate::specs::Steps::shear_capacity))]
fn shear_capacity(x: ValidSection) -> Force
    requires { WebHolds x.section }
    ensures { result ≡ newtons (shear_capacity x.section) }
{
    concrete_shear(x) + link_shear(x)
}

// 4.3.3, by its capacity.
fn by_capacity(v: Force, capacity: Force) -> ShearResult
    ensures { result ≡ (if leb v.0 capacity.0 then ShearResult.WithinBoth capacity else ShearResult.AboveCapacity capacity) }
{
    if v <= capacity {
        ShearResult::WithinBoth(capacity)
    } else {
        ShearResult::AboveCapacity(capacity)
    }
}

// 6.3.1v, then 4.3.3.
pub fn check_shear(x: ValidSection) -> ShearResult
    ensures { ShearChecked x.section result }
{
    if web_holds(x) {
        by_capacity(x.section.v, shear_capacity(x))
    } else {
        ShearResult::AboveWebLimit
    }
}

// Whether the shear is above 0.7·ft·b·h0, the first case of table 5.5.6.
#[tactic(auto, unfolding(crate::specs::Steps::shear_above))]
fn shear_above(x: ValidSection) -> bool
    ensures { result ≡ shear_above x.section }
{
    concrete_part(x) < 1000 * x.section.v.in_newtons()
}

// 5.5.6s.
#[tactic(auto, unfolding(crate::specs::Steps::link_spacing))]
pub fn link_spacing(x: ValidSection) -> bool
    ensures { result ≡ link_spacing x.section }
{
    x.section.s <= spacing_limit(x.section.h, shear_above(x))
}

// 1000·L·fyv ≥ 24·ft·b·s.
fn links_suffice(x: ValidSection) -> bool
    ensures { result ≡ links_suffice x.section }
{
    let concrete = 24 * x.section.concrete.ft.in_hundredths() * x.section.b.in_millimetres();
    concrete * x.section.s.in_millimetres() <= 1000 * x.section.links * x.section.fyv.in_units()
}

// 5.5.6r.
#[tactic(auto, unfolding(crate::specs::Steps::least_links))]
pub fn least_links(x: ValidSection) -> bool
    ensures { result ≡ least_links x.section }
{
    !shear_above(x) || links_suffice(x)
}
