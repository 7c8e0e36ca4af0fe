// The stability factor φ of an axially loaded column, 4.2.4: straight between the points of the table.
#![tactic(auto)]

ghost use Rattle.std.specs.Prelude.{◌≡◌, ◌*◌, ◌≤◌, ◌<◌};
ghost use Rattle.stability.specs.Steps.{interval, interpolated, stability};

use code_tables::point_at;
use quantity::div_down;

// The interval of table 4.2.4 that l0/b lies in.
#[tactic(auto, unfolding(crate::specs::Steps::interval))]
fn interval_of(span: u64, b: u64) -> u32
    requires { (0 < b) × (b ≤ 1500) × (8 * b ≤ span) }
    ensures { result ≡ interval span b }
{
    div_down(span - 8 * b, 2 * b).min(20) as u32
}

// φ between the points of interval i, where 200·b stands for 1.
#[tactic(auto, unfolding(crate::specs::Steps::interpolated))]
fn interpolate(i: u32, span: u64, b: u64) -> u64
    requires { (0 < b) × (b ≤ 1500) × (8 * b ≤ span) × (span ≤ 50 * b) × (i ≡ interval span b) }
    ensures { result ≡ interpolated i span b }
{
    let p = point_at(i) as u64;
    let q = point_at(i + 1) as u64;
    let start = (8 + 2 * i as u64) * b;
    p * (2 * b) - (p - q) * (span - start)
}

// φ, where 200·b stands for 1.
#[tactic(auto, unfolding(crate::specs::Steps::stability))]
pub fn stability_of(span: u64, b: u64) -> u64
    requires { (0 < b) × (b ≤ 1500) × (span ≤ 50 * b) }
    ensures { result ≡ stability span b }
{
    if span <= 8 * b {
        200 * b
    } else {
        interpolate(interval_of(span, b), span, b)
    }
}
