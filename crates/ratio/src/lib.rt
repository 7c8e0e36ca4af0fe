// One utilization as a double, and the record of a member's four.
#![tactic(auto)]

ghost use Rattle.std.specs.Prelude.{◌≡◌, ◌<◌, ◌^◌};
ghost use Rattle.ratio.specs.Ratio.{quotient, as_ratio, ratio, over_figure, over_limit, four_ratios, ExactFigure};

// Beams: moment, shear, width, deflection; columns: axial force; meshes: anchorage, lap. A value is 0.0 where its mark is false.
#[repr(C)]
#[derive(Clone, Copy)]
pub struct Utilization {
    pub first: f64,
    pub second: f64,
    pub third: f64,
    pub fourth: f64,
    pub firstReached: bool,
    pub secondReached: bool,
    pub thirdReached: bool,
    pub fourthReached: bool,
}

// Whole numbers below 2^53: the casts lose nothing, and the one division rounds.
fn divided(a: u64, b: u64) -> f64
    requires { (a < 2 ^ 53) × (b < 2 ^ 53) }
    ensures { result ≡ quotient a b }
{
    (a as f64) / (b as f64)
}

// a over b, none where b is 0.
#[tactic(auto, unfolding(crate::specs::Ratio::ratio))]
fn ratio_of(a: u64, b: u64) -> Option<f64>
    requires { (a < 2 ^ 53) × (b < 2 ^ 53) }
    ensures { as_ratio result ≡ ratio quotient a b }
{
    if b == 0 { None } else { Some(divided(a, b)) }
}

// A capacity's: demand over figure; none where the figure was not reached.
#[tactic(auto, unfolding(crate::specs::Ratio::over_figure))]
pub fn over_figure(demand: u64, f: Option<u64>) -> Option<f64>
    requires { (demand < 2 ^ 53) × (ExactFigure f) }
    ensures { as_ratio result ≡ over_figure quotient demand f }
{
    ratio_of(demand, f?)
}

// Of a width, a deflection or a length: figure over limit; none where the figure was not reached.
#[tactic(auto, unfolding(crate::specs::Ratio::over_limit))]
pub fn over_limit(f: Option<u64>, limit: u64) -> Option<f64>
    requires { (ExactFigure f) × (limit < 2 ^ 53) }
    ensures { as_ratio result ≡ over_limit quotient f limit }
{
    ratio_of(f?, limit)
}

// The record for callers in C: 0.0 and a false mark where there is none.
pub fn together(a: Option<f64>, b: Option<f64>, c: Option<f64>, d: Option<f64>) -> Utilization
    ensures { result ≡ four_ratios (as_ratio a) (as_ratio b) (as_ratio c) (as_ratio d) }
{
    Utilization {
        first: a.unwrap_or(0.0),
        second: b.unwrap_or(0.0),
        third: c.unwrap_or(0.0),
        fourth: d.unwrap_or(0.0),
        firstReached: a.is_some(),
        secondReached: b.is_some(),
        thirdReached: c.is_some(),
        fourthReached: d.is_some(),
    }
}
