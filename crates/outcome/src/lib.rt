// What the checks of a member come to: the first failed check or OK, and up to four figures.
#![tactic(auto)]

ghost use Rattle.std.specs.Prelude.{◌≡◌};
ghost use Rattle.outcome.specs.Outcome.{no_figure, one_figure, two_figures, three_figures, four_figures};

#[derive(Clone, Copy)]
pub enum Check {
    // Every check holds: `OK`.
    Passed,
    // 6.3.1: least steel of a beam.
    LeastSteel,
    // 4.2.2-3: depth of the compression zone.
    CompressionDepth,
    // 4.2.2: bending, the compression steel yields (x ≥ 2a').
    Bending,
    // 4.2.3: bending by the couple of tension and compression steel (x < 2a').
    CoupleBending,
    // 6.3.1v: crushing of the web (GB 50010, 6.3.1).
    WebCrushing,
    // 4.3.3: shear.
    Shear,
    // 5.5.6s: spacing of links in a beam.
    LinkSpacing,
    // 5.5.6r: least links.
    LeastLinks,
    // 4.4.1: steel stress in service.
    ServiceStress,
    // 4.4.2: crack width.
    CrackWidth,
    // 4.5.1: deflection.
    Deflection,
    // 5.6.1: most steel of a column.
    MostSteel,
    // 5.6.2: links of a column.
    ColumnLinks,
    // 4.2.4s: slenderness of a column.
    Slenderness,
    // 4.2.4: axial force.
    AxialForce,
    // 5.2.5: anchorage of a mesh.
    Anchorage,
    // 5.3.7: lap of a mesh.
    Lap,
}

// The check, and the figures of the line: none where a figure's check was not reached.
// Beams: moment (N·m), shear (N), width (0.001 mm), deflection (0.01 mm); columns: axial force (N); meshes: anchorage, lap (mm).
#[derive(Clone, Copy)]
pub struct Outcome {
    pub check: Check,
    pub first: Option<u64>,
    pub second: Option<u64>,
    pub third: Option<u64>,
    pub fourth: Option<u64>,
}

// An outcome by its check and the figures that were reached: none, the first, the first two, three or all four.
pub fn no_figure(check: Check) -> Outcome
    ensures { result ≡ no_figure check }
{
    Outcome {
        check,
        first: None,
        second: None,
        third: None,
        fourth: None,
    }
}

pub fn one_figure(check: Check, first: u64) -> Outcome
    ensures { result ≡ one_figure check first }
{
    Outcome {
        first: Some(first),
        ..no_figure(check)
    }
}

pub fn two_figures(check: Check, first: u64, second: u64) -> Outcome
    ensures { result ≡ two_figures check first second }
{
    Outcome {
        second: Some(second),
        ..one_figure(check, first)
    }
}

pub fn three_figures(check: Check, first: u64, second: u64, third: u64) -> Outcome
    ensures { result ≡ three_figures check first second third }
{
    Outcome {
        third: Some(third),
        ..two_figures(check, first, second)
    }
}

pub fn four_figures(check: Check, first: u64, second: u64, third: u64, fourth: u64) -> Outcome
    ensures { result ≡ four_figures check first second third fourth }
{
    Outcome {
        fourth: Some(fourth),
        ..three_figures(check, first, second, third)
    }
}
