// Groups of bars: their number, area and diameters summed.
#![tactic(auto)]

ghost use Rattle.std.specs.Prelude.{◌≡◌};
ghost use Rattle.bars.specs.Sums.{bar_count, area, group_area, group_diameters, group_squares, added, TotalsFit, TotalsOf};
ghost use Rattle.bars.specs.Accepted.{AcceptedGroup, AcceptedGroups};
ghost use Rattle.bars.specs.Listed.{groups_in};

use code_tables::bar_area;

// Bars of one diameter (mm).
#[repr(C)]
#[derive(Clone, Copy)]
pub struct Group {
    pub diameter: u32,
    pub bars: u32,
}

// Groups of bars: the first `count` of the list are there, all four where it is above 4.
#[derive(Clone, Copy)]
pub struct Groups {
    pub list: [Group; 4],
    pub count: usize,
}

// Over groups of bars: their number, their area (tenths of mm²), n·d, n·d², and the largest and the smallest diameter.
#[derive(Clone, Copy)]
pub struct Totals {
    pub bars: u64,
    pub area: u64,
    pub diameters: u64,
    pub squares: u64,
    pub largest: u64,
    pub smallest: u64,
}

impl Group {
    #[tactic(auto, using(code_tables::proofs::Bars::area_listed), unfolding(crate::specs::Sums::group_area))]
    fn area(self) -> u64
        requires { AcceptedGroup self }
        ensures { result ≡ group_area self }
    {
        self.bars as u64 * bar_area(self.diameter) as u64
    }

    #[tactic(auto, unfolding(crate::specs::Sums::group_diameters))]
    fn diameters(self) -> u64
        ensures { result ≡ group_diameters self }
    {
        self.bars as u64 * self.diameter as u64
    }

    #[tactic(auto, unfolding(crate::specs::Sums::group_squares))]
    fn squares(self) -> u64
        requires { AcceptedGroup self }
        ensures { result ≡ group_squares self }
    {
        self.bars as u64 * (self.diameter as u64 * self.diameter as u64)
    }
}

impl Totals {
    // The totals with one group more.
    #[tactic(auto, using(crate::proofs::Sums::area_by_bars, crate::proofs::Sums::diameters_by_bars, crate::proofs::Sums::squares_by_diameters))]
    fn with_group(self, g: Group) -> Totals
        requires { TotalsFit self × AcceptedGroup g }
        ensures { result ≡ added self g }
    {
        Totals {
            bars: self.bars + g.bars as u64,
            area: self.area + g.area(),
            diameters: self.diameters + g.diameters(),
            squares: self.squares + g.squares(),
            largest: self.largest.max(g.diameter as u64),
            smallest: self.smallest.min(g.diameter as u64),
        }
    }
}

impl Groups {
    // The groups that are there.
    pub fn items(&self) -> &[Group]
        ensures { result.now ≡ groups_in self.now }
    {
        &self.list[..self.count.min(4)]
    }

    pub fn totals(&self) -> Totals
        requires { AcceptedGroups (groups_in self.now) }
        ensures { TotalsOf (groups_in self.now) result }
    {
        let mut t = Totals {
            bars: 0,
            area: 0,
            diameters: 0,
            squares: 0,
            largest: 0,
            smallest: 50,
        };
        for g in self.items() {
            t = t.with_group(*g);
        }
        t
    }

    // The number of bars.
    pub fn bar_count(&self) -> u64
        requires { AcceptedGroups (groups_in self.now) }
        ensures { result ≡ bar_count (groups_in self.now) }
    {
        self.totals().bars
    }

    // S or S', in tenths of mm².
    pub fn steel_area(&self) -> u64
        requires { AcceptedGroups (groups_in self.now) }
        ensures { result ≡ area (groups_in self.now) }
    {
        self.totals().area
    }
}
