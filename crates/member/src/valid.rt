// Members of which it is known what the questions ask.

ghost use Rattle.member.specs.Member.{beam_of, column_of, mesh_of};
ghost use Rattle.member.specs.Accepted.{BeamInRange, AcceptedBeam, AcceptedColumn, AcceptedMesh};
ghost use Rattle.std.proofs.Props.{props};
ghost use Rattle.bars.proofs.Facts.{groups_prop};
ghost use Rattle.member.specs.OneWay.{load_within_prop};

use crate::{Beam, Column, Mesh};

// A beam whose fields are in the ranges of question 7.
#[derive(Clone, Copy)]
pub struct RangedBeam {
    pub beam: Beam,
    pub ghost in_range: { BeamInRange (beam_of beam) } by { Prim.hlevel (props, groups_prop) },
}

// Members that passed every question.
#[derive(Clone, Copy)]
pub struct ValidBeam {
    pub beam: Beam,
    pub ghost accepted: { AcceptedBeam (beam_of beam) } by { Prim.hlevel (props, groups_prop, load_within_prop) },
}

#[derive(Clone, Copy)]
pub struct ValidColumn {
    pub column: Column,
    pub ghost accepted: { AcceptedColumn (column_of column) } by { Prim.hlevel (props, groups_prop) },
}

#[derive(Clone, Copy)]
pub struct ValidMesh {
    pub mesh: Mesh,
    pub ghost accepted: { AcceptedMesh (mesh_of mesh) },
}
